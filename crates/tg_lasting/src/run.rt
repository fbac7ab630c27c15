//! A script on a kept store, part after part.
ghost use Rattle.std.specs.Prelude.{OnOk};
ghost use Rattle.tg_lasting.specs.Answering.{IsReadyScript, RunsKept};

use crate::chunk::next_chunk;
use crate::fault::KeptFault;
use crate::part::{KeptMeans, KeptScript, serve_part};
use sqlite_disk::Disk;
use std::io::BufRead;
use tg_payload::Payload;
use tg_script::{Collector, Sink, Watch};

/// Answers the reader's script part after part, to its end or to the first fault. The first part has the line that was
/// read before, if there is one, and no other.
pub(crate) fn run_parts<D: Disk, P: Payload, C: Collector, R: BufRead, K: Sink, W: Watch>(
    means: KeptMeans<C>,
    on: &mut KeptScript<D, P>,
    reader: &mut R,
    sink: &mut K,
    watch: &mut W,
) -> Result<(), KeptFault>
    requires ready { C.Ready }
    requires script { IsReadyScript D.Disk on.old }
    ensures ran { RunsKept D.Disk K.taken W.refused (R.remaining reader.old) sink.old sink.new watch.old watch.new on.old on.new result }
    ensures script { OnOk result (IsReadyScript D.Disk on.new) }
{
    let mut chunk = Vec::new(means.alloc);
    let mut is_last = false;
    'parts: loop {
        serve_part(means, on, &chunk, sink, watch)?;
        if is_last {
            return Ok(());
        }
        match next_chunk(reader, &mut chunk) {
            Ok(last) => is_last = last,
            Err(fault) => return Err(KeptFault::Script(fault)),
        }
    }
}
