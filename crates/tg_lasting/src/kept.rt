//! A script on a kept store, from its file to its mark.
ghost use Rattle.tg_script.specs.Parts.{IsWaiting};
ghost use Rattle.tg_lasting.specs.Answering.{ClosesKept, EndsFrom, IsReadyScript};

use crate::fault::KeptFault;
use crate::part::{KeptMeans, KeptScript};
use crate::run::run_parts;
use sqlite_disk::Disk;
use std::io::BufRead;
use tg_kept::{Kept, KeptParts, close_entries};
use tg_payload::Payload;
use tg_script::{Collector, ScriptLeft, Sink, Watch};

/// A run on a kept store that is over. The store is dropped.
#[derive(Drop)]
pub struct KeptEnd<D: Disk> {
    /// The disk, as the last call left it.
    pub disk: D,
    /// Whether the whole script was run and the file was closed, or why not.
    pub outcome: Result<(), KeptFault>,
    /// Why a line is bad, if that ended the run.
    pub reason: Option<&'static str>,
}

/// A kept store, and what is left of the script that is run on it.
#[derive(Drop)]
pub struct KeptStart<D: Disk, P: Payload> {
    pub kept: Kept<D, P>,
    pub left: ScriptLeft<P>,
}

/// Runs the reader's script on a kept store, and closes the file at the end of the script. The script goes on with the
/// line that was read before, if there is one.
///
/// The replies of a part are written after the part's entries are on the disk. So each content that a crash may leave
/// has the entry of each reply in the sink. After `Ok` all lines of the script were answered, and the file says
/// exactly their entries. A file that a fault ended isn't closed. If it wasn't lost, it says exactly the entries of the
/// lines that were answered.
pub fn run_kept<D: Disk, P: Payload, C: Collector, R: BufRead, K: Sink, W: Watch>(
    means: KeptMeans<C>,
    start: KeptStart<D, P>,
    reader: &mut R,
    sink: &mut K,
    watch: &mut W,
) -> KeptEnd<D>
    requires ready { C.Ready }
    requires waits { IsWaiting start.left.script start.left.first }
    ensures { EndsFrom D.Disk K.taken W.refused (R.remaining reader.old) sink.old sink.new watch.old watch.new start.left start.kept.store result }
{
    let KeptStart { kept, left } = start;
    let KeptParts { store, file } = kept.into_parts();
    let mut on = KeptScript {
        run: left.on(store),
        file,
        reason: None,
    };
    let outcome = run_to_close(means, &mut on, reader, sink, watch);
    let KeptScript { run, file, reason } = on;
    drop(run);
    KeptEnd {
        disk: file.disk,
        outcome,
        reason,
    }
}

// Runs the script, and closes the file at its end.
fn run_to_close<D: Disk, P: Payload, C: Collector, R: BufRead, K: Sink, W: Watch>(
    means: KeptMeans<C>,
    on: &mut KeptScript<D, P>,
    reader: &mut R,
    sink: &mut K,
    watch: &mut W,
) -> Result<(), KeptFault>
    requires ready { C.Ready }
    requires script { IsReadyScript D.Disk on.old }
    ensures { ClosesKept D.Disk K.taken W.refused (R.remaining reader.old) sink.old sink.new watch.old watch.new on.old on.new result }
{
    run_parts(means, on, reader, sink, watch)?;
    match close_entries(means.alloc, on.run.store(), &mut on.file) {
        Ok(()) => Ok(()),
        Err(why) => Err(KeptFault::Lost(why)),
    }
}
