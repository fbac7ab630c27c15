//! A run between a reader and a writer.
ghost use Rattle.std.specs.Prelude.{◌≡◌, ◌↔◌, false, IfErr, IfOk, IsOk, OnOk};
ghost use Rattle.std.specs.Io.Buffered.{reader_remaining, writer_contents};
ghost use Rattle.tg_script.specs.Inner.Counting.{MayCountStreams};
ghost use Rattle.tgstore.specs.Faults.{status_of_stop};
ghost use Rattle.tgstore.specs.Serving.{ServesFrom};
ghost use Rattle.tgstore.specs.Starts.{MayServe};
ghost use Rattle.tgstore.specs.Strict.{HasStatus};

use crate::boxes::serve_with_boxes;
use crate::host::RunHost;
use crate::noted::Noted;
use crate::start::{Start, StartFault};
use crate::stop::{Failure, Stop};
use crate::strict::{StrictWatch, strict_status};
use std::io::{BufRead, BufReader, BufWriter, Eprint, Read, Write};
use std::marker::Brand;
use std::sync::Wait;
use std::sync::ledger::{Blank, Ledger};
use std::thread::Threads;
use tg_script::{Collector, Count, OfRead, OfWrite};

/// How many bytes are read, and how many are written, at once.
pub(crate) const BLOCK: usize = 65536;

/// A run that is over. It has the reader with the bytes that are left, and the writer with the bytes that were written.
/// It also has the end of the run with its exit status, and the reason why a line was bad, if it was asked for.
#[derive(Drop)]
pub(crate) struct Ended<R: Drop, W: Drop> {
    pub reader: R,
    pub writer: W,
    pub outcome: Result<(), Stop>,
    /// The exit status of a run to the end of its script.
    pub status: u8,
    pub reason: Option<&'static str>,
}

impl<R: Drop, W: Drop> Ended<R, W> {
    /// The exit status of a run to the end of its script, or the fault that ended the run before. With the fault comes
    /// the reason why a line was bad, if it was asked for.
    pub(crate) fn into_outcome(self) -> Result<u8, Failure>
        ensures status { IfOk result (λ status. status ≡ self.status) }
        ensures ended { IsOk result ↔ IsOk self.outcome }
    {
        let Ended {
            outcome,
            status,
            reason,
            ..
        } = self;
        match outcome {
            Ok(()) => Ok(status),
            Err(stop) => Err(Failure { stop, reason }),
        }
    }
}

/// Runs the reader's script from the start with new boxes, and writes the replies. Whatever was written is flushed
/// before more is read than the reader holds, and at the end, after a fault too. If memory runs out for the two
/// buffers, nothing is read or written.
pub(crate) fn serve_buffered<
    T: Threads + Wait + Sync + Eprint,
    C: Collector,
    R: Read + Drop,
    W: Write + Drop,
>(
    host: &RunHost<T, C>,
    reader: R,
    writer: W,
    start: &Start,
) -> Result<Ended<BufReader<R>, BufWriter<W>>, Stop>
    requires servable { MayServe C.Ready start.now }
    ensures status { IfErr result (λ stop. status_of_stop stop ≡ 1) }
    ensures served { IfOk result (λ ended.
        ServesFrom start.now (R.remaining reader) (reader_remaining R.remaining ended.reader) (W.contents writer) (writer_contents W.contents ended.writer) ended.outcome) }
    ensures strict { IfOk result (λ ended. OnOk ended.outcome
        (HasStatus start.now (R.remaining reader) (reader_remaining R.remaining ended.reader) (W.contents writer) (writer_contents W.contents ended.writer) ended.status)) }
    ensures lax { IfOk result (λ ended. start.now.strict ≡ false → ended.status ≡ 0) }
{
    let Ok(reader) = BufReader::with_capacity(host.alloc, BLOCK, reader) else {
        return Err(Stop::Start(StartFault::OutOfMemory));
    };
    let Ok(writer) = BufWriter::with_capacity(host.alloc, BLOCK, writer) else {
        return Err(Stop::Start(StartFault::OutOfMemory));
    };
    let blanks = StreamBlanks {
        asked: Blank::new(1),
        read_failures: Blank::new(1),
        write_failures: Blank::new(1),
    };
    Ok(serve_counted::<Brand, Brand, Brand, T, C, BufReader<R>, BufWriter<W>>(
        host, blanks, reader, writer, start,
    ))
}

/// The counters that say how often a reader is asked and fails, and how often a writer fails.
#[derive(Drop)]
pub(crate) struct StreamBlanks {
    pub asked: Blank,
    pub read_failures: Blank,
    pub write_failures: Blank,
}

// Serves where these ledgers name how often the reader is asked and fails, and how often the writer fails.
fn serve_counted<
    A: Ledger,
    B: Ledger,
    F: Ledger,
    T: Threads + Wait + Sync + Eprint,
    C: Collector,
    R: BufRead + Drop,
    W: Write + Drop,
>(host: &RunHost<T, C>, blanks: StreamBlanks, reader: R, writer: W, start: &Start) -> Ended<R, W>
    requires servable { MayServe C.Ready start.now }
    requires countable { MayCountStreams A.name A.parts B.name B.parts F.name F.parts blanks.asked blanks.read_failures blanks.write_failures }
    ensures served { ServesFrom start.now (R.remaining reader) (R.remaining result.reader) (W.contents writer) (W.contents result.writer) result.outcome }
    ensures strict { OnOk result.outcome
        (HasStatus start.now (R.remaining reader) (R.remaining result.reader) (W.contents writer) (W.contents result.writer) result.status) }
    ensures lax { start.now.strict ≡ false → result.status ≡ 0 }
{
    let StreamBlanks {
        asked,
        read_failures,
        write_failures,
    } = blanks;
    let (asked, read_failures) = (Count::<A>::new(asked), Count::<B>::new(read_failures));
    let mut source = Noted::new(OfRead::new(reader, asked, read_failures), start.why);
    let mut sink = OfWrite::new(writer, Count::<F>::new(write_failures));
    let mut watch = StrictWatch::new(host.rt, start.strict);
    let outcome = serve_with_boxes(host, &mut source, &mut sink, &mut watch, start);
    let status = strict_status(start.strict, watch.has_refused);
    let reason = source.reason(&outcome, start.settings.workers);
    let OfRead { reader, .. } = source.source;
    let OfWrite { writer, .. } = sink;
    Ended {
        reader,
        writer,
        outcome,
        status,
        reason,
    }
}
