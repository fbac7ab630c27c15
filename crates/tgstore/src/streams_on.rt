//! A run that goes on from a history, between a reader and a writer.
ghost use Rattle.std.specs.Prelude.{◌≡◌, false, IfErr, IfOk};
ghost use Rattle.std.specs.Io.Buffered.{reader_remaining, writer_contents};
ghost use Rattle.tg_script.specs.Inner.Counting.{MayCountStreams};
ghost use Rattle.tgstore.specs.Faults.{status_of_stop};
ghost use Rattle.tgstore.specs.Resumed.{GoesOnBy, MayGoOnward, ServesOn};

use crate::host::RunHost;
use crate::noted::Noted;
use crate::onward::{Onward, race_onward};
use crate::start::{ResumedStart, StartFault};
use crate::stop::Stop;
use crate::streams::{BLOCK, Ended, StreamBlanks};
use crate::strict::{StrictWatch, strict_status};
use std::io::{BufRead, BufReader, BufWriter, Eprint, Read, Write};
use std::marker::Brand;
use std::sync::Wait;
use std::sync::ledger::{Blank, Ledger};
use std::thread::Threads;
use tg_model::MAX_WORKERS;
use tg_payload::LawPayload;
use tg_script::{Collector, Count, OfRead, OfWrite, RunMeans, Sink, Source, Watch, run_script_on};

/// Runs the reader's script from a history on, and writes the replies or the entries. Whatever was written is flushed
/// before more is read than the reader holds, and at the end, after a fault too. If memory runs out for the two
/// buffers, nothing is read or written.
pub(crate) fn serve_on<
    T: Threads + Wait + Sync + Eprint,
    C: Collector,
    R: Read + Drop,
    W: Write + Drop,
>(
    host: &RunHost<T, C>,
    reader: R,
    writer: W,
    start: &ResumedStart,
    from: Onward<LawPayload>,
) -> Result<Ended<BufReader<R>, BufWriter<W>>, Stop>
    requires ready { C.Ready }
    requires onward { MayGoOnward from }
    ensures status { IfErr result (λ stop. status_of_stop stop ≡ 1) }
    ensures served { IfOk result (λ ended.
        ServesOn start.now from (R.remaining reader) (reader_remaining R.remaining ended.reader) (W.contents writer) (writer_contents W.contents ended.writer) ended.outcome ended.status) }
    ensures lax { IfOk result (λ ended. start.now.strict ≡ false → ended.status ≡ 0) }
{
    let Ok(reader) = BufReader::with_capacity(host.alloc, BLOCK, reader) else {
        return Err(Stop::Start(StartFault::OutOfMemory));
    };
    let Ok(writer) = BufWriter::with_capacity(host.alloc, BLOCK, writer) else {
        return Err(Stop::Start(StartFault::OutOfMemory));
    };
    let blanks = StreamBlanks {
        asked: Blank::new(1),
        read_failures: Blank::new(1),
        write_failures: Blank::new(1),
    };
    Ok(serve_counted_on::<Brand, Brand, Brand, T, C, BufReader<R>, BufWriter<W>>(
        host,
        blanks,
        Streams { reader, writer },
        start,
        from,
    ))
}

// Where a run reads, and where it writes.
#[derive(Drop)]
struct Streams<R: Drop, W: Drop> {
    reader: R,
    writer: W,
}

// Serves where these ledgers name how often the reader is asked and fails, and how often the writer fails.
fn serve_counted_on<
    A: Ledger,
    B: Ledger,
    F: Ledger,
    T: Threads + Wait + Sync + Eprint,
    C: Collector,
    R: BufRead + Drop,
    W: Write + Drop,
>(
    host: &RunHost<T, C>,
    blanks: StreamBlanks,
    streams: Streams<R, W>,
    start: &ResumedStart,
    from: Onward<LawPayload>,
) -> Ended<R, W>
    requires ready { C.Ready }
    requires onward { MayGoOnward from }
    requires countable { MayCountStreams A.name A.parts B.name B.parts F.name F.parts blanks.asked blanks.read_failures blanks.write_failures }
    ensures served { ServesOn start.now from (R.remaining streams.reader) (R.remaining result.reader) (W.contents streams.writer) (W.contents result.writer) result.outcome result.status }
    ensures lax { start.now.strict ≡ false → result.status ≡ 0 }
{
    let StreamBlanks {
        asked,
        read_failures,
        write_failures,
    } = blanks;
    let Streams { reader, writer } = streams;
    let (asked, read_failures) = (Count::<A>::new(asked), Count::<B>::new(read_failures));
    let mut source = Noted::new(OfRead::new(reader, asked, read_failures), start.why);
    let mut sink = OfWrite::new(writer, Count::<F>::new(write_failures));
    let mut watch = StrictWatch::new(host.rt, start.strict);
    let outcome = go_on(
        host,
        &mut source,
        &mut sink,
        &mut watch,
        start.entries,
        from,
    );
    let status = strict_status(start.strict, watch.has_refused);
    // No line may be an edge line.
    let reason = source.reason(&outcome, MAX_WORKERS);
    let OfRead { reader, .. } = source.source;
    let OfWrite { writer, .. } = sink;
    Ended {
        reader,
        writer,
        outcome,
        status,
        reason,
    }
}

// Runs the source's script from there on, and puts replies or entries into the sink. The watch sees no line of a race.
fn go_on<T: Threads + Wait + Sync, C: Collector, S: Source, K: Sink, W: Watch>(
    host: &RunHost<T, C>,
    source: &mut S,
    sink: &mut K,
    watch: &mut W,
    entries: bool,
    from: Onward<LawPayload>,
) -> Result<(), Stop>
    requires ready { C.Ready }
    requires onward { MayGoOnward from }
    ensures { GoesOnBy entries from (S.left source.old) (S.left source.new) (K.taken sink.old) (K.taken sink.new) (W.refused watch.old) (W.refused watch.new) result }
{
    let means = RunMeans {
        alloc: host.alloc,
        collector: host.collector,
        entries,
    };
    match from {
        Onward::Lines(from) => {
            run_script_on(means, source, sink, watch, from).map_err(Stop::Script)
        }
        Onward::Race(on) => race_onward(host, source, sink, entries, on).map_err(Stop::Race),
    }
}
