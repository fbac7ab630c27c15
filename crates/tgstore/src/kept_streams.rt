//! A script on a kept store, between a reader and a writer.
ghost use Rattle.std.specs.Prelude.{◌≡◌, IfOk};
ghost use Rattle.tg_kept.specs.Keeping.{IsFirst};
ghost use Rattle.tg_script.specs.Inner.Counting.{MayCountStreams};
ghost use Rattle.tg_script.specs.Parts.{HasOpenedScript, IsWaiting, OpensScript};
ghost use Rattle.tg_script.specs.Script.{MayStart, start_of_setup};
ghost use Rattle.tgstore.specs.Kept.{MayCountWriter, ServesKept, SetsUp};
ghost use Rattle.tgstore.specs.Serving.{script_start_of};
ghost use Rattle.tgstore.specs.Starts.{IsReady};

use crate::boxes::{new_cells, new_drafts};
use crate::host::RunHost;
use crate::noted::Noted;
use crate::start::Start;
use crate::stop::{Failure, Stop};
use crate::streams::StreamBlanks;
use crate::strict::{StrictWatch, strict_status};
use sqlite_disk::Disk;
use std::alloc::Global;
use std::io::{BufRead, Eprint, Write};
use std::marker::Brand;
use std::sync::ledger::{Blank, Ledger};
use tg_lasting::{KeptEnd, KeptFault, KeptMeans, KeptStart, run_kept};
use tg_payload::LawPayload;
use tg_script::{
    Collector, Count, OfRead, OfWrite, OpenedScript, RunSetup, drafts_of, open_script,
};

/// Where a run reads, and where it writes.
#[derive(Drop)]
pub(crate) struct Streams<R: Drop, W: Drop> {
    pub reader: R,
    pub writer: W,
}

/// A store that the edge lines of a script have opened, and the streams after them.
#[derive(Drop)]
pub(crate) struct OpenedStreams<R: Drop, W: Drop> {
    pub streams: Streams<R, W>,
    pub opened: OpenedScript<LawPayload>,
}

/// The end of a run on a kept store.
#[derive(Drop)]
pub(crate) struct EndedKept<D: Disk + Drop, W: Drop> {
    /// The disk, as the last call left it.
    pub disk: D,
    /// The writer with the bytes that were written.
    pub writer: W,
    pub outcome: Result<(), KeptFault>,
    /// The exit status of a run to the end of its script.
    pub status: u8,
    /// Why a line is bad, if that ended the run and was asked for.
    pub reason: Option<&'static str>,
}

/// Reads the edge lines of the reader's script, and opens the store with new boxes.
pub(crate) fn open_streams<R: BufRead + Drop, W: Write + Drop>(
    alloc: Global,
    streams: Streams<R, W>,
    start: &Start,
) -> Result<OpenedStreams<R, W>, Failure>
    requires { IsReady start.now }
    ensures first { IfOk result (λ o. IsFirst o.opened.store) }
    ensures opened { IfOk result (λ o. HasOpenedScript (script_start_of start.now) o.opened) }
{
    match setup_of(alloc, start) {
        Ok(setup) => {
            let blanks = StreamBlanks {
                asked: Blank::new(1),
                read_failures: Blank::new(1),
                write_failures: Blank::new(1),
            };
            open_counted::<Brand, Brand, Brand, R, W>(alloc, blanks, streams, start, setup)
        }
        Err(stop) => Err(Failure::from(stop)),
    }
}

// A cell with 0 for each worker, and new boxes of the stock.
fn setup_of(alloc: Global, start: &Start) -> Result<RunSetup<LawPayload>, Stop>
    requires { IsReady start.now }
    ensures { IfOk result (SetsUp start.now) }
{
    let cells = new_cells(alloc, start.settings.workers)?;
    let workers = drafts_of(alloc, cells)?;
    let stock = new_drafts(alloc, &start.stock)?;
    Ok(RunSetup {
        settings: start.settings,
        workers,
        stock,
    })
}

// The ledgers name how often the reader is asked and fails, and how often the writer fails.
fn open_counted<A: Ledger, B: Ledger, F: Ledger, R: BufRead + Drop, W: Write + Drop>(
    alloc: Global,
    blanks: StreamBlanks,
    streams: Streams<R, W>,
    start: &Start,
    setup: RunSetup<LawPayload>,
) -> Result<OpenedStreams<R, W>, Failure>
    requires startable { MayStart setup.settings setup.workers.items }
    requires countable { MayCountStreams A.name A.parts B.name B.parts F.name F.parts blanks.asked blanks.read_failures blanks.write_failures }
    ensures opened { IfOk result (λ o. HasOpenedScript (start_of_setup setup) o.opened) }
{
    let StreamBlanks {
        asked,
        read_failures,
        write_failures,
    } = blanks;
    let Streams { reader, writer } = streams;
    let (asked, read_failures) = (Count::<A>::new(asked), Count::<B>::new(read_failures));
    let mut source = Noted::new(OfRead::new(reader, asked, read_failures), start.why);
    let mut sink = OfWrite::new(writer, Count::<F>::new(write_failures));
    match open_script(alloc, &mut source, &mut sink, setup) {
        Ok(opened) => {
            let OfRead { reader, .. } = source.source;
            let OfWrite { writer, .. } = sink;
            let streams = Streams { reader, writer };
            Ok(OpenedStreams { streams, opened })
        }
        Err(fault) => {
            let outcome = Err(Stop::Script(fault));
            let reason = source.reason(&outcome, start.settings.workers);
            Err(Failure {
                stop: Stop::Script(fault),
                reason,
            })
        }
    }
}

/// Runs the reader's script on a kept store, and writes the replies.
pub(crate) fn serve_kept<
    T: Eprint,
    C: Collector,
    D: Disk + Drop,
    R: BufRead + Drop,
    W: Write + Drop,
>(
    host: &RunHost<T, C>,
    streams: Streams<R, W>,
    start: &Start,
    start_on: KeptStart<D, LawPayload>,
) -> EndedKept<D, W>
    requires ready { C.Ready }
    requires waits { IsWaiting start_on.left.script start_on.left.first }
    ensures { ServesKept D.Disk start.now (R.remaining streams.reader) (W.contents streams.writer) (W.contents result.writer) start_on.left start_on.kept.store result }
{
    serve_kept_counted::<Brand, T, C, D, R, W>(host, Blank::new(1), streams, start, start_on)
}

// The ledger names how often the writer fails.
fn serve_kept_counted<
    F: Ledger,
    T: Eprint,
    C: Collector,
    D: Disk + Drop,
    R: BufRead + Drop,
    W: Write + Drop,
>(
    host: &RunHost<T, C>,
    blank: Blank,
    streams: Streams<R, W>,
    start: &Start,
    start_on: KeptStart<D, LawPayload>,
) -> EndedKept<D, W>
    requires ready { C.Ready }
    requires waits { IsWaiting start_on.left.script start_on.left.first }
    requires countable { MayCountWriter F.name F.parts blank }
    ensures { ServesKept D.Disk start.now (R.remaining streams.reader) (W.contents streams.writer) (W.contents result.writer) start_on.left start_on.kept.store result }
{
    let Streams { mut reader, writer } = streams;
    let mut sink = OfWrite::new(writer, Count::<F>::new(blank));
    let mut watch = StrictWatch::new(host.rt, start.strict);
    let means = KeptMeans {
        alloc: host.alloc,
        collector: host.collector,
    };
    let end = run_kept(means, start_on, &mut reader, &mut sink, &mut watch);
    let status = strict_status(start.strict, watch.has_refused);
    let OfWrite { writer, .. } = sink;
    let KeptEnd {
        disk,
        outcome,
        reason,
    } = end;
    EndedKept {
        disk,
        writer,
        outcome,
        status,
        reason: reason.filter(|_| start.why),
    }
}
