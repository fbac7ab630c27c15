//! The run of a whole script.
ghost use Rattle.std.specs.Prelude.{◌≡◌, ◌≢◌, ℕ, List, [], Some, Err, false, true, IfErr, IfOk, OnOk};
ghost use Rattle.tg_script.specs.Inner.Beginning.{Begins, BeginsStreams, IsBegun, MayGoOn};
ghost use Rattle.tg_script.specs.Inner.Counting.{MayCountInMemory, RunsInMemory};
ghost use Rattle.tg_script.specs.Inner.Marks.{SeesCommands};
ghost use Rattle.tg_script.specs.Inner.Parts.{PassesCommands, TakesStock};
ghost use Rattle.tg_script.specs.Inner.Telling.{RunsCommands, UsesStreams};
ghost use Rattle.tg_script.specs.Entering.{RanAs};
ghost use Rattle.tg_script.specs.Running.{Finishes, FinishesSink, IsDue, Ran, RunsAs, RunsFrom};
ghost use Rattle.tg_script.specs.Script.{MayRun, MayStart, start_of_setup, start_with};
ghost use Rattle.tg_script.specs.Watching.{SeesFrom};

use crate::collector::{Collector, OneThread};
use crate::entering::run_entries;
use crate::helpers::Helpers;
use crate::opening::{Front, open_store, read_edges};
use crate::run::Run;
use crate::script::Script;
use crate::supply::Supply;
use crate::telling::{ByReply, Telling};
use crate::watch::{NumberedLine, Unwatched, Watch};
use std::alloc::Global;
use std::marker::Brand;
use std::sync::ledger::{Blank, Ledger};
use tg_payload::{Draft, Payload};
use tg_store::Limits;
use tg_text::{Bytes, Count, Line, ScriptFault, Sink, Source, Written};

/// What a run is given beside its script and its payloads.
#[derive(Clone, Copy, Debug)]
pub struct Settings {
    /// The number of workers that the store opens with, from 1 to 64.
    pub workers: u64,
    /// How many helpers each collection has.
    pub helpers: Helpers,
    /// The most vertices that may ever be made, subjects that are spawned included. It is from 1 to 2^24, and not below
    /// the number of workers.
    pub max_vertices: u64,
    /// How many blocks the heap may have.
    pub limits: Limits,
}

/// What a run starts from beside its script.
#[derive(Drop)]
pub struct RunSetup<P: Payload> {
    pub settings: Settings,
    /// One payload for each worker of the opening, by rising name.
    pub workers: Vec<Draft<P>>,
    /// The payloads for the vertices that the script makes.
    pub stock: Vec<Draft<P>>,
}

/// Runs the script from the setup. A create or spawn line takes the first payload of the stock. If no vertex is made,
/// the payload goes back to the front of the stock. The store opens at the first line that is no edge line, or at the
/// end of the input.
///
/// Each reply is written before the next line is run. The output is finished before the source is asked for a byte that
/// it doesn't hold, and at the end, after a fault too. A fault that came before a failure to finish is the one that is
/// returned. The source is asked for at most 1,048,577 bytes. The output is the text for the lines before the first
/// fault. After `WriteFailed` a part of the last reply may be missing.
///
/// The collector makes the collections, each with as many helpers as the settings have. If there is more than one
/// helper, a line may be answered `refused threads` because a thread couldn't be started. Nothing is changed then.
pub fn run_script_with<P: Payload, C: Collector, S: Source, K: Sink>(
    alloc: Global,
    collector: &C,
    source: &mut S,
    sink: &mut K,
    setup: RunSetup<P>,
) -> Result<(), ScriptFault>
    requires runnable { MayRun C.Ready setup.settings setup.workers.items }
    ensures ran { RunsFrom S.left S.asked S.failures K.taken source.old source.new sink.old sink.new (start_of_setup setup) result }
    ensures finish { FinishesSink K.failures K.finished sink.old sink.new result }
{
    let means = RunMeans {
        alloc,
        collector,
        entries: false,
    };
    run_replies(means, source, sink, &mut Unwatched, setup)
}

/// How a script is run.
#[derive_where(Clone, Copy)]
pub struct RunMeans<'a, C> {
    /// Where edges, the store and its journal take memory.
    pub alloc: Global,
    /// What makes the collections.
    pub collector: &'a C,
    /// Whether the text of the history is written in the place of replies.
    pub entries: bool,
}

/// Runs the script as [`run_script_with`] does, or as [`run_script_entries`](crate::run_script_entries) does if entries
/// are asked for. Shows each answer to the watch before its reply or its entry is written. A refusal has no entry, but
/// the watch sees it.
///
/// If `Ok` is returned, the watch has seen the answers to exactly the lines after the edges, in their order.
#[inline(always)]
pub fn run_script_watched<P: Payload, C: Collector, S: Source, K: Sink, W: Watch>(
    means: RunMeans<C>,
    source: &mut S,
    sink: &mut K,
    watch: &mut W,
    setup: RunSetup<P>,
) -> Result<(), ScriptFault>
    requires runnable { MayRun C.Ready setup.settings setup.workers.items }
    ensures ran { RunsAs (RanAs means.entry.entries) S.left S.asked S.failures K.taken source.old source.new sink.old sink.new (start_of_setup setup) result }
    ensures finish { FinishesSink K.failures K.finished sink.old sink.new result }
    ensures seen { OnOk result (SeesFrom S.left K.taken W.refused source.old source.new sink.old sink.new watch.old watch.new means.entry.entries (start_of_setup setup)) }
{
    if means.entries {
        run_entries(means, source, sink, watch, setup)
    } else {
        run_replies(means, source, sink, watch, setup)
    }
}

// Runs the script and writes replies.
#[inline(always)]
fn run_replies<P: Payload, C: Collector, S: Source, K: Sink, W: Watch>(
    means: RunMeans<C>,
    source: &mut S,
    sink: &mut K,
    watch: &mut W,
    setup: RunSetup<P>,
) -> Result<(), ScriptFault>
    requires runnable { MayRun C.Ready setup.settings setup.workers.items }
    ensures ran { RunsFrom S.left S.asked S.failures K.taken source.old source.new sink.old sink.new (start_of_setup setup) result }
    ensures finish { FinishesSink K.failures K.finished sink.old sink.new result }
    ensures seen { OnOk result (SeesFrom S.left K.taken W.refused source.old source.new sink.old sink.new watch.old watch.new false (start_of_setup setup)) }
{
    match begin(means.alloc, source, sink, setup) {
        Ok(mut begun) => {
            let outcome = run_commands::<P, ByReply, C, S, K, W>(
                &mut begun,
                means.collector,
                source,
                sink,
                watch,
            );
            drop(begun);
            finish(sink, outcome)
        }
        Err(fault) => finish(sink, Err(fault)),
    }
}

/// Runs the script as [`run_script_with`] does. There is one payload for each worker of the opening, by rising name,
/// and a stock of payloads for the vertices that the script makes. The thread that runs the script makes the
/// collections alone, whatever number of helpers the settings have.
pub fn run_script_one<P: Payload, S: Source, K: Sink>(
    alloc: Global,
    source: &mut S,
    sink: &mut K,
    settings: Settings,
    workers: Vec<Draft<P>>,
    stock: Vec<Draft<P>>,
) -> Result<(), ScriptFault>
    requires startable { MayStart settings workers.items }
    ensures ran { RunsFrom S.left S.asked S.failures K.taken source.old source.new sink.old sink.new (start_with (record settings { helpers = 1 }) workers.items stock.items) result }
    ensures finish { FinishesSink K.failures K.finished sink.old sink.new result }
{
    let settings = Settings {
        helpers: Helpers::one(),
        ..settings
    };
    let setup = RunSetup {
        settings,
        workers,
        stock,
    };
    run_script_with(alloc, &OneThread, source, sink, setup)
}

/// What a run in memory wrote, and how it ended.
#[derive(Debug, Drop)]
pub struct InMemory {
    pub written: Vec<u8>,
    pub outcome: Result<(), ScriptFault>,
}

/// Runs a script that lies in memory, as [`run_script_with`] does, and keeps what is written in memory. Reading never
/// fails.
pub fn run_in_memory<P: Payload, C: Collector>(
    alloc: Global,
    collector: &C,
    script: &[u8],
    setup: RunSetup<P>,
) -> InMemory
    requires runnable { MayRun C.Ready setup.settings setup.workers.items }
    ensures ran { (left : List ℕ) × Ran (start_of_setup setup) script.now [] result.outcome left (Some result.written.items) }
    ensures due { IfErr result.outcome (IsDue (start_of_setup setup)) }
    ensures read { result.outcome ≢ Err ScriptFault.ReadFailed }
{
    let blanks = MemoryBlanks {
        asked: Blank::new(1),
        failures: Blank::new(1),
    };
    run_counted::<P, C, Brand, Brand>(alloc, collector, script, setup, blanks)
}

// What counts how often a source in memory is asked, and how often a sink in memory fails.
#[derive(Drop)]
struct MemoryBlanks {
    asked: Blank,
    failures: Blank,
}

// The counts of the source and of the sink are those of the ledgers A and F.
fn run_counted<P: Payload, C: Collector, A: Ledger, F: Ledger>(
    alloc: Global,
    collector: &C,
    script: &[u8],
    setup: RunSetup<P>,
    blanks: MemoryBlanks,
) -> InMemory
    requires runnable { MayRun C.Ready setup.settings setup.workers.items }
    requires countable { MayCountInMemory A.name A.parts F.name F.parts blanks.asked blanks.failures }
    ensures ran { RunsInMemory (start_of_setup setup) script.now result }
{
    let MemoryBlanks { asked, failures } = blanks;
    let mut source = Bytes::new(script, Count::<A>::new(asked));
    let mut sink = Written::new(alloc, Count::<F>::new(failures));
    let outcome = run_script_with(alloc, collector, &mut source, &mut sink, setup);
    let Written { bytes, .. } = sink;
    InMemory {
        written: bytes,
        outcome,
    }
}

/// Finishes the sink. A fault that came before is the one that is returned.
pub(crate) fn finish<K: Sink>(
    sink: &mut K,
    outcome: Result<(), ScriptFault>,
) -> Result<(), ScriptFault>
    ensures outcome { Finishes (K.taken sink.old) (K.failures sink.old) outcome result (K.taken sink.new) (K.failures sink.new) }
    ensures finished { K.finished sink.new ≡ true }
{
    if sink.finish() {
        return outcome;
    }
    match outcome {
        Ok(()) => Err(ScriptFault::WriteFailed),
        Err(fault) => Err(fault),
    }
}

/// A run that has begun, and where its script is.
#[derive(Drop)]
pub(crate) struct Begun<P: Payload> {
    pub(crate) run: Run<P>,
    pub(crate) script: Script,
    pub(crate) first: Option<Line>,
}

/// Reads the edge lines and the first line after them, and opens the store. The stock is still whole then.
pub(crate) fn begin<P: Payload, S: Source, K: Sink>(
    alloc: Global,
    source: &mut S,
    sink: &mut K,
    setup: RunSetup<P>,
) -> Result<Begun<P>, ScriptFault>
    requires startable { MayStart setup.settings setup.workers.items }
    ensures begun { IfOk result (IsBegun (start_of_setup setup)) }
    ensures bytes { (bytes : List ℕ) → S.left source.old ≡ Some bytes → (rest : List ℕ) × (S.left source.new ≡ Some rest) × Begins (start_of_setup setup) bytes result rest }
    ensures streams { BeginsStreams S.asked S.failures K.failures K.taken source.old source.new sink.old sink.new (start_of_setup setup) result }
{
    let RunSetup {
        settings,
        workers,
        stock,
    } = setup;
    let Front {
        edges,
        first,
        script,
    } = read_edges(alloc, source, sink, settings.workers)?;
    let store = open_store(alloc, &settings, edges, workers)?;
    let supply = Supply::new(stock);
    let helpers = settings.helpers;
    let run = Run {
        store,
        supply,
        helpers,
    };
    Ok(Begun { run, script, first })
}

/// Runs the lines from the first one on that is no edge line, if there is one. Shows the answer to each to the watch,
/// and writes it.
pub(crate) fn run_commands<P: Payload, T: Telling, C: Collector, S: Source, K: Sink, W: Watch>(
    begun: &mut Begun<P>,
    collector: &C,
    source: &mut S,
    sink: &mut K,
    watch: &mut W,
) -> Result<(), ScriptFault>
    requires runnable { MayGoOn C.Ready begun.old.script begun.old.first }
    ensures written { RunsCommands S.left K.taken T.told source.old source.new sink.old sink.new begun.old begun.new result }
    ensures kept { begun.new.run.store.opening ≡ begun.old.run.store.opening }
    ensures held { T.holds_all ≡ true → begun.new.run.store.handed ≡ begun.old.run.store.handed }
    ensures stock { TakesStock begun.old.run begun.new.run }
    ensures passed { OnOk result (PassesCommands S.left source.old source.new begun.old begun.new) }
    ensures streams { UsesStreams S.asked S.failures K.failures source.old source.new sink.old sink.new begun.old.script begun.old.first result }
    ensures seen { OnOk result (SeesCommands S.left K.taken W.refused T.told source.old source.new sink.old sink.new watch.old watch.new begun.old begun.new) }
{
    let Some(first) = begun.first else {
        return Ok(());
    };
    let mut line = first;
    'lines: loop {
        let numbered = NumberedLine {
            number: begun.script.count,
            line,
        };
        let Ok(()) = T::run_line(&mut begun.run, collector, sink, watch, numbered) else {
            return Err(ScriptFault::WriteFailed);
        };
        let came = begun.script.next(source, sink)?;
        let Some(next) = came else {
            return Ok(());
        };
        line = next;
    }
}
