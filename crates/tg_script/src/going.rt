//! The run of a script on a store that exists.
ghost use Rattle.std.specs.Prelude.{◌≡◌, ◌+◌, ◌-◌, ◌≤◌, IfErr, IfOk, List, ℕ, Some, length, false, true};
ghost use Rattle.tg_script.specs.GoingOn.{GoesOnFrom, scene_on};
ghost use Rattle.tg_script.specs.Inner.Beginning.{MayGoOn};
ghost use Rattle.tg_script.specs.Inner.GoingOn.{BeginsOn, BeginsOnStreams, GoesBy, IsBegunOn};
ghost use Rattle.tg_script.specs.Inner.Telling.{UsesStreams};
ghost use Rattle.tg_script.specs.Lines.{IsOfKeeping, read_failures};
ghost use Rattle.tg_script.specs.Running.{FinishesSink};

use crate::collector::Collector;
use crate::helpers::Helpers;
use crate::opening::{Front, read_edges};
use crate::run::Run;
use crate::run_script::{Begun, RunMeans, finish, run_commands};
use crate::supply::Supply;
use crate::telling::{ByEntry, ByReply};
use crate::watch::Watch;
use std::alloc::Global;
use tg_entries::write_end;
use tg_payload::{Draft, Payload};
use tg_store::Store;
use tg_text::{ScriptFault, Sink, Source};

/// What a run goes on from.
#[derive(Drop)]
pub struct RunOn<P: Payload> {
    /// The store. It may have been opened, resumed or opened again.
    pub store: Store<P>,
    /// How many helpers each collection has.
    pub helpers: Helpers,
    /// The payloads for the vertices that the script makes.
    pub stock: Vec<Draft<P>>,
    /// How many entries of the store's journal came before the text that is gone on with. These aren't counted at the
    /// end.
    pub skipped: u64,
}

/// Runs the script on a store that exists. The store decides who may act, and how many vertices may be made. An edge
/// line is a bad line.
///
/// Each line is answered as by [`run_script_watched`](crate::run_script_watched), from the graph that the store
/// represents. If entries are asked for, the line of each entry is written in the place of its reply. The number of
/// entries comes at the end, and counts all entries in the store's journal but the skipped ones. So the output can be
/// put after a text of the store's entries, and is then a part of that text.
///
/// The output is finished before the source is asked for a byte that it doesn't hold, and at the end. The source is
/// asked for at most 1,048,577 bytes.
pub fn run_script_on<P: Payload, C: Collector, S: Source, K: Sink, W: Watch>(
    means: RunMeans<C>,
    source: &mut S,
    sink: &mut K,
    watch: &mut W,
    from: RunOn<P>,
) -> Result<(), ScriptFault>
    requires ready { C.Ready }
    requires place { from.skipped ≤ length from.store.entries }
    ensures ran { GoesOnFrom S.left K.taken W.refused source.old source.new sink.old sink.new watch.old watch.new means.entry.entries (scene_on from) (length from.store.entries - from.skipped) result }
    ensures fault { IfErr result IsOfKeeping }
    ensures asked { S.asked source.new ≤ S.asked source.old + 1048577 }
    ensures read_failed { S.failures source.new ≡ S.failures source.old + read_failures result }
    ensures finish { FinishesSink K.failures K.finished sink.old sink.new result }
{
    match begin_on(means.alloc, source, sink, from) {
        Ok(mut on) => {
            let outcome = go_on(means, source, sink, watch, &mut on);
            drop(on);
            finish(sink, outcome)
        }
        Err(fault) => finish(sink, Err(fault)),
    }
}

// A run that has begun, and how many entries of its journal aren't counted.
#[derive(Drop)]
pub(crate) struct BegunOn<P: Payload> {
    pub(crate) begun: Begun<P>,
    pub(crate) skipped: u64,
}

// Reads the first line. There are no workers, so that no line is an edge line.
fn begin_on<P: Payload, S: Source, K: Sink>(
    alloc: Global,
    source: &mut S,
    sink: &mut K,
    from: RunOn<P>,
) -> Result<BegunOn<P>, ScriptFault>
    ensures begun { IfOk result (IsBegunOn from) }
    ensures bytes { (bytes : List ℕ) → S.left source.old ≡ Some bytes → (rest : List ℕ) × (S.left source.new ≡ Some rest) × BeginsOn bytes result rest }
    ensures streams { BeginsOnStreams S.asked S.failures K.failures K.taken source.old source.new sink.old sink.new result }
{
    let Front { first, script, .. } = read_edges(alloc, source, sink, 0)?;
    let RunOn {
        store,
        helpers,
        stock,
        skipped,
    } = from;
    let run = Run {
        store,
        supply: Supply::new(stock),
        helpers,
    };
    let begun = Begun { run, script, first };
    Ok(BegunOn { begun, skipped })
}

// Runs the lines from the first one on, and writes replies or entries.
fn go_on<P: Payload, C: Collector, S: Source, K: Sink, W: Watch>(
    means: RunMeans<C>,
    source: &mut S,
    sink: &mut K,
    watch: &mut W,
    on: &mut BegunOn<P>,
) -> Result<(), ScriptFault>
    requires runnable { MayGoOn C.Ready on.old.begun.script on.old.begun.first }
    requires place { on.old.skipped ≤ length on.old.begun.run.store.entries }
    ensures gone { GoesBy S.left K.taken W.refused means.entry.entries source.old source.new sink.old sink.new watch.old watch.new on.old result }
    ensures streams { UsesStreams S.asked S.failures K.failures source.old source.new sink.old sink.new on.old.begun.script on.old.begun.first result }
{
    if means.entries {
        enter_on(means.collector, source, sink, watch, on)
    } else {
        reply_on(means.collector, source, sink, watch, on)
    }
}

// Runs the lines, and writes replies.
fn reply_on<P: Payload, C: Collector, S: Source, K: Sink, W: Watch>(
    collector: &C,
    source: &mut S,
    sink: &mut K,
    watch: &mut W,
    on: &mut BegunOn<P>,
) -> Result<(), ScriptFault>
    requires runnable { MayGoOn C.Ready on.old.begun.script on.old.begun.first }
    ensures gone { GoesBy S.left K.taken W.refused false source.old source.new sink.old sink.new watch.old watch.new on.old result }
    ensures streams { UsesStreams S.asked S.failures K.failures source.old source.new sink.old sink.new on.old.begun.script on.old.begun.first result }
{
    let outcome = run_commands::<P, ByReply, C, S, K, W>(
        &mut on.begun,
        collector,
        source,
        sink,
        watch,
    );
    // It tells that the entries are a legal history, whatever came of the lines.
    let _ = on.begun.run.store.journal();
    outcome
}

// Runs the lines, and writes their entries and the number of all entries that are counted.
#[inline(never)]
fn enter_on<P: Payload, C: Collector, S: Source, K: Sink, W: Watch>(
    collector: &C,
    source: &mut S,
    sink: &mut K,
    watch: &mut W,
    on: &mut BegunOn<P>,
) -> Result<(), ScriptFault>
    requires runnable { MayGoOn C.Ready on.old.begun.script on.old.begun.first }
    requires place { on.old.skipped ≤ length on.old.begun.run.store.entries }
    ensures gone { GoesBy S.left K.taken W.refused true source.old source.new sink.old sink.new watch.old watch.new on.old result }
    ensures streams { UsesStreams S.asked S.failures K.failures source.old source.new sink.old sink.new on.old.begun.script on.old.begun.first result }
{
    let entered = run_commands::<P, ByEntry, C, S, K, W>(
        &mut on.begun,
        collector,
        source,
        sink,
        watch,
    );
    // It tells that the entries are a legal history, whatever came of the lines.
    let made = on.begun.run.store.journal().len();
    entered?;
    let Ok(()) = write_end(sink, made.saturating_sub(on.skipped)) else {
        return Err(ScriptFault::WriteFailed);
    };
    Ok(())
}
