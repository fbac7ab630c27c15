//! A run with payloads, from a source to a sink.
ghost use Rattle.std.specs.Prelude.{◌≡◌, ◌+◌, ◌<◌, ◌≤◌, true, OnOk, map};
ghost use Rattle.tg_script.specs.Script.{MayStart, start_of_setup};
ghost use Rattle.tg_threads.specs.Race.{FinishesRace, RacesFrom, race_from};
ghost use Rattle.tgstore.specs.Faults.{stop_read_failures, stop_write_failures};
ghost use Rattle.tgstore.specs.Serving.{ServesFrom, WasBegun, race_text_as};
ghost use Rattle.tgstore.specs.Starts.{HasPayloads, MayServe};
ghost use Rattle.tgstore.specs.Strict.{WatchesFrom};

use crate::host::RunHost;
use crate::start::Start;
use crate::stop::Stop;
use std::sync::Wait;
use std::thread::Threads;
use tg_payload::{Draft, Payload};
use tg_script::{
    Collector, RunMeans, RunSetup, Sink, Source, Watch, drafts_of, run_script_watched,
};
use tg_threads::{Entries, NoTurnstile, RaceFault, Replies, run_race};

/// The start of a run, with its payloads.
#[derive(Drop)]
pub struct RunParts<'a, P: Payload> {
    pub start: &'a Start,
    /// The payload of each worker, by rising name.
    pub workers: Vec<P>,
    /// The drafts of payloads for the vertices that are made, in order.
    pub stock: Vec<Draft<P>>,
}

/// Runs the source's script from the start with these payloads, and puts the replies into the sink. It does so as
/// `run_script_with` does with the start's settings, or as `run_race` does if the start asks for a race. If the start
/// asks for entries in the place of replies, `run_script_entries` and `run_race` with `Entries` write them. If memory
/// runs out for drafts of the workers' payloads, nothing is read or written. The watch sees the answer to each line,
/// except in a race.
#[inline(always)]
pub fn serve<
    P: Payload + Send,
    R: Threads + Wait + Sync,
    C: Collector,
    S: Source,
    K: Sink,
    W: Watch,
>(
    host: &RunHost<R, C>,
    source: &mut S,
    sink: &mut K,
    watch: &mut W,
    parts: RunParts<P>,
) -> Result<(), Stop>
    requires servable { MayServe C.Ready parts.start.now }
    requires payloads { HasPayloads parts.start.now (map P.value parts.workers.items) parts.stock.items }
    ensures served { ServesFrom parts.entry.start.now (S.left source.old) (S.left source.new) (K.taken sink.old) (K.taken sink.new) result }
    ensures read_failed { S.failures source.new ≡ S.failures source.old + stop_read_failures result }
    ensures write_failed { 1 ≤ stop_write_failures result → K.failures sink.old < K.failures sink.new }
    ensures unfailed { OnOk result (K.failures sink.new ≡ K.failures sink.old) }
    ensures finished { WasBegun result → K.finished sink.new ≡ true }
    ensures seen { OnOk result (WatchesFrom parts.entry.start.now (S.left source.old) (S.left source.new) (K.taken sink.old) (K.taken sink.new) (W.refused watch.old) (W.refused watch.new)) }
{
    let RunParts {
        start,
        workers,
        stock,
    } = parts;
    let workers = drafts_of(host.alloc, workers)?;
    let setup = RunSetup {
        settings: start.settings,
        workers,
        stock,
    };
    if start.race {
        return race(host, source, sink, start.entries, setup).map_err(Stop::Race);
    }
    let means = RunMeans {
        alloc: host.alloc,
        collector: host.collector,
        entries: start.entries,
    };
    run_script_watched(means, source, sink, watch, setup).map_err(Stop::Script)
}

// Runs the script as a race, and writes replies, or entries where that is asked for.
fn race<P: Payload + Send, R: Threads + Wait + Sync, C, S: Source, K: Sink>(
    host: &RunHost<R, C>,
    source: &mut S,
    sink: &mut K,
    entries: bool,
    setup: RunSetup<P>,
) -> Result<(), RaceFault>
    requires startable { MayStart setup.settings setup.workers.items }
    ensures raced { RacesFrom S.left S.asked S.failures K.taken source.old source.new sink.old sink.new
        (race_from (race_text_as entries) (start_of_setup setup)) result }
    ensures finish { FinishesRace K.failures K.finished sink.old sink.new result }
{
    let RunHost { rt, alloc, .. } = *host;
    let RunSetup {
        settings,
        workers,
        stock,
    } = setup;
    if entries {
        run_race::<P, Entries, S, K, NoTurnstile, R>(
            rt,
            alloc,
            source,
            sink,
            &NoTurnstile,
            settings,
            workers,
            stock,
        )
    } else {
        run_race::<P, Replies, S, K, NoTurnstile, R>(
            rt,
            alloc,
            source,
            sink,
            &NoTurnstile,
            settings,
            workers,
            stock,
        )
    }
}
