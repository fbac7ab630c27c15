//! What a run or a race goes on from, after the history of a file.
ghost use Rattle.std.specs.Prelude.{◌≡◌, ◌≤◌, IfErr, IfOk, length};
ghost use Rattle.tg_journal.specs.Auditing.{StandsAt};
ghost use Rattle.tg_revive.specs.Reviving.{entries_made_before, graph_of_start};
ghost use Rattle.tg_store.specs.Store.{graph_of_store};
ghost use Rattle.tg_threads.specs.Race.{MayRaceOn, RacesFrom, race_on};
ghost use Rattle.tgstore.specs.Serving.{race_text_on_as};

use crate::host::RunHost;
use crate::resuming::HistoryFault;
use crate::stop::Stop;
use std::alloc::{AllocError, Global};
use std::sync::Wait;
use std::thread::Threads;
use tg_entries::HistoryStart;
use tg_journal::Auditor;
use tg_payload::Payload;
use tg_script::{RunOn, Sink, Source};
use tg_threads::{Entries, NoTurnstile, RaceFault, RaceHost, RaceOn, Replies, run_race_on};

/// What a run goes on from. Its lines are run one after the other, or as a race.
#[derive(Drop)]
pub enum Onward<P: Payload> {
    Lines(RunOn<P>),
    Race(RaceOn<P>),
}

/// An auditor at the head of a history. Fails only when out of memory.
pub(crate) fn auditor_of(alloc: Global, begin: &HistoryStart) -> Result<Auditor, AllocError>
    ensures stands { IfOk result (StandsAt (graph_of_start begin.now)) }
    ensures place { IfOk result (λ auditor. auditor.at ≡ entries_made_before begin.now) }
{
    match begin {
        HistoryStart::Opened(opening) => Auditor::open(alloc, opening),
        HistoryStart::Shown(snapshot) => Auditor::reopen(alloc, snapshot),
    }
}

/// The race that goes on from there. It is refused with `NobodyActs` exactly if no subject is active.
pub(crate) fn race_after<P: Payload>(from: RunOn<P>, auditor: Auditor) -> Result<RaceOn<P>, Stop>
    ensures on { IfOk result (λ on. (on.from ≡ from) × (on.auditor ≡ auditor)) }
    ensures acts { IfOk result (λ on. 1 ≤ length (graph_of_store from.store).subjects) }
    ensures nobody { IfErr result (λ why. (why ≡ Stop.Resume HistoryFault.NobodyActs) × (length (graph_of_store from.store).subjects ≡ 0)) }
{
    let acting = from.store.subjects().len();
    if acting > 0 {
        return Ok(RaceOn { from, auditor });
    }
    drop(from);
    drop(auditor);
    Err(Stop::Resume(HistoryFault::NobodyActs))
}

/// Runs the source's script as a race from there on, and writes replies, or entries if this is asked for.
pub(crate) fn race_onward<P: Payload + Send, R: Threads + Wait + Sync, C, S: Source, K: Sink>(
    host: &RunHost<R, C>,
    source: &mut S,
    sink: &mut K,
    entries: bool,
    on: RaceOn<P>,
) -> Result<(), RaceFault>
    requires raceable { MayRaceOn on }
    ensures raced { RacesFrom S.left S.asked S.failures K.taken source.old source.new sink.old sink.new
        (race_on (race_text_on_as entries) on.from) result }
{
    let RunHost { rt, alloc, .. } = *host;
    let host = RaceHost {
        rt,
        alloc,
        turnstile: &NoTurnstile,
    };
    if entries {
        run_race_on::<P, Entries, S, K, NoTurnstile, R>(&host, source, sink, on)
    } else {
        run_race_on::<P, Replies, S, K, NoTurnstile, R>(&host, source, sink, on)
    }
}
