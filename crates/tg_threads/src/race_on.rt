//! A race of a whole script from a history on.
ghost use Rattle.std.specs.Prelude.{◌≡◌, ◌+◌, ◌-◌, ℕ, List, Some, IfErr, IfOk, drop, length};
ghost use Rattle.std.specs.List.{All};
ghost use Rattle.tg_script.specs.Opening.{IsCommand};
ghost use Rattle.tg_threads.specs.Output.{IsRaceOutputOn};
ghost use Rattle.tg_threads.specs.Race.{CountsRace, FinishesRace, IsOfTelling, IsRaceDueOn, LeavesRaced, MayAudit, MayRaceOn, OpensSilently, RacesFrom, ReadsLines, TellsRace, WritesRace, race_on, race_read_failures, race_write_failures};
ghost use Rattle.tg_threads.specs.Tasks.{MayTellOn};
ghost use Rattle.tg_threads.specs.Telling.{text_of_told};

use crate::fault::RaceFault;
use crate::host::RaceHost;
use crate::race::{OpenedRace, Raced, finish, race_opened};
use crate::telling::RaceTelling;
use crate::turnstile::Turnstile;
use std::alloc::Global;
use std::sync::Wait;
use std::thread::Threads;
use tg_journal::Auditor;
use tg_payload::Payload;
use tg_script::{RunOn, read_script};
use tg_store::Store;
use tg_text::{Line, Sink, Source};

/// What a race goes on from.
#[derive(Drop)]
pub struct RaceOn<P: Payload> {
    /// The store, the helpers and the stock of the race. The skipped entries aren't counted at the end.
    pub from: RunOn<P>,
    /// An auditor that has come to the place of the first entry that the store holds.
    pub auditor: Auditor,
}

/// Runs the script as a race on a store that exists. The store decides who may act, and how many vertices may be made.
/// An edge line is a bad line.
///
/// The race is as [`run_race`](crate::run_race) makes it. Each active subject of the store has a thread, and the first
/// of them makes the collections. The audit goes over all entries that the store held before, and then over the entries
/// of the race. [`Replies`](crate::Replies) writes the reply to each line, and the line with the number of entries.
/// [`Entries`](crate::Entries) writes the line of each entry of the race, and the number of entries. So its output can
/// be put after a text of the store's entries, and is then a part of that text. Both numbers count all entries in the
/// store's journal but the skipped ones.
///
/// The faults are the faults of `run_race`. The sink is finished at the end, after a fault too.
pub fn run_race_on<
    P: Payload + Send,
    T: RaceTelling,
    S: Source,
    K: Sink,
    G: Turnstile + Sync,
    R: Threads + Wait + Sync,
>(host: &RaceHost<G, R>, source: &mut S, sink: &mut K, on: RaceOn<P>) -> Result<(), RaceFault>
    requires raceable { MayRaceOn on }
    ensures raced { RacesFrom S.left S.asked S.failures K.taken source.old source.new sink.old sink.new (race_on T.race_text_on on.from) result }
    ensures finish { FinishesRace K.failures K.finished sink.old sink.new result }
{
    let outcome = race_script::<P, T, S, K, G, R>(host, source, sink, on);
    finish(sink, outcome)
}

// All but that the sink is finished.
fn race_script<
    P: Payload + Send,
    T: RaceTelling,
    S: Source,
    K: Sink,
    G: Turnstile + Sync,
    R: Threads + Wait + Sync,
>(host: &RaceHost<G, R>, source: &mut S, sink: &mut K, on: RaceOn<P>) -> Result<(), RaceFault>
    requires raceable { MayRaceOn on }
    ensures output { LeavesRaced S.left K.taken source.old source.new sink.old sink.new (race_on T.race_text_on on.from) result }
    ensures due { IfErr result IsRaceDueOn }
    ensures counts { CountsRace S.asked S.failures K.failures source.old source.new sink.old sink.new result }
{
    match read_lines(host.alloc, source, sink) {
        Ok(lines) => race_lines::<P, T, K, G, R>(host, sink, on, lines),
        Err(fault) => {
            drop(on);
            Err(fault)
        }
    }
}

// The lines of a whole script, none of which is an edge line.
fn read_lines<S: Source, K: Sink>(
    alloc: Global,
    source: &mut S,
    sink: &mut K,
) -> Result<Vec<Line>, RaceFault>
    ensures commands { IfOk result (λ lines. All IsCommand lines.items) }
    ensures due { IfErr result IsRaceDueOn }
    ensures bytes { (bytes : List ℕ) → S.left source.old ≡ Some bytes → (left : List ℕ) × (S.left source.new ≡ Some left) × ReadsLines bytes result left }
    ensures silent { OpensSilently S.asked S.failures K.taken K.failures source.old source.new sink.old sink.new result }
{
    let whole = read_script(alloc, source, sink, 0)?;
    Ok(whole.lines)
}

// Runs the lines in the store, audits what it then holds, and writes the text of the race.
fn race_lines<
    P: Payload + Send,
    T: RaceTelling,
    K: Sink,
    G: Turnstile + Sync,
    R: Threads + Wait + Sync,
>(host: &RaceHost<G, R>, sink: &mut K, on: RaceOn<P>, lines: Vec<Line>) -> Result<(), RaceFault>
    requires raceable { MayRaceOn on }
    requires commands { All IsCommand lines.items }
    ensures fault { IfErr result IsRaceDueOn }
    ensures read { race_read_failures result ≡ 0 }
    ensures write_failed { K.failures sink.new ≡ K.failures sink.old + race_write_failures result }
    ensures told { (before : List ℕ) → K.taken sink.old ≡ Some before → WritesRace (IsRaceOutputOn T.race_text_on on.from lines.items) before result (K.taken sink.new) }
{
    let RaceOn { from, auditor } = on;
    let RunOn {
        store,
        helpers,
        stock,
        skipped,
    } = from;
    let place = RacePlace {
        first: store.journal().len(),
        skipped,
    };
    match race_opened::<P, G, R>(host, helpers, OpenedRace { store, lines }, stock) {
        Ok(raced) => {
            let told = tell_on::<P, T, K>(&raced, sink, auditor, place);
            drop(raced);
            told
        }
        Err(fault) => {
            drop(auditor);
            Err(fault)
        }
    }
}

// The place of the first entry of a race, and how many entries before it aren't counted.
#[derive(Clone, Copy)]
struct RacePlace {
    first: u64,
    skipped: u64,
}

// Audits what the store holds, and writes the text of the race.
fn tell_on<P: Payload, T: RaceTelling, K: Sink>(
    raced: &Raced<P>,
    sink: &mut K,
    auditor: Auditor,
    place: RacePlace,
) -> Result<(), RaceFault>
    requires tellable { MayTellOn raced.now.store.handed place.first raced.now.store.entries raced.now.told.items }
    requires audit { MayAudit raced.now.store auditor }
    ensures fault { IfErr result IsOfTelling }
    ensures read { race_read_failures result ≡ 0 }
    ensures write_failed { K.failures sink.new ≡ K.failures sink.old + race_write_failures result }
    ensures told { (before : List ℕ) → K.taken sink.old ≡ Some before →
        TellsRace raced.now.store (T.race_text_on (length raced.now.store.entries - place.skipped) (drop place.first raced.now.store.entries) (text_of_told raced.now.store.entries raced.now.told.items)) before result (K.taken sink.new) }
{
    match audit_on(&raced.store, auditor, place.skipped) {
        Ok(audited) => {
            let journal = raced.store.journal();
            let told = raced.told.as_slice();
            Ok(T::tell_on(sink, journal, place.first, told, audited)?)
        }
        Err(fault) => Err(fault),
    }
}

// Audits what the store holds. Answers how many of all its entries are counted.
fn audit_on<P: Payload>(
    store: &Store<P>,
    mut auditor: Auditor,
    skipped: u64,
) -> Result<u64, RaceFault>
    requires audit { MayAudit store.now auditor }
    ensures count { IfOk result (λ n. n ≡ length store.now.entries - skipped) }
    ensures fault { IfErr result (λ fault. fault ≡ RaceFault.OutOfMemory) }
{
    auditor.feed(store.journal())?;
    Ok(auditor.at().saturating_sub(skipped))
}
