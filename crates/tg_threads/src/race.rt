//! A whole script, whose workers run their lines side by side.
ghost use Rattle.std.specs.Prelude.{◌≡◌, ◌⊎◌, ◌+◌, ◌<◌, ◌≤◌, ℕ, List, [], None, Some, IfErr, IfOk, length, map};
ghost use Rattle.std.specs.List.{All};
ghost use Rattle.tg_model.specs.declared.value.Value.{Value};
ghost use Rattle.tg_script.specs.Opening.{IsCommand};
ghost use Rattle.tg_script.specs.Script.{MayStart, start_of_setup, start_with};
ghost use Rattle.tg_shared.specs.Sessions.{AreFresh, MayShare, start_of_store, subjects_at};
ghost use Rattle.tg_threads.specs.Race.{CountsRace, FinishesRace, HasFinished, HasRanLines, IsBeforeWriting, IsClosedRace, IsRaceDue, IsUnclosedRace, LeavesRaced, MayCloseRace, MayRace, MayShareForRace, OpensRace, OpensSilently, RacesFrom, RunsRace, race_from};

use crate::fault::RaceFault;
use crate::host::{RaceContext, RaceHost};
use crate::sharing::share_out;
use crate::task::Told;
use crate::telling::RaceTelling;
use crate::threads::run_threads;
use crate::turnstile::Turnstile;
use crate::weaving::{in_script_order, sessions_of};
use std::alloc::{AllocError, Global};
use std::marker::Brand;
use std::sync::Wait;
use std::thread::Threads;
use tg_payload::{Draft, Payload};
use tg_script::{Helpers, RunSetup, Settings, open_store, read_script};
use tg_shared::{Blanks, Round, Session, Shared, SharedStore, close};
use tg_store::Store;
use tg_text::{Line, Sink, Source};

/// Runs the script as a race. There is one payload for each worker, by rising name, and a stock of payloads for the
/// vertices that the script makes. The i-th create or spawn line has the i-th payload of the stock. If no vertex is
/// made, the payload is dropped.
///
/// The whole script is read first. If it has a fault, no line is run. Then each worker has a thread with its session.
/// The thread runs the worker's lines in script order, and passes the turnstile before each. Worker 0 makes the
/// collections, each by as many helpers as the settings have. After a worker's own retire was entered, its lines are
/// answered that there is no such worker. Each line of anybody who is no worker of the opening has the same answer. A
/// subject that a spawn line made has it too, because its session runs no line.
///
/// Once all threads have ended the store is closed and audited. Only then anything is written, in the way `T`.
/// [`Replies`](crate::Replies) writes the reply to each line in script order, and the line with the number of entries.
/// [`Entries`](crate::Entries) writes the text of the history.
///
/// The order in which lines of different workers are run isn't specified. Suppose that a line is refused for lack of
/// room in the heap. Then some store in the lock, with the first of the race's own entries, lacked that room. The
/// number that a full collection returns is the number of vertices of a store of the same kind.
///
/// After a fault nothing was written, unless it is `WriteFailed`, which leaves a front of the text. `NoThread` is
/// returned if a thread can't be started. The threads that were started have ended by then. `ReceiptMismatch` is also
/// returned if a session finds no such worker, and no retire of its worker was entered. The source is asked for at most
/// 1,048,577 bytes. The sink is finished at the end, after a fault too. If a fault came before, it is returned.
pub fn run_race<
    P: Payload + Send,
    T: RaceTelling,
    S: Source,
    K: Sink,
    G: Turnstile + Sync,
    R: Threads + Wait + Sync,
>(
    rt: &R,
    alloc: Global,
    source: &mut S,
    sink: &mut K,
    turnstile: &G,
    settings: Settings,
    workers: Vec<Draft<P>>,
    stock: Vec<Draft<P>>,
) -> Result<(), RaceFault>
    requires startable { MayStart settings workers.items }
    ensures raced { RacesFrom S.left S.asked S.failures K.taken source.old source.new sink.old sink.new (race_from T.race_text (start_with settings workers.items stock.items)) result }
    ensures finish { FinishesRace K.failures K.finished sink.old sink.new result }
{
    let host = RaceHost {
        rt,
        alloc,
        turnstile,
    };
    let setup = RunSetup {
        settings,
        workers,
        stock,
    };
    let outcome = race::<P, T, S, K, G, R>(&host, source, sink, setup);
    finish(sink, outcome)
}

// Finishes the sink. A fault that came before stays.
pub(crate) fn finish<K: Sink>(sink: &mut K, outcome: Result<(), RaceFault>) -> Result<(), RaceFault>
    ensures { HasFinished K.taken K.failures K.finished sink.old sink.new outcome result }
{
    if sink.finish() {
        return outcome;
    }
    match outcome {
        Ok(()) => Err(RaceFault::WriteFailed),
        Err(fault) => Err(fault),
    }
}

// All but that the sink is finished.
fn race<
    P: Payload + Send,
    T: RaceTelling,
    S: Source,
    K: Sink,
    G: Turnstile + Sync,
    R: Threads + Wait + Sync,
>(host: &RaceHost<G, R>, source: &mut S, sink: &mut K, setup: RunSetup<P>) -> Result<(), RaceFault>
    requires startable { MayStart setup.settings setup.workers.items }
    ensures output { LeavesRaced S.left K.taken source.old source.new sink.old sink.new (race_from T.race_text (start_of_setup setup)) result }
    ensures due { IfErr result (IsRaceDue (start_of_setup setup)) }
    ensures counts { CountsRace S.asked S.failures K.failures source.old source.new sink.old sink.new result }
{
    let RunSetup {
        settings,
        workers,
        stock,
    } = setup;
    let helpers = settings.helpers;
    let opened = open_race(host.alloc, source, sink, settings, workers)?;
    let raced = race_opened::<P, G, R>(host, helpers, opened, stock)?;
    let told = raced.tell::<T, K>(host.alloc, sink);
    drop(raced);
    told
}

// A store, and the lines that are to be run in it.
#[derive(Drop)]
pub(crate) struct OpenedRace<P: Payload> {
    pub(crate) store: Store<P>,
    pub(crate) lines: Vec<Line>,
}

// Reads the whole script, and opens its store.
fn open_race<P: Payload, S: Source, K: Sink>(
    alloc: Global,
    source: &mut S,
    sink: &mut K,
    settings: Settings,
    workers: Vec<Draft<P>>,
) -> Result<OpenedRace<P>, RaceFault>
    requires startable { MayStart settings workers.items }
    ensures limits { IfOk result (λ opened. opened.store.heap.table.limits ≡ settings.limits) }
    ensures new { IfOk result (λ opened. (opened.store.opening.plan.workers ≡ settings.workers) × (opened.store.entries ≡ []) × (opened.store.opening.shown ≡ None)) }
    ensures commands { IfOk result (λ opened. All IsCommand opened.lines.items) }
    ensures output { (bytes : List ℕ) → S.left source.old ≡ Some bytes →
        (left : List ℕ) × (S.left source.new ≡ Some left) × OpensRace (start_with settings workers.items []) bytes result left }
    ensures due { (stock : List Value) → IfErr result (IsRaceDue (start_with settings workers.items stock)) }
    ensures silent { OpensSilently S.asked S.failures K.taken K.failures source.old source.new sink.old sink.new result }
{
    let whole = read_script(alloc, source, sink, settings.workers)?;
    let store = open_store(alloc, &settings, whole.edges, workers)?;
    Ok(OpenedRace {
        store,
        lines: whole.lines,
    })
}

// The store once all lines were run, and what they came to, in script order.
#[derive(Drop)]
pub(crate) struct Raced<P: Payload> {
    pub(crate) store: Store<P>,
    pub(crate) told: Vec<Told>,
}

impl<P: Payload> Raced<P> {
    ghost use Rattle.std.specs.Prelude.{◌≡◌, ◌+◌, List, ℕ, None, Some, IfErr};
    ghost use Rattle.std.specs.List.{All};
    ghost use Rattle.tg_threads.specs.Race.{IsOfTelling, TellsRace, race_read_failures, race_write_failures};
    ghost use Rattle.tg_threads.specs.Telling.{IsThere, text_of_told};

    // Audits the journal, and writes the text of the race.
    fn tell<T: RaceTelling, K: Sink>(&self, alloc: Global, sink: &mut K) -> Result<(), RaceFault>
        requires there { All (IsThere self.now.store.handed self.now.store.entries) self.now.told.items }
        requires none_handed { self.now.store.handed ≡ 0 }
        requires first { self.now.store.opening.shown ≡ None }
        ensures fault { IfErr result IsOfTelling }
        ensures read { race_read_failures result ≡ 0 }
        ensures write_failed { K.failures sink.new ≡ K.failures sink.old + race_write_failures result }
        ensures told { (before : List ℕ) → K.taken sink.old ≡ Some before →
            TellsRace self.now.store (T.race_text self.now.store.opening.plan self.now.store.entries (text_of_told self.now.store.entries self.now.told.items)) before result (K.taken sink.new) }
    {
        let audited = self.store.audit(alloc)?;
        let opening = self.store.opening();
        let journal = self.store.journal();
        let told = self.told.as_slice();
        Ok(T::tell(sink, opening, journal, told, audited.entries())?)
    }
}

// Runs the lines in the store, each by the thread of its worker, and closes. Each active subject has a thread.
pub(crate) fn race_opened<P: Payload + Send, G: Turnstile + Sync, R: Threads + Wait + Sync>(
    host: &RaceHost<G, R>,
    helpers: Helpers,
    opened: OpenedRace<P>,
    stock: Vec<Draft<P>>,
) -> Result<Raced<P>, RaceFault>
    requires raceable { MayRace (start_of_store opened.store) opened.lines.items }
    ensures run { RunsRace helpers (start_of_store opened.store) stock.items opened.lines.items result }
{
    let blanks = Blanks::new(host.alloc, opened.store.opening().max_vertices() + 1)?;
    share::<Brand, P, G, R>(host, helpers, blanks, opened, stock)
}

// Shares the store, runs the lines, and closes.
fn share<L: Round + Send + Sync, P: Payload + Send, G: Turnstile + Sync, R: Threads + Wait + Sync>(
    host: &RaceHost<G, R>,
    helpers: Helpers,
    blanks: Blanks,
    opened: OpenedRace<P>,
    stock: Vec<Draft<P>>,
) -> Result<Raced<P>, RaceFault>
    requires shareable { MayShare L.name L.parts L.keeper L.start blanks opened.store }
    requires whole { MayShareForRace L.start }
    requires raceable { MayRace L.start opened.lines.items }
    ensures run { RunsRace helpers L.start stock.items opened.lines.items result }
{
    let OpenedRace { store, lines } = opened;
    let shared = SharedStore::<L, P>::new(host.alloc, blanks, store)?;
    run_shared(host, helpers, shared, stock, lines.as_slice())
}

// Runs the lines in the shared store, and closes.
fn run_shared<
    L: Round + Send + Sync,
    P: Payload + Send,
    G: Turnstile + Sync,
    R: Threads + Wait + Sync,
>(
    host: &RaceHost<G, R>,
    helpers: Helpers,
    shared: Shared<L, P>,
    stock: Vec<Draft<P>>,
    lines: &[Line],
) -> Result<Raced<P>, RaceFault>
    requires whole { MayShareForRace L.start }
    requires raceable { MayRace L.start lines.now }
    requires fresh { AreFresh (subjects_at L.start) shared.sessions.items }
    ensures run { RunsRace helpers L.start stock.items lines.now result }
{
    let Shared {
        store,
        sessions,
        ..
    } = shared;
    let context = RaceContext {
        host,
        store: &store,
        helpers,
    };
    match run_lines(&context, sessions, stock, lines) {
        Ok(ran) => close_ran(store, ran),
        Err(fault) => {
            drop(store);
            Err(fault)
        }
    }
}

// The sessions that come back, and what the lines came to, in script order.
#[derive(Drop)]
pub(crate) struct RanLines<S> {
    sessions: Vec<S>,
    told: Vec<Told>,
}

// Runs the lines, each by the session of its worker.
fn run_lines<
    L: Round + Send + Sync,
    P: Payload + Send,
    G: Turnstile + Sync,
    R: Threads + Wait + Sync,
>(
    context: &RaceContext<L, P, G, R>,
    sessions: Vec<Session<L>>,
    stock: Vec<Draft<P>>,
    lines: &[Line],
) -> Result<RanLines<Session<L>>, RaceFault>
    requires some { 1 ≤ length (subjects_at L.start) }
    requires fresh { AreFresh (subjects_at L.start) sessions.items }
    ensures ran { IfOk result (HasRanLines L.start context.now.helpers stock.items lines.now) }
    ensures fault { IfErr result IsBeforeWriting }
{
    let alloc = context.host.alloc;
    let names = names_of(alloc, sessions.as_slice())?;
    let crew = names.as_slice();
    let works = share_out(alloc, crew, sessions, stock, lines)?;
    let finished = run_threads(context, works)?;
    let brought = finished.as_slice();
    let told = in_script_order(alloc, crew, lines, brought)?;
    let sessions = sessions_of(alloc, finished)?;
    Ok(RanLines { sessions, told })
}

// The names of the sessions' workers. Fails only when out of memory.
fn names_of<L: Round>(alloc: Global, sessions: &[Session<L>]) -> Result<Vec<u64>, AllocError>
    ensures { IfOk result (λ names. names.items ≡ map (λ s. s.worker) sessions.now) }
{
    let mut names = Vec::with_capacity(alloc, sessions.len())?;
    for session in sessions {
        names.push(session.worker())?;
    }
    Ok(names)
}

// Closes the store with the sessions that came back.
fn close_ran<L: Round, P: Payload>(
    store: SharedStore<L, P>,
    ran: RanLines<Session<L>>,
) -> Result<Raced<P>, RaceFault>
    requires { MayCloseRace L.start ran.sessions.items }
    ensures closed { IfOk result (λ raced. IsClosedRace L.start ran.sessions.items raced.store × (raced.told.items ≡ ran.told.items)) }
    ensures fault { IfErr result (λ fault. fault ≡ RaceFault.ReceiptMismatch) }
{
    let RanLines { sessions, told } = ran;
    match closed(store, sessions) {
        Ok(store) => Ok(Raced { store, told }),
        Err(fault) => {
            drop(told);
            Err(fault)
        }
    }
}

// The store, where all sessions have come back and their receipts are right. Where no receipt was handed out, no entry
// was.
fn closed<L: Round, P: Payload>(
    store: SharedStore<L, P>,
    sessions: Vec<Session<L>>,
) -> Result<Store<P>, RaceFault>
    requires { MayCloseRace L.start sessions.items }
    ensures closed { IfOk result (IsClosedRace L.start sessions.items) }
    ensures due { IfErr result (IsUnclosedRace L.start sessions.items) }
{
    match close(store, sessions) {
        Ok(store) => Ok(store),
        Err(refused) => {
            drop(refused);
            Err(RaceFault::ReceiptMismatch)
        }
    }
}
