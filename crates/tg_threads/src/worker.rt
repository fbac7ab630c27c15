//! The run of one worker's lines.
ghost use Rattle.std.specs.Prelude.{◌≡◌, ◌≢◌, ◌<◌, ◌≤◌, ◌++◌, ◌∷◌, ◌↔◌, [], ℕ, Bool, true, false, if◌then◌else◌, length, map, List, Some, Err, IfErr, IfOk, OnOk};
ghost use Rattle.std.specs.List.{count_by};
ghost use Rattle.std.specs.Vec.{vec_len, vec_capacity};
ghost use Rattle.tg_model.specs.declared.command.Deed.TheVariants as Deed;
ghost use Rattle.tg_model.specs.declared.reply.Reply.{Reply as ReplyOf};
ghost use Rattle.tg_model.specs.Graph.{IsSubject};
ghost use Rattle.tg_store.specs.Room.{LacksRoomToCollect};
ghost use Rattle.tg_store.specs.Store.{graph_of_store};
ghost use Rattle.tg_script.specs.Refusals.{create_answer};
ghost use Rattle.tg_script.specs.Script.{MayWant, create_of, spawn_of};
ghost use Rattle.tg_passes.specs.Passes.{entries_of};
ghost use Rattle.tg_shared.specs.Sessions.{AtSeen, HasLooked, LeavesAtSeen};
ghost use Rattle.tg_shared.specs.declared.receipt.Receipt.{Receipt as ReceiptOf};
ghost use Rattle.tg_text.specs.declared.answer.Refusal.{Refusal as RefusalOf};
ghost use Rattle.tg_threads.specs.Output.{arena_of, is_retire_of};
ghost use Rattle.tg_threads.specs.Tasks.{Brings, HadNone, HasAsked, HasCollected, HasMadeVertex, IsToldOrGone, KeepsSpawned, RunsTask, RunsTasks, arena_seen, is_deed, may_make_subject, served_past};
ghost use Rattle.tg_threads.specs.Boxes.{boxed_of};

use crate::host::RaceContext;
use crate::task::{Task, Told};
use crate::threads::ThreadsFault;
use crate::turnstile::Turnstile;
use std::alloc::Global;
use std::sync::Wait;
use std::thread::Threads;
use tg_model::Command;
use tg_payload::{Draft, Payload};
use tg_rights::Label;
use tg_script::{apply_refusal, collect_refusal, create_answer, helpers_refusal};
use tg_shared::{Gate, NoGate, Round, Session, SharedStore};
use tg_store::{ApplyFault, CreateFault, Kind};
use tg_text::{Answer, Line, Refusal};

/// A worker's session after its lines, and the result of each line, in their order.
pub type Finished<L> = crate::work::Finished<Session<L>>;

/// Runs the lines, one after the other, and passes the turnstile before each. A collection has so many helpers. After
/// the worker's own retire was entered, its lines are refused and their payloads dropped. Its collections are still
/// run.
///
/// A lack of memory is reported before any line is run. `NoSuchWorker` is returned if the session returns it, and no
/// retire of the worker was entered.
pub(crate) fn run_tasks<L: Round, P: Payload, G: Turnstile, R: Threads + Wait + Sync>(
    context: &RaceContext<L, P, G, R>,
    session: Session<L>,
    tasks: Vec<Task<P>>,
) -> Result<Finished<L>, ThreadsFault>
    requires fresh { HadNone session }
    ensures ran { RunsTasks L.start context.now.helpers session.worker (map boxed_of tasks.items) result }
{
    let (told, spawned) = room_for(context.host.alloc, tasks.as_slice())?;
    let mut finished = crate::work::Finished {
        session,
        spawned,
        told,
    };
    match run_each(context, &mut finished, tasks) {
        Ok(()) => Ok(finished),
        Err(fault) => {
            drop(finished);
            Err(fault)
        }
    }
}

// Room for what the lines come to, and for the sessions of the subjects that they make.
fn room_for<L: Round, P: Payload>(
    alloc: Global,
    tasks: &[Task<P>],
) -> Result<(Vec<Told>, Vec<Session<L>>), ThreadsFault>
    ensures none { IfOk result (λ room. (room.0.items ≡ []) × (room.1.items ≡ [])) }
    ensures room { IfOk result (λ room. count_by may_make_subject tasks.now ≤ vec_capacity room.1) }
    ensures fault { IfErr result (λ fault. fault ≡ ThreadsFault.OutOfMemory) }
{
    let told = Vec::with_capacity(alloc, tasks.len())?;
    let spawned = Vec::with_capacity(alloc, spawn_lines(tasks))?;
    Ok((told, spawned))
}

// Runs the lines of a session that has run none.
fn run_each<L: Round, P: Payload, G: Turnstile, R: Threads + Wait + Sync>(
    context: &RaceContext<L, P, G, R>,
    finished: &mut Finished<L>,
    tasks: Vec<Task<P>>,
) -> Result<(), ThreadsFault>
    requires fresh { HadNone finished.old.session }
    requires none { (finished.old.told.items ≡ []) × (finished.old.spawned.items ≡ []) }
    requires room { count_by may_make_subject tasks.items ≤ vec_capacity finished.old.spawned }
    ensures ran { OnOk result (Brings (arena_seen L.start context.now.helpers finished.new) finished.old.session.worker (map boxed_of tasks.items) finished.new) }
    ensures fault { IfErr result (λ fault. fault ≢ ThreadsFault.NoThread) }
{
    let mut served = true;
    for task in tasks {
        context.host.turnstile.pass(finished.session.worker());
        let line = task.line;
        let one = run_task(
            context,
            served,
            &mut finished.session,
            &mut finished.spawned,
            task,
        )?;
        served = is_served_past(finished.session.worker(), served, &line, one);
        finished.told.push(one)?;
    }
    Ok(())
}

// How many of the lines may make a subject.
fn spawn_lines<P: Payload>(tasks: &[Task<P>]) -> usize
    ensures { result ≡ count_by may_make_subject tasks.now }
{
    let mut count = 0;
    for task in tasks {
        if matches!(task.line, Line::Spawn { .. }) {
            count += 1;
        }
    }
    count
}

// Whether this worker's lines are run after the line, which came to this.
fn is_served_past(worker: u64, served: bool, line: &Line, told: Told) -> bool
    ensures { (before : ℕ → Bool) → before worker ≡ served → result ≡ served_past before line.now told worker }
{
    match told {
        Told::Entered { .. } => served && !is_retire_of(worker, line),
        Told::Collected(_) | Told::Refused(_) => served,
    }
}

// Whether the line is a retire of this worker.
fn is_retire_of(worker: u64, line: &Line) -> bool
    ensures { result ≡ is_retire_of worker line.now }
{
    match line {
        Line::Plain {
            worker: other,
            command: Command::Retire,
        } => *other == worker,
        _ => false,
    }
}

// Whether the line is refused where its worker's lines are run or not: where they aren't, one that asks for a deed.
fn is_refused(served: bool, line: &Line) -> bool
    ensures { result ≡ (if served then false else is_deed line.now) }
{
    !served
        && matches!(
            line,
            Line::Plain { .. } | Line::Create { .. } | Line::Spawn { .. }
        )
}

// Runs one line, or refuses it where the worker's lines aren't run.
fn run_task<L: Round, P: Payload, G: Turnstile, R: Threads + Wait + Sync>(
    context: &RaceContext<L, P, G, R>,
    served: bool,
    session: &mut Session<L>,
    spawned: &mut Vec<Session<L>>,
    task: Task<P>,
) -> Result<Told, ThreadsFault>
    requires room { may_make_subject task ≡ true → vec_len spawned.old < vec_capacity spawned.old }
    ensures run { RunsTask L.start context.now.helpers served task session.old session.new result }
    ensures spawned { KeepsSpawned (if may_make_subject task then 1 else 0) session.old session.new spawned.old spawned.new result }
    ensures gone { IfErr result (λ why. (why ≡ ThreadsFault.NoSuchWorker) × AtSeen L.start session.new.seen (λ s. ¬ IsSubject (graph_of_store s) session.old.worker)) }
{
    let Task { line, draft } = task;
    if is_refused(served, &line) {
        return Ok(Told::Refused(Refusal::Worker));
    }
    match line {
        Line::Plain { command, .. } => apply(context.host.rt, context.store, session, command),
        Line::Create { label, .. } => create(context, session, label, draft),
        Line::Spawn { label, .. } => spawn(context, session, spawned, label, draft),
        Line::Full => Ok(collect(context, session, Kind::Full)),
        Line::Minor => Ok(collect(context, session, Kind::Nursery)),
        // No thread runs an edge line.
        Line::Edge(_) => Ok(Told::Refused(Refusal::Worker)),
    }
}

fn apply<L: Round, P: Payload, R: Wait>(
    rt: &R,
    store: &SharedStore<L, P>,
    session: &mut Session<L>,
    command: Command,
) -> Result<Told, ThreadsFault>
    ensures told { IsToldOrGone L.start session.old session.new (λ told. HasAsked L.start (Deed.Plain command) told session.old session.new) result }
{
    match session.call(rt, store, command) {
        Ok(_) => Ok(last_told(session)),
        Err(ApplyFault::NoSuchWorker) => Err(ThreadsFault::NoSuchWorker),
        Err(fault) => Ok(Told::Refused(apply_refusal(fault))),
    }
}

// The payload is dropped where no vertex is made.
fn create<L: Round, P: Payload, G, R: Wait>(
    context: &RaceContext<L, P, G, R>,
    session: &mut Session<L>,
    label: Label,
    draft: Option<Draft<P>>,
) -> Result<Told, ThreadsFault>
    ensures told { IsToldOrGone L.start session.old session.new (λ told. HasMadeVertex L.start (create_of label) draft told session.old session.new) result }
{
    let Some(draft) = draft else {
        return Ok(Told::Refused(Refusal::Stock));
    };
    match session.create(context.host.rt, context.store, label, draft) {
        Ok(_) => Ok(last_told(session)),
        Err(refused) => {
            let why = refused.why;
            drop(refused);
            not_made(session, why)
        }
    }
}

// As a create. The new subject's session is kept with the others, for which there is room.
fn spawn<L: Round, P: Payload, G, R: Wait>(
    context: &RaceContext<L, P, G, R>,
    session: &mut Session<L>,
    spawned: &mut Vec<Session<L>>,
    label: Label,
    draft: Option<Draft<P>>,
) -> Result<Told, ThreadsFault>
    requires room { vec_len spawned.old < vec_capacity spawned.old }
    ensures told { IsToldOrGone L.start session.old session.new (λ told. HasMadeVertex L.start (spawn_of label) draft told session.old session.new) result }
    ensures spawned { KeepsSpawned 1 session.old session.new spawned.old spawned.new result }
{
    let Some(draft) = draft else {
        return Ok(Told::Refused(Refusal::Stock));
    };
    match session.spawn(context.host.rt, context.store, label, draft) {
        Ok(fresh) => {
            spawned.push_reserved(fresh);
            Ok(last_told(session))
        }
        Err(refused) => {
            let why = refused.why;
            drop(refused);
            not_made(session, why)
        }
    }
}

// The reply to a create or a spawn that made no vertex, as in a script. If the refusal has an entry, the entry has the
// reply. That there is no such worker is a fault.
fn not_made<L: Round>(session: &Session<L>, why: CreateFault) -> Result<Told, ThreadsFault>
    requires { (reply : ReplyOf) → create_answer why ≡ Answer.Reply reply → 0 < length session.now.receipts }
    ensures refused { (refusal : RefusalOf) → create_answer why ≡ Answer.Refused refusal → IfOk result (λ told. told ≡ Told.Refused refusal) }
    ensures entered { (reply : ReplyOf) → create_answer why ≡ Answer.Reply reply → (front : List ReceiptOf) (last : ReceiptOf) → session.now.receipts ≡ front ++ last ∷ [] → IfOk result (λ told. told ≡ Told.Entered last.at) }
    ensures fault { (result ≡ Err ThreadsFault.NoSuchWorker) ↔ (why ≡ CreateFault.NoSuchWorker) }
    ensures alone { IfErr result (λ fault. fault ≡ ThreadsFault.NoSuchWorker) }
{
    if why == CreateFault::NoSuchWorker {
        return Err(ThreadsFault::NoSuchWorker);
    }
    match create_answer(why) {
        Answer::Refused(refusal) => Ok(Told::Refused(refusal)),
        Answer::Reply(_) => Ok(last_told(session)),
        Answer::Collected(_) => unreachable!(),
    }
}

// Only a full collection reports how many vertices the heap then has.
fn collect<L: Round, P: Payload, G, R: Threads + Wait + Sync>(
    context: &RaceContext<L, P, G, R>,
    session: &mut Session<L>,
    kind: Kind,
) -> Told
    ensures collected { HasCollected (arena_of L.start context.now.helpers (entries_of session.new.seen)) kind result }
    ensures looked { HasLooked session.old session.new }
{
    match (collect_by(context, session, kind, &NoGate), kind) {
        (Ok(kept), Kind::Full) => Told::Collected(Some(kept)),
        (Ok(_), Kind::Nursery) => Told::Collected(None),
        (Err(refusal), _) => Told::Refused(refusal),
    }
}

/// Makes a collection of a race, which a worker's thread asks its session for. It is made by as many helpers as the
/// context says, and each helper passes the gate. A single helper is that thread, which collects alone and passes no
/// gate. The answer is the number of vertices that the heap then has.
///
/// `Heap` is the refusal of a store with exactly the entries that the session has then seen. In such a store each of
/// several helpers may leave a block open. `Threads` is returned only with several helpers, if a thread couldn't be
/// started. The only other refusal is `Memory`.
pub fn collect_by<L: Round, P: Payload, G, R: Threads + Wait + Sync, H: Gate>(
    context: &RaceContext<L, P, G, R>,
    session: &mut Session<L>,
    kind: Kind,
    gate: &H,
) -> Result<u64, Refusal>
    ensures number { IfOk result (LeavesAtSeen L.start session.new.seen kind) }
    ensures refused { IfErr result (MayWant context.now.helpers) }
    ensures full { IfErr result (λ why. why ≡ Refusal.Heap → AtSeen L.start session.new.seen (λ s.
        LacksRoomToCollect kind context.now.helpers s.heap)) }
    ensures looked { HasLooked session.old session.new }
{
    let number = context.helpers.number();
    if number == 1 {
        return match session.collect(context.host.rt, context.store, kind) {
            Ok(kept) => Ok(kept),
            Err(fault) => Err(collect_refusal(fault)),
        };
    }
    match session.collect_with(context.host.rt, context.store, kind, number, gate) {
        Ok(kept) => Ok(kept),
        Err(fault) => Err(helpers_refusal(fault)),
    }
}

// The entry of the last receipt.
fn last_told<L: Round>(session: &Session<L>) -> Told
    requires { 0 < length session.now.receipts }
    ensures { (front : List ReceiptOf) (last : ReceiptOf) → session.now.receipts ≡ front ++ last ∷ [] → result ≡ Told.Entered last.at }
{
    let last = session.receipts().len() - 1;
    Told::Entered {
        at: session.receipts()[last].at,
    }
}
