//! The threads of the workers.
ghost use Rattle.std.specs.Prelude.{◌≡◌, ◌≢◌, ℕ, IfOk, IfErr, map};
ghost use Rattle.std.specs.List.{All};
ghost use Rattle.tg_threads.specs.Tasks.{AllBring, HadNone, RunsTasks, assigned_of, promised_by};
ghost use Rattle.tg_threads.specs.Boxes.{boxed_of};

use crate::host::RaceContext;
use crate::task::Task;
use crate::turnstile::Turnstile;
use crate::worker::{Finished, run_tasks};
use std::alloc::{AllocError, AllocFailed, Global};
use std::snapshot::Snapshot;
use std::sync::Wait;
use std::thread;
use std::thread::{Promise, PromisedHandle, Scope, Threads};
use tg_payload::Payload;
use tg_script::Helpers;
use tg_shared::{Round, Session};
use thiserror::Error;

/// A worker's session, and the lines that its thread has to run.
pub type Work<L, P> = crate::work::Work<Session<L>, P>;

/// Why not all of the workers' lines were run. The sessions are lost.
#[derive(Clone, Copy, PartialEq, Eq, Debug, Error)]
pub enum ThreadsFault {
    /// There was no memory for the results of a worker's lines. None of that worker's lines was run.
    #[error("out of memory")]
    OutOfMemory,
    /// A worker's thread couldn't be started. The threads that were started have ended.
    #[error("no thread")]
    NoThread,
    /// A session answered that its worker is no subject, though no retire of the worker was entered.
    #[error("no such worker")]
    NoSuchWorker,
}

impl From<AllocError> for ThreadsFault {
    ghost use Rattle.std.specs.Prelude.{◌≡◌};
    ghost use Rattle.tg_threads.specs.declared.threads.ThreadsFault.TheVariants.{OutOfMemory};

    ghost from_gives = { λ _ e. e ≡ OutOfMemory };

    fn from(_error: AllocError) -> ThreadsFault {
        ThreadsFault::OutOfMemory
    }
}

impl<T: Drop> From<AllocFailed<T>> for ThreadsFault {
    ghost use Rattle.std.specs.Prelude.{◌≡◌};
    ghost use Rattle.tg_threads.specs.declared.threads.ThreadsFault.TheVariants.{OutOfMemory};

    ghost from_gives = { λ _ e. e ≡ OutOfMemory };

    // What there was no memory for is dropped.
    fn from(_refused: AllocFailed<T>) -> ThreadsFault {
        ThreadsFault::OutOfMemory
    }
}

/// The promise of a worker's thread. It brings back its session, which has run these lines, with so many helpers of a
/// collection.
#[derive(Drop)]
pub(crate) struct Assigned<P: Payload> {
    helpers: Helpers,
    worker: u64,
    tasks: Snapshot<Vec<Task<P>>>,
}

impl<L: Round, P: Payload> Promise<Result<Finished<L>, ThreadsFault>> for Assigned<P> {
    ghost use Rattle.std.specs.Prelude.{◌≢◌, IfErr, IfOk, map};
    ghost use Rattle.tg_threads.specs.declared.threads.ThreadsFault.TheVariants.{NoThread};
    ghost use Rattle.tg_threads.specs.Tasks.{Brings, arena_seen};
    ghost use Rattle.tg_threads.specs.Boxes.{boxed_of};

    ghost kept_by = { λ p r. IfErr r (λ fault. fault ≢ NoThread) × IfOk r (λ finished. Brings (arena_seen L.start p.helpers finished) p.worker (map boxed_of p.tasks.value.items) finished) };
}

/// Gives each worker a thread that runs its lines, and waits for all of them. The results are in the order of the
/// workers. Each session has run its lines one after the other. The result of each line is a receipt, a refusal or a
/// collection, which has so many helpers. If a thread can't be started, the threads that were started run to their end.
/// The sessions never had a receipt before.
pub fn run_threads<
    L: Round + Send + Sync,
    P: Payload + Send,
    G: Turnstile + Sync,
    R: Threads + Wait + Sync,
>(
    context: &RaceContext<L, P, G, R>,
    works: Vec<Work<L, P>>,
) -> Result<Vec<Finished<L>>, ThreadsFault>
    requires fresh { All (λ w. HadNone w.session) works.items }
    ensures { IfOk result (λ all. AllBring L.start context.now.helpers (map assigned_of works.items) all.items) }
{
    let rt = context.host.rt;
    thread::scope(
        thread::scope_env(),
        rt,
        |scope| -> Result<Vec<Finished<L>>, ThreadsFault>
            requires { All (λ w. HadNone w.session) works.items }
            ensures { IfOk result (λ all. AllBring L.start context.entry.now.helpers (map assigned_of works.items) all.items) }
        {
            let handles = start_all(context, scope, works)?;
            join_all(context.host.rt, context.host.alloc, handles)
        },
    )
}

// Starts a thread for each worker.
fn start_all<
    's,
    E,
    L: Round + Send + Sync,
    P: Payload + Send,
    G: Turnstile + Sync,
    R: Threads + Wait + Sync,
>(
    context: &'s RaceContext<'s, L, P, G, R>,
    scope: &Scope<'s, E>,
    works: Vec<Work<L, P>>,
) -> Result<Vec<PromisedHandle<Result<Finished<L>, ThreadsFault>, Assigned<P>>>, ThreadsFault>
    requires fresh { All (λ w. HadNone w.session) works.items }
    ensures promises { IfOk result (λ handles. map promised_by handles.items ≡ map assigned_of works.items) }
    ensures helpers { IfOk result (λ handles. All (λ h. h.promise.helpers ≡ context.now.helpers) handles.items) }
{
    let mut handles = Vec::with_capacity(context.host.alloc, works.len())?;
    for work in works {
        let handle = start(context, scope, work)?;
        handles.push(handle)?;
    }
    Ok(handles)
}

// Starts a thread that runs the worker's lines.
fn start<
    's,
    E,
    L: Round + Send + Sync,
    P: Payload + Send,
    G: Turnstile + Sync,
    R: Threads + Wait + Sync,
>(
    context: &'s RaceContext<'s, L, P, G, R>,
    scope: &Scope<'s, E>,
    work: Work<L, P>,
) -> Result<PromisedHandle<Result<Finished<L>, ThreadsFault>, Assigned<P>>, ThreadsFault>
    requires fresh { HadNone work.session }
    ensures promise { IfOk result (λ handle. promised_by handle ≡ assigned_of work) }
    ensures helpers { IfOk result (λ handle. handle.promise.helpers ≡ context.now.helpers) }
    ensures fault { IfErr result (λ fault. fault ≡ ThreadsFault.NoThread) }
{
    let crate::work::Work { session, tasks } = work;
    let assigned = Assigned {
        helpers: context.helpers,
        worker: session.worker(),
        tasks: Snapshot::of(&tasks),
    };
    let Ok(handle) = scope.spawn_with(
        assigned,
        move || -> Result<Finished<L>, ThreadsFault>
            requires { HadNone session }
            ensures ran { RunsTasks L.start context.entry.now.helpers session.worker (map boxed_of tasks.items) result }
        { run_tasks(context, session, tasks) },
    ) else {
        return Err(ThreadsFault::NoThread);
    };
    Ok(handle)
}

// Waits for the threads, and gives what they brought back, in order. Their collections have all as many helpers.
fn join_all<L: Round, P: Payload, R: Threads>(
    rt: &R,
    alloc: Global,
    handles: Vec<PromisedHandle<Result<Finished<L>, ThreadsFault>, Assigned<P>>>,
) -> Result<Vec<Finished<L>>, ThreadsFault>
    ensures brought { (helpers : ℕ) → All (λ h. h.promise.helpers ≡ helpers) handles.items → IfOk result (λ all. AllBring L.start helpers (map promised_by handles.items) all.items) }
    ensures fault { IfErr result (λ fault. fault ≢ ThreadsFault.NoThread) }
{
    let mut all = Vec::new(alloc);
    for handle in handles {
        all.push(handle.join(rt)?)?;
    }
    Ok(all)
}
