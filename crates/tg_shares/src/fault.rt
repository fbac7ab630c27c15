//! Why a purse refuses, why a worker doesn't leave, and why a client's batch stops.
use tg_shared::CreatesFault;
use tg_store::{ApplyFault, BatchFault};
use thiserror::Error;

/// The kind of share of which a purse has too few.
#[derive(Clone, Copy, PartialEq, Eq, Debug, Error)]
pub enum Lack {
    /// Vertices that may still be made.
    #[error("vertices")]
    Vertices,
    /// Entries of the journal.
    #[error("entries")]
    Entries,
}

/// A worker's own share is used up, whatever the store has. Nothing is changed by it.
#[derive(Clone, Copy, PartialEq, Eq, Debug, Error)]
#[error("too few {lacks} are left in the share of worker {worker}")]
pub struct ShareFault {
    pub worker: u64,
    pub lacks: Lack,
}

/// Why a worker does not leave. Nothing is changed by it.
#[derive(Clone, Copy, PartialEq, Eq, Debug, Error)]
pub enum LeaveFault {
    /// Its purse has fewer entries than its edges and one more. The keeper can still end it.
    #[error("{0}")]
    Share(ShareFault),
    /// The store refuses, because there is no such worker, or memory ran out.
    #[error("{0}")]
    Store(ApplyFault),
}

/// Why a client's batch of commands was not done to its end.
#[derive(Clone, Copy, PartialEq, Eq, Debug, Error)]
pub enum PaidCallsFault {
    /// The purse has no entry left. `done` is how many commands were done before, and so the place in the batch of the
    /// command that it can't pay for, counted from 0. This command and the commands after it were not asked for.
    #[error("command {done} of the batch: {why}")]
    Share { done: u64, why: ShareFault },
    /// The session's batch was refused or stopped, as by [`Session::call_all`](tg_shared::Session::call_all).
    #[error("{0}")]
    Store(BatchFault),
}

/// Why a client's batch of creates was not done to its end.
#[derive(Clone, Copy, PartialEq, Eq, Debug, Error)]
pub enum PaidCreatesFault {
    /// The purse has no vertex or no entry left. `done` is how many vertices were made before, and so the place in the
    /// batch of the draft that it can't pay for, counted from 0. Nothing was asked for this draft and the drafts after
    /// it.
    #[error("draft {done} of the batch: {why}")]
    Share { done: u64, why: ShareFault },
    /// The session's batch was refused or stopped, as by [`Session::create_all`](tg_shared::Session::create_all).
    #[error("{0}")]
    Store(CreatesFault),
}
