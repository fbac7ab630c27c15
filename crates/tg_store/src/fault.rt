//! Why calls of a store are refused, with what they hand back.
use std::alloc::AllocError;
use tg_graph::VertexRefused;
use tg_journal::AuditFault;
use tg_model::Opening;
use tg_payload::{Draft, Payload};
use tg_space::RoomFault;
use thiserror::Error;

/// Why a store was not opened.
#[derive(Clone, Copy, PartialEq, Eq, Debug, Error)]
pub enum OpenFault {
    /// The drafts don't store the values of the opening. `at` is the first place, counted from 0, at which the law or
    /// the state differs. If all places that both have agree, `at` is the smaller of the number of drafts and the
    /// number of values.
    #[error("draft {at} does not have the opening's value, or is one too many or too few")]
    PayloadMismatch { at: u64 },
    /// There was no memory for the cells and payloads.
    #[error("out of memory")]
    OutOfMemory,
    /// Each worker needs a block, and the heap may have fewer.
    #[error("heap full")]
    HeapFull,
}

/// A store was not opened. The opening and the drafts are handed back.
#[derive(Drop)]
pub struct OpenRefused<P: Payload> {
    pub opening: Opening,
    pub drafts: Vec<Draft<P>>,
    pub why: OpenFault,
}

/// Why a store was not opened again from a snapshot.
#[derive(Clone, Copy, PartialEq, Eq, Debug, Error)]
pub enum ReopenFault {
    /// The opening and the snapshot have different limits of how many vertices may be made.
    #[error("the opening has another limit of vertices than the snapshot: take the first store's opening")]
    LimitDiffers,
    /// The snapshot has no active subject, so nobody could ever act in the store.
    #[error("the snapshot has no active subject, so nobody can act")]
    NoSubject,
    /// There was no memory for the cells and payloads, or the maker had none.
    #[error("out of memory")]
    OutOfMemory,
    /// The heap may have fewer blocks than the vertices and edges of the snapshot need.
    #[error("heap full")]
    HeapFull,
}

/// A store was not opened again. The opening is handed back.
#[derive(Drop)]
pub struct ReopenRefused {
    pub opening: Opening,
    pub why: ReopenFault,
}

/// Why a command was refused. The store is as it was.
#[derive(Clone, Copy, PartialEq, Eq, Debug, Error)]
pub enum ApplyFault {
    /// The one who asks is no worker.
    #[error("no such worker")]
    NoSuchWorker,
    /// There was no memory for the reply, the entry or a block, or a payload's own write had none.
    #[error("out of memory")]
    OutOfMemory,
    /// The nursery of the worker has no cell left for a reference, and gets no more blocks.
    #[error("heap full")]
    HeapFull,
}

/// Why no vertex was made. The store is as it was, but that `VerticesFull` and `WorkersFull` have an entry in the
/// journal.
#[derive(Clone, Copy, PartialEq, Eq, Debug, Error)]
pub enum CreateFault {
    /// The one who asks is no worker.
    #[error("no such worker")]
    NoSuchWorker,
    /// As many vertices were made as may be.
    #[error("no more vertices may be made")]
    VerticesFull,
    /// As many subjects are active as may be. Only a spawn meets it.
    #[error("no more subjects may be active")]
    WorkersFull,
    /// There was no memory for the entry, the payload's place or a block.
    #[error("out of memory")]
    OutOfMemory,
    /// The nursery of the worker has too few cells left, and gets no more blocks.
    #[error("heap full")]
    HeapFull,
}

/// No vertex was made. The draft of what it was to store is handed back.
#[derive(Drop)]
pub struct CreateRefused<P: Payload> {
    pub draft: Draft<P>,
    pub why: CreateFault,
}

/// Why a store's own journal was not audited.
#[derive(Clone, Copy, PartialEq, Eq, Debug, Error)]
pub enum StoreAuditFault {
    /// Entries were handed out or given up, or the store was opened again from a snapshot. So the store doesn't hold
    /// all entries since its opening.
    #[error("entries were given up")]
    NotWhole,
    /// There was no memory for the replay, which says nothing of the entries.
    #[error("out of memory")]
    OutOfMemory,
    /// The first entry, counted from 0, that isn't legal. No store answers so while it is what it is proved to be.
    #[error("entry {at} is not legal")]
    BadEntry { at: u64 },
}

impl From<RoomFault> for OpenFault {
    ghost use Rattle.std.specs.Prelude.{◌≡◌};
    ghost use Rattle.tg_store.specs.Faults.{open_fault_of};

    ghost from_gives = { λ fault e. e ≡ open_fault_of fault };

    fn from(fault: RoomFault) -> OpenFault {
        match fault {
            RoomFault::OutOfMemory => OpenFault::OutOfMemory,
            RoomFault::HeapFull => OpenFault::HeapFull,
        }
    }
}

impl From<RoomFault> for ReopenFault {
    ghost use Rattle.std.specs.Prelude.{◌≡◌};
    ghost use Rattle.tg_store.specs.Faults.{reopen_fault_of};

    ghost from_gives = { λ fault e. e ≡ reopen_fault_of fault };

    fn from(fault: RoomFault) -> ReopenFault {
        match fault {
            RoomFault::OutOfMemory => ReopenFault::OutOfMemory,
            RoomFault::HeapFull => ReopenFault::HeapFull,
        }
    }
}

impl From<AllocError> for ApplyFault {
    ghost use Rattle.std.specs.Prelude.{◌≡◌};
    ghost use Rattle.tg_store.specs.declared.fault.ApplyFault.TheVariants.{OutOfMemory};

    ghost from_gives = { λ _ e. e ≡ OutOfMemory };

    fn from(_error: AllocError) -> ApplyFault {
        ApplyFault::OutOfMemory
    }
}

impl From<RoomFault> for ApplyFault {
    ghost use Rattle.std.specs.Prelude.{◌≡◌};
    ghost use Rattle.tg_store.specs.Faults.{apply_fault_of};

    ghost from_gives = { λ fault e. e ≡ apply_fault_of fault };

    fn from(fault: RoomFault) -> ApplyFault {
        match fault {
            RoomFault::OutOfMemory => ApplyFault::OutOfMemory,
            RoomFault::HeapFull => ApplyFault::HeapFull,
        }
    }
}

impl From<RoomFault> for CreateFault {
    ghost use Rattle.std.specs.Prelude.{◌≡◌};
    ghost use Rattle.tg_store.specs.Faults.{create_fault_of};

    ghost from_gives = { λ fault e. e ≡ create_fault_of fault };

    fn from(fault: RoomFault) -> CreateFault {
        match fault {
            RoomFault::OutOfMemory => CreateFault::OutOfMemory,
            RoomFault::HeapFull => CreateFault::HeapFull,
        }
    }
}

impl<P: Payload> From<VertexRefused<P>> for CreateRefused<P> {
    ghost use Rattle.std.specs.Prelude.{◌≡◌};
    ghost use Rattle.tg_store.specs.Faults.{create_fault_of};

    ghost from_gives = { λ refused e. e ≡ record { draft = refused.draft; why = create_fault_of refused.why } };

    fn from(refused: VertexRefused<P>) -> CreateRefused<P> {
        let VertexRefused { draft, why } = refused;
        CreateRefused {
            draft,
            why: CreateFault::from(why),
        }
    }
}

impl From<AuditFault> for StoreAuditFault {
    ghost use Rattle.std.specs.Prelude.{◌≡◌};
    ghost use Rattle.tg_store.specs.Faults.{store_audit_fault_of};

    ghost from_gives = { λ fault e. e ≡ store_audit_fault_of fault };

    fn from(fault: AuditFault) -> StoreAuditFault {
        match fault {
            AuditFault::OutOfMemory => StoreAuditFault::OutOfMemory,
            AuditFault::BadEntry { at } => StoreAuditFault::BadEntry { at },
        }
    }
}
