//! One error for all calls of a store, for callers that hand each of them on.
use crate::batch::BatchFault;
use crate::fault::{
    ApplyFault, CreateFault, CreateRefused, OpenFault, OpenRefused, StoreAuditFault,
};
use std::alloc::{AllocError, AllocFailed};
use tg_journal::AuditFault;
use tg_model::OpeningFault;
use tg_payload::{DraftRefused, Payload};
use tg_space::RoomFault;
use thiserror::Error;

/// Any refusal of a store, from the opening to the audit. The question mark turns the refusal of each call into this
/// one. It drops what the refused call hands back, which is an opening, drafts or one draft. A caller who needs these
/// looks at the call's own refusal.
#[derive(Clone, Copy, PartialEq, Eq, Debug, Error)]
pub enum StoreFault {
    /// There was no memory for a payload, a draft or a list.
    #[error("out of memory")]
    OutOfMemory,
    /// The opening or the limits aren't as asked.
    #[error("{0}")]
    Opening(OpeningFault),
    /// The store was not opened.
    #[error("{0}")]
    Open(OpenFault),
    /// A vertex was not made.
    #[error("{0}")]
    Create(CreateFault),
    /// A command was refused. A denial is a reply, and no refusal.
    #[error("{0}")]
    Apply(ApplyFault),
    /// A batch of commands was not done to its end.
    #[error("{0}")]
    Batch(BatchFault),
    /// A collection was refused.
    #[error("{0}")]
    Collect(RoomFault),
    /// The audit did not pass.
    #[error("{0}")]
    Audit(StoreAuditFault),
}

impl From<AllocError> for StoreFault {
    ghost use Rattle.std.specs.Prelude.{◌≡◌};
    ghost use Rattle.tg_store.specs.declared.store_fault.StoreFault.TheVariants.{OutOfMemory};

    ghost from_gives = { λ _ e. e ≡ OutOfMemory };

    fn from(_error: AllocError) -> StoreFault {
        StoreFault::OutOfMemory
    }
}

impl<T: Drop> From<AllocFailed<T>> for StoreFault {
    ghost use Rattle.std.specs.Prelude.{◌≡◌};
    ghost use Rattle.tg_store.specs.declared.store_fault.StoreFault.TheVariants.{OutOfMemory};

    ghost from_gives = { λ _ e. e ≡ OutOfMemory };

    // What there was no memory for is dropped.
    fn from(_refused: AllocFailed<T>) -> StoreFault {
        StoreFault::OutOfMemory
    }
}

impl<P: Payload> From<DraftRefused<P>> for StoreFault {
    ghost use Rattle.std.specs.Prelude.{◌≡◌};
    ghost use Rattle.tg_store.specs.declared.store_fault.StoreFault.TheVariants.{OutOfMemory};

    ghost from_gives = { λ _ e. e ≡ OutOfMemory };

    // The payload that was handed back is dropped.
    fn from(_refused: DraftRefused<P>) -> StoreFault {
        StoreFault::OutOfMemory
    }
}

impl From<OpeningFault> for StoreFault {
    ghost use Rattle.std.specs.Prelude.{◌≡◌};
    ghost use Rattle.tg_store.specs.declared.store_fault.StoreFault.TheVariants.{Opening};

    ghost from_gives = { λ fault e. e ≡ Opening fault };

    fn from(fault: OpeningFault) -> StoreFault {
        StoreFault::Opening(fault)
    }
}

impl<P: Payload> From<OpenRefused<P>> for StoreFault {
    ghost use Rattle.std.specs.Prelude.{◌≡◌};
    ghost use Rattle.tg_store.specs.declared.store_fault.StoreFault.TheVariants.{Open};

    ghost from_gives = { λ refused e. e ≡ Open refused.why };

    // The opening and the drafts that were handed back are dropped.
    fn from(refused: OpenRefused<P>) -> StoreFault {
        StoreFault::Open(refused.why)
    }
}

impl<P: Payload> From<CreateRefused<P>> for StoreFault {
    ghost use Rattle.std.specs.Prelude.{◌≡◌};
    ghost use Rattle.tg_store.specs.declared.store_fault.StoreFault.TheVariants.{Create};

    ghost from_gives = { λ refused e. e ≡ Create refused.why };

    // The draft that was handed back is dropped.
    fn from(refused: CreateRefused<P>) -> StoreFault {
        StoreFault::Create(refused.why)
    }
}

impl From<ApplyFault> for StoreFault {
    ghost use Rattle.std.specs.Prelude.{◌≡◌};
    ghost use Rattle.tg_store.specs.declared.store_fault.StoreFault.TheVariants.{Apply};

    ghost from_gives = { λ fault e. e ≡ Apply fault };

    fn from(fault: ApplyFault) -> StoreFault {
        StoreFault::Apply(fault)
    }
}

impl From<BatchFault> for StoreFault {
    ghost use Rattle.std.specs.Prelude.{◌≡◌};
    ghost use Rattle.tg_store.specs.declared.store_fault.StoreFault.TheVariants.{Batch};

    ghost from_gives = { λ fault e. e ≡ Batch fault };

    fn from(fault: BatchFault) -> StoreFault {
        StoreFault::Batch(fault)
    }
}

impl From<RoomFault> for StoreFault {
    ghost use Rattle.std.specs.Prelude.{◌≡◌};
    ghost use Rattle.tg_store.specs.declared.store_fault.StoreFault.TheVariants.{Collect};

    ghost from_gives = { λ fault e. e ≡ Collect fault };

    fn from(fault: RoomFault) -> StoreFault {
        StoreFault::Collect(fault)
    }
}

impl From<AuditFault> for StoreFault {
    ghost use Rattle.std.specs.Prelude.{◌≡◌};
    ghost use Rattle.tg_store.specs.declared.store_fault.StoreFault.TheVariants.{Audit};
    ghost use Rattle.tg_store.specs.Faults.{store_audit_fault_of};

    ghost from_gives = { λ fault e. e ≡ Audit (store_audit_fault_of fault) };

    fn from(fault: AuditFault) -> StoreFault {
        StoreFault::Audit(StoreAuditFault::from(fault))
    }
}

impl From<StoreAuditFault> for StoreFault {
    ghost use Rattle.std.specs.Prelude.{◌≡◌};
    ghost use Rattle.tg_store.specs.declared.store_fault.StoreFault.TheVariants.{Audit};

    ghost from_gives = { λ fault e. e ≡ Audit fault };

    fn from(fault: StoreAuditFault) -> StoreFault {
        StoreFault::Audit(fault)
    }
}
