//! Why nothing, or not all, was written for a script.

use crate::threads::ThreadsFault;
use std::alloc::{AllocError, AllocFailed};
use tg_journal::PartFault;
use tg_payload::Payload;
use tg_shared::SharedRefused;
use tg_store::StoreAuditFault;
use tg_text::{ScriptFault, WriteFailed};
use thiserror::Error;

/// Why a race ended without its whole output. Nothing was written, unless writing failed.
#[derive(Clone, Copy, PartialEq, Eq, Debug, Error)]
pub enum RaceFault {
    /// A fault in the script, or its store couldn't be opened. No line was run.
    #[error("{0}")]
    Script(ScriptFault),
    /// Memory ran out for the sessions, for the results of the lines, or for the audit.
    #[error("out of memory")]
    OutOfMemory,
    /// A worker's thread couldn't be started.
    #[error("no thread")]
    NoThread,
    /// The sessions' receipts aren't the journal's growth. Or a session reported that its worker isn't there, although
    /// no retire of the worker was entered.
    #[error("receipt mismatch")]
    ReceiptMismatch,
    /// The journal isn't a legal history of the script's opening, or of the history that the race goes on from.
    #[error("audit failed")]
    AuditFailed,
    /// The writer came to an error, took no byte, or failed to flush.
    #[error("write failed")]
    WriteFailed,
}

impl From<ScriptFault> for RaceFault {
    ghost use Rattle.std.specs.Prelude.{◌≡◌};
    ghost use Rattle.tg_threads.specs.declared.fault.RaceFault.TheVariants.{Script};

    ghost from_gives = { λ fault e. e ≡ Script fault };

    fn from(fault: ScriptFault) -> RaceFault {
        RaceFault::Script(fault)
    }
}

impl From<AllocError> for RaceFault {
    ghost use Rattle.std.specs.Prelude.{◌≡◌};
    ghost use Rattle.tg_threads.specs.declared.fault.RaceFault.TheVariants.{OutOfMemory};

    ghost from_gives = { λ _ e. e ≡ OutOfMemory };

    fn from(_error: AllocError) -> RaceFault {
        RaceFault::OutOfMemory
    }
}

impl<T: Drop> From<AllocFailed<T>> for RaceFault {
    ghost use Rattle.std.specs.Prelude.{◌≡◌};
    ghost use Rattle.tg_threads.specs.declared.fault.RaceFault.TheVariants.{OutOfMemory};

    ghost from_gives = { λ _ e. e ≡ OutOfMemory };

    // What there was no memory for is dropped.
    fn from(_refused: AllocFailed<T>) -> RaceFault {
        RaceFault::OutOfMemory
    }
}

impl<P: Payload> From<SharedRefused<P>> for RaceFault {
    ghost use Rattle.std.specs.Prelude.{◌≡◌};
    ghost use Rattle.tg_threads.specs.declared.fault.RaceFault.TheVariants.{OutOfMemory};

    ghost from_gives = { λ _ e. e ≡ OutOfMemory };

    // There was no memory for the sessions. The store comes back, and is dropped.
    fn from(refused: SharedRefused<P>) -> RaceFault {
        drop(refused);
        RaceFault::OutOfMemory
    }
}

impl From<ThreadsFault> for RaceFault {
    ghost use Rattle.std.specs.Prelude.{◌≡◌};
    ghost use Rattle.tg_threads.specs.Race.{of_threads};

    ghost from_gives = { λ fault e. e ≡ of_threads fault };

    fn from(fault: ThreadsFault) -> RaceFault {
        match fault {
            ThreadsFault::OutOfMemory => RaceFault::OutOfMemory,
            ThreadsFault::NoThread => RaceFault::NoThread,
            ThreadsFault::NoSuchWorker => RaceFault::ReceiptMismatch,
        }
    }
}

impl From<StoreAuditFault> for RaceFault {
    ghost use Rattle.std.specs.Prelude.{◌≡◌};
    ghost use Rattle.tg_threads.specs.Race.{race_fault_of_audit};

    ghost from_gives = { λ fault e. e ≡ race_fault_of_audit fault };

    // A race gives no entry up.
    fn from(fault: StoreAuditFault) -> RaceFault {
        match fault {
            StoreAuditFault::OutOfMemory => RaceFault::OutOfMemory,
            StoreAuditFault::NotWhole | StoreAuditFault::BadEntry { .. } => RaceFault::AuditFailed,
        }
    }
}

impl From<PartFault> for RaceFault {
    ghost use Rattle.std.specs.Prelude.{◌≡◌};
    ghost use Rattle.tg_threads.specs.Race.{race_fault_of_part};

    ghost from_gives = { λ fault e. e ≡ race_fault_of_part fault };

    fn from(fault: PartFault) -> RaceFault {
        match fault {
            PartFault::OutOfMemory { .. } => RaceFault::OutOfMemory,
            PartFault::BadPlace { .. } | PartFault::BadEntry { .. } => RaceFault::AuditFailed,
        }
    }
}

impl From<WriteFailed> for RaceFault {
    ghost use Rattle.std.specs.Prelude.{◌≡◌};
    ghost use Rattle.tg_threads.specs.declared.fault.RaceFault.TheVariants as fault;

    ghost from_gives = { λ _ e. e ≡ fault.WriteFailed };

    fn from(_failed: WriteFailed) -> RaceFault {
        RaceFault::WriteFailed
    }
}
