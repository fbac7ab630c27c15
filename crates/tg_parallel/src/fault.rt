//! Why a collection by several helpers was refused.
use std::alloc::{AllocError, AllocFailed};
use tg_space::RoomFault;
use thiserror::Error;

/// Why a collection by several helpers was refused. Nothing was changed then.
#[derive(Clone, Copy, PartialEq, Eq, Debug, Error)]
pub enum HelpersFault {
    /// Memory for a growth was refused.
    #[error("out of memory")]
    OutOfMemory,
    /// A space would need more blocks than the limits give it.
    #[error("heap full")]
    HeapFull,
    /// A thread for a helper couldn't be started.
    #[error("no thread")]
    NoThread,
}

impl From<RoomFault> for HelpersFault {
    ghost use Rattle.std.specs.Prelude.{◌≡◌};
    ghost use Rattle.tg_parallel.specs.Faults.{helpers_fault_of};

    ghost from_gives = { λ fault e. e ≡ helpers_fault_of fault };

    fn from(fault: RoomFault) -> Self {
        match fault {
            RoomFault::OutOfMemory => Self::OutOfMemory,
            RoomFault::HeapFull => Self::HeapFull,
        }
    }
}

impl<T: Drop> From<AllocFailed<T>> for HelpersFault {
    ghost use Rattle.std.specs.Prelude.{◌≡◌};
    ghost use Rattle.tg_parallel.specs.declared.fault.HelpersFault.TheVariants.{OutOfMemory};

    ghost from_gives = { λ _ e. e ≡ OutOfMemory };

    fn from(_refused: AllocFailed<T>) -> Self {
        Self::OutOfMemory
    }
}

impl From<AllocError> for HelpersFault {
    ghost use Rattle.std.specs.Prelude.{◌≡◌};
    ghost use Rattle.tg_parallel.specs.declared.fault.HelpersFault.TheVariants.{OutOfMemory};

    ghost from_gives = { λ _ e. e ≡ OutOfMemory };

    fn from(_refused: AllocError) -> Self {
        Self::OutOfMemory
    }
}
