//! Why there is no room. It is the one fault of spaces, of commands on a heap, and of collections.
use std::alloc::{AllocError, AllocFailed};
use thiserror::Error;

/// Why there is no room for a request. Each call says what it leaves then.
#[derive(Clone, Copy, PartialEq, Eq, Debug, Error)]
pub enum RoomFault {
    /// Memory for a growth was refused.
    #[error("out of memory")]
    OutOfMemory,
    /// A space needs one more block, and it has as many as the limits give it, or all spaces together have.
    #[error("heap full")]
    HeapFull,
}

impl From<AllocError> for RoomFault {
    ghost use Rattle.std.specs.Prelude.{◌≡◌};
    ghost use Rattle.tg_space.specs.declared.room_fault.RoomFault.TheVariants.{OutOfMemory};

    ghost from_gives = { λ _ e. e ≡ OutOfMemory };

    fn from(_refused: AllocError) -> RoomFault {
        RoomFault::OutOfMemory
    }
}

impl<T: Drop> From<AllocFailed<T>> for RoomFault {
    ghost use Rattle.std.specs.Prelude.{◌≡◌};
    ghost use Rattle.tg_space.specs.declared.room_fault.RoomFault.TheVariants.{OutOfMemory};

    ghost from_gives = { λ _ e. e ≡ OutOfMemory };

    // What there was no memory for is dropped.
    fn from(_refused: AllocFailed<T>) -> RoomFault {
        RoomFault::OutOfMemory
    }
}
