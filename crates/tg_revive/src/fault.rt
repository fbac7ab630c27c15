//! Why no store goes on from a history.
ghost use Rattle.std.specs.Prelude.{◌≡◌};

use std::alloc::AllocError;
use tg_resume::Halted;
use tg_space::RoomFault;
use thiserror::Error;

/// No store goes on from a history. Nothing of the store is kept.
#[derive(Clone, Copy, PartialEq, Eq, Debug, Error)]
pub enum ReviveFault {
    /// The snapshot has no active subject, so nobody could ever act in the store.
    #[error("the snapshot has no active subject, so nobody can act")]
    NoSubject,
    /// There is no room for what is there before the first entry. These are the opening's workers, or the snapshot's
    /// vertices and edges.
    #[error("no room for what is there before the first entry, {why}: free memory, or give more blocks")]
    NotBegun { why: RoomFault },
    /// The first entry that isn't legal, at this place of the whole history, counted from 0. Its worker is no active
    /// subject, its state doesn't fit its law, or its reply isn't that of the rules.
    #[error("entry {at} is not legal: the entries were altered, or are of another opening")]
    BadEntry { at: u64 },
    /// There is no room for the entry at this place of the whole history, counted from 0.
    #[error("no room for entry {at}, {why}: free memory, or give more blocks")]
    NoRoom { at: u64, why: RoomFault },
}

impl From<AllocError> for ReviveFault {
    ghost use Rattle.std.specs.Prelude.{◌≡◌};
    ghost use Rattle.tg_space.specs.declared.room_fault.RoomFault.TheVariants.{OutOfMemory};
    ghost use Rattle.tg_revive.specs.declared.fault.ReviveFault.TheVariants.{NotBegun};

    ghost from_gives = { λ _ fault. fault ≡ NotBegun OutOfMemory };

    fn from(_error: AllocError) -> ReviveFault {
        ReviveFault::NotBegun {
            why: RoomFault::OutOfMemory,
        }
    }
}

impl From<Halted> for ReviveFault {
    ghost use Rattle.std.specs.Prelude.{◌≡◌};
    ghost use Rattle.tg_revive.specs.Reviving.{fault_of_halted};

    ghost from_gives = { λ halted fault. fault ≡ fault_of_halted halted };

    fn from(halted: Halted) -> ReviveFault {
        match halted {
            Halted::BadEntry { at } => ReviveFault::BadEntry { at },
            Halted::NoRoom { at, why } => ReviveFault::NoRoom { at, why },
        }
    }
}
