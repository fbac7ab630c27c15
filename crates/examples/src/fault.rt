//! Why a story ends early.

use crate::stand_in::DeskFault;
use std::alloc::{AllocError, AllocFailed};
use std::io;
use tg_payload::Payload;
use tg_shared::{CloseFault, CloseRefused, Round, SharedRefused};
use tg_shares::ShareFault;
use tg_store::StoreFault;
use thiserror::Error;

/// Why a story ends early. It is the line on standard error, after the story's name.
#[derive(Clone, Copy, Debug, Error)]
pub enum StoryFault {
    /// Letters that name no right, or no letter.
    #[error("bad label")]
    BadLabel,
    /// A subject of the story has no session.
    #[error("a session is missing")]
    NoSession,
    /// A desk refused a call.
    #[error("{0}")]
    Desk(#[from] DeskFault),
    /// A store or a session refused a call, or memory for it ran out.
    #[error("{0}")]
    Store(#[from] StoreFault),
    /// A client's purse can't pay.
    #[error("{0}")]
    Share(#[from] ShareFault),
    /// A shared store couldn't be closed.
    #[error("{0}")]
    Close(CloseFault),
    /// Standard output failed.
    #[error("{0}")]
    Output(#[from] io::Error),
}

impl<T: Drop> From<AllocFailed<T>> for StoryFault {
    // The value for which there was no memory is dropped.
    fn from(_refused: AllocFailed<T>) -> StoryFault {
        StoryFault::Store(StoreFault::OutOfMemory)
    }
}

impl From<AllocError> for StoryFault {
    fn from(_error: AllocError) -> StoryFault {
        StoryFault::Store(StoreFault::OutOfMemory)
    }
}

impl<P: Payload> From<SharedRefused<P>> for StoryFault {
    // The store is let go.
    fn from(refused: SharedRefused<P>) -> StoryFault {
        refused.store.let_go();
        StoryFault::Store(StoreFault::OutOfMemory)
    }
}

impl<L: Round, P: Payload> From<CloseRefused<L, P>> for StoryFault {
    // The shared store is dropped, with the sessions.
    fn from(refused: CloseRefused<L, P>) -> StoryFault {
        StoryFault::Close(refused.why)
    }
}
