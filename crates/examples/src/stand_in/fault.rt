//! Why a desk refuses.

use tg_store::StoreFault;
use thiserror::Error;

/// Why a desk was not opened, or a call of it was refused. The desk is as it was.
#[derive(Clone, Copy, PartialEq, Eq, Debug, Error)]
pub enum DeskFault {
    /// An edge leads to the owner, so a subject might take from it.
    #[error("an edge leads to the owner")]
    NotAlone,
    /// The owner asks by the calls of the desk, and by no command of its own.
    #[error("the owner asks by the desk's own calls")]
    IsOwner,
    /// The thing stores no number.
    #[error("the thing stores no number")]
    NoNumber,
    /// The store refused a call, or memory for it ran out.
    #[error("{0}")]
    Store(StoreFault),
}

impl From<StoreFault> for DeskFault {
    fn from(fault: StoreFault) -> DeskFault {
        DeskFault::Store(fault)
    }
}
