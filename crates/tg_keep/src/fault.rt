//! Why a file of lines isn't begun, opened or closed.
use crate::batch::BatchFault;
use std::alloc::AllocError;
use std::io;
use thiserror::Error;

/// Why a file wasn't begun, opened or closed.
#[derive(Clone, Copy, Debug, Error)]
pub enum FileFault {
    /// A call of the disk failed.
    #[error("the file can't be read or written: {0}")]
    Io(io::Error),
    /// There was no memory for what the file has.
    #[error("out of memory")]
    OutOfMemory,
    /// The text of a mark doesn't begin with `entries `, or has a zero byte or a line feed.
    #[error("a mark begins with `entries `, and has neither a zero byte nor a line feed")]
    BadMark,
    /// A new file was to be made, and this one isn't empty.
    #[error("a new file can't be made, because the file isn't empty")]
    NotEmpty,
    /// The first line isn't `kovshenul kept 1`.
    #[error("the first line isn't `kovshenul kept 1`: the file is another program's or another version's")]
    NotKept,
    /// This line isn't whole, and a later batch was begun after it.
    #[error("line {line}, at byte {byte}, is damaged: lines after it were written later")]
    Damaged {
        /// The number of the line, counted from 1.
        line: usize,
        /// Where the line begins, counted from 0.
        byte: usize,
    },
}

impl From<io::Error> for FileFault {
    ghost use Rattle.std.specs.Prelude.{◌≡◌};
    ghost use Rattle.tg_keep.specs.declared.fault.FileFault.TheVariants.{Io};

    ghost from_gives = { λ error fault. fault ≡ Io error };

    fn from(error: io::Error) -> FileFault {
        FileFault::Io(error)
    }
}

impl From<AllocError> for FileFault {
    ghost use Rattle.std.specs.Prelude.{◌≡◌};
    ghost use Rattle.tg_keep.specs.declared.fault.FileFault.TheVariants.{OutOfMemory};

    ghost from_gives = { λ _ fault. fault ≡ OutOfMemory };

    fn from(_error: AllocError) -> FileFault {
        FileFault::OutOfMemory
    }
}

impl From<BatchFault> for FileFault {
    ghost use Rattle.std.specs.Prelude.{◌≡◌};
    ghost use Rattle.tg_keep.specs.Opened.{fault_of_batch};

    ghost from_gives = { λ why fault. fault ≡ fault_of_batch why };

    fn from(why: BatchFault) -> FileFault {
        match why {
            BatchFault::BadText => FileFault::NotKept,
            BatchFault::OutOfMemory => FileFault::OutOfMemory,
        }
    }
}
