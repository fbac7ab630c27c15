//! Why a kept file isn't read.

use std::alloc::AllocError;
use std::fmt::{self, Formatter};
use tg_entries::LineFault;
use tg_keep::FileFault;
use thiserror::Error;

/// Why a kept file isn't read.
#[derive(Clone, Copy, Error)]
pub enum KeptFault {
    /// The file isn't one of ours, is damaged or can't be read. Or memory ran out.
    #[error("{0}")]
    File(FileFault),
    /// A line doesn't go on with the lines before it.
    #[error("line {line}, at byte {byte}: {why}")]
    Line {
        /// The number of the line, counted from 1.
        line: usize,
        /// Where the line begins, counted from 0.
        byte: usize,
        /// The fault of the line.
        why: LineFault,
    },
    /// The lines end within the opening, or before it.
    #[error("the opening is cut off after line {lines}")]
    NoOpening {
        /// How many lines the file has.
        lines: usize,
    },
}

// It shows the message. A derived `Debug` takes several times as long to prove.
impl fmt::Debug for KeptFault {
    fn fmt<W: fmt::Write>(&self, f: &mut Formatter<W>) -> fmt::Result {
        fmt::Display::fmt(self, f)
    }
}

impl From<FileFault> for KeptFault {
    ghost use Rattle.std.specs.Prelude.{◌≡◌};
    ghost use Rattle.tg_found.specs.declared.fault.KeptFault.TheVariants.{File};

    ghost from_gives = { λ why fault. fault ≡ File why };

    fn from(why: FileFault) -> KeptFault {
        KeptFault::File(why)
    }
}

impl From<AllocError> for KeptFault {
    ghost use Rattle.std.specs.Prelude.{◌≡◌};
    ghost use Rattle.tg_found.specs.declared.fault.KeptFault.TheVariants.{File};
    ghost use Rattle.tg_keep.specs.declared.fault.FileFault.TheVariants.{OutOfMemory};

    ghost from_gives = { λ _ fault. fault ≡ File OutOfMemory };

    fn from(_error: AllocError) -> KeptFault {
        KeptFault::File(FileFault::OutOfMemory)
    }
}
