//! Why a text is none of a legal history.
ghost use Rattle.std.specs.Prelude.{◌≡◌};

use std::alloc::AllocError;
use std::io;
use tg_saved::SnapshotLineFault;
use thiserror::Error;

/// Why a line doesn't go on with the lines before it.
#[derive(Clone, Copy, PartialEq, Eq, Debug, Error)]
pub enum LineFault {
    /// There was no memory for it, which says nothing of the line.
    #[error("out of memory")]
    OutOfMemory,
    /// The first line is neither 'kovshenul entries 1' nor 'kovshenul picture 1'.
    #[error("not 'kovshenul entries 1' or 'kovshenul picture 1', the forms that are read")]
    OtherVersion,
    /// The line isn't of this form, or isn't allowed at its place. Or it is a count line, and there are more or fewer
    /// entries before it.
    #[error("bad line")]
    BadLine,
    /// A line of the snapshot that the history goes on from.
    #[error("{why}")]
    BadSnapshot { why: SnapshotLineFault },
    /// The entry of this place isn't legal. Places are counted from 0 in the whole history, with the entries before a
    /// snapshot. Its worker is no active subject, the value of a new vertex
    /// doesn't fit its law, or the reply isn't the answer of the rules.
    #[error("bad entry {at}")]
    BadEntry { at: u64 },
}

impl From<AllocError> for LineFault {
    ghost use Rattle.std.specs.Prelude.{◌≡◌};
    ghost use Rattle.tg_entries.specs.declared.fault.LineFault.TheVariants.{OutOfMemory};

    ghost from_gives = { λ _ e. e ≡ OutOfMemory };

    fn from(_error: AllocError) -> LineFault {
        LineFault::OutOfMemory
    }
}

impl LineFault {
    /// Which line of the text is at fault, if the one of this number was the last that was read.
    pub fn line(&self, last: u64) -> u64 {
        match self {
            LineFault::BadSnapshot { why } => why.line(last),
            _ => last,
        }
    }
}

impl From<SnapshotLineFault> for LineFault {
    fn from(why: SnapshotLineFault) -> LineFault {
        match why {
            SnapshotLineFault::OutOfMemory => LineFault::OutOfMemory,
            why => LineFault::BadSnapshot { why },
        }
    }
}

/// Why a text didn't pass.
#[derive(Clone, Copy, Debug, Error)]
pub enum TextFault {
    /// The first line at fault, counted from 1.
    #[error("line {line}: {why}")]
    Line { line: u64, why: LineFault },
    /// The text ends within this line, counted from 1, or before this line and not after a count line.
    #[error("line {line}: the end is cut off")]
    CutOff { line: u64 },
    /// The part is legal, and its head has no sum of the part before.
    #[error("the head has no line 'sha256 SUM'")]
    NoSum,
    /// The part is legal, and its head has another sum than that of the part before.
    #[error("the head has another sum than that of the part before")]
    OtherSum,
    /// Reading failed.
    #[error(transparent)]
    Stream(#[from] io::Error),
}

/// Why a line of which only the front was at hand doesn't go on with the lines before it.
#[derive(Clone, Copy)]
pub(crate) enum LongFault {
    Line(LineFault),
    /// Reading failed.
    Stream(io::Error),
}

impl From<LineFault> for LongFault {
    fn from(why: LineFault) -> LongFault {
        LongFault::Line(why)
    }
}

impl From<io::Error> for LongFault {
    fn from(error: io::Error) -> LongFault {
        LongFault::Stream(error)
    }
}

impl From<AllocError> for LongFault {
    fn from(_error: AllocError) -> LongFault {
        LongFault::Line(LineFault::OutOfMemory)
    }
}
