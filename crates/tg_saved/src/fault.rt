//! Why a text is none of a snapshot.
ghost use Rattle.std.specs.Prelude.{◌≡◌};

use std::alloc::AllocError;
use tg_snapshot::SnapshotFault;
use thiserror::Error;

/// Why a line doesn't go on with the lines before it, as the text of a snapshot.
#[derive(Clone, Copy, PartialEq, Eq, Debug, Error)]
pub enum SnapshotLineFault {
    /// There was no memory for it, which says nothing of the line.
    #[error("out of memory")]
    OutOfMemory,
    /// The first line is none of this form.
    #[error("not 'kovshenul picture 1', the one form that is read")]
    OtherVersion,
    /// The second line has no counts.
    #[error("bad line, where 'made MADE LIMIT ENTRIES' is due")]
    BadCounts,
    /// It is no line of this form, or none that may come after the line before it.
    #[error("bad line, where 'worker N', 'vertex N VALUE', 'edge N N RIGHTS' or 'picture COUNT' is due, in this order")]
    BadLine,
    /// The last line has another number than that of the lines of vertices and edges, which is `due`.
    #[error("bad line, where 'picture {due}' is due")]
    BadEnd { due: u64 },
    /// The line of this number in the text, counted from 1, isn't as asked of a snapshot. This is known once the last
    /// line was read.
    #[error("{why}")]
    BadSnapshot { line: u64, why: SnapshotFault },
    /// A line comes after the last one.
    #[error("bad line, after the last line of a snapshot")]
    AfterEnd,
}

impl SnapshotLineFault {
    /// Which line of the text is at fault, if the one of this number was the last that was read.
    pub fn line(&self, last: u64) -> u64 {
        match self {
            SnapshotLineFault::BadSnapshot { line, .. } => *line,
            _ => last,
        }
    }
}

impl From<AllocError> for SnapshotLineFault {
    ghost use Rattle.std.specs.Prelude.{◌≡◌};
    ghost use Rattle.tg_saved.specs.declared.fault.SnapshotLineFault.TheVariants.{OutOfMemory};

    ghost from_gives = { λ _ e. e ≡ OutOfMemory };

    fn from(_error: AllocError) -> SnapshotLineFault {
        SnapshotLineFault::OutOfMemory
    }
}

/// Why a text is none of a snapshot.
#[derive(Clone, Copy, PartialEq, Eq, Debug, Error)]
pub enum SnapshotTextFault {
    /// The first line at fault, counted from 1.
    #[error("line {line}: {why}")]
    Line { line: u64, why: SnapshotLineFault },
    /// The text ends within this line, counted from 1, or in front of it without its last line.
    #[error("line {line}: the end is cut off")]
    CutOff { line: u64 },
}
