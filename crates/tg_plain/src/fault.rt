//! Why a program doesn't run a script, or doesn't replay a history.

use crate::bad_stock::StockReason;
use std::alloc::AllocError;
use std::io;
use tg_entries::TextFault;
use tg_found::KeptFault;
use tg_model::OpeningFault;
use thiserror::Error;

/// Why a script isn't run, or not as far as its end, or why a history isn't replayed.
#[derive(Clone, Copy, Debug, Error)]
pub enum PlainFault {
    /// There was no memory for a line or the graph.
    #[error("out of memory")]
    OutOfMemory(#[from(alloc)] AllocError),
    /// The words of the command line can't be had as text.
    #[error("bad words")]
    BadWords,
    /// The stock is none, or names too many boxes.
    #[error("bad stock: {reason}")]
    BadStock {
        reason: StockReason,
    },
    /// The workers and vertices don't fit each other.
    #[error(transparent)]
    Opening(#[from] OpeningFault),
    /// The line isn't in the grammar, or is an edge at a place where no edge may be, or has no end.
    #[error("line {number}: bad line: {reason}")]
    BadLine {
        number: u64,
        reason: &'static str,
    },
    /// The line has more bytes than a line may have.
    #[error("line {number}: bad line: over 256 bytes")]
    LineTooLong {
        number: u64,
    },
    /// This line has the first byte that is more than a script may have.
    #[error("line {number}: over 1048576 bytes: a script has at most 1048576, line feeds included")]
    TooLong {
        number: u64,
    },
    /// The first line that is asked for is after the last line.
    #[error("--from {from} is behind --to {to}")]
    BadRange {
        from: u64,
        to: u64,
    },
    /// The script has no line that is asked for.
    #[error("--from {from} is behind the last of {lines} lines")]
    NoLine {
        from: u64,
        lines: u64,
    },
    /// More is asked for than is printed at once.
    #[error("more than {most} {what}: choose some of the lines by --from and --to")]
    TooMany {
        most: u64,
        what: &'static str,
    },
    /// The text isn't that of a legal history, or reading it failed.
    #[error(transparent)]
    Text(#[from] TextFault),
    /// The kept file isn't read. Standard error says so already, with the name of the file.
    #[error("{0}")]
    Kept(KeptFault),
    /// The option gives another number than the history.
    #[error("--{option} {number}: the history says {own}, so leave --{option} out")]
    OtherNumber {
        option: &'static str,
        number: u64,
        own: u64,
    },
    /// A stock is given, and the input is a history.
    #[error("--stock: a history says what its vertices store, so leave --stock out")]
    StockOfHistory,
    /// Steps are asked for, and the input is a history.
    #[error("--steps: a history is drawn after its last entry only, so leave --steps out")]
    StepsOfHistory,
    /// A standard stream failed.
    #[error(transparent)]
    Stream(#[from] io::Error),
}

impl PlainFault {
    /// The exit status: 2 where the words of the command line are at fault, else 1.
    pub fn status(&self) -> u8 {
        match self {
            PlainFault::BadWords
            | PlainFault::BadRange { .. }
            | PlainFault::BadStock { .. }
            | PlainFault::Opening(_)
            | PlainFault::OtherNumber { .. }
            | PlainFault::StockOfHistory
            | PlainFault::StepsOfHistory => 2,
            _ => 1,
        }
    }
}
