//! What would be right in the place of a fault.

use crate::fault::KeptFault;
use std::io::{Error, ErrorKind};
use tg_entries::LineFault;
use tg_keep::FileFault;

// The rule for the first line of a text.
const OF_THE_FIRST_LINE: &str =
    "each line ends with a line feed alone, and has no carriage return before it";

// The rule for another line.
const OF_A_LINE: &str =
    "the order is 'opening WORKERS VERTICES', WORKERS lines 'worker', edges, entries, and last 'entries N'; N is the number of entries before it in this text; a line ends with a line feed alone";

// The rule for an entry. Entries are counted from 0.
const OF_AN_ENTRY: &str =
    "an entry is of an active subject, its value fits the law, and its reply is the answer of the rules after the entries before it";

// The rule for the first line of a kept file.
const OF_A_FIRST_LINE: &str =
    "a kept file begins with the line 'kovshenul kept 1 @c4b942f6', and a line feed after it";

// The advice for a kept file of another version.
const OF_ANOTHER_VERSION: &str =
    "the form 'kovshenul kept 1' is read here; read the file by the program of the version that wrote it";

// How the text of a history is read.
const OF_A_TEXT: &str =
    "this is the text of a history, whose lines have no sums; give a text on standard input, as '<FILE'";

// The advice for a damaged file.
const OF_DAMAGE: &str =
    "a whole line was there, and was altered, moved or lost; take FILE from a copy, or write the lines before the damage by 'tgaudit --front FILE >NEW'";

// The rule for the opening of a kept file.
const OF_AN_OPENING: &str =
    "after the first line come 'opening WORKERS VERTICES', WORKERS lines 'worker', and the edges; a store writes the whole opening under another name, and then renames the file";

// The advice for a name that has no file.
const OF_A_MISSING_FILE: &str = "give the name of a kept file that is there";

// The advice for a file that may not be read.
const OF_PERMISSION: &str = "who runs the program needs the right to read the file";

// The advice for the name of a folder.
const OF_A_FOLDER: &str = "give the name of a kept file, and not of a folder";

/// What a whole line at fault has to be, if the fault doesn't say so.
pub fn advice_on_line(why: &LineFault) -> Option<&'static str> {
    match why {
        LineFault::OutOfMemory | LineFault::BadSnapshot { .. } => None,
        LineFault::OtherVersion => Some(OF_THE_FIRST_LINE),
        LineFault::BadLine => Some(OF_A_LINE),
        LineFault::BadEntry { .. } => Some(OF_AN_ENTRY),
    }
}

/// What would be right in the place of a file with these bytes, if the fault doesn't say so.
pub(crate) fn advice_on(bytes: &[u8], fault: &KeptFault) -> Option<&'static str> {
    match fault {
        KeptFault::File(why) => advice_on_file(bytes, why),
        KeptFault::Line { why, .. } => advice_on_line(why),
        KeptFault::NoOpening { .. } => Some(OF_AN_OPENING),
    }
}

// What would be right in the place of a file that isn't one of ours, is damaged or can't be read.
fn advice_on_file(bytes: &[u8], why: &FileFault) -> Option<&'static str> {
    match why {
        FileFault::Io(error) => advice_on_error(error),
        FileFault::NotKept => Some(advice_on_other(bytes)),
        FileFault::Damaged { .. } => Some(OF_DAMAGE),
        FileFault::OutOfMemory | FileFault::BadMark | FileFault::NotEmpty => None,
    }
}

// What would be right in the place of a name that can't be read.
fn advice_on_error(error: &Error) -> Option<&'static str> {
    match error.kind() {
        ErrorKind::NotFound => Some(OF_A_MISSING_FILE),
        ErrorKind::PermissionDenied => Some(OF_PERMISSION),
        ErrorKind::IsADirectory => Some(OF_A_FOLDER),
        _ => None,
    }
}

// What would be right in the place of a file that has another first line than a kept file.
fn advice_on_other(bytes: &[u8]) -> &'static str {
    if bytes.starts_with(b"kovshenul entries ") || bytes.starts_with(b"kovshenul picture ") {
        OF_A_TEXT
    } else if bytes.starts_with(b"kovshenul kept ") && !bytes.starts_with(b"kovshenul kept 1 ") {
        OF_ANOTHER_VERSION
    } else {
        OF_A_FIRST_LINE
    }
}
