//! The texts of why a file isn't read.

use crate::advice::advice_on;
use crate::fault::KeptFault;
use crate::shown::{first_words, torn_bytes};
use std::fmt::{self, Formatter};
use tg_keep::FileFault;

/// A file that isn't read as a kept file, and why. It shows what is wrong, and where.
#[derive(Clone, Copy, Drop)]
pub struct UnreadFile<'a> {
    /// The bytes of the file, or no bytes if they can't be read.
    pub bytes: &'a [u8],
    /// Why it isn't read.
    pub why: KeptFault,
}

impl UnreadFile<'_> {
    /// What would be right, if the fault doesn't say so.
    pub fn advice(&self) -> Option<&'static str> {
        advice_on(self.bytes, &self.why)
    }
}

impl fmt::Display for UnreadFile<'_> {
    fn fmt<W: fmt::Write>(&self, f: &mut Formatter<W>) -> fmt::Result {
        match self.why {
            KeptFault::File(FileFault::NotKept) => show_other(self.bytes, f),
            KeptFault::File(FileFault::Io(error)) => fmt::Display::fmt(&error, f),
            why => fmt::Display::fmt(&why, f),
        }
    }
}

// Shows what a file is that has another first line than a kept file.
fn show_other<W: fmt::Write>(file: &[u8], f: &mut Formatter<W>) -> fmt::Result {
    if file.is_empty() {
        return f.write_str("the file is empty");
    }
    if torn_bytes(file) == 0 {
        return f.write_str("the file has nothing but zeros");
    }
    if file.starts_with(b"kovshenul kept 1 ") {
        return f.write_str("line 1, at byte 0, is damaged");
    }
    let first = first_words(file);
    write!(
        f,
        "the first line isn't 'kovshenul kept 1': it begins with '{first}'"
    )
}
