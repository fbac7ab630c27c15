//! The parts of a file that are shown if it ends without a whole line.

use std::str;

// How many bytes of a first line are shown.
const SHOWN: usize = 40;

/// How many bytes of a file are left out, if only the bytes before this place are read. The zeros at the end of the
/// file don't count.
pub fn bytes_left_out(file: &[u8], end: usize) -> usize {
    torn_bytes(&file[end.min(file.len())..])
}

/// How many bytes come before the zeros at the end.
pub(crate) fn torn_bytes(bytes: &[u8]) -> usize {
    let mut torn = 0;
    for (at, byte) in bytes.iter().enumerate() {
        if *byte != 0 {
            torn = at + 1;
        }
    }
    torn
}

/// The first characters of a file, which can be printed and are of ASCII.
pub(crate) fn first_words(file: &[u8]) -> &str {
    let reach = file.len().min(SHOWN);
    for at in 0..reach {
        if !(32..127).contains(&file[at]) {
            return text_of(&file[..at]);
        }
    }
    text_of(&file[..reach])
}

fn text_of(bytes: &[u8]) -> &str {
    str::from_utf8(bytes).unwrap_or("")
}
