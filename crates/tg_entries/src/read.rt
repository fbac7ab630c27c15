//! How lines are taken apart. Nothing here has to be believed, because what is read is written again and compared.
ghost use Rattle.std.specs.Prelude.{◌≤◌, length, IfSome};

use crate::fault::LineFault;
use hex::decode_to_slice;
use std::alloc::Global;
use std::str;
use tg_model::{Deed, Value};
use tg_saved::{read_numbers, read_value, text_of_line};
use tg_text::{Line, read_line};

/// The most bytes that an entry may have in front of ` = `.
pub const MOST_DEED_BYTES: usize = 256;

/// The most bytes that a line may have, with its line feed, unless its reply lists edges. The longest such line has a
/// deed, ` = ok`, and a space and 20 digits for each of the 64 numbers of the longest log.
pub(crate) const MOST_KEPT_BYTES: usize = MOST_DEED_BYTES + 5 + 64 * 21 + 1;

/// What a line has in front of ` = `, where that is no more than [`MOST_DEED_BYTES`].
pub(crate) fn deed_part(line: &[u8]) -> Option<&str> {
    part_of(text_of_line(line)?)
}

/// What a line has in front of ` = `, as [`deed_part`] has it. Only the front of the line is at hand, which may end
/// within a character.
pub(crate) fn front_part(front: &[u8]) -> Option<&str> {
    part_of(str::from_utf8(&front[..text_len(front)?]).ok()?)
}

/// Returns how many bytes the whole characters have. After them comes nothing, or the front of one more character. The
/// answer is `None` if some bytes are no characters.
pub(crate) fn text_len(bytes: &[u8]) -> Option<usize>
    ensures { IfSome result (λ len. len ≤ length bytes.now) }
{
    match str::from_utf8(bytes) {
        Ok(text) => Some(text.len()),
        Err(error) if error.error_len().is_none() => Some(error.valid_up_to()),
        Err(_) => None,
    }
}

fn part_of(text: &str) -> Option<&str> {
    let (part, _) = text.split_once(" = ")?;
    (part.len() <= MOST_DEED_BYTES).then_some(part)
}

/// Returns the part of a worker's line after its first word.
pub(crate) fn worker_part(line: &[u8]) -> Option<&str> {
    text_of_line(line)?.strip_prefix("worker ")
}

/// The SHA-256 of the part before.
pub(crate) fn read_sum(line: &[u8]) -> Option<[u8; 32]> {
    let digits = text_of_line(line)?.strip_prefix("sha256 ")?;
    let mut sum = [0; 32];
    decode_to_slice(digits, &mut sum).ok()?;
    Some(sum)
}

/// The number of workers and of the vertices that may ever be made.
pub(crate) fn read_limits(alloc: Global, line: &[u8]) -> Result<(u64, u64), LineFault> {
    let Some(text) = text_of_line(line) else {
        return Err(LineFault::BadLine);
    };
    match *read_numbers(alloc, text)?.as_slice() {
        [workers, max_vertices] => Ok((workers, max_vertices)),
        _ => Err(LineFault::BadLine),
    }
}

/// Who asks, and for what.
pub(crate) fn read_deed(alloc: Global, part: &str) -> Result<(u64, Deed), LineFault> {
    match read_line(part.as_bytes()) {
        Some(Line::Plain { worker, command }) => Ok((worker, Deed::Plain(command))),
        Some(_) => Err(LineFault::BadLine),
        None => read_making(alloc, part),
    }
}

// The making of a vertex. The line of a script comes first, and then what the vertex stores.
fn read_making(alloc: Global, part: &str) -> Result<(u64, Deed), LineFault> {
    let Some((line, word)) = part.rsplit_once(' ') else {
        return Err(LineFault::BadLine);
    };
    let Some(line) = read_line(line.as_bytes()) else {
        return Err(LineFault::BadLine);
    };
    match read_value(alloc, word)? {
        Some(value) => making_of(line, value),
        None => Err(LineFault::BadLine),
    }
}

fn making_of(line: Line, value: Value) -> Result<(u64, Deed), LineFault> {
    let Value { law, state } = value;
    match line {
        Line::Create { worker, label } => Ok((worker, Deed::Create { label, law, state })),
        Line::Spawn { worker, label } => Ok((worker, Deed::Spawn { label, law, state })),
        _ => Err(LineFault::BadLine),
    }
}
