//! How a line is written, and what is read of it.
ghost use Rattle.std.specs.Prelude.{◌≡◌, ◌++◌, ◌∷◌, [], true, false, take, vec_len, bytes_eq, IfOk, OnOk, OnErr, IfSome, MatchOption};
ghost use Rattle.tg_keep.specs.Lines.{begins_in, has_zero, is_whole, sealed_line, mark_of, text_in, sum_in};
ghost use Rattle.tg_keep.specs.Sums.{sum_after};

use crate::sum::{LineSum, sum_after};
use std::alloc::AllocError;

// The text of a line, its sum, and whether it begins a batch.
#[derive(Clone, Copy, Drop)]
pub(crate) struct LineParts<'a> {
    pub(crate) text: &'a [u8],
    pub(crate) sum: LineSum,
    pub(crate) begins: bool,
}

fn mark_of(begins: bool) -> u8
    ensures { result ≡ mark_of begins }
{
    if begins { b'@' } else { b'#' }
}

// Appends the line, or a front of it if memory runs out.
fn append(bytes: &mut Vec<u8>, sum: &LineSum, begins: bool, text: &[u8]) -> Result<(), AllocError>
    ensures written { OnOk result (bytes.new.items ≡ bytes.old.items ++ text.now ++ 32 ∷ mark_of begins ∷ sum.now.digits ++ 10 ∷ []) }
    ensures front { OnErr result (take (vec_len bytes.old) bytes.new.items ≡ bytes.old.items) }
{
    bytes.extend_from_slice(text)?;
    bytes.extend_from_slice(&[b' ', mark_of(begins)])?;
    bytes.extend_from_slice(&sum.digits)?;
    bytes.extend_from_slice(b"\n")
}

/// Appends a line with this text, and a line feed. The line comes after one that ends with the digits `before`, and
/// `begins` says whether it is the first of a batch. Returns the line's sum. If memory runs out, the bytes stay as they
/// were.
pub fn write_line(
    bytes: &mut Vec<u8>,
    before: &[u8],
    begins: bool,
    text: &[u8],
) -> Result<LineSum, AllocError>
    ensures written { OnOk result (bytes.new.items ≡ bytes.old.items ++ sealed_line before.now begins text.now) }
    ensures sum { IfOk result (λ sum. sum.digits ≡ sum_after before.now text.now) }
    ensures unchanged { OnErr result (bytes.new.items ≡ bytes.old.items) }
{
    let sum = sum_after(before, text);
    let old = bytes.len();
    match append(bytes, &sum, begins, text) {
        Ok(()) => Ok(sum),
        Err(e) => {
            bytes.truncate(old);
            Err(e)
        }
    }
}

// Whether this is the end of a line: a space, the mark and the sum.
fn is_end(end: &[u8], begins: bool, sum: &LineSum) -> bool
    ensures { result ≡ bytes_eq end.now (32 ∷ mark_of begins ∷ sum.now.digits) }
{
    match end {
        [space, mark, digits @ ..] => *space == b' '
            && *mark == mark_of(begins)
            && digits == sum.digits.as_slice(),
        _ => false,
    }
}

pub(crate) fn has_zero(line: &[u8]) -> bool
    ensures { result ≡ has_zero line.now }
{
    line.contains(&0)
}

// The parts of a line, which comes without its line feed, if it is whole after the digits `before`.
pub(crate) fn parts_of<'a>(before: &[u8], line: &'a [u8]) -> Option<LineParts<'a>>
    ensures whole { MatchOption result (is_whole before.now line.now ≡ false) (λ parts. is_whole before.now line.now ≡ true) }
    ensures parts { IfSome result (λ parts. (parts.text.now ≡ text_in line.now) × (parts.sum.digits ≡ sum_in line.now) × (parts.begins ≡ begins_in line.now)) }
{
    if line.len() < 10 {
        return None;
    }
    let length = line.len() - 10;
    let text = &line[..length];
    let sum = sum_after(before, text);
    let begins = line[length + 1] == b'@';
    if has_zero(line) {
        return None;
    }
    if !is_end(&line[length..], begins, &sum) {
        return None;
    }
    Some(LineParts { text, sum, begins })
}
