//! Where the lines of a file end, and whether what comes after them is damage.
ghost use Rattle.std.specs.Prelude.{◌≡◌, ◌==◌, ◌≤◌, ◌&&◌, length, drop, IsTrue, IfOk, IfErr, OnOk};
ghost use Rattle.tg_keep.specs.Lines.{begins_in, first_sum, is_mark, is_whole, last_sum_after, length_after, raw_lines, sum_in, texts_after, file_texts};
ghost use Rattle.tg_keep.specs.Closed.{is_closed, last_text};
ghost use Rattle.tg_keep.specs.Opened.{has_batch, has_first_text, has_later_batch, is_of_disk, MayOpen, RefusesFile};

use crate::batch::is_mark;
use crate::fault::FileFault;
use crate::line::parts_of;
use crate::reader::{LineReader, first_length};
use crate::sum::LineSum;

/// The text of a file's first line.
pub(crate) const FIRST_TEXT: [u8; 16] = *b"kovshenul kept 1";

/// Where the whole lines of a file end, the sum of the last, and whether the file was closed.
#[derive(Clone, Copy, Drop)]
pub(crate) struct LinesEnd {
    pub(crate) at: usize,
    pub(crate) sum: LineSum,
    pub(crate) closed: bool,
}

// How many lines were passed, and the text of the last, which is empty if there was none.
#[derive(Clone, Copy, Drop)]
struct Passed<'a> {
    count: usize,
    last: &'a [u8],
}

/// Finds the end of a file's lines. `NotKept` says that the file isn't one of ours, `Damaged` that a line was written
/// whole and isn't any more.
pub(crate) fn lines_end(file: &[u8]) -> Result<LinesEnd, FileFault>
    ensures at { IfOk result (λ end. end.at ≡ length_after first_sum file.now) }
    ensures sum { IfOk result (λ end. end.sum.digits ≡ last_sum_after first_sum file.now) }
    ensures closed { IfOk result (λ end. end.closed ≡ is_closed file.now) }
    ensures within { IfOk result (λ end. end.at ≤ length file.now) }
    ensures opens { OnOk result (MayOpen file.now) }
    ensures refused { IfErr result (RefusesFile file.now) }
    ensures own { IfErr result (λ fault. IsTrue (is_of_disk fault) → ⊥) }
{
    if !has_first_text(file) {
        return Err(FileFault::NotKept);
    }
    let mut reader = LineReader::new(file);
    let passed = skip_lines(&mut reader);
    let at = file.len() - reader.left.len();
    if has_later_batch(reader.left) {
        return Err(FileFault::Damaged {
            line: passed.count + 1,
            byte: at,
        });
    }
    let closed = is_closing(at, file.len(), passed.last);
    Ok(LinesEnd {
        at,
        sum: reader.sum,
        closed,
    })
}

// Whether lines that end here, and with this text, are those of a closed file with so many bytes.
fn is_closing(at: usize, length: usize, last: &[u8]) -> bool
    ensures { result ≡ (at == length && is_mark last.now) }
{
    at == length && is_mark(last)
}

fn has_first_text(file: &[u8]) -> bool
    ensures { result ≡ has_first_text (file_texts file.now) }
{
    let mut reader = LineReader::new(file);
    match reader.next() {
        Some(text) => text == FIRST_TEXT.as_slice(),
        None => false,
    }
}

// Passes the whole lines that are left. Returns how many they are, and the last.
fn skip_lines<'a>(reader: &mut LineReader<'a>) -> Passed<'a>
    ensures count { result.count ≡ length (texts_after reader.old.sum.digits reader.old.left.now) }
    ensures last { result.last.now ≡ last_text (texts_after reader.old.sum.digits reader.old.left.now) }
    ensures few { result.count ≤ length reader.old.left.now }
    ensures within { length_after reader.old.sum.digits reader.old.left.now ≤ length reader.old.left.now }
    ensures left { reader.new.left.now ≡ drop (length_after reader.old.sum.digits reader.old.left.now) reader.old.left.now }
    ensures sum { reader.new.sum.digits ≡ last_sum_after reader.old.sum.digits reader.old.left.now }
{
    let mut count = 0;
    let mut last = &reader.left[..0];
    while let Some(text) = reader.next() {
        count += 1;
        last = text;
    }
    Passed { count, last }
}

// Whether a line after the first begins a batch, and is whole after the line before it.
fn has_later_batch(bytes: &[u8]) -> bool
    ensures { result ≡ has_later_batch (raw_lines bytes.now) }
{
    match first_length(bytes) {
        Some(length) => has_batch(sum_in(&bytes[..length]), &bytes[length + 1..]),
        None => false,
    }
}

// Whether a line begins a batch, and is whole after the line before it. `before` is the sum before the first line.
fn has_batch(before: &[u8], bytes: &[u8]) -> bool
    ensures { result ≡ has_batch before.now (raw_lines bytes.now) }
{
    let mut before = before;
    let mut left = bytes;
    while let Some(length) = first_length(left) {
        let line = &left[..length];
        if is_batch_start(before, line) {
            return true;
        }
        before = sum_in(line);
        left = &left[length + 1..];
    }
    false
}

fn is_batch_start(before: &[u8], line: &[u8]) -> bool
    ensures { result ≡ (is_whole before.now line.now && begins_in line.now) }
{
    match parts_of(before, line) {
        Some(parts) => parts.begins,
        None => false,
    }
}

// What of a line is read as its sum.
fn sum_in(line: &[u8]) -> &[u8]
    ensures { result.now ≡ sum_in line.now }
{
    &line[line.len().saturating_sub(8)..]
}
