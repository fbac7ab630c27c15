//! The history that the lines of a kept file are.
ghost use Rattle.std.specs.Prelude.{◌≡◌, ◌++◌, ◌<◌, drop, IfOk, OnOk};
ghost use Rattle.std.specs.List.{flat_map};
ghost use Rattle.tg_keep.specs.Lines.{file_texts, texts_after};
ghost use Rattle.tg_kept.specs.Reopening.{IsTextOfLines, SaysHistory};
ghost use Rattle.tg_kept.specs.Texts.{ended_line};

use std::alloc::{AllocError, Global};
use std::marker::Brand;
use std::sync::ledger::{Blank, Ledger};
use tg_entries::{History, TextFault, VERSION, read_history, write_end};
use tg_keep::LineReader;
use tg_text::{Count, WriteFailed, Written};

/// Reads the bytes of a kept file as a history. Its lines are the lines of a history's text. A fault has the number of
/// the line in the file.
pub(crate) fn read_lines(alloc: Global, file: &[u8]) -> Result<History, TextFault>
    ensures { IfOk result (SaysHistory file.now) }
{
    match text_of(alloc, file) {
        Ok(text) => read_history(alloc, &mut text.as_slice()),
        Err(error) => Err(TextFault::Stream(error.into())),
    }
}

// The lines of a file as the text of a history. The first line is that of such a text, and the last has the number of
// entries.
fn text_of(alloc: Global, file: &[u8]) -> Result<Vec<u8>, AllocError>
    ensures { IfOk result (λ text. IsTextOfLines (drop 1 (file_texts file.now)) text.items) }
{
    text_named::<Brand>(alloc, Blank::new(1), file)
}

// The ledger names the buffer of the text.
fn text_named<L: Ledger>(alloc: Global, blank: Blank, file: &[u8]) -> Result<Vec<u8>, AllocError>
    requires name { blank.name ≡ L.name }
    requires parts { blank.parts ≡ L.parts }
    requires some { 0 < blank.parts }
    ensures { IfOk result (λ text. IsTextOfLines (drop 1 (file_texts file.now)) text.items) }
{
    let mut text = Written::new(alloc, Count::<L>::new(blank));
    text.bytes.extend_from_slice(VERSION)?;
    let count = add_lines(&mut text.bytes, after_first(file))?;
    match write_end(&mut text, count) {
        Ok(()) => Ok(text.bytes),
        Err(WriteFailed) => Err(AllocError),
    }
}

// A reader of all lines of a file but the first.
fn after_first(file: &[u8]) -> LineReader
    ensures { texts_after result.sum.digits result.left.now ≡ drop 1 (file_texts file.now) }
{
    let mut reader = LineReader::new(file);
    match reader.next() {
        Some(_) => reader,
        None => reader,
    }
}

// Adds the lines that are left, each with a line feed. Returns how many of them are entries.
#[tactic(auto, using(crate::proofs::ReadLaws::line_added))]
fn add_lines(text: &mut Vec<u8>, mut reader: LineReader) -> Result<u64, AllocError>
    ensures { OnOk result (text.new.items ≡ text.old.items ++ flat_map ended_line (texts_after reader.entry.sum.digits reader.entry.left.now)) }
{
    let mut count: u64 = 0;
    while let Some(line) = reader.next() {
        text.extend_from_slice(line)?;
        text.push(b'\n')?;
        count = with_line(count, line);
    }
    Ok(count)
}

// How many entries there are, with this line too. Of all lines of a history only those of entries begin with a digit.
fn with_line(count: u64, line: &[u8]) -> u64 {
    match line.first() {
        Some(byte) if byte.is_ascii_digit() => count.saturating_add(1),
        _ => count,
    }
}
