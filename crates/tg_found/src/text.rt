//! The text of the history that a kept file says.
ghost use Rattle.std.specs.Prelude.{◌≡◌, ◌≤◌, ◌++◌, IfOk, OnOk, length, string_bytes};
ghost use Rattle.std.specs.List.{flat_map};
ghost use Rattle.tg_entries.specs.Texts.{end_text};
ghost use Rattle.tg_keep.specs.Lines.{texts_after};
ghost use Rattle.tg_found.specs.Kept.{begins_with_digit, ended_line, entries_in, kept_text, later_texts};

use std::alloc::{AllocError, Global};
use tg_entries::VERSION;
use tg_keep::LineReader;

/// The text of the history that the whole lines of a file say. Fails only when out of memory.
pub(crate) fn kept_text(alloc: Global, file: &[u8]) -> Result<Vec<u8>, AllocError>
    ensures { IfOk result (λ text. text.items ≡ kept_text file.now) }
{
    let mut text = Vec::new(alloc);
    text.extend_from_slice(VERSION)?;
    let entries = add_lines(&mut text, file)?;
    let end = end_line(alloc, entries)?;
    text.extend_from_slice(end.as_bytes())?;
    Ok(text)
}

// Adds the texts of a file's lines after the first. Returns how many of them are entries.
fn add_lines(text: &mut Vec<u8>, file: &[u8]) -> Result<usize, AllocError>
    ensures added { OnOk result (text.new.items ≡ text.old.items ++ flat_map ended_line (later_texts file.now)) }
    ensures entries { IfOk result (λ entries. entries ≡ entries_in file.now) }
{
    let mut reader = after_first(file);
    let mut entries = 0;
    while let Some(line) = reader.next() {
        add_line(text, line)?;
        entries += usize::from(begins_with_digit(line));
    }
    Ok(entries)
}

// A reader of a file's lines after the first.
fn after_first(file: &[u8]) -> LineReader
    ensures texts { later_texts file.now ≡ texts_after result.sum.digits result.left.now }
    ensures fits { length result.left.now ≤ length file.now }
{
    let mut reader = LineReader::new(file);
    let _ = reader.next();
    reader
}

// Adds a line with its line feed.
fn add_line(text: &mut Vec<u8>, line: &[u8]) -> Result<(), AllocError>
    ensures { OnOk result (text.new.items ≡ text.old.items ++ ended_line line.now) }
{
    text.extend_from_slice(line)?;
    text.extend_from_slice(b"\n")
}

/// The last line of the text of a history with so many entries. Fails only when out of memory.
pub fn end_line(alloc: Global, entries: usize) -> Result<String, AllocError>
    ensures { IfOk result (λ line. string_bytes line ≡ end_text entries) }
{
    format!(in alloc; "entries {entries}\n")
}

/// Whether a text begins with a digit, as only the line of an entry does.
pub fn begins_with_digit(text: &[u8]) -> bool
    ensures { result ≡ begins_with_digit text.now }
{
    match text {
        [first, ..] => first.is_ascii_digit(),
        [] => false,
    }
}
