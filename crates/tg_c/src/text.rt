//! Texts for C. They are the lines before the entries of a history, the line of an entry, and the last line.
//!
//! `tg_entries` writes the texts, and `tgaudit` reads them. Each text is written to memory first. Then C gets its first
//! bytes, as many as there is room for.
ghost use Rattle.std.specs.Prelude.{◌≡◌, ◌<◌, IfOk, IfErr, Ok};
ghost use Rattle.tg_c.specs.Calls.{IsRefusedFor};
ghost use Rattle.tg_c.specs.Texts.{IsEntryText, IsOpeningText, IsUnreadEntry, TellsText, written_text, text_out};
ghost use Rattle.tg_text.specs.Sinks.{Writes};

use crate::entered::{entry_read, is_told};
use crate::forms::{EdgeIn, EdgeOut, LimitsIn, ValueIn};
use crate::opening::asked_for;
use crate::records::RecordOut;
use crate::refusal::CallRefusal;
use crate::tell::DONE;
use std::alloc::{AllocError, Global};
use std::marker::Brand;
use std::sync::ledger::{Blank, Ledger};
use tg_entries::{write_end, write_entry, write_opening};
use tg_journal::Entry;
use tg_model::Opening;
use tg_text::{Count, Sink, WriteFailed, Written};

/// A text that is to be written.
#[derive(Clone, Copy)]
pub enum Text<'a> {
    /// The lines before the entries of a store with this opening.
    Opening(&'a Opening),
    /// The line of an entry.
    Entry(&'a Entry),
    /// The last line, after so many entries.
    End(u64),
}

/// The lines before the entries of a store that is opened by the same arguments. A refusal is that of `asked_for`.
pub fn opening_bytes(
    alloc: Global,
    workers: &[ValueIn],
    edges: &[EdgeIn],
    limits: &LimitsIn,
) -> Result<Vec<u8>, CallRefusal>
    ensures lines { IfOk result (λ bytes. IsOpeningText workers.now edges.now limits.now bytes.items) }
    ensures refused { IfErr result (IsRefusedFor workers.now edges.now limits.now) }
{
    let opening = asked_for(alloc, workers, edges, limits)?.opening;
    Ok(bytes_of(alloc, &Text::Opening(&opening))?)
}

/// The line of the entry that is written as the record, the numbers and the edges. `BadValues` is returned exactly if
/// no entry is written so. The only other refusal is that memory ran out.
pub fn entry_bytes(
    alloc: Global,
    written: &RecordOut,
    numbers: &[u64],
    edges: &[EdgeOut],
) -> Result<Vec<u8>, CallRefusal>
    ensures line { IfOk result (λ bytes. IsEntryText written.now numbers.now edges.now bytes.items) }
    ensures refused { IfErr result (IsUnreadEntry written.now numbers.now edges.now) }
{
    if !is_told(alloc, written, numbers, edges) {
        return Err(CallRefusal::BadValues);
    }
    let entry = entry_read(alloc, written, numbers, edges)?;
    Ok(bytes_of(alloc, &Text::Entry(&entry))?)
}

/// The bytes of a text. Fails only when out of memory.
pub fn bytes_of(alloc: Global, text: &Text) -> Result<Vec<u8>, AllocError>
    ensures { IfOk result (λ bytes. bytes.items ≡ written_text text.now) }
{
    bytes_named::<Brand>(alloc, Blank::new(1), text)
}

// The ledger names the buffer.
fn bytes_named<L: Ledger>(alloc: Global, blank: Blank, text: &Text) -> Result<Vec<u8>, AllocError>
    requires name { blank.name ≡ L.name }
    requires parts { blank.parts ≡ L.parts }
    requires some { 0 < blank.parts }
    ensures { IfOk result (λ bytes. bytes.items ≡ written_text text.now) }
{
    let mut sink = Written::new(alloc, Count::<L>::new(blank));
    let written = write_text(&mut sink, text);
    let Written { bytes, .. } = sink;
    match written {
        Ok(()) => Ok(bytes),
        Err(WriteFailed) => Err(AllocError),
    }
}

// Writes a text. If the sink fails, only a front of the text is written.
fn write_text<K: Sink>(sink: &mut K, text: &Text) -> Result<(), WriteFailed>
    ensures { Writes (K.taken sink.old) (K.failures sink.old) (written_text text.now) result
        (K.taken sink.new) (K.failures sink.new) }
{
    match text {
        Text::Opening(opening) => write_opening(sink, opening),
        Text::Entry(entry) => write_entry(sink, entry),
        Text::End(count) => write_end(sink, *count),
    }
}

/// Writes the first bytes of a text to C, as many as there is room for, and how many there are.
pub fn tell_text(bytes: &[u8], text: &mut [u8], length: &mut u64) -> u32
    ensures { TellsText result (text_out length.old text.old) (text_out length.new text.new) (Ok bytes.now) }
{
    let count = bytes.len().min(text.len());
    text[..count].copy_from_slice(&bytes[..count]);
    *length = bytes.len() as u64;
    DONE
}
