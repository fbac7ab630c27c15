//! Texts for C. They are the lines before the entries of a history, the line of an entry, and the last line.
//!
//! `tg_entries` writes the texts, and `tgaudit` reads them. Each text is written to memory first. Then C gets its first
//! bytes, as many as there is room for.
ghost use Rattle.std.specs.Prelude.{◌≡◌};
ghost use Rattle.tg_c.specs.Calls.{IsRefusedFor};
ghost use Rattle.tg_c.specs.Texts.{IsEntryText, IsOpeningText, IsUnreadEntry, TellsText, WritesText, text_out};
ghost use Rattle.tg_entries.specs.Texts.{end_text};

use std::alloc::Global;
use tg_c::forms::{EdgeIn, EdgeOut, LimitsIn, ValueIn};
use tg_c::records::RecordOut;
use tg_c::refusal::CallRefusal;
use tg_c::text::{Text, bytes_of, entry_bytes, opening_bytes, tell_text};

/// Writes the lines before the entries of a store that is opened by the same arguments. They are the form, the limits,
/// each worker's value and each edge. The first bytes go to `text`, as many as there is room for. The number of all
/// bytes goes to `length`. The arguments are checked as `tg_open` checks them, with its statuses in their order. A
/// refusal writes nothing.
#[unsafe(no_mangle)]
pub extern "C" fn tg_opening_text(
    alloc: Global,
    workers: &[ValueIn],
    edges: &[EdgeIn],
    limits: &LimitsIn,
    text: &mut [u8],
    length: &mut u64,
) -> u32
    ensures { WritesText (IsOpeningText workers.now edges.now limits.now) (IsRefusedFor workers.now edges.now limits.now)
        (TellsText result (text_out length.old text.old) (text_out length.new text.new)) }
{
    match opening_bytes(alloc, workers, edges, limits) {
        Ok(bytes) => tell_text(bytes.as_slice(), text, length),
        Err(refusal) => refusal.status(),
    }
}

/// Writes the line of an entry, with its line feed. The entry is handed in as `tg_entry` wrote it. The first bytes go
/// to `text`, as many as there is room for. The number of all bytes goes to `length`. `BadValues` is returned exactly
/// if no entry is written so. Otherwise only lack of memory is refused. A refusal writes nothing.
#[unsafe(no_mangle)]
pub extern "C" fn tg_entry_text(
    alloc: Global,
    written: &RecordOut,
    numbers: &[u64],
    edges: &[EdgeOut],
    text: &mut [u8],
    length: &mut u64,
) -> u32
    ensures { WritesText (IsEntryText written.now numbers.now edges.now) (IsUnreadEntry written.now numbers.now edges.now)
        (TellsText result (text_out length.old text.old) (text_out length.new text.new)) }
{
    match entry_bytes(alloc, written, numbers, edges) {
        Ok(bytes) => tell_text(bytes.as_slice(), text, length),
        Err(refusal) => refusal.status(),
    }
}

/// Writes the last line of a history that has so many entries. The first bytes go to `text`, as many as there is room
/// for. The number of all bytes goes to `length`. Only lack of memory is refused, and then nothing is written.
#[unsafe(no_mangle)]
pub extern "C" fn tg_end_text(alloc: Global, count: u64, text: &mut [u8], length: &mut u64) -> u32
    ensures { WritesText (λ line. line ≡ end_text count) (λ why. why ≡ CallRefusal.OutOfMemory)
        (TellsText result (text_out length.old text.old) (text_out length.new text.new)) }
{
    match bytes_of(alloc, &Text::End(count)) {
        Ok(bytes) => tell_text(bytes.as_slice(), text, length),
        Err(_) => CallRefusal::OutOfMemory.status(),
    }
}
