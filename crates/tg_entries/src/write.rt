//! How the text of a history is written. It has the opening, the entries, and the line after them.
ghost use Rattle.std.specs.Prelude.{◌≡◌, ◌∷◌, ◌++◌, codes, decimal};
ghost use Rattle.tg_text.specs.declared.answer.Answer.TheVariants as Answer;
ghost use Rattle.tg_text.specs.Grammar.{line_text};
ghost use Rattle.tg_text.specs.Sinks.{Writes};
ghost use Rattle.tg_text.specs.Texts.{answer_text};
ghost use Rattle.tg_saved.specs.Values.{payload_text};
ghost use Rattle.hex.specs.Hex.{encode_lower};
ghost use Rattle.tg_entries.specs.Texts.{deed_text, end_text, entry_text, limits_text, sum_text, worker_text};

use hex::encode_to_slice;
use itoa::Buffer;
use tg_journal::Entry;
use tg_model::{Deed, Law, Reply, Value};
use tg_saved::{write_value, write_value_line};
use tg_text::{
    Line, Sink, WriteFailed, line_of_deed, put_all, put_texts, write_line, write_reply_of,
};

/// The first line, which says which form the text has.
pub const VERSION: &[u8] = b"kovshenul entries 1\n";

/// Writes the line of an entry, or a front of it where the sink fails. Takes no memory.
pub fn write_entry<K: Sink>(sink: &mut K, entry: &Entry) -> Result<(), WriteFailed>
    ensures { Writes (K.taken sink.old) (K.failures sink.old) (entry_text entry.now) result
        (K.taken sink.new) (K.failures sink.new) }
{
    write_deed(sink, entry.worker, &entry.deed)?;
    write_answered(sink, &entry.reply)
}

/// Writes the part of an entry's line after its deed, or a front of it if the sink fails. Takes no memory.
pub(crate) fn write_answered<K: Sink>(sink: &mut K, reply: &Reply) -> Result<(), WriteFailed>
    ensures { Writes (K.taken sink.old) (K.failures sink.old)
        (codes " = " ++ answer_text (Answer.Reply reply.now)) result
        (K.taken sink.new) (K.failures sink.new) }
{
    put_all(sink, b" = ")?;
    write_reply_of(sink, reply)
}

/// Writes the line after [`VERSION`], or a front of it if the sink fails. It has the number of workers and of the
/// vertices that may ever be made. Takes no memory.
pub fn write_limits<K: Sink>(
    sink: &mut K,
    workers: u64,
    max_vertices: u64,
) -> Result<(), WriteFailed>
    ensures { Writes (K.taken sink.old) (K.failures sink.old) (limits_text workers max_vertices) result
        (K.taken sink.new) (K.failures sink.new) }
{
    let mut first = Buffer::new();
    let mut second = Buffer::new();
    put_texts(
        sink,
        &[
            b"opening ",
            first.format(workers).as_bytes(),
            b" ",
            second.format(max_vertices).as_bytes(),
            b"\n",
        ],
    )
}

/// Writes the line of a worker's value, or a front of it where the sink fails. Takes no memory.
pub fn write_worker<K: Sink>(sink: &mut K, value: &Value) -> Result<(), WriteFailed>
    ensures { Writes (K.taken sink.old) (K.failures sink.old) (worker_text value.now) result
        (K.taken sink.new) (K.failures sink.new) }
{
    put_all(sink, b"worker ")?;
    write_value_line(sink, value)
}

/// Writes the last line, with the number of entries, or a front of it where the sink fails. Takes no memory.
pub fn write_end<K: Sink>(sink: &mut K, count: u64) -> Result<(), WriteFailed>
    ensures { Writes (K.taken sink.old) (K.failures sink.old) (end_text count) result
        (K.taken sink.new) (K.failures sink.new) }
{
    let mut buffer = Buffer::new();
    put_texts(sink, &[b"entries ", buffer.format(count).as_bytes(), b"\n"])
}

/// Writes the line with the SHA-256 of the part before, or a front of it if the sink fails. Takes no memory.
pub fn write_sum<K: Sink>(sink: &mut K, sum: &[u8; 32]) -> Result<(), WriteFailed>
    ensures { Writes (K.taken sink.old) (K.failures sink.old) (sum_text sum.now) result
        (K.taken sink.new) (K.failures sink.new) }
{
    put_texts(sink, &[b"sha256 ", &digits_of(sum), b"\n"])
}

// The digits of a sum, in lower case.
fn digits_of(sum: &[u8; 32]) -> [u8; 64]
    ensures { result ≡ encode_lower sum.now }
{
    let mut digits = [0; 64];
    let _ = encode_to_slice(sum, &mut digits);
    digits
}

/// Writes the deed of an entry, which comes before ` = ` in its line, or a front of it if the sink fails. Takes no
/// memory.
pub(crate) fn write_deed<K: Sink>(sink: &mut K, worker: u64, deed: &Deed) -> Result<(), WriteFailed>
    ensures { Writes (K.taken sink.old) (K.failures sink.old) (deed_text worker deed.now) result
        (K.taken sink.new) (K.failures sink.new) }
{
    let line = line_of_deed(worker, deed);
    match deed {
        Deed::Create { law, state, .. } => write_making(sink, line, *law, state.as_slice()),
        Deed::Spawn { law, state, .. } => write_making(sink, line, *law, state.as_slice()),
        Deed::Plain(_) => write_line(sink, line),
    }
}

// Writes the line by which a vertex is made, and what it stores.
fn write_making<K: Sink>(
    sink: &mut K,
    line: Line,
    law: Law,
    state: &[u64],
) -> Result<(), WriteFailed>
    ensures { Writes (K.taken sink.old) (K.failures sink.old) (line_text line ++ (32 ∷ payload_text law state.now)) result
        (K.taken sink.new) (K.failures sink.new) }
{
    write_line(sink, line)?;
    write_stored(sink, law, state)
}

// Writes what a vertex stores, after a space.
fn write_stored<K: Sink>(sink: &mut K, law: Law, state: &[u64]) -> Result<(), WriteFailed>
    ensures { Writes (K.taken sink.old) (K.failures sink.old) (32 ∷ payload_text law state.now) result
        (K.taken sink.new) (K.failures sink.new) }
{
    put_all(sink, b" ")?;
    write_value(sink, law, state)
}
