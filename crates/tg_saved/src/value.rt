//! How the value of a vertex is written.
ghost use Rattle.std.specs.Prelude.{◌∷◌, ◌++◌, codes, decimal};
ghost use Rattle.std.specs.List.{flat_map};
ghost use Rattle.tg_model.specs.declared.law.Law.TheVariants as Law;
ghost use Rattle.tg_text.specs.Sinks.{Writes};
ghost use Rattle.tg_saved.specs.Values.{logged_text, more_text, numbers_text, payload_text};

use itoa::Buffer;
use tg_model::{Law, Value};
use tg_text::{Sink, WriteFailed, put_all, put_texts};

/// Writes a value and a line feed, or a front of these where the sink fails. Takes no memory.
pub fn write_value_line<K: Sink>(sink: &mut K, value: &Value) -> Result<(), WriteFailed>
    ensures { Writes (K.taken sink.old) (K.failures sink.old)
        (payload_text value.now.law value.now.state ++ codes "\n") result
        (K.taken sink.new) (K.failures sink.new) }
{
    write_value(sink, value.law, value.state.as_slice())?;
    put_all(sink, b"\n")
}

/// Writes the letter of a law and the numbers, or a front of these where the sink fails. Takes no memory.
pub fn write_value<K: Sink>(sink: &mut K, law: Law, state: &[u64]) -> Result<(), WriteFailed>
    ensures { Writes (K.taken sink.old) (K.failures sink.old) (payload_text law state.now) result
        (K.taken sink.new) (K.failures sink.new) }
{
    match law {
        Law::Cell => write_numbers(sink, b"c", state),
        Law::Sum => write_numbers(sink, b"s", state),
        Law::Max => write_numbers(sink, b"m", state),
        Law::Log(most) => write_log(sink, most, state),
    }
}

fn write_log<K: Sink>(sink: &mut K, most: u32, state: &[u64]) -> Result<(), WriteFailed>
    ensures { Writes (K.taken sink.old) (K.failures sink.old) (payload_text (Law.Log most) state.now) result
        (K.taken sink.new) (K.failures sink.new) }
{
    write_number(sink, b"l", u64::from(most))?;
    write_logged(sink, state)
}

// Writes the numbers of a log, after a colon where it has any.
fn write_logged<K: Sink>(sink: &mut K, state: &[u64]) -> Result<(), WriteFailed>
    ensures { Writes (K.taken sink.old) (K.failures sink.old) (logged_text state.now) result
        (K.taken sink.new) (K.failures sink.new) }
{
    match state {
        [] => Ok(()),
        [_, ..] => write_numbers(sink, b":", state),
    }
}

// Writes a text, and numbers after it with a comma between two.
fn write_numbers<K: Sink>(sink: &mut K, front: &[u8], numbers: &[u64]) -> Result<(), WriteFailed>
    ensures { Writes (K.taken sink.old) (K.failures sink.old) (front.now ++ numbers_text numbers.now) result
        (K.taken sink.new) (K.failures sink.new) }
{
    match numbers {
        [] => put_all(sink, front),
        [first, rest @ ..] => write_joined(sink, front, *first, rest),
    }
}

fn write_joined<K: Sink>(
    sink: &mut K,
    front: &[u8],
    first: u64,
    rest: &[u64],
) -> Result<(), WriteFailed>
    ensures { Writes (K.taken sink.old) (K.failures sink.old) (front.now ++ numbers_text (first ∷ rest.now)) result
        (K.taken sink.new) (K.failures sink.new) }
{
    write_number(sink, front, first)?;
    write_more(sink, rest)
}

fn write_more<K: Sink>(sink: &mut K, numbers: &[u64]) -> Result<(), WriteFailed>
    ensures { Writes (K.taken sink.old) (K.failures sink.old) (flat_map more_text numbers.now) result
        (K.taken sink.new) (K.failures sink.new) }
{
    for number in numbers {
        write_number(sink, b",", *number)?;
    }
    Ok(())
}

fn write_number<K: Sink>(sink: &mut K, front: &[u8], number: u64) -> Result<(), WriteFailed>
    ensures { Writes (K.taken sink.old) (K.failures sink.old) (front.now ++ decimal number) result
        (K.taken sink.new) (K.failures sink.new) }
{
    let mut buffer = Buffer::new();
    put_texts(sink, &[front, buffer.format(number).as_bytes()])
}
