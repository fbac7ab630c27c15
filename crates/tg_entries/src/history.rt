//! How all of a history is written at once.
ghost use Rattle.std.specs.Prelude.{◌++◌};
ghost use Rattle.std.specs.List.{flat_map};
ghost use Rattle.tg_text.specs.Sinks.{Writes};
ghost use Rattle.tg_entries.specs.Texts.{entry_text, head_text, history_text, limits_text, version_text, worker_text};

use crate::write::{VERSION, write_end, write_entry, write_limits, write_worker};
use tg_journal::Entry;
use tg_model::{Opening, Value};
use tg_saved::write_edges;
use tg_text::{Sink, WriteFailed, put_all};

/// Writes the text of a history, which has its opening, the line of each entry, and the number of entries. If the sink
/// fails, a front of the text is written. Takes no memory.
pub fn write_history<K: Sink>(
    sink: &mut K,
    opening: &Opening,
    entries: &[Entry],
) -> Result<(), WriteFailed>
    ensures { Writes (K.taken sink.old) (K.failures sink.old) (history_text opening.now entries.now) result
        (K.taken sink.new) (K.failures sink.new) }
{
    write_unended(sink, opening, entries)?;
    write_end(sink, entries.len() as u64)
}

// All but the last line.
fn write_unended<K: Sink>(
    sink: &mut K,
    opening: &Opening,
    entries: &[Entry],
) -> Result<(), WriteFailed>
    ensures { Writes (K.taken sink.old) (K.failures sink.old)
        (head_text opening.now ++ flat_map entry_text entries.now) result
        (K.taken sink.new) (K.failures sink.new) }
{
    write_opening(sink, opening)?;
    write_entries(sink, entries)
}

/// Writes the lines before the entries, which are the form, the limits, each worker's value and each edge. If the sink
/// fails, a front of them is written. Takes no memory.
pub fn write_opening<K: Sink>(sink: &mut K, opening: &Opening) -> Result<(), WriteFailed>
    ensures { Writes (K.taken sink.old) (K.failures sink.old) (head_text opening.now) result
        (K.taken sink.new) (K.failures sink.new) }
{
    write_valued(
        sink,
        opening.workers(),
        opening.max_vertices(),
        opening.values(),
    )?;
    write_edges(sink, opening.edges())
}

// The lines in front of the edges.
fn write_valued<K: Sink>(
    sink: &mut K,
    workers: u64,
    max_vertices: u64,
    values: &[Value],
) -> Result<(), WriteFailed>
    ensures { Writes (K.taken sink.old) (K.failures sink.old)
        ((version_text ++ limits_text workers max_vertices) ++ flat_map worker_text values.now) result
        (K.taken sink.new) (K.failures sink.new) }
{
    write_front(sink, workers, max_vertices)?;
    write_workers(sink, values)
}

// The first two lines.
fn write_front<K: Sink>(sink: &mut K, workers: u64, max_vertices: u64) -> Result<(), WriteFailed>
    ensures { Writes (K.taken sink.old) (K.failures sink.old)
        (version_text ++ limits_text workers max_vertices) result
        (K.taken sink.new) (K.failures sink.new) }
{
    put_all(sink, VERSION)?;
    write_limits(sink, workers, max_vertices)
}

fn write_workers<K: Sink>(sink: &mut K, values: &[Value]) -> Result<(), WriteFailed>
    ensures { Writes (K.taken sink.old) (K.failures sink.old) (flat_map worker_text values.now) result
        (K.taken sink.new) (K.failures sink.new) }
{
    for value in values {
        write_worker(sink, value)?;
    }
    Ok(())
}

/// Writes the line of each entry, or a front of them where the sink fails. Takes no memory.
pub fn write_entries<K: Sink>(sink: &mut K, entries: &[Entry]) -> Result<(), WriteFailed>
    ensures { Writes (K.taken sink.old) (K.failures sink.old) (flat_map entry_text entries.now) result
        (K.taken sink.new) (K.failures sink.new) }
{
    for entry in entries {
        write_entry(sink, entry)?;
    }
    Ok(())
}
