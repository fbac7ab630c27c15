//! The lines of a snapshot's text, and whether some bytes are a line. What was read from them is written again, and
//! compared.
ghost use Rattle.std.specs.Prelude.{◌≡◌, ◌++◌, codes, decimal, IfOk, IsTrue};
ghost use Rattle.tg_text.specs.Sinks.{Writes};
ghost use Rattle.tg_saved.specs.Lines.{snapshot_line_text};
ghost use Rattle.tg_saved.specs.Texts.{counts_text, edge_line_text, snapshot_end_text, subject_text, vertex_text};

use crate::value::write_value_line;
use itoa::Buffer;
use std::alloc::AllocError;
use std::sync::ledger::Ledger;
use tg_model::Edge;
use tg_snapshot::ShownVertex;
use tg_text::{Line, Sink, WriteFailed, Written, put_all, put_texts, write_line};

/// A line after the first one.
#[derive(Clone, Copy)]
pub enum SnapshotLine<'a> {
    Counts { made: u64, limit: u64, entries: u64 },
    Subject(u64),
    Vertex(&'a ShownVertex),
    Edge(&'a Edge),
    End(u64),
}

/// Writes the line again, and compares the bytes with it. Fails only when out of memory.
pub(crate) fn is_line<L: Ledger>(
    again: &mut Written<L>,
    line: &SnapshotLine,
    bytes: &[u8],
) -> Result<bool, AllocError>
    ensures { IfOk result (λ same. IsTrue same → bytes.now ≡ snapshot_line_text line.now) }
{
    again.bytes.clear();
    match write_snapshot_line(again, line) {
        Ok(()) => Ok(again.bytes.as_slice() == bytes),
        Err(_) => Err(AllocError),
    }
}

// Writes the line, or a front of it where the sink fails.
fn write_snapshot_line<K: Sink>(sink: &mut K, line: &SnapshotLine) -> Result<(), WriteFailed>
    ensures { Writes (K.taken sink.old) (K.failures sink.old) (snapshot_line_text line.now) result
        (K.taken sink.new) (K.failures sink.new) }
{
    match line {
        SnapshotLine::Counts {
            made,
            limit,
            entries,
        } => write_counts(sink, *made, *limit, *entries),
        SnapshotLine::Subject(name) => write_subject(sink, *name),
        SnapshotLine::Vertex(vertex) => write_vertex(sink, vertex),
        SnapshotLine::Edge(edge) => write_edge(sink, **edge),
        SnapshotLine::End(count) => write_snapshot_end(sink, *count),
    }
}

/// Writes the line of the counts, or a front of it where the sink fails. Takes no memory.
pub(crate) fn write_counts<K: Sink>(
    sink: &mut K,
    made: u64,
    limit: u64,
    entries: u64,
) -> Result<(), WriteFailed>
    ensures { Writes (K.taken sink.old) (K.failures sink.old) (counts_text made limit entries) result
        (K.taken sink.new) (K.failures sink.new) }
{
    let mut first = Buffer::new();
    let mut second = Buffer::new();
    let mut third = Buffer::new();
    put_texts(
        sink,
        &[
            b"made ",
            first.format(made).as_bytes(),
            b" ",
            second.format(limit).as_bytes(),
            b" ",
            third.format(entries).as_bytes(),
            b"\n",
        ],
    )
}

/// Writes the line of an active subject, or a front of it where the sink fails. Takes no memory.
pub(crate) fn write_subject<K: Sink>(sink: &mut K, name: u64) -> Result<(), WriteFailed>
    ensures { Writes (K.taken sink.old) (K.failures sink.old) (subject_text name) result
        (K.taken sink.new) (K.failures sink.new) }
{
    let mut buffer = Buffer::new();
    put_texts(sink, &[b"worker ", buffer.format(name).as_bytes(), b"\n"])
}

/// Writes the line of a vertex, or a front of it where the sink fails. Takes no memory.
pub(crate) fn write_vertex<K: Sink>(sink: &mut K, vertex: &ShownVertex) -> Result<(), WriteFailed>
    ensures { Writes (K.taken sink.old) (K.failures sink.old) (vertex_text vertex.now) result
        (K.taken sink.new) (K.failures sink.new) }
{
    write_name(sink, vertex.name)?;
    write_value_line(sink, &vertex.value)
}

// Writes what is in front of the value.
fn write_name<K: Sink>(sink: &mut K, name: u64) -> Result<(), WriteFailed>
    ensures { Writes (K.taken sink.old) (K.failures sink.old) (codes "vertex " ++ (decimal name ++ codes " ")) result
        (K.taken sink.new) (K.failures sink.new) }
{
    let mut buffer = Buffer::new();
    put_texts(sink, &[b"vertex ", buffer.format(name).as_bytes(), b" "])
}

/// Writes the line of an edge, or a front of it where the sink fails. Takes no memory.
pub fn write_edge<K: Sink>(sink: &mut K, edge: Edge) -> Result<(), WriteFailed>
    ensures { Writes (K.taken sink.old) (K.failures sink.old) (edge_line_text edge) result
        (K.taken sink.new) (K.failures sink.new) }
{
    write_line(sink, Line::Edge(edge))?;
    put_all(sink, b"\n")
}

/// Writes the last line, with the number of vertices and edges, or a front of it where the sink fails. Takes no memory.
pub(crate) fn write_snapshot_end<K: Sink>(sink: &mut K, count: u64) -> Result<(), WriteFailed>
    ensures { Writes (K.taken sink.old) (K.failures sink.old) (snapshot_end_text count) result
        (K.taken sink.new) (K.failures sink.new) }
{
    let mut buffer = Buffer::new();
    put_texts(sink, &[b"picture ", buffer.format(count).as_bytes(), b"\n"])
}
