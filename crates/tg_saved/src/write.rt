//! How the text of a snapshot is written.
ghost use Rattle.std.specs.Prelude.{◌++◌};
ghost use Rattle.std.specs.List.{flat_map};
ghost use Rattle.tg_text.specs.Sinks.{Writes};
ghost use Rattle.tg_saved.specs.Texts.{edge_line_text, front_text, lines_text, named_text, snapshot_text, subject_text, vertex_text};

use crate::line::{write_counts, write_edge, write_snapshot_end, write_subject, write_vertex};
use tg_model::{Edge, Picture};
use tg_snapshot::{ShownVertex, Snapshot};
use tg_text::{Sink, WriteFailed, put_all};

/// The first line, which says which form the text has.
pub const SNAPSHOT_VERSION: &[u8] = b"kovshenul picture 1\n";

/// Writes the text of a snapshot, or a front of it where the sink fails. Takes no memory.
pub fn write_snapshot<K: Sink>(sink: &mut K, snapshot: &Snapshot) -> Result<(), WriteFailed>
    ensures { Writes (K.taken sink.old) (K.failures sink.old) (snapshot_text snapshot.now) result
        (K.taken sink.new) (K.failures sink.new) }
{
    write_parts(
        sink,
        snapshot.picture(),
        snapshot.vertices(),
        snapshot.entries(),
    )
}

// The lines of these parts.
fn write_parts<K: Sink>(
    sink: &mut K,
    picture: &Picture,
    vertices: &[ShownVertex],
    entries: u64,
) -> Result<(), WriteFailed>
    ensures { Writes (K.taken sink.old) (K.failures sink.old)
        (snapshot_text (record { picture = picture.now; vertices = vertices.now; entries = entries })) result
        (K.taken sink.new) (K.failures sink.new) }
{
    let edges = picture.edges();
    write_unended(sink, picture, vertices, entries)?;
    write_snapshot_end(sink, vertices.len() as u64 + edges.len() as u64)
}

// All lines but the last.
fn write_unended<K: Sink>(
    sink: &mut K,
    picture: &Picture,
    vertices: &[ShownVertex],
    entries: u64,
) -> Result<(), WriteFailed>
    ensures { Writes (K.taken sink.old) (K.failures sink.old)
        (lines_text (record { picture = picture.now; vertices = vertices.now; entries = entries })) result
        (K.taken sink.new) (K.failures sink.new) }
{
    write_shown(sink, picture, vertices, entries)?;
    write_edges(sink, picture.edges())
}

// The lines in front of the edges.
fn write_shown<K: Sink>(
    sink: &mut K,
    picture: &Picture,
    vertices: &[ShownVertex],
    entries: u64,
) -> Result<(), WriteFailed>
    ensures { Writes (K.taken sink.old) (K.failures sink.old)
        (named_text picture.now entries ++ flat_map vertex_text vertices.now) result
        (K.taken sink.new) (K.failures sink.new) }
{
    write_named(sink, picture, entries)?;
    write_vertices(sink, vertices)
}

// The lines in front of the vertices.
fn write_named<K: Sink>(sink: &mut K, picture: &Picture, entries: u64) -> Result<(), WriteFailed>
    ensures { Writes (K.taken sink.old) (K.failures sink.old) (named_text picture.now entries) result
        (K.taken sink.new) (K.failures sink.new) }
{
    write_front(sink, picture, entries)?;
    write_subjects(sink, picture.subjects())
}

// The first two lines.
fn write_front<K: Sink>(sink: &mut K, picture: &Picture, entries: u64) -> Result<(), WriteFailed>
    ensures { Writes (K.taken sink.old) (K.failures sink.old) (front_text picture.now entries) result
        (K.taken sink.new) (K.failures sink.new) }
{
    put_all(sink, SNAPSHOT_VERSION)?;
    write_counts(sink, picture.made(), picture.limit(), entries)
}

fn write_subjects<K: Sink>(sink: &mut K, subjects: &[u64]) -> Result<(), WriteFailed>
    ensures { Writes (K.taken sink.old) (K.failures sink.old) (flat_map subject_text subjects.now) result
        (K.taken sink.new) (K.failures sink.new) }
{
    for name in subjects {
        write_subject(sink, *name)?;
    }
    Ok(())
}

fn write_vertices<K: Sink>(sink: &mut K, vertices: &[ShownVertex]) -> Result<(), WriteFailed>
    ensures { Writes (K.taken sink.old) (K.failures sink.old) (flat_map vertex_text vertices.now) result
        (K.taken sink.new) (K.failures sink.new) }
{
    for vertex in vertices {
        write_vertex(sink, vertex)?;
    }
    Ok(())
}

/// Writes the line of each edge, or a front of them where the sink fails. Takes no memory.
pub fn write_edges<K: Sink>(sink: &mut K, edges: &[Edge]) -> Result<(), WriteFailed>
    ensures { Writes (K.taken sink.old) (K.failures sink.old) (flat_map edge_line_text edges.now) result
        (K.taken sink.new) (K.failures sink.new) }
{
    for edge in edges {
        write_edge(sink, *edge)?;
    }
    Ok(())
}
