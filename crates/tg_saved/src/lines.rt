//! What was read of a snapshot's text.
ghost use Rattle.std.specs.Prelude.{◌≡◌, ◌++◌, [], List, ℕ, IfOk, OnOk};
ghost use Rattle.tg_saved.specs.Texts.{edge_line_text, lines_text, snapshot_text, snapshot_version_text, subject_text, vertex_text};

use crate::fault::SnapshotLineFault;
use crate::line::{SnapshotLine, is_line};
use crate::read::{read_counts, read_edge, read_subject, read_vertex};
use std::alloc::{AllocError, Global};
use std::marker::Model;
use std::sync::ledger::Ledger;
use tg_model::{Edge, Picture};
use tg_snapshot::{ShownVertex, Snapshot, SnapshotFault};
use tg_text::Written;

/// What the lines of a snapshot's text gave so far. Contracts see it as the record of these, `Saved`.
#[derive(Drop)]
pub struct ReadLines {
    made: u64,
    limit: u64,
    entries: u64,
    subjects: Vec<u64>,
    vertices: Vec<ShownVertex>,
    edges: Vec<Edge>,
}

impl Model for ReadLines {
    ghost use Rattle.tg_snapshot.specs.Snapshot.{Saved};

    ghost Value = { Saved };

    ghost view = { λ a. record { picture = record { subjects = a.subjects.items; edges = a.edges.items; made = a.made; limit = a.limit }; vertices = a.vertices.items; entries = a.entries } };
}

impl ReadLines {
    /// Reads the line of the counts, which comes after the first line.
    pub(crate) fn begin<L: Ledger>(
        alloc: Global,
        again: &mut Written<L>,
        line: &[u8],
    ) -> Result<ReadLines, SnapshotLineFault>
        ensures { IfOk result (λ lines. snapshot_version_text ++ line.now ≡ lines_text lines) }
    {
        let Some((made, limit, entries)) = read_counts(alloc, line)? else {
            return Err(SnapshotLineFault::BadCounts);
        };
        let counts = SnapshotLine::Counts {
            made,
            limit,
            entries,
        };
        if !is_line(again, &counts, line)? {
            return Err(SnapshotLineFault::BadCounts);
        }
        Ok(ReadLines {
            made,
            limit,
            entries,
            subjects: Vec::new(alloc),
            vertices: Vec::new(alloc),
            edges: Vec::new(alloc),
        })
    }

    /// Reads the line of a subject, a vertex or an edge.
    pub(crate) fn add<L: Ledger>(
        &mut self,
        alloc: Global,
        again: &mut Written<L>,
        line: &[u8],
    ) -> Result<(), SnapshotLineFault>
        ensures { (text : List ℕ) → text ≡ lines_text self.old → OnOk result (text ++ line.now ≡ lines_text self.new) }
    {
        if line.starts_with(b"edge ") {
            let edge = next_edge(again, line)?;
            return self.add_edge(edge);
        }
        if line.starts_with(b"vertex ") {
            let vertex = next_vertex(alloc, again, line)?;
            return self.add_vertex(vertex);
        }
        let name = next_subject(again, line)?;
        self.add_subject(name)
    }

    // The next subject: after a vertex or an edge there is none.
    fn add_subject(&mut self, name: u64) -> Result<(), SnapshotLineFault>
        ensures { (text : List ℕ) → text ≡ lines_text self.old → OnOk result (text ++ subject_text name ≡ lines_text self.new) }
    {
        if !self.vertices.is_empty() || !self.edges.is_empty() {
            return Err(SnapshotLineFault::BadLine);
        }
        match self.subjects.push(name) {
            Ok(()) => Ok(()),
            Err(_) => Err(SnapshotLineFault::OutOfMemory),
        }
    }

    // The next vertex: after an edge there is none.
    fn add_vertex(&mut self, vertex: ShownVertex) -> Result<(), SnapshotLineFault>
        ensures { (text : List ℕ) → text ≡ lines_text self.old → OnOk result (text ++ vertex_text vertex ≡ lines_text self.new) }
    {
        if !self.edges.is_empty() {
            return Err(SnapshotLineFault::BadLine);
        }
        match self.vertices.push(vertex) {
            Ok(()) => Ok(()),
            Err(_) => Err(SnapshotLineFault::OutOfMemory),
        }
    }

    // The next edge.
    fn add_edge(&mut self, edge: Edge) -> Result<(), SnapshotLineFault>
        ensures { (text : List ℕ) → text ≡ lines_text self.old → OnOk result (text ++ edge_line_text edge ≡ lines_text self.new) }
    {
        match self.edges.push(edge) {
            Ok(()) => Ok(()),
            Err(_) => Err(SnapshotLineFault::OutOfMemory),
        }
    }

    /// The snapshot, whose last line this is.
    pub(crate) fn end<L: Ledger>(
        self,
        again: &mut Written<L>,
        line: &[u8],
    ) -> Result<Snapshot, SnapshotLineFault>
        ensures { (text : List ℕ) → text ≡ lines_text self → IfOk result (λ snapshot. text ++ line.now ≡ snapshot_text snapshot) }
    {
        let due = self.vertices.len() as u64 + self.edges.len() as u64;
        if !is_line(again, &SnapshotLine::End(due), line)? {
            return Err(SnapshotLineFault::BadEnd { due });
        }
        self.close()
    }

    // The snapshot of what was read.
    fn close(self) -> Result<Snapshot, SnapshotLineFault>
        ensures { IfOk result (λ snapshot. snapshot ≡ self) }
    {
        let ReadLines {
            made,
            limit,
            entries,
            subjects,
            vertices,
            edges,
        } = self;
        let (subject_lines, vertex_lines) = (subjects.len() as u64, vertices.len() as u64);
        let picture = Picture::new(subjects, edges, made, limit);
        match Snapshot::new(picture, vertices, entries) {
            Ok(snapshot) => Ok(snapshot),
            Err(why) => Err(SnapshotLineFault::BadSnapshot {
                line: line_of(why, subject_lines, vertex_lines),
                why,
            }),
        }
    }
}

// The line of a fault, counted from 1, in a text with so many lines of subjects and of vertices.
fn line_of(why: SnapshotFault, subject_lines: u64, vertex_lines: u64) -> u64 {
    let subjects_from: u64 = 3;
    let vertices_from = subjects_from.saturating_add(subject_lines);
    let edges_from = vertices_from.saturating_add(vertex_lines);
    match why {
        SnapshotFault::NoneMade | SnapshotFault::BadLimit => 2,
        SnapshotFault::BadSubject { at } => subjects_from.saturating_add(at),
        SnapshotFault::BadVertex { at } => vertices_from.saturating_add(at),
        SnapshotFault::BadEdge { at } => edges_from.saturating_add(at),
    }
}

// Reads the name of the next subject from the line.
fn next_subject<L: Ledger>(again: &mut Written<L>, line: &[u8]) -> Result<u64, SnapshotLineFault>
    ensures { IfOk result (λ name. line.now ≡ subject_text name) }
{
    let Some(name) = read_subject(line) else {
        return Err(SnapshotLineFault::BadLine);
    };
    if !is_line(again, &SnapshotLine::Subject(name), line)? {
        return Err(SnapshotLineFault::BadLine);
    }
    Ok(name)
}

// Reads the next vertex from the line.
fn next_vertex<L: Ledger>(
    alloc: Global,
    again: &mut Written<L>,
    line: &[u8],
) -> Result<ShownVertex, SnapshotLineFault>
    ensures { IfOk result (λ vertex. line.now ≡ vertex_text vertex) }
{
    let Some(vertex) = read_vertex(alloc, line)? else {
        return Err(SnapshotLineFault::BadLine);
    };
    if !is_line(again, &SnapshotLine::Vertex(&vertex), line)? {
        return Err(SnapshotLineFault::BadLine);
    }
    Ok(vertex)
}

// Reads the next edge from the line.
fn next_edge<L: Ledger>(again: &mut Written<L>, line: &[u8]) -> Result<Edge, SnapshotLineFault>
    ensures { IfOk result (λ edge. line.now ≡ edge_line_text edge) }
{
    let Some(edge) = read_edge(line) else {
        return Err(SnapshotLineFault::BadLine);
    };
    if !is_line(again, &SnapshotLine::Edge(&edge), line)? {
        return Err(SnapshotLineFault::BadLine);
    }
    Ok(edge)
}
