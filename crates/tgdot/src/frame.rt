//! The parts that all steps of a run have in common.

use crate::shot::Shot;
use std::alloc::Global;
use std::collections::BTreeMap;
use tg_plain::PlainText;

/// The place that a vertex takes up in each picture.
#[derive(Clone, Copy)]
pub struct Extent {
    /// The columns of the longest of its lines.
    pub columns: usize,
    /// Whether it ever has a third line, of a note.
    pub is_noted: bool,
    /// Whether it is a subject, or was one until it retired.
    pub ever_subject: bool,
}

const NO_ROOM: Extent = Extent {
    columns: 0,
    is_noted: false,
    ever_subject: false,
};

// The columns for which each circle has room at least, and at most.
const LEAST_IN_CIRCLE: usize = 6;

const MOST_IN_CIRCLE: usize = 12;

/// The vertices and edges of all steps, with the number of columns that the texts of each take. Therefore every picture
/// has the same places. The frame remembers whether memory ran out for a part of it.
#[derive(Drop)]
pub struct Frame {
    /// The room of each vertex.
    pub vertices: BTreeMap<u64, Extent>,
    /// For each edge, by its ends, the columns of its longest label.
    pub edges: BTreeMap<(u64, u64), usize>,
    /// The columns of the longest heading or answer.
    pub columns: usize,
    /// Whether it holds all steps, and stays as it is.
    pub is_whole: bool,
    // How many vertices it may have.
    most: u64,
    // A text whose columns are counted.
    scratch: PlainText,
    // Whether memory ran out.
    is_short: bool,
}

impl Frame {
    /// A frame that holds nothing, and may have so many vertices.
    pub fn new(alloc: Global, most: u64) -> Frame {
        Frame {
            vertices: BTreeMap::new(alloc),
            edges: BTreeMap::new(alloc),
            columns: 0,
            is_whole: false,
            most,
            scratch: PlainText::new(alloc),
            is_short: false,
        }
    }

    /// Whether it has more vertices than it may have.
    pub fn is_over(&self) -> bool {
        self.vertices.len() as u64 > self.most
    }

    /// Whether memory ran out.
    pub fn is_short(&self) -> bool {
        self.is_short || self.scratch.is_short
    }

    /// Widens the frame so that it holds the step, unless it has too many vertices already.
    pub fn widen(&mut self, shot: &Shot) {
        if self.is_over() {
            return;
        }
        let columns = shot.heading.len().max(shot.told.len());
        self.columns = self.columns.max(columns);
        self.widen_needed(shot);
        self.widen_vertices(shot);
        self.widen_edges(shot);
    }

    /// The columns for which each circle has room, so that all are of one size.
    pub fn circle_columns(&self) -> usize {
        let mut most = LEAST_IN_CIRCLE;
        for (_, room) in self.vertices.iter() {
            if !room.ever_subject && room.columns <= MOST_IN_CIRCLE {
                most = room.columns.max(most);
            }
        }
        most
    }

    // Widens the room of the vertices that are there.
    fn widen_vertices(&mut self, shot: &Shot) {
        for name in shot.run.names.iter() {
            self.widen_vertex(shot, *name);
        }
    }

    // Widens the room of the edges that are there.
    fn widen_edges(&mut self, shot: &Shot) {
        for ends in shot.run.edges.iter() {
            self.widen_edge(shot, *ends);
        }
    }

    // Widens the room of what is shown even where it isn't there.
    fn widen_needed(&mut self, shot: &Shot) {
        if let Some((from, to)) = shot.marks.needed() {
            self.widen_vertex(shot, from);
            self.widen_vertex(shot, to);
        }
        if let Some(ends) = shot.marks.needed_edge() {
            self.widen_edge(shot, ends);
        }
    }

    // Widens the room of a vertex, where the step shows it.
    fn widen_vertex(&mut self, shot: &Shot, name: u64) {
        if let Some(view) = shot.vertex(name) {
            let mut room = self.vertices.get(&name).copied().unwrap_or(NO_ROOM);
            widen_room(&mut room, &mut self.scratch, shot, name);
            room.ever_subject = room.ever_subject || view.ever_subject;
            self.is_short |= self.vertices.insert(name, room).is_err();
        }
    }

    // Widens the room of an edge, where the step shows it.
    fn widen_edge(&mut self, shot: &Shot, ends: (u64, u64)) {
        if let Some(view) = shot.edge(ends) {
            self.scratch.clear();
            view.write(&mut self.scratch);
            let least = self.edges.get(&ends).copied().unwrap_or(0);
            let columns = self.scratch.len().max(least);
            self.is_short |= self.edges.insert(ends, columns).is_err();
        }
    }
}

// Widens the room of a vertex, so that it holds the lines of its text.
fn widen_room(room: &mut Extent, scratch: &mut PlainText, shot: &Shot, name: u64) {
    scratch.clear();
    scratch.add_number(name);
    room.columns = room.columns.max(scratch.len());
    scratch.clear();
    shot.write_state(scratch, name);
    room.columns = room.columns.max(scratch.len());
    scratch.clear();
    shot.write_note(scratch, name);
    room.columns = room.columns.max(scratch.len());
    room.is_noted = room.is_noted || scratch.len() > 0;
}
