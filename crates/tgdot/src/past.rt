//! The graph after a history, as a drawing shows it.

use crate::reach::Reach;
use std::alloc::{AllocError, Global};
use std::collections::{BTreeMap, BTreeSet};
use tg_entries::{History, HistoryStart};
use tg_journal::Entry;
use tg_model::{Deed, Edge, Reply};
use tg_plain::last_picture;
use tg_rights::Rights;

/// The graph after a history. It has the vertices of the opening or snapshot, and the vertices that entries make. The
/// run remembers whether memory ran out for a part of it.
#[derive(Drop)]
pub struct PastRun {
    // The active subjects.
    subjects: Vec<u64>,
    /// The names of the vertices.
    pub names: BTreeSet<u64>,
    /// The names of all vertices that are subjects, or were subjects until they retired.
    pub ever_subjects: BTreeSet<u64>,
    /// The ends of the edges.
    pub ends: BTreeSet<(u64, u64)>,
    // The rights on each edge.
    rights: BTreeMap<(u64, u64), Rights>,
    reached: Reach,
    // Whether memory ran out.
    is_short: bool,
}

impl PastRun {
    /// The graph after a history. Fails only when out of memory.
    pub fn of(alloc: Global, history: &History) -> Result<PastRun, AllocError> {
        let picture = last_picture(alloc, history)?;
        let mut run = PastRun::new(alloc, picture.subjects())?;
        run.open(&history.start);
        run.add_made(history.entries.as_slice());
        run.add_edges(picture.edges());
        run.reach(picture.made());
        Ok(run)
    }

    // A run of which nothing is known but the active subjects. Fails only when out of memory.
    fn new(alloc: Global, subjects: &[u64]) -> Result<PastRun, AllocError> {
        Ok(PastRun {
            subjects: Vec::from_slice(alloc, subjects)?,
            names: BTreeSet::new(alloc),
            ever_subjects: BTreeSet::new(alloc),
            ends: BTreeSet::new(alloc),
            rights: BTreeMap::new(alloc),
            reached: Reach::new(alloc),
            is_short: false,
        })
    }

    /// Whether memory ran out.
    pub fn is_short(&self) -> bool {
        self.is_short || self.reached.is_short
    }

    /// Whether the vertex is an active subject.
    pub fn is_subject(&self, name: u64) -> bool {
        self.subjects.contains(&name)
    }

    /// Whether a subject reaches the vertex.
    pub fn is_reached(&self, name: u64) -> bool {
        self.reached.names.contains(&name)
    }

    /// The rights on the edge with these ends.
    pub fn held(&self, ends: (u64, u64)) -> Rights {
        self.rights.get(&ends).copied().unwrap_or(Rights::empty())
    }

    // Adds the vertices with which the history begins.
    fn open(&mut self, start: &HistoryStart) {
        match start {
            HistoryStart::Opened(opening) => {
                for name in 0..opening.workers() {
                    self.add_vertex(name, true);
                }
            }
            HistoryStart::Shown(snapshot) => {
                for vertex in snapshot.vertices() {
                    let is_subject = snapshot.picture().subjects().contains(&vertex.name);
                    self.add_vertex(vertex.name, is_subject);
                }
            }
        }
    }

    // Adds the vertices that entries make.
    fn add_made(&mut self, entries: &[Entry]) {
        for entry in entries {
            if let Reply::Name(name) = &entry.reply {
                self.add_vertex(*name, matches!(entry.deed, Deed::Spawn { .. }));
            }
        }
    }

    // Looks for what the subjects reach, if so many vertices were made.
    fn reach(&mut self, made: u64) {
        self.reached
            .fill(self.subjects.as_slice(), made, &self.ends);
    }

    // Adds edges.
    fn add_edges(&mut self, edges: &[Edge]) {
        for edge in edges {
            self.add_edge(*edge);
        }
    }

    // Adds an edge, or widens the one with the same ends.
    fn add_edge(&mut self, edge: Edge) {
        let ends = (edge.from, edge.to);
        let rights = self.held(ends).union(edge.label.rights());
        self.is_short |= self.rights.insert(ends, rights).is_err();
        self.is_short |= self.ends.insert(ends).is_err();
    }

    // Adds a vertex.
    fn add_vertex(&mut self, name: u64, is_subject: bool) {
        self.is_short |= self.names.insert(name).is_err();
        if is_subject {
            self.is_short |= self.ever_subjects.insert(name).is_err();
        }
    }
}
