//! The vertices that subjects reach.

use std::alloc::Global;
use std::collections::BTreeSet;

/// The vertices that a subject reaches along edges. It remembers whether memory ran out for one of them.
#[derive(Drop)]
pub struct Reach {
    /// Their names.
    pub names: BTreeSet<u64>,
    // The names from which nothing was reached yet.
    waiting: Vec<u64>,
    /// Whether memory ran out.
    pub is_short: bool,
}

impl Reach {
    /// Nothing was reached yet.
    pub fn new(alloc: Global) -> Reach {
        Reach {
            names: BTreeSet::new(alloc),
            waiting: Vec::new(alloc),
            is_short: false,
        }
    }

    /// Looks anew for the vertices that these subjects reach along edges with these ends, if so many vertices were
    /// made.
    pub fn fill(&mut self, subjects: &[u64], made: u64, edges: &BTreeSet<(u64, u64)>) {
        self.names.clear();
        for name in subjects {
            self.add(*name);
        }
        // Each vertex waits once.
        for _ in 0..made {
            let Some(from) = self.waiting.pop() else {
                break;
            };
            self.add_targets(from, edges);
        }
    }

    // Adds the targets of a vertex.
    fn add_targets(&mut self, from: u64, edges: &BTreeSet<(u64, u64)>) {
        for (_, to) in edges.range((from, 0)..=(from, u64::MAX)) {
            self.add(*to);
        }
    }

    // Adds a vertex, and lets it wait if it wasn't reached before.
    fn add(&mut self, name: u64) {
        match self.names.insert(name) {
            Ok(true) => self.is_short |= self.waiting.push(name).is_err(),
            Ok(false) => (),
            Err(_) => self.is_short = true,
        }
    }
}
