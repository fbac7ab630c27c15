//! Edges at each vertex, as chains of links, each with the vertex at the edge's other end. Nothing has to be believed
//! of them, because what is found by them is checked.
use crate::search::growth::{note, push, table};
use crate::witness::chains::{NONE, number_at, place};
use std::alloc::{AllocError, Global};

// How many vertices are numbered.
const NUMBERED: u64 = 1 << 30;

/// The number of a vertex, none past the last that is numbered, 2^30 - 1.
pub(crate) fn number_of(vertex: u64) -> Option<u32> {
    if vertex < NUMBERED {
        u32::try_from(vertex).ok()
    } else {
        None
    }
}

/// An edge as one of its ends sees it, in 8 bytes.
#[derive(Clone, Copy, Drop)]
pub(crate) struct Link {
    /// Four times the other end, two more where the edge leads it into the first set, one more where into the second.
    pub(crate) packed: u32,
    /// The place of the next link of the same vertex, or `NONE` if there is none. Until the links are tied it is the
    /// vertex.
    pub(crate) next: u32,
}

impl Link {
    /// The vertex at the other end.
    pub(crate) fn end(self) -> u32 {
        self.packed >> 2
    }
}

/// For each vertex the place of its last link, and all links. They are added first, and tied when all are there. So the
/// walk over the edges never looks at a place that may be far from the processor.
#[derive(Drop)]
pub(crate) struct Links {
    first: Vec<u32>,
    links: Vec<Link>,
    grown: Result<(), AllocError>,
}

impl Links {
    /// Links of no vertex, with room for so many. Notes whether memory ran out.
    pub(crate) fn with_room(
        alloc: Global,
        made: usize,
        room: usize,
        grown: &mut Result<(), AllocError>,
    ) -> Links {
        let mut links = Vec::new(alloc);
        note(grown, links.try_reserve(room));
        Links {
            first: table(alloc, NONE, made, grown),
            links,
            grown: Ok(()),
        }
    }

    /// Adds a link of a vertex, by which its other end gets into the first set, into the second, or into both.
    pub(crate) fn add(&mut self, vertex: u64, end: u64, forward: bool, back: bool) {
        if let (Some(vertex), Some(end)) = (number_of(vertex), number_of(end)) {
            let link = Link {
                packed: end << 2 | (forward as u32) << 1 | back as u32,
                next: vertex,
            };
            push(&mut self.links, link, &mut self.grown);
        }
    }

    /// Ties the links of each vertex, the last in front. Notes whether memory ran out for one of them.
    pub(crate) fn tie(&mut self, grown: &mut Result<(), AllocError>) {
        let first = self.first.as_mut_slice();
        for (at, link) in self.links.iter_mut().enumerate() {
            let vertex = link.next as usize;
            if vertex < first.len() {
                link.next = first[vertex];
                first[vertex] = place(at);
            }
        }
        note(grown, self.grown);
    }

    /// The place of a vertex's first link, `NONE` where it has none.
    pub(crate) fn first(&self, vertex: u32) -> u32 {
        number_at(self.first.as_slice(), vertex as usize)
    }

    /// The link at a place.
    pub(crate) fn at(&self, place: u32) -> Option<Link> {
        let at = place as usize;
        if at < self.links.len() {
            Some(self.links[at])
        } else {
            None
        }
    }
}
