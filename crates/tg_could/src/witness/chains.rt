//! The edges from each vertex, as chains through a list of edges and those that came since. Nothing is believed of
//! them, because whoever follows a chain looks at the edge.
use crate::search::growth::{push, table};
use crate::search::names::Names;
use std::alloc::{AllocError, Global};
use tg_model::{Edge, Picture};

/// The end of a chain, and the place of an edge past the most that are numbered, 2^32 - 1.
pub(crate) const NONE: u32 = u32::MAX;

/// The number as a place, `NONE` where it is past the last.
pub(crate) fn place(at: usize) -> u32 {
    u32::try_from(at).unwrap_or(NONE)
}

/// The number in a list at a place, `NONE` past the last.
pub(crate) fn number_at(list: &[u32], place: usize) -> u32 {
    if place < list.len() {
        list[place]
    } else {
        NONE
    }
}

/// Puts a number into a list at a place, unless it is past the last.
pub(crate) fn put_number(list: &mut [u32], place: usize, number: u32) {
    if place < list.len() {
        list[place] = number;
    }
}

/// The place of an edge, and of the next link of the same vertex.
#[derive(Clone, Copy, Drop)]
pub(crate) struct Chained {
    pub(crate) edge: u32,
    pub(crate) next: u32,
}

/// For each vertex the place of its last link, all links, and how many edges the picture has. Vertices that were added
/// since have the numbers after those of the picture.
#[derive(Drop)]
pub(crate) struct Chains {
    names: Names,
    made: u64,
    first: Vec<u32>,
    links: Vec<Chained>,
    edges: usize,
    /// Whether memory ran out once. Who follows the chains reports it.
    pub(crate) grown: Result<(), AllocError>,
}

impl Chains {
    /// All edges of a picture.
    pub(crate) fn of(alloc: Global, picture: &Picture) -> Chains {
        let mut grown = Ok(());
        let names = Names::of(alloc, picture, &mut grown);
        let mut chains = Chains::none(alloc, names, picture, grown);
        for (at, edge) in picture.edges().iter().enumerate() {
            let number = chains.names.number(edge.from);
            chains.put(place(at), number);
        }
        chains
    }

    /// Chains without an edge of a picture. `grown` says whether memory ran out for the names.
    pub(crate) fn none(
        alloc: Global,
        names: Names,
        picture: &Picture,
        mut grown: Result<(), AllocError>,
    ) -> Chains {
        let first = table(alloc, NONE, names.len(), &mut grown);
        Chains {
            names,
            made: picture.made(),
            first,
            links: Vec::new(alloc),
            edges: picture.edges().len(),
            grown,
        }
    }

    /// Puts an edge in front of the others from the vertex with a number.
    pub(crate) fn put(&mut self, edge: u32, number: u64) {
        let next = number_at(self.first.as_slice(), number as usize);
        let at = place(self.links.len());
        push(&mut self.links, Chained { edge, next }, &mut self.grown);
        put_number(self.first.as_mut_slice(), number as usize, at);
    }

    /// Puts an edge, before which so many came since, in front of the others from a vertex.
    pub(crate) fn add(&mut self, vertex: u64, before: usize) {
        let edge = place(self.edges.saturating_add(before));
        self.put(edge, self.number(vertex));
    }

    /// Makes a chain for one vertex more.
    pub(crate) fn add_vertex(&mut self) {
        push(&mut self.first, NONE, &mut self.grown);
    }

    /// Forgets the edges that came since, which these are, and the vertices.
    pub(crate) fn forget(&mut self, added: &[Edge]) {
        for before in 0..added.len() {
            let edge = added[added.len() - 1 - before];
            if let Some(link) = self.links.pop() {
                let number = self.number(edge.from);
                put_number(self.first.as_mut_slice(), number as usize, link.next);
            }
        }
        self.first.truncate(self.names.len());
    }

    /// The place of a vertex's first link, `NONE` where it has none.
    pub(crate) fn first(&self, vertex: u64) -> u32 {
        number_at(self.first.as_slice(), self.number(vertex) as usize)
    }

    /// The link at a place.
    pub(crate) fn at(&self, place: u32) -> Option<Chained> {
        let at = place as usize;
        if at < self.links.len() {
            Some(self.links[at])
        } else {
            None
        }
    }

    // The number of a vertex of the picture, or of one that came since.
    fn number(&self, vertex: u64) -> u64 {
        if vertex < self.made {
            return self.names.number(vertex);
        }
        (vertex - self.made).saturating_add(self.names.len() as u64)
    }
}
