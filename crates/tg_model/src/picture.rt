//! Pictures. A picture is a graph without what its vertices store, as a list of edges.
ghost use Rattle.std.specs.Prelude.{◌≡◌, ◌<◌, IfOk};
ghost use Rattle.tg_model.specs.Graph.{ProtectionGraph};
ghost use Rattle.tg_model.specs.Picture.{IsPictureOf, with_edge};

use crate::edge::Edge;
use std::alloc::AllocError;
use std::marker::Model;
use tg_rights::Label;

/// A graph without what its vertices store. It has its active subjects, its edges, how many vertices were ever made,
/// and the most that may be. Contracts see it as the record of these, `Shown`.
#[derive(Drop)]
pub struct Picture {
    subjects: Vec<u64>,
    edges: Vec<Edge>,
    made: u64,
    limit: u64,
}

impl Model for Picture {
    ghost use Rattle.tg_model.specs.Picture.{Shown};

    ghost Value = { Shown };

    ghost view = { λ a. record { subjects = a.subjects.items; edges = a.edges.items; made = a.made; limit = a.limit } };
}

impl Picture {
    /// The picture of these parts. The caller says of which graph they are. If two edges have the same ends, the graph
    /// has the union of their labels. Takes no memory.
    pub fn new(subjects: Vec<u64>, edges: Vec<Edge>, made: u64, limit: u64) -> Picture
        ensures { result ≡ record { subjects = subjects.items; edges = edges.items; made = made; limit = limit } }
    {
        Picture {
            subjects,
            edges,
            made,
            limit,
        }
    }

    /// The picture as it would be if `from` had these rights over `to` too. Fails only when out of memory, and the
    /// picture is dropped then.
    pub fn with(self, from: u64, to: u64, rights: Label) -> Result<Picture, AllocError>
        ensures { IfOk result (λ picture. (g : ProtectionGraph) → IsPictureOf self g → from < g.made → to < g.made →
            IsPictureOf picture (with_edge g from to rights)) }
    {
        let mut picture = self;
        picture.edges.push(Edge {
            from,
            to,
            label: rights,
        })?;
        Ok(picture)
    }

    /// The active subjects.
    pub fn subjects(&self) -> &[u64]
        ensures { result.now ≡ self.now.subjects }
    {
        self.subjects.as_slice()
    }

    /// The edges.
    pub fn edges(&self) -> &[Edge]
        ensures { result.now ≡ self.now.edges }
    {
        self.edges.as_slice()
    }

    /// How many vertices were ever made, and so the name of the next.
    pub fn made(&self) -> u64
        ensures { result ≡ self.now.made }
    {
        self.made
    }

    /// The most vertices that may ever be made.
    pub fn limit(&self) -> u64
        ensures { result ≡ self.now.limit }
    {
        self.limit
    }
}
