//! The graph of an audit, of which what no subject reaches may be forgotten.
ghost use Rattle.std.specs.Prelude.{◌≡◌, ◌↔◌, ℕ, IfOk, IsTrue};
ghost use Rattle.std.specs.List.{range_with_len};
ghost use Rattle.tg_rights.specs.RightSet.{no_rights};
ghost use Rattle.tg_model.specs.Opened.{IsPlan, label_in, start_of};
ghost use Rattle.tg_journal.specs.Live.{label_between, value_of, graph_kept};

mod service;
mod shown;
mod sweep;

use crate::vertices::Vertices;
use std::alloc::{AllocError, Global};
use std::marker::Model;
use tg_model::{Edge, Labelled, Opening};
use tg_rights::Rights;

/// A protection graph as the vertices that are kept of it. It takes memory by what it has, and not by the number of
/// names that were made. Contracts see it as `KeptGraph`, the record of its parts. They describe it by `graph_kept`,
/// the protection graph of these parts.
#[derive(Drop)]
pub(crate) struct LiveGraph {
    alloc: Global,
    subjects: Vec<u64>,
    made: u64,
    max_vertices: u64,
    vertices: Vertices,
    // Whether rights were given up, or a subject ended, since the last sweep. Else a sweep would find nothing to
    // forget.
    has_lost: bool,
}

impl Model for LiveGraph {
    ghost use Rattle.std.specs.Prelude.{ℕ, ◌<◌};
    ghost use Rattle.tg_model.specs.Graph.{HasEdge};
    ghost use Rattle.tg_journal.specs.Live.{KeptGraph, label_between};

    ghost Value = { KeptGraph };

    ghost view = { λ a. record { subjects = a.subjects.items; made = a.made; limit = a.max_vertices; vertices = a.vertices } };

    ghost invariant = { λ a. (x y : ℕ) → HasEdge (label_between a.vertices) x y → y < a.made };
}

impl LiveGraph {
    ghost use Rattle.tg_model.specs.Graph.{IsSubject};

    /// The graph that an opening starts from. Fails only when out of memory.
    pub(crate) fn open(alloc: Global, opening: &Opening) -> Result<LiveGraph, AllocError>
        ensures start { IfOk result (λ graph. graph_kept graph ≡ start_of opening.now) }
        ensures plan { IsPlan opening.now }
    {
        let subjects = first_names(alloc, opening.workers())?;
        let vertices = opened_vertices(alloc, opening)?;
        Ok(LiveGraph {
            alloc,
            subjects,
            made: opening.workers(),
            max_vertices: opening.max_vertices(),
            vertices,
            has_lost: false,
        })
    }

    /// Whether a vertex is an active subject.
    pub(crate) fn is_subject(&self, name: u64) -> bool
        ensures { IsTrue result ↔ IsSubject (graph_kept self.now) name }
    {
        self.subjects.contains(&name)
    }

    /// Whether a sweep could find anything to forget.
    pub(crate) fn has_lost(&self) -> bool {
        self.has_lost
    }

    /// How many vertices it has.
    pub(crate) fn len(&self) -> usize {
        self.vertices.len()
    }
}

impl Labelled for LiveGraph {
    ghost use Rattle.tg_journal.specs.Live.{graph_kept};

    ghost label = { λ g. (graph_kept g).label };

    ghost value = { λ g. (graph_kept g).value };

    fn rights_over(&self, from: u64, to: u64) -> Rights {
        self.vertices.label(from, to)
    }

    fn has_log(&self, name: u64) -> bool {
        match self.vertices.value(name) {
            Some(value) => value.law.is_log(),
            None => false,
        }
    }
}

// The names below a number. Fails only when out of memory.
fn first_names(alloc: Global, number: u64) -> Result<Vec<u64>, AllocError>
    ensures { IfOk result (λ names. names.items ≡ range_with_len 0 number) }
{
    (0..number).collect(alloc)
}

// The vertices of an opening. Fails only when out of memory.
fn opened_vertices(alloc: Global, opening: &Opening) -> Result<Vertices, AllocError>
    ensures labels { IfOk result (λ vertices. label_between vertices ≡ (start_of opening.now).label) }
    ensures values { IfOk result (λ vertices. value_of vertices ≡ (start_of opening.now).value) }
{
    let bare = opened_values(alloc, opening)?;
    with_edges(alloc, bare, opening.edges())
}

// These vertices with these edges. Fails only when out of memory, and the vertices are then dropped.
fn with_edges(alloc: Global, bare: Vertices, edges: &[Edge]) -> Result<Vertices, AllocError>
    requires { (x y : ℕ) → label_between bare x y ≡ no_rights }
    ensures labels { IfOk result (λ vertices. label_between vertices ≡ label_in edges.now) }
    ensures values { IfOk result (λ vertices. value_of vertices ≡ value_of bare) }
{
    let mut vertices = bare;
    for edge in edges {
        vertices.add(alloc, edge.from, edge.to, edge.label)?;
    }
    Ok(vertices)
}

// The vertices of an opening, without edges. Fails only when out of memory.
fn opened_values(alloc: Global, opening: &Opening) -> Result<Vertices, AllocError>
    ensures labels { IfOk result (λ vertices. (x y : ℕ) → label_between vertices x y ≡ no_rights) }
    ensures values { IfOk result (λ vertices. value_of vertices ≡ (start_of opening.now).value) }
{
    let mut vertices = Vertices::new(alloc);
    for (name, value) in opening.values().iter().enumerate() {
        vertices.put(alloc, name as u64, value.copy(alloc)?)?;
    }
    Ok(vertices)
}
