//! The picture of a graph.
ghost use Rattle.std.specs.Prelude.{◌≡◌, ◌<◌, ℕ, IfOk, OnOk};
ghost use Rattle.std.specs.List.{All};
ghost use Rattle.tg_rights.specs.RightSet.{RightSet};
ghost use Rattle.tg_rights.specs.declared.Right.{Right};
ghost use Rattle.tg_model.specs.Opened.{label_in};
ghost use Rattle.tg_model.specs.Plain.{graph_of};
ghost use Rattle.tg_model.specs.Picture.{Holds, IsPictureOf, StandsIn, IsLabelledBy, AreAmong};

use crate::edge::Edge;
use crate::graph::Graph;
use crate::picture::Picture;
use std::alloc::{AllocError, Global};
use tg_rights::Label;

impl Graph {
    /// The picture of the graph. Fails only when out of memory.
    pub fn picture(&self, alloc: Global) -> Result<Picture, AllocError>
        ensures { IfOk result (λ picture. IsPictureOf picture (graph_of self.now)) }
    {
        let subjects = Vec::from_slice(alloc, &self.subjects)?;
        let edges = edges_of(alloc, self)?;
        Ok(Picture::new(subjects, edges, self.values.len() as u64, self.max_vertices))
    }
}

// The edges of a graph, one after the other. Fails only when out of memory.
fn edges_of(alloc: Global, graph: &Graph) -> Result<Vec<Edge>, AllocError>
    ensures all { IfOk result (λ edges. (a b : ℕ) (q : Right) → a < (graph_of graph.now).made → Holds (graph_of graph.now).label a q b → Holds (label_in edges.items) a q b) }
    ensures only { IfOk result (λ edges. AreAmong edges.items (graph_of graph.now).label) }
{
    let mut edges = Vec::new(alloc);
    for from in 0..graph.values.len() as u64 {
        let row = graph.listing(from)?;
        add_row(&mut edges, from, row.as_slice())?;
    }
    Ok(edges)
}

// Adds the edges of a vertex.
fn add_row(edges: &mut Vec<Edge>, from: u64, listing: &[(u64, Label)]) -> Result<(), AllocError>
    ensures all { OnOk result (All (StandsIn edges.new.items from) listing.now) }
    ensures kept { OnOk result ((a b : ℕ) (q : Right) → Holds (label_in edges.old.items) a q b → Holds (label_in edges.new.items) a q b) }
    ensures only { OnOk result ((label : ℕ → ℕ → RightSet) → IsLabelledBy label from listing.now → AreAmong edges.old.items label → AreAmong edges.new.items label) }
{
    for edge in listing {
        edges.push(Edge {
            from,
            to: edge.0,
            label: edge.1,
        })?;
    }
    Ok(())
}
