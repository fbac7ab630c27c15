//! What a snapshot shows of vertices, and vertices from a snapshot.
ghost use Rattle.std.specs.Prelude.{◌≡◌, ◌++◌, ℕ, nat_eq, false, None, [], EachIndex, IfOk, IsTrue, OnOk, if◌then◌else◌};
ghost use Rattle.std.specs.List.{All};
ghost use Rattle.indexmap.specs.IndexSet.{contains};
ghost use Rattle.tg_rights.specs.RightSet.{is_none_held, no_rights};
ghost use Rattle.tg_model.specs.Opened.{label_in};
ghost use Rattle.tg_model.specs.Plain.{IsRisingRow};
ghost use Rattle.tg_snapshot.specs.Snapshot.{ComesAfter, EdgePrecedes, NamePrecedes, value_shown};
ghost use Rattle.tg_journal.specs.Inner.Showing.{edges_from, shown_if_stored};
ghost use Rattle.tg_journal.specs.Live.{label_between, value_of};

use crate::vertices::{Vertex, Vertices};
use indexmap::IndexSet;
use std::alloc::{AllocError, Global};
use tg_model::Edge;
use tg_snapshot::ShownVertex;

impl Vertices {
    /// Vertices without edges, with what a snapshot says that they store. Fails only when out of memory.
    pub(crate) fn from_shown(alloc: Global, shown: &[ShownVertex]) -> Result<Vertices, AllocError>
        requires { EachIndex shown.now (ComesAfter NamePrecedes shown.now) }
        ensures labels { IfOk result (λ vertices. (x y : ℕ) → label_between vertices x y ≡ no_rights) }
        ensures values { IfOk result (λ vertices. (y : ℕ) → value_of vertices y ≡ value_shown shown.now y) }
    {
        let mut vertices = Vertices::new(alloc);
        for vertex in shown {
            vertices.put(alloc, vertex.name, vertex.value.copy(alloc)?)?;
        }
        Ok(vertices)
    }

    /// Those of these names that store something, each with a copy of it, by rising name. Fails only when out of
    /// memory.
    pub(crate) fn shown(
        &self,
        alloc: Global,
        names: &IndexSet<u64>,
    ) -> Result<Vec<ShownVertex>, AllocError>
        ensures values { IfOk result (λ shown. (y : ℕ) → value_shown shown.items y ≡ (if contains nat_eq names.now y then value_of self.now y else None)) }
        ensures rise { IfOk result (λ shown. EachIndex shown.items (ComesAfter NamePrecedes shown.items)) }
    {
        let mut shown = Vec::new(alloc);
        for vertex in self.items.as_slice() {
            vertex.show_among(alloc, names, &mut shown)?;
        }
        Ok(shown)
    }

    /// The edges of the vertices of these names, by rising ends. Fails only when out of memory.
    pub(crate) fn edges(
        &self,
        alloc: Global,
        names: &IndexSet<u64>,
    ) -> Result<Vec<Edge>, AllocError>
        ensures labels { IfOk result (λ edges. (x y : ℕ) → label_in edges.items x y ≡ (if contains nat_eq names.now x then label_between self.now x y else no_rights)) }
        ensures rise { IfOk result (λ edges. EachIndex edges.items (ComesAfter EdgePrecedes edges.items)) }
        ensures held { IfOk result (λ edges. All (λ e. is_none_held e.label ≡ false) edges.items) }
    {
        let mut edges = Vec::new(alloc);
        for vertex in self.items.as_slice() {
            vertex.add_edges_among(alloc, names, &mut edges)?;
        }
        Ok(edges)
    }
}

impl Vertex {
    // Adds it to those that are shown, if it has one of these names and stores something.
    fn show_among(
        &self,
        alloc: Global,
        names: &IndexSet<u64>,
        shown: &mut Vec<ShownVertex>,
    ) -> Result<(), AllocError>
        ensures { OnOk result (shown.new.items ≡ shown.old.items ++ (if contains nat_eq names.now self.now.name then shown_if_stored self.now.name self.now.value else [])) }
    {
        if !names.contains(&self.name) {
            return Ok(());
        }
        if let Some(value) = &self.value {
            let value = value.copy(alloc)?;
            shown.push(ShownVertex {
                name: self.name,
                value,
            })?;
        }
        Ok(())
    }

    // Adds its edges to others, if it has one of these names.
    fn add_edges_among(
        &self,
        alloc: Global,
        names: &IndexSet<u64>,
        edges: &mut Vec<Edge>,
    ) -> Result<(), AllocError>
        ensures edges { OnOk result (edges.new.items ≡ edges.old.items ++ (if contains nat_eq names.now self.now.name then edges_from self.now.name self.now.row else [])) }
        ensures row { OnOk result (IsTrue (contains nat_eq names.now self.now.name) → IsRisingRow self.now.row) }
    {
        if !names.contains(&self.name) {
            return Ok(());
        }
        let row = self.row.copy(alloc)?;
        for edge in row.as_slice() {
            edges.push(Edge {
                from: self.name,
                to: edge.0,
                label: edge.1,
            })?;
        }
        Ok(())
    }
}
