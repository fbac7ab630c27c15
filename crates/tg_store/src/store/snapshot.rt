//! The snapshot of a store.
ghost use Rattle.std.specs.Prelude.{◌≡◌, ◌++◌, ◌<◌, ℕ, Some, false, length, EachIndex, IfOk, OnOk};
ghost use Rattle.std.specs.List.{All, AllPairs};
ghost use Rattle.tg_rights.specs.RightSet.{is_none_held};
ghost use Rattle.tg_model.specs.Graph.{ProtectionGraph, listing_of};
ghost use Rattle.tg_snapshot.specs.Snapshot.{ComesAfter, EdgePrecedes, IsSnapshotOf, NamePrecedes};
ghost use Rattle.tg_journal.specs.Inner.Showing.{AreListsOf, edges_from};
ghost use Rattle.tg_rows.specs.Rows.{IsVertexAt};
ghost use Rattle.tg_graph.specs.Heap.{content_of};
ghost use Rattle.tg_store.specs.Store.{StandsFor, graph_of_store};
ghost use Rattle.tg_store.specs.Inner.Reaching.{AreBelow, names_found};
ghost use Rattle.tg_store.specs.Inner.Saving.{ShowsEdges, ShowsValues};

use crate::store::Store;
use crate::store::picture::vertices_reached;
use std::alloc::{AllocError, Global};
use tg_graph::Heap;
use tg_model::{Edge, Picture, Value};
use tg_payload::Payload;
use tg_snapshot::{ShownVertex, Snapshot};
use tg_word::Place;

impl<P: Payload> Store<P> {
    /// The snapshot of the graph that the store represents, at the place of its next entry. It has the active subjects,
    /// each vertex that they reach with what it stores, and each edge of these vertices. It also has how many vertices
    /// were made, and the most that may be made. It is the same whatever was collected, and when. [`Store::reopen`]
    /// goes on from it, in this process or in another one. A store in which no subject is active has a snapshot too,
    /// from which no store is opened.
    ///
    /// It reads each row that is reached twice. Takes memory in proportion to what is reached. Makes no entry. Fails
    /// only when out of memory.
    pub fn snapshot(&self, alloc: Global) -> Result<Snapshot, AllocError>
        ensures of { (g : ProtectionGraph) → StandsFor self.now g → IfOk result (λ snapshot. IsSnapshotOf snapshot g) }
        ensures place { IfOk result (λ snapshot. snapshot.entries ≡ length self.now.entries) }
    {
        let (picture, vertices) = self.show(alloc)?;
        match Snapshot::new(picture, vertices, self.journal().len()) {
            Ok(snapshot) => Ok(snapshot),
            Err(_) => unreachable!(),
        }
    }

    // The lists of the snapshot. Fails only when out of memory.
    fn show(&self, alloc: Global) -> Result<(Picture, Vec<ShownVertex>), AllocError>
        ensures lists { IfOk result (λ shown. AreListsOf (graph_of_store self.now) shown.0 shown.1.items) }
        ensures names { IfOk result (λ shown. EachIndex shown.1.items (ComesAfter NamePrecedes shown.1.items)) }
        ensures ends { IfOk result (λ shown. EachIndex shown.0.edges (ComesAfter EdgePrecedes shown.0.edges)) }
        ensures held { IfOk result (λ shown. All (λ e. is_none_held e.label ≡ false) shown.0.edges) }
    {
        let reached = vertices_reached(alloc, &self.heap, self.made)?;
        let found = reached.as_slice();
        let subjects = self.subject_names(alloc)?;
        let edges = edges_of(alloc, &self.heap, found)?;
        let vertices = values_of(alloc, &self.heap, found)?;
        let picture = Picture::new(subjects, edges, self.made, self.opening.max_vertices());
        Ok((picture, vertices))
    }
}

// What these vertices of a heap store, by rising name. Fails only when out of memory.
fn values_of<P: Payload>(
    alloc: Global,
    heap: &Heap<P>,
    vertices: &[(u64, Place)],
) -> Result<Vec<ShownVertex>, AllocError>
    requires placed { All (λ v. IsVertexAt heap.now.table.spaces v.0 v.1) vertices.now }
    requires rise { AllPairs (λ v w. v.0 < w.0) vertices.now }
    ensures { IfOk result (λ shown. ShowsValues (content_of heap.now) (names_found vertices.now) shown.items) }
{
    let mut shown = Vec::new(alloc);
    for vertex in vertices {
        shown.push(shown_at(heap, vertex.0, vertex.1)?)?;
    }
    Ok(shown)
}

// The vertex with this name, whose object is at this place, with what it stores. Fails only when out of memory.
fn shown_at<P: Payload>(heap: &Heap<P>, name: u64, place: Place) -> Result<ShownVertex, AllocError>
    requires { IsVertexAt heap.now.table.spaces name place }
    ensures name { IfOk result (λ shown. shown.name ≡ name) }
    ensures value { IfOk result (λ shown. (content_of heap.now).value name ≡ Some shown.value) }
{
    let law = heap.law(place);
    let state = heap.state(place)?;
    Ok(ShownVertex {
        name,
        value: Value { law, state },
    })
}

// The edges of these vertices of a heap, by rising ends. Fails only when out of memory.
fn edges_of<P: Payload>(
    alloc: Global,
    heap: &Heap<P>,
    vertices: &[(u64, Place)],
) -> Result<Vec<Edge>, AllocError>
    requires placed { All (λ v. IsVertexAt heap.now.table.spaces v.0 v.1) vertices.now }
    requires rise { AllPairs (λ v w. v.0 < w.0) vertices.now }
    ensures { (made : ℕ) → AreBelow (content_of heap.now) made → IfOk result (λ edges. ShowsEdges (content_of heap.now) (names_found vertices.now) edges.items) }
{
    let mut edges = Vec::new(alloc);
    for vertex in vertices {
        add_row(heap, vertex.0, vertex.1, &mut edges)?;
    }
    Ok(edges)
}

// Adds the edges of a vertex to a list, by rising target. Fails only when out of memory.
fn add_row<P: Payload>(
    heap: &Heap<P>,
    from: u64,
    place: Place,
    edges: &mut Vec<Edge>,
) -> Result<(), AllocError>
    requires { IsVertexAt heap.now.table.spaces from place }
    ensures { (made : ℕ) → AreBelow (content_of heap.now) made →
        OnOk result (edges.new.items ≡ edges.old.items ++ edges_from from (listing_of (content_of heap.now).label made from)) }
{
    let row = heap.row(place)?;
    for edge in row.as_slice() {
        edges.push(Edge {
            from,
            to: edge.0,
            label: edge.1,
        })?;
    }
    Ok(())
}
