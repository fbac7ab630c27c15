//! Who has an edge to a vertex, and who holds a right over it.
ghost use Rattle.std.specs.Prelude.{◌≡◌, IfOk};
ghost use Rattle.std.specs.List.{All};
ghost use Rattle.tg_rights.specs.RightSet.{label_of};
ghost use Rattle.tg_model.specs.Graph.{ProtectionGraph};
ghost use Rattle.tg_rows.specs.Rows.{IsVertexAt};
ghost use Rattle.tg_graph.specs.Heap.{IsObject, content_of, name_of};
ghost use Rattle.tg_store.specs.Holding.{AreEdgesTo, AreHolders, common};
ghost use Rattle.tg_store.specs.Inner.Reaching.{edges_over, names_sharing};
ghost use Rattle.tg_store.specs.Store.{StandsFor};

use crate::store::Store;
use crate::store::picture::vertices_reached;
use std::alloc::{AllocError, Global};
use tg_graph::Heap;
use tg_payload::Payload;
use tg_rights::{Label, Right, Rights};
use tg_word::Place;

impl<P: Payload> Store<P> {
    /// Returns the edges to the vertex with a name, by rising name of the vertex from which each leads. Each edge has
    /// this name and its label. Objects and retired subjects are among them. Only vertices that the active subjects
    /// reach are listed, so no collection changes the answer. A name that was never made has no edge, and so has a
    /// vertex that the active subjects don't reach. The call changes nothing and makes no entry. It walks once over
    /// each row that is reached, and then looks for one edge in each. It takes memory in proportion to the vertices
    /// that are reached, and to the longest of their rows. It fails only if memory runs out.
    pub fn edges_to(&self, alloc: Global, name: u64) -> Result<Vec<(u64, Label)>, AllocError>
        ensures { (g : ProtectionGraph) → StandsFor self.now g → IfOk result (λ edges. AreEdgesTo g name edges.items) }
    {
        let reached = vertices_reached(alloc, &self.heap, self.made)?;
        edges_of_each(alloc, &self.heap, reached.as_slice(), name)
    }

    /// Returns the names of all vertices that hold a right over the vertex with a name, by rising name. They are those
    /// of [`Store::edges_to`] whose label has the right. The call takes time and memory as [`Store::edges_to`] does,
    /// makes no entry, and fails only if memory runs out.
    pub fn who_holds(&self, alloc: Global, right: Right, name: u64) -> Result<Vec<u64>, AllocError>
        ensures { (g : ProtectionGraph) → StandsFor self.now g → IfOk result (λ names. AreHolders g right name names.items) }
    {
        let edges = self.edges_to(alloc, name)?;
        holders_in(alloc, edges.as_slice(), Rights::of(right))
    }
}

/// The label of the edge from the vertex at a place to the vertex with a name, if there is one. Takes no memory.
pub(crate) fn label_between<P: Payload>(heap: &Heap<P>, from: Place, to: u64) -> Option<Label>
    requires { IsObject heap.now from }
    ensures { result ≡ label_of ((content_of heap.now).label (name_of heap.now from) to) }
{
    let found = heap.find_edge(from, to)?;
    Label::new(found.rights)
}

// The edges of these vertices to the vertex with a name, in their order. Fails only when out of memory.
fn edges_of_each<P: Payload>(
    alloc: Global,
    heap: &Heap<P>,
    vertices: &[(u64, Place)],
    name: u64,
) -> Result<Vec<(u64, Label)>, AllocError>
    requires { All (λ v. IsVertexAt heap.now.table.spaces v.0 v.1) vertices.now }
    ensures { IfOk result (λ edges. edges.items ≡ edges_over (content_of heap.now).label name vertices.now) }
{
    let mut edges = Vec::new(alloc);
    for vertex in vertices {
        if let Some(label) = label_between(heap, vertex.1, name) {
            edges.push((vertex.0, label))?;
        }
    }
    Ok(edges)
}

/// The names in these edges whose label has some of the rights, in their order. Fails only when out of memory.
pub(crate) fn holders_in(
    alloc: Global,
    edges: &[(u64, Label)],
    rights: Rights,
) -> Result<Vec<u64>, AllocError>
    ensures { IfOk result (λ names. names.items ≡ names_sharing rights edges.now) }
{
    let mut names = Vec::new(alloc);
    for edge in edges {
        if rights_shared(rights, edge.1.rights()).is_some() {
            names.push(edge.0)?;
        }
    }
    Ok(names)
}

/// The rights that are in both sets, if there are any.
pub(crate) fn rights_shared(some: Rights, others: Rights) -> Option<Label>
    ensures { result ≡ label_of (common some others) }
{
    Label::new(some.minus(some.minus(others)))
}
