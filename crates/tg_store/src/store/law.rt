//! Which law a vertex's payload keeps to.
ghost use Rattle.std.specs.Prelude.{◌≡◌, ◌↔◌, IfOk, IfSome, IsSome, Some, option_map, true};
ghost use Rattle.std.specs.List.{Contains};
ghost use Rattle.tg_model.specs.Graph.{ProtectionGraph, IsReachable, IsSubject};
ghost use Rattle.tg_graph.specs.Heap.{IsObject, content_of, name_of};
ghost use Rattle.tg_store.specs.Inner.Reaching.{AreReachedIn, names_found};
ghost use Rattle.tg_store.specs.Seeing.{ReportsLaw, has_value_right};
ghost use Rattle.tg_store.specs.Store.{StandsFor};

use crate::store::Store;
use crate::store::picture::vertices_reached;
use std::alloc::{AllocError, Global};
use tg_graph::Heap;
use tg_model::Law;
use tg_payload::Payload;
use tg_rights::{Right, Rights};
use tg_word::Place;

impl<P: Payload> Store<P> {
    /// Returns the law of the payload of the vertex with a name, if a worker may read it, write to it or append to it.
    /// The answer is `None` if the worker has none of the rights r, w and a over the vertex. It is also `None` if there
    /// is no worker with the first name. So a worker learns the law of exactly the payloads that it may use. The call
    /// changes nothing and makes no entry. Takes no memory.
    pub fn law(&self, worker: u64, name: u64) -> Option<Law>
        ensures { (g : ProtectionGraph) → StandsFor self.now g →
            ReportsLaw g (IsSubject g worker × (has_value_right (g.label worker name) ≡ true)) name result }
    {
        let subject = self.heap.subject(worker)?;
        law_between(&self.heap, subject.place, name)
    }

    /// Returns the law of the payload of the vertex with a name, whoever has rights over it. It is for the host. The
    /// answer is `None` if the name was never made, and if the active subjects don't reach the vertex. So no collection
    /// changes the answer. The call changes nothing and makes no entry. It walks once over each row that is reached,
    /// and takes memory in proportion to the vertices that are reached. It fails only if memory runs out.
    pub fn law_of(&self, alloc: Global, name: u64) -> Result<Option<Law>, AllocError>
        ensures { (g : ProtectionGraph) → StandsFor self.now g → IfOk result (λ law. ReportsLaw g (IsReachable g name) name law) }
    {
        let reached = vertices_reached(alloc, &self.heap, self.made)?;
        Ok(law_among(&self.heap, reached.as_slice(), name))
    }
}

// The law of the payload of the vertex with a name, if the vertex at a place has a right to use it.
fn law_between<P: Payload>(heap: &Heap<P>, from: Place, to: u64) -> Option<Law>
    requires { IsObject heap.now from }
    ensures exactly { IsSome result ↔ (has_value_right ((content_of heap.now).label (name_of heap.now from) to) ≡ true) }
    ensures law { IfSome result (λ law. option_map (λ value. value.law) ((content_of heap.now).value to) ≡ Some law) }
{
    let found = heap.find_edge(from, to)?;
    if may_use(found.rights) {
        Some(heap.law(found.place))
    } else {
        None
    }
}

// Whether a payload may be used by one of these rights: to read it, to write to it, or to append to it.
fn may_use(rights: Rights) -> bool
    ensures { result ≡ has_value_right rights }
{
    rights.contains(Rights::of(Right::R))
        || rights.contains(Rights::of(Right::W))
        || rights.contains(Rights::of(Right::A))
}

// The law of the payload of the vertex with a name, if it is one of these.
fn law_among<P: Payload>(heap: &Heap<P>, vertices: &[(u64, Place)], name: u64) -> Option<Law>
    requires { AreReachedIn heap.now vertices.now }
    ensures exactly { IsSome result ↔ Contains (names_found vertices.now) name }
    ensures law { IfSome result (λ law. option_map (λ value. value.law) ((content_of heap.now).value name) ≡ Some law) }
{
    for vertex in vertices {
        if vertex.0 == name {
            return Some(heap.law(vertex.1));
        }
    }
    None
}
