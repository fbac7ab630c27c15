//! A withdrawal of rights on a heap: who gives them up, and who holds some of them afterwards.
ghost use Rattle.std.specs.Prelude.{◌≡◌, ◌==◌, ◌≤◌, ◌++◌, ◌↔◌, ℕ, List, IfOk, OnOk, length, map};
ghost use Rattle.std.specs.List.{All, Contains, list_any};
ghost use Rattle.tg_rights.specs.RightSet.{label_of};
ghost use Rattle.tg_model.specs.Graph.{ProtectionGraph, HasEdge};
ghost use Rattle.tg_word.specs.declared.Place.{Place as PlaceOf};
ghost use Rattle.tg_journal.specs.History.{IsLegal, graph_after};
ghost use Rattle.tg_rows.specs.Rows.{IsVertexAt};
ghost use Rattle.tg_graph.specs.Heap.{IsActive, IsObject, content_of, name_of, subject_names};
ghost use Rattle.tg_graph.specs.Standing.{IsContentOf, IsReached};
ghost use Rattle.tg_store.specs.Holding.{common};
ghost use Rattle.tg_store.specs.Inner.Reaching.{AreBelow, AreReachedAlong, FindsIn, IsFoundIn, edges_over, names_found};
ghost use Rattle.tg_store.specs.Inner.Withdrawing.{content_left, holders_left};
ghost use Rattle.tg_store.specs.Withdrawing.{given_up, givers_among, labels_left, removal_over};

use crate::leaving::removal;
use crate::store::holders::{holders_in, label_between, rights_shared};
use crate::store::picture::FoundVertices;
use crate::tallied::TalliedJournal;
use std::alloc::{AllocError, Global};
use tg_graph::Heap;
use tg_payload::Payload;
use tg_rights::Label;
use tg_word::Place;

/// Rights over a target that active subjects give up. Each giver has its name and the place of its object, by rising
/// name.
#[derive(Drop)]
pub(crate) struct Withdrawal {
    target: u64,
    rights: Label,
    givers: Vec<(u64, Place)>,
}

impl Withdrawal {
    /// The active subjects of a heap outside of `keep` give up rights over a target. Fails only when out of memory.
    pub(crate) fn new<P: Payload>(
        alloc: Global,
        heap: &Heap<P>,
        target: u64,
        rights: Label,
        keep: &[u64],
    ) -> Result<Withdrawal, AllocError>
        ensures target { IfOk result (λ withdrawal. withdrawal.target ≡ target) }
        ensures rights { IfOk result (λ withdrawal. withdrawal.rights ≡ rights) }
        ensures givers { IfOk result (λ withdrawal. names_found withdrawal.givers.items ≡ givers_among (subject_names heap.now) keep.now) }
        ensures placed { IfOk result (λ withdrawal. All (λ v. IsVertexAt heap.now.table.spaces v.0 v.1) withdrawal.givers.items) }
    {
        let mut givers = Vec::new(alloc);
        for subject in heap.subjects() {
            if !keep.contains(&subject.name) {
                givers.push((subject.name, subject.place))?;
            }
        }
        Ok(Withdrawal {
            target,
            rights,
            givers,
        })
    }

    /// What each giver holds of the rights over the target, by rising name. Who holds none of them is left out. Fails
    /// only when out of memory.
    pub(crate) fn removals<P: Payload>(
        &self,
        alloc: Global,
        heap: &Heap<P>,
    ) -> Result<Vec<(u64, Label)>, AllocError>
        requires { All (λ v. IsVertexAt heap.now.table.spaces v.0 v.1) self.now.givers.items }
        ensures { IfOk result (λ removals. removals.items ≡ given_up (content_of heap.now).label self.now.target self.now.rights (names_found self.now.givers.items)) }
    {
        let mut removals = Vec::new(alloc);
        for giver in self.givers.as_slice() {
            if let Some(shared) = self.shared_by(heap, giver.1) {
                removals.push((giver.0, shared))?;
            }
        }
        Ok(removals)
    }

    /// Who holds some of the rights over the target once they are given up, by rising name. Only vertices that the
    /// active subjects of the heap then reach are listed. Names in the heap are below `made`. Fails only when out of
    /// memory.
    pub(crate) fn holders_after<P: Payload>(
        &self,
        alloc: Global,
        heap: &Heap<P>,
        made: u64,
    ) -> Result<Vec<u64>, AllocError>
        requires { AreBelow (content_of heap.now) made }
        ensures { IfOk result (λ names. (vertices : List (ℕ × PlaceOf)) × AreReachedAlong heap.now (content_left self.now (content_of heap.now)) vertices
            × (names.items ≡ holders_left self.now (content_of heap.now) vertices)) }
    {
        let reached = self.reached_after(alloc, heap, made)?;
        let edges = self.edges_after(alloc, heap, reached.as_slice())?;
        holders_in(alloc, edges.as_slice(), self.rights.rights())
    }

    // The rights over the target that the vertex at a place has to give up, if there are any.
    fn shared_by<P: Payload>(&self, heap: &Heap<P>, from: Place) -> Option<Label>
        requires { IsObject heap.now from }
        ensures { result ≡ label_of (common self.now.rights ((content_of heap.now).label (name_of heap.now from) self.now.target)) }
    {
        let found = heap.find_edge(from, self.target)?;
        rights_shared(self.rights.rights(), found.rights)
    }

    // Whether the vertex with a name gives the rights up.
    fn is_giver(&self, name: u64) -> bool
        ensures { result ≡ list_any (λ v. v.0 == name) self.now.givers.items }
    {
        self.givers.iter().any(|giver| giver.0 == name)
    }

    // What is left of the label of an edge, if there is anything.
    fn left(&self, from: u64, to: u64, label: Label) -> Option<Label>
        ensures { result ≡ label_of (labels_left (λ _ _. label) self.now.target self.now.rights (names_found self.now.givers.items) from to) }
    {
        let rights = label.rights();
        if to != self.target {
            return Label::new(rights);
        }
        if !self.is_giver(from) {
            return Label::new(rights);
        }
        Label::new(rights.minus(self.rights.rights()))
    }

    // Adds the vertices to which edges of a vertex lead that are left. Fails only when out of memory.
    fn follow_row<P: Payload>(
        &self,
        heap: &Heap<P>,
        vertex: (u64, Place),
        found: &mut FoundVertices,
    ) -> Result<(), AllocError>
        requires vertex { IsVertexAt heap.now.table.spaces vertex.0 vertex.1 }
        requires below { AreBelow (content_of heap.now) found.old.made }
        requires found { IsFoundIn heap.now.table.spaces found.old }
        ensures { OnOk result (FindsIn heap.now.table.spaces found.old found.new (HasEdge (content_left self.now (content_of heap.now)).label vertex.0)) }
    {
        let row = heap.row(vertex.1)?;
        for edge in row.as_slice() {
            if self.left(vertex.0, edge.0, edge.1).is_some() {
                found.follow(heap, vertex.1, edge.0)?;
            }
        }
        Ok(())
    }

    // What is reached once the rights are given up, in the order of the walk.
    fn find_after<P: Payload>(
        &self,
        alloc: Global,
        heap: &Heap<P>,
        made: u64,
    ) -> Result<FoundVertices, AllocError>
        requires { AreBelow (content_of heap.now) made }
        ensures found { IfOk result (IsFoundIn heap.now.table.spaces) }
        ensures names { IfOk result (λ found. (x : ℕ) → Contains (names_found found.vertices.items) x ↔ IsReached (content_left self.now (content_of heap.now)) (subject_names heap.now) x) }
    {
        let mut found = FoundVertices::subjects(alloc, heap, made)?;
        let mut next = 0;
        while next < found.count() {
            let vertex = found.vertex(next);
            self.follow_row(heap, vertex, &mut found)?;
            next += 1;
        }
        Ok(found)
    }

    // What is reached once the rights are given up, by rising name.
    fn reached_after<P: Payload>(
        &self,
        alloc: Global,
        heap: &Heap<P>,
        made: u64,
    ) -> Result<Vec<(u64, Place)>, AllocError>
        requires { AreBelow (content_of heap.now) made }
        ensures { IfOk result (λ vertices. AreReachedAlong heap.now (content_left self.now (content_of heap.now)) vertices.items) }
    {
        let found = self.find_after(alloc, heap, made)?;
        Ok(found.by_name())
    }

    // The edges of these vertices to the target that are left, in their order. Fails only when out of memory.
    fn edges_after<P: Payload>(
        &self,
        alloc: Global,
        heap: &Heap<P>,
        vertices: &[(u64, Place)],
    ) -> Result<Vec<(u64, Label)>, AllocError>
        requires { All (λ v. IsVertexAt heap.now.table.spaces v.0 v.1) vertices.now }
        ensures { IfOk result (λ edges. edges.items ≡ edges_over (content_left self.now (content_of heap.now)).label self.now.target vertices.now) }
    {
        let mut edges = Vec::new(alloc);
        for vertex in vertices {
            if let Some(label) = self.label_after(heap, vertex.0, vertex.1) {
                edges.push((vertex.0, label))?;
            }
        }
        Ok(edges)
    }

    // What is left of the edge to the target from the vertex with a name, whose object is at a place.
    fn label_after<P: Payload>(&self, heap: &Heap<P>, from: u64, place: Place) -> Option<Label>
        requires { IsVertexAt heap.now.table.spaces from place }
        ensures { result ≡ label_of ((content_left self.now (content_of heap.now)).label from self.now.target) }
    {
        let label = label_between(heap, place, self.target)?;
        self.left(from, self.target, label)
    }
}

/// Active subjects give up rights over a target, each what the list has with its name, in the order of the list. Each
/// deed has its entry, for which there is room already. Takes no memory.
pub(crate) fn enter_removals<P: Payload>(
    heap: &mut Heap<P>,
    journal: &mut TalliedJournal,
    target: u64,
    removals: &[(u64, Label)],
)
    requires active { All (λ e. IsActive heap.old e.0) removals.now }
    requires room { length removals.now ≤ journal.old.spare }
    ensures entries { journal.new.entries ≡ journal.old.entries ++ map (removal_over target) removals.now }
    ensures start { journal.new.start ≡ journal.old.start }
    ensures limits { heap.new.table.limits ≡ heap.old.table.limits }
    ensures subjects { subject_names heap.new ≡ subject_names heap.old }
    ensures stands { (g : ProtectionGraph) → IsContentOf (content_of heap.old) g → IsLegal g (map (removal_over target) removals.now) →
        IsContentOf (content_of heap.new) (graph_after g (map (removal_over target) removals.now)) }
{
    for removed in removals {
        let place = heap.worker_place(removed.0);
        heap.drop_rights(place, target, removed.1);
        journal.push(removal(removed.0, target, removed.1));
    }
}
