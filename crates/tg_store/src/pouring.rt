//! How the edges of one vertex are given to another one on the heap, all or none.
ghost use Rattle.std.specs.Prelude.{◌≡◌, ◌≢◌, IfOk, IsTrue, OnErr, OnOk, false};
ghost use Rattle.std.specs.List.{All};
ghost use Rattle.tg_model.specs.Graph.{HasEdge, with_rights};
ghost use Rattle.tg_rows.specs.Content.{IsContent, IsNamed};
ghost use Rattle.tg_rows.specs.Rows.{IsVertexAt};
ghost use Rattle.tg_graph.specs.Heap.{KeepsPlaces, content_of};
ghost use Rattle.tg_rules.specs.Verdict.{HasSubject};
ghost use Rattle.tg_store.specs.Parking.{IsInUse, IsUnused};
ghost use Rattle.tg_store.specs.Inner.Parking.{IsGiven, IsGivenUpAgain, IsTakenBack};

use std::alloc::AllocError;
use tg_graph::Heap;
use tg_payload::Payload;
use tg_rights::Label;
use tg_space::RoomFault;
use tg_subjects::Subject;
use tg_word::Place;

/// A vertex of the heap: its name, and where it is.
#[derive(Clone, Copy)]
pub(crate) struct Site {
    pub(crate) name: u64,
    pub(crate) place: Place,
}

/// Which vertex gets the edges of which other one. The nursery of a worker gives the cells.
#[derive(Clone, Copy)]
pub(crate) struct Pouring {
    pub(crate) worker: Subject,
    pub(crate) from: Site,
    pub(crate) to: Site,
}

/// Whether the vertex that is to get edges holds nothing, and the one that has them has no edge to it. Fails only when
/// out of memory.
pub(crate) fn is_unused<P: Payload>(heap: &Heap<P>, pouring: &Pouring) -> Result<bool, AllocError>
    requires from { IsVertexAt heap.now.table.spaces pouring.now.from.name pouring.now.from.place }
    requires to { IsVertexAt heap.now.table.spaces pouring.now.to.name pouring.now.to.place }
    ensures unused { IfOk result (λ unused. IsTrue unused → IsUnused (content_of heap.now).label pouring.now.from.name pouring.now.to.name) }
    ensures in_use { IfOk result (λ unused. unused ≡ false → IsInUse (content_of heap.now).label pouring.now.from.name pouring.now.to.name) }
{
    let row = heap.row(pouring.to.place)?;
    if !row.as_slice().is_empty() {
        return Ok(false);
    }
    match heap.find_edge(pouring.from.place, pouring.to.name) {
        Some(_) => Ok(false),
        None => Ok(true),
    }
}

/// Gives one vertex each edge of a row of the other one, in the order of the list. If an edge is refused, it takes all
/// of them back.
pub(crate) fn pour<P: Payload>(
    heap: &mut Heap<P>,
    pouring: &Pouring,
    row: &[(u64, Label)],
) -> Result<(), RoomFault>
    requires worker { HasSubject heap.old pouring.now.worker }
    requires from { IsVertexAt heap.old.table.spaces pouring.now.from.name pouring.now.from.place }
    requires to { IsVertexAt heap.old.table.spaces pouring.now.to.name pouring.now.to.place }
    requires apart { pouring.now.from.name ≢ pouring.now.to.name }
    requires edges { All (λ e. HasEdge (content_of heap.old).label pouring.now.from.name e.0) row.now }
    ensures poured { OnOk result (IsGiven (content_of heap.old) (content_of heap.new) pouring.now.to.name row.now) }
    ensures refused { OnErr result (IsGivenUpAgain (content_of heap.old) (content_of heap.new) pouring.now.to.name row.now) }
    ensures kept { KeepsPlaces heap.old heap.new }
{
    for edge in row {
        if let Err(fault) = give_edge(heap, pouring, *edge) {
            take_back(heap, pouring.to, row);
            return Err(fault);
        }
    }
    Ok(())
}

// Gives one vertex an edge of the other one.
fn give_edge<P: Payload>(
    heap: &mut Heap<P>,
    pouring: &Pouring,
    edge: (u64, Label),
) -> Result<(), RoomFault>
    requires worker { HasSubject heap.old pouring.now.worker }
    requires from { IsVertexAt heap.old.table.spaces pouring.now.from.name pouring.now.from.place }
    requires to { IsVertexAt heap.old.table.spaces pouring.now.to.name pouring.now.to.place }
    requires edge { HasEdge (content_of heap.old).label pouring.now.from.name edge.0 }
    ensures given { OnOk result (IsContent (content_of heap.new) (IsNamed (content_of heap.old)) (with_rights (content_of heap.old).label pouring.now.to.name edge.0 edge.1) (content_of heap.old).value) }
    ensures kept { OnOk result (KeepsPlaces heap.old heap.new) }
    ensures refused { OnErr result (heap.new ≡ heap.old) }
{
    match heap.find_edge(pouring.from.place, edge.0) {
        Some(found) => heap.add_edge_as(pouring.worker, pouring.to.place, found.place, edge.1),
        None => unreachable!(),
    }
}

// Takes the edges of a list from a vertex, as far as it has them.
fn take_back<P: Payload>(heap: &mut Heap<P>, from: Site, row: &[(u64, Label)])
    requires vertex { IsVertexAt heap.old.table.spaces from.name from.place }
    ensures taken { IsTakenBack (content_of heap.old) (content_of heap.new) from.name row.now }
    ensures kept { KeepsPlaces heap.old heap.new }
{
    for edge in row {
        heap.drop_rights(from.place, edge.0, edge.1);
    }
}
