//! The vertices of a snapshot that are no subjects.
ghost use Rattle.std.specs.Prelude.{◌≡◌, IfOk, OnOk, length, slice_index_or};
ghost use Rattle.tg_rows.specs.Rows.{IsVertexAt};
ghost use Rattle.tg_graph.specs.Heap.{KeepsPlaces};
ghost use Rattle.tg_snapshot.specs.declared.vertex.ShownVertex.{ShownVertex as ShownOf};
ghost use Rattle.tg_rebuild.specs.Inner.Lines.{ArePlaced};
ghost use Rattle.tg_rebuild.specs.Inner.Raising.{AreMadeUpTo, CanPlace, IsPlaced, IsReady};

use crate::bare::add_object;
use crate::lines::draft_of;
use crate::maker::Maker;
use crate::scaffold::Scaffold;
use tg_graph::Heap;
use tg_payload::Payload;
use tg_snapshot::Snapshot;
use tg_space::RoomFault;
use tg_word::Place;

/// Makes each vertex that isn't there yet, and returns where each of the list is. Refused, some may have been made.
pub(crate) fn place_vertices<P: Payload, M: Maker<P>>(
    heap: &mut Heap<P>,
    maker: &mut M,
    snapshot: &Snapshot,
    scaffold: Scaffold,
) -> Result<Vec<Place>, RoomFault>
    requires { IsReady snapshot.now scaffold heap.old }
    ensures made { OnOk result (AreMadeUpTo snapshot.now (length snapshot.now.vertices) heap.new) }
    ensures placed { IfOk result (λ places. ArePlaced heap.new.table.spaces snapshot.now.vertices places.items) }
    ensures kept { OnOk result (KeepsPlaces heap.old heap.new) }
{
    let vertices = snapshot.vertices();
    let mut places = Vec::with_capacity(scaffold.alloc, vertices.len())?;
    for at in 0..vertices.len() {
        let place = place_one(heap, maker, snapshot, scaffold, at)?;
        places.push(place)?;
    }
    Ok(places)
}

// Makes the vertex at a place of the list if it isn't there, and returns where it is.
fn place_one<P: Payload, M: Maker<P>>(
    heap: &mut Heap<P>,
    maker: &mut M,
    snapshot: &Snapshot,
    scaffold: Scaffold,
    at: usize,
) -> Result<Place, RoomFault>
    requires { CanPlace snapshot.now at scaffold heap.old }
    ensures placed { OnOk result (IsPlaced snapshot.now at heap.old heap.new) }
    ensures vertex { IfOk result (λ place. (d : ShownOf) → IsVertexAt heap.new.table.spaces (slice_index_or snapshot.now.vertices at d).name place) }
{
    // This call shows that the vertices rise and fit.
    let _ = snapshot.picture();
    let vertices = snapshot.vertices();
    let vertex = &vertices[at];
    if let Some(subject) = heap.subject(vertex.name) {
        return Ok(subject.place);
    }
    if vertex.name == 0 {
        return Ok(scaffold.zero);
    }
    let draft = draft_of(scaffold.alloc, maker, vertex)?;
    add_object(heap, scaffold.holder, vertex.name, draft)
}
