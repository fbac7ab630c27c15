//! The edges of a snapshot.
ghost use Rattle.std.specs.Prelude.{◌≡◌, OnOk};
ghost use Rattle.tg_model.specs.Opened.{label_in};
ghost use Rattle.tg_rows.specs.Content.{IsContent, IsNamed};
ghost use Rattle.tg_graph.specs.Heap.{IsActive, KeepsPlaces, content_of};
ghost use Rattle.tg_rebuild.specs.Inner.Bare.{IsBare};
ghost use Rattle.tg_rebuild.specs.Inner.Lines.{ArePlaced};

use crate::lines::line_from;
use tg_graph::Heap;
use tg_payload::Payload;
use tg_snapshot::Snapshot;
use tg_space::RoomFault;
use tg_word::Place;

/// Adds all edges of the snapshot in a heap without edges, where each vertex that it shows is at its place. Cells that
/// rows need come from the nursery of the holder, an active subject. Refused, some may have been added.
pub(crate) fn add_edges<P: Payload>(
    heap: &mut Heap<P>,
    holder: u64,
    snapshot: &Snapshot,
    places: &[Place],
) -> Result<(), RoomFault>
    requires holder { IsActive heap.old holder }
    requires bare { IsBare (content_of heap.old) }
    requires placed { ArePlaced heap.old.table.spaces snapshot.now.vertices places.now }
    ensures joined { OnOk result (IsContent (content_of heap.new) (IsNamed (content_of heap.old)) (label_in snapshot.now.picture.edges) (content_of heap.old).value) }
    ensures kept { OnOk result (KeepsPlaces heap.old heap.new) }
{
    let vertices = snapshot.vertices();
    let edges = snapshot.picture().edges();
    let mut from = 0;
    let mut to = 0;
    for edge in edges {
        from = line_from(vertices, from, edge.from);
        to = line_from(vertices, to, edge.to);
        heap.add_edge(holder, places[from], places[to], edge.label)?;
    }
    Ok(())
}
