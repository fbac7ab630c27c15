//! The heap of a snapshot.
ghost use Rattle.std.specs.Prelude.{◌≡◌, ◌∷◌, ℕ, [], IfOk, OnOk};
ghost use Rattle.tg_rows.specs.Content.{IsNamed};
ghost use Rattle.tg_graph.specs.Heap.{content_of, subject_names};
ghost use Rattle.tg_graph.specs.Standing.{IsContentOf};
ghost use Rattle.tg_snapshot.specs.Snapshot.{ShowsName, graph_shown, value_shown};
ghost use Rattle.tg_rebuild.specs.Inner.Raising.{IsRaised};

use crate::edges::add_edges;
use crate::maker::Maker;
use crate::scaffold::Scaffold;
use crate::subjects::{add_subjects, hand_on, holder_of, leave_none};
use crate::vertices::place_vertices;
use crate::zero::open_zero;
use std::alloc::Global;
use tg_graph::Heap;
use tg_payload::Payload;
use tg_snapshot::Snapshot;
use tg_space::{Limits, RoomFault};

/// The heap of the graph that a snapshot shows. The payload of each vertex comes from the maker, which is asked once
/// for each vertex that is shown. If the vertex 0 isn't shown, the maker is asked for a payload without a name too.
///
/// The active subjects are those of the snapshot. Each vertex that it shows is there, stores what is shown, and has
/// the edges that are shown. All cells lie in nurseries, so a full collection is worth while afterwards.
///
/// Refused, what was made is dropped, and the snapshot is as it was.
pub fn heap_of<P: Payload, M: Maker<P>>(
    alloc: Global,
    snapshot: &Snapshot,
    limits: Limits,
    maker: &mut M,
) -> Result<Heap<P>, RoomFault>
    ensures stands { IfOk result (λ heap. IsContentOf (content_of heap) (graph_shown snapshot.now)) }
    ensures subjects { IfOk result (λ heap. subject_names heap ≡ snapshot.now.picture.subjects) }
    ensures vertices { IfOk result (λ heap. (y : ℕ) → ShowsName snapshot.now.vertices y → IsNamed (content_of heap) y) }
    ensures values { IfOk result (λ heap. (y : ℕ) → ShowsName snapshot.now.vertices y → (content_of heap).value y ≡ value_shown snapshot.now.vertices y) }
    ensures limits { IfOk result (λ heap. heap.table.limits ≡ limits) }
{
    let mut heap = open_zero(alloc, snapshot, limits, maker)?;
    match raise(&mut heap, maker, snapshot, alloc) {
        Ok(()) => Ok(heap),
        Err(fault) => {
            drop(heap);
            Err(fault)
        }
    }
}

// Makes all that the snapshot shows, in the heap of the vertex 0. Refused, the heap is of no use.
fn raise<P: Payload, M: Maker<P>>(
    heap: &mut Heap<P>,
    maker: &mut M,
    snapshot: &Snapshot,
    alloc: Global,
) -> Result<(), RoomFault>
    requires raised { IsRaised snapshot.now heap.old }
    requires zero { subject_names heap.old ≡ 0 ∷ [] }
    ensures stands { OnOk result (IsContentOf (content_of heap.new) (graph_shown snapshot.now)) }
    ensures subjects { OnOk result (subject_names heap.new ≡ snapshot.now.picture.subjects) }
    ensures vertices { OnOk result ((y : ℕ) → ShowsName snapshot.now.vertices y → IsNamed (content_of heap.new) y) }
    ensures values { OnOk result ((y : ℕ) → ShowsName snapshot.now.vertices y → (content_of heap.new).value y ≡ value_shown snapshot.now.vertices y) }
    ensures limits { OnOk result (heap.new.table.limits ≡ heap.old.table.limits) }
{
    let zero = heap.worker_place(0);
    let holder = 0;
    hand_on(
        heap,
        maker,
        snapshot,
        Scaffold {
            alloc,
            holder,
            zero,
        },
    )?;
    let holder = holder_of(snapshot);
    let scaffold = Scaffold {
        alloc,
        holder,
        zero,
    };
    add_subjects(heap, maker, snapshot, scaffold)?;
    let places = place_vertices(heap, maker, snapshot, scaffold)?;
    // It shows what holds of all spaces (`IsSpaceTable`).
    let _ = heap.subjects();
    // This call shows that the lists are a snapshot.
    let _ = snapshot.picture();
    add_edges(heap, holder, snapshot, places.as_slice())?;
    leave_none(heap, snapshot);
    Ok(())
}
