//! One more vertex in a heap without edges.
ghost use Rattle.std.specs.Prelude.{◌≡◌, ◌<◌, ◌++◌, ◌∷◌, [], IfOk, OnOk, length};
ghost use Rattle.std.specs.List.{All};
ghost use Rattle.tg_word.specs.declared.TheConstants.{MAX_NURSERIES};
ghost use Rattle.tg_rows.specs.Content.{IsContent, IsNamed};
ghost use Rattle.tg_rows.specs.Rows.{IsVertexAt};
ghost use Rattle.tg_graph.specs.Heap.{IsActive, KeepsPlaces, content_of, subject_names};
ghost use Rattle.tg_rebuild.specs.Inner.Bare.{AddsBare, HasOneEdge, IsBare, KeepsVertices, no_label};

use tg_graph::Heap;
use tg_payload::{Draft, Payload};
use tg_rights::{Label, Right, Rights};
use tg_space::RoomFault;
use tg_word::Place;

/// Makes a vertex that is no subject, and returns where it is. It is made for the holder, an active subject. Refused,
/// nothing is made.
pub(crate) fn add_object<P: Payload>(
    heap: &mut Heap<P>,
    holder: u64,
    name: u64,
    draft: Draft<P>,
) -> Result<Place, RoomFault>
    requires holder { IsActive heap.old holder }
    requires fresh { ¬ IsNamed (content_of heap.old) name }
    requires bare { IsBare (content_of heap.old) }
    ensures added { OnOk result (AddsBare heap.old heap.new name draft) }
    ensures vertex { IfOk result (IsVertexAt heap.new.table.spaces name) }
    ensures kept { OnOk result (KeepsPlaces heap.old heap.new) }
{
    let held = passing();
    match heap.new_vertex(holder, name, held, draft) {
        Ok(()) => Ok(let_go(heap, holder, name, held)),
        Err(refused) => Err(refused.why),
    }
}

/// Makes a vertex that is an active subject then. It is made for the holder, an active subject. Refused, nothing is
/// made.
pub(crate) fn add_subject<P: Payload>(
    heap: &mut Heap<P>,
    holder: u64,
    name: u64,
    draft: Draft<P>,
) -> Result<(), RoomFault>
    requires holder { IsActive heap.old holder }
    requires fresh { ¬ IsNamed (content_of heap.old) name }
    requires bare { IsBare (content_of heap.old) }
    requires few { length heap.old.subjects < MAX_NURSERIES }
    requires above { All (λ x. x < name) (subject_names heap.old) }
    ensures added { OnOk result (AddsBare heap.old heap.new name draft) }
    ensures subjects { OnOk result (subject_names heap.new ≡ subject_names heap.old ++ name ∷ []) }
    ensures kept { OnOk result (KeepsVertices heap.old heap.new) }
{
    let held = passing();
    match heap.new_subject(holder, name, held, draft) {
        Ok(()) => {
            let_go(heap, holder, name, held);
            Ok(())
        }
        Err(refused) => Err(refused.why),
    }
}

// Drops the one edge that there is, from an active subject to a vertex, and returns where that is.
fn let_go<P: Payload>(heap: &mut Heap<P>, holder: u64, name: u64, held: Label) -> Place
    requires holder { IsActive heap.old holder }
    requires edge { HasOneEdge (content_of heap.old) holder name held }
    ensures bare { IsContent (content_of heap.new) (IsNamed (content_of heap.old)) no_label (content_of heap.old).value }
    ensures vertex { IsVertexAt heap.new.table.spaces name result }
    ensures kept { KeepsPlaces heap.old heap.new }
{
    let from = heap.worker_place(holder);
    // This call shows that there are rights.
    let _ = held.rights();
    match heap.find_edge(from, name) {
        Some(found) => {
            heap.drop_rights(from, name, held);
            found.place
        }
        None => unreachable!(),
    }
}

// The label of the edge to a new vertex, until it is dropped.
fn passing() -> Label {
    Label::new(Rights::of(Right::U)).unwrap()
}
