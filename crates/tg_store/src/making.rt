//! Makes a vertex in a store, or shows which limit is in the way.
ghost use Rattle.std.specs.Prelude.{◌≡◌, ◌<◌, IfErr, IfOk, OnErr, OnOk, Some, length};
ghost use Rattle.std.specs.List.{All};
ghost use Rattle.tg_word.specs.Word.{nursery_space};
ghost use Rattle.tg_word.specs.declared.TheConstants.{MAX_NURSERIES};
ghost use Rattle.tg_rows.specs.Content.{IsNamed};
ghost use Rattle.tg_graph.specs.Heap.{IsActive, IsUnchangedHeap, content_of, nursery_of, subject_names};
ghost use Rattle.tg_rows.specs.Spots.{IsMadeInRow, LacksCellsFor};
ghost use Rattle.tg_store.specs.Counts.{refusal_told};
ghost use Rattle.tg_model.specs.Making.{deed_making, subjects_making};
ghost use Rattle.tg_store.specs.Inner.Entering.{MakesRoom};
ghost use Rattle.tg_store.specs.Making.{IsCreated, fault_at, reply_at};

use crate::census::Refusal;
use crate::fault::CreateFault;
use crate::tallied::TalliedJournal;
use std::alloc::{AllocError, Global};
use tg_graph::{Heap, VertexRefused};
use tg_model::{Deed, Making, Reply, Value};
use tg_payload::{Draft, Payload};
use tg_rights::Label;
use tg_space::RoomFault;

/// A limit that is reached.
#[derive(Clone, Copy, PartialEq, Eq)]
pub(crate) enum Limit {
    /// As many vertices were made as may be.
    Vertices,
    /// As many subjects are active as may be.
    Subjects,
}

impl Limit {
    /// What the graph answers at the limit.
    pub(crate) fn reply(self) -> Reply
        ensures { result ≡ reply_at self }
    {
        match self {
            Limit::Vertices => Reply::VerticesFull,
            Limit::Subjects => Reply::WorkersFull,
        }
    }

    /// How that is counted.
    pub(crate) fn refusal(self) -> Refusal
        ensures { refusal_told (reply_at self) ≡ Some result }
    {
        match self {
            Limit::Vertices => Refusal::VerticesFull,
            Limit::Subjects => Refusal::WorkersFull,
        }
    }

    /// The refusal that the caller of a create or a spawn gets.
    pub(crate) fn fault(self) -> CreateFault
        ensures { result ≡ fault_at self }
    {
        match self {
            Limit::Vertices => CreateFault::VerticesFull,
            Limit::Subjects => CreateFault::WorkersFull,
        }
    }
}

/// The deed of making a vertex, with a copy of the value's state, once the journal has room for its entry.
#[inline(always)]
pub(crate) fn deed_to_enter(
    alloc: Global,
    journal: &mut TalliedJournal,
    kind: Making,
    label: Label,
    value: &Value,
) -> Result<Deed, AllocError>
    ensures deed { IfOk result (λ deed. deed ≡ deed_making kind label value.now) }
    ensures room { MakesRoom 1 journal.old journal.new result }
{
    journal.reserve()?;
    Ok(kind.deed(label, value.copy(alloc)?))
}

/// Makes the vertex of a kind in the heap, with a name that none has and that is above those of all subjects.
#[inline(always)]
pub(crate) fn add_vertex<P: Payload>(
    heap: &mut Heap<P>,
    worker: u64,
    kind: Making,
    name: u64,
    label: Label,
    draft: Draft<P>,
) -> Result<(), VertexRefused<P>>
    requires worker { IsActive heap.old worker }
    requires fresh { ¬ IsNamed (content_of heap.old) name }
    requires few { kind ≡ Making.Subject → length heap.old.subjects < MAX_NURSERIES }
    requires above { All (λ other. other < name) (subject_names heap.old) }
    ensures made { OnOk result (IsCreated (content_of heap.old) (content_of heap.new) worker name label draft) }
    ensures placed { OnOk result (IsMadeInRow heap.old.table heap.new.table heap.old.remembered heap.new.remembered (nursery_space (nursery_of heap.old worker)) worker name label) }
    ensures limits { OnOk result (heap.new.table.limits ≡ heap.old.table.limits) }
    ensures subjects { OnOk result (subject_names heap.new ≡ subjects_making kind (subject_names heap.old) name) }
    ensures handed_back { IfErr result (λ refused. refused.draft ≡ draft) }
    ensures refused { OnErr result (IsUnchangedHeap heap.old heap.new) }
    ensures full { IfErr result (λ refused. refused.why ≡ RoomFault.HeapFull → LacksCellsFor heap.old.table (nursery_space (nursery_of heap.old worker)) 1 worker name) }
{
    match kind {
        Making::Object => heap.new_vertex(worker, name, label, draft),
        Making::Subject => heap.new_subject(worker, name, label, draft),
    }
}
