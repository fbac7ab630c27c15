//! What a command does that is served.
ghost use Rattle.std.specs.Prelude.{◌≡◌, ◌≢◌, ◌<◌, ◌↔◌, None, Some, Err, IfOk, IfSome, IsSome, OnOk, IsTrue};
ghost use Rattle.tg_model.specs.Graph.{with_rights};
ghost use Rattle.tg_model.specs.Rules.{denial_of, subjects_after};
ghost use Rattle.tg_word.specs.Word.{nursery_space};
ghost use Rattle.tg_graph.specs.Heap.{content_of, IsActive, KeepsIndexes, nursery_of, subject_names};
ghost use Rattle.tg_rows.specs.Content.{IsContent, IsNamed};
ghost use Rattle.tg_rows.specs.Spots.{LacksCellsFor};
ghost use Rattle.tg_rules.specs.Effect.{IndexesAfter, IsReplyOn, IsContentAfter, IsDoneInPlace, LeavesHeap, AddsEdge, LacksCellsToServe, OnlyLooks};
ghost use Rattle.tg_rules.specs.Parties.{AreParties};
ghost use Rattle.tg_rules.specs.Verdict.{HasSubject, HasVertex};

use crate::decision::find_parties;
use crate::vertex::{Parties, Vertex, subject_of};
use tg_graph::Heap;
use tg_model::{Command, Reply};
use tg_payload::Payload;
use tg_rights::Label;
use tg_space::RoomFault;
use tg_subjects::Subject;

/// Carries out a command of a worker that is to be served. It answers as the rules say on what the heap has, and
/// changes that as they say. The vertices stay where they are. A subject that retires is active no more, and all other
/// subjects stay.
///
/// It is refused when out of memory. A take or a grant is also refused if it needs a new reference for which there is
/// no cell. Then the reference isn't there yet, and the row has no empty place for it. The nursery of the worker has no
/// cell left, and gets no more blocks. A refused call changes nothing.
pub fn perform<P: Payload>(
    heap: &mut Heap<P>,
    worker: u64,
    command: &Command,
) -> Result<Reply, RoomFault>
    requires worker { IsActive heap.old worker }
    requires served { denial_of (content_of heap.old).label (content_of heap.old).value worker command.now ≡ None }
    ensures reply { IfOk result (λ reply. IsReplyOn (content_of heap.old) worker command.now reply) }
    ensures content { OnOk result (IsContentAfter (content_of heap.old) (content_of heap.new) worker command.now) }
    ensures subjects { OnOk result (subject_names heap.new ≡ subjects_after (subject_names heap.old) worker command.now) }
    ensures indexed { OnOk result (IndexesAfter heap.old heap.new worker command.now) }
    ensures left { LeavesHeap command.now heap.old heap.new result }
    ensures full { result ≡ Err RoomFault.HeapFull → AddsEdge command.now × LacksCellsToServe heap.old.table (nursery_of heap.old worker) worker command.now }
{
    let subject = subject_of(heap, worker);
    match find_parties(heap, subject, command) {
        Ok(parties) if only_looks(command) => look_between(heap, subject, command, parties),
        Ok(parties) => {
            change_between(heap, subject, command, parties)?;
            Ok(Reply::Done)
        }
        Err(_) => unreachable!(),
    }
}

/// Whether a command changes nothing where it is served.
#[inline(always)]
pub fn only_looks(command: &Command) -> bool
    ensures { IsTrue result ↔ OnlyLooks command.now }
{
    matches!(
        command,
        Command::Read { .. } | Command::Inspect { .. } | Command::List
    )
}

/// Answers a command of a subject that only looks, from the vertices that its checks met. It does what [`perform`]
/// does, without looking anything up again. It is refused where memory was.
#[inline(always)]
pub fn look_between<P: Payload>(
    heap: &Heap<P>,
    subject: Subject,
    command: &Command,
    parties: Parties,
) -> Result<Reply, RoomFault>
    requires looks { OnlyLooks command.now }
    requires parties { AreParties heap.now subject.name command.now parties }
    ensures reply { IfOk result (λ reply. IsReplyOn (content_of heap.now) subject.name command.now reply) }
    ensures room { result ≢ Err RoomFault.HeapFull }
{
    match *command {
        Command::Read { .. } => Ok(Reply::Values(heap.state(parties.target.place)?)),
        Command::List | Command::Inspect { .. } => Ok(Reply::Edges(heap.row(parties.from.place)?)),
        _ => unreachable!(),
    }
}

/// Performs a command of a subject that changes something, between the vertices that its checks met. It does what
/// [`perform`] does, without looking anything up again. The reply to such a command is that it is done.
#[inline(always)]
pub fn change_between<P: Payload>(
    heap: &mut Heap<P>,
    subject: Subject,
    command: &Command,
    parties: Parties,
) -> Result<(), RoomFault>
    requires changes { ¬ OnlyLooks command.now }
    requires subject { HasSubject heap.old subject }
    requires parties { AreParties heap.old subject.name command.now parties }
    ensures reply { OnOk result (IsReplyOn (content_of heap.old) subject.name command.now Reply.Done) }
    ensures content { OnOk result (IsContentAfter (content_of heap.old) (content_of heap.new) subject.name command.now) }
    ensures subjects { OnOk result (subject_names heap.new ≡ subjects_after (subject_names heap.old) subject.name command.now) }
    ensures indexed { OnOk result (IndexesAfter heap.old heap.new subject.name command.now) }
    ensures left { LeavesHeap command.now heap.old heap.new result }
    ensures full { result ≡ Err RoomFault.HeapFull → AddsEdge command.now × LacksCellsToServe heap.old.table subject.nursery subject.name command.now }
{
    let Parties { from, target } = parties;
    match *command {
        Command::Take { rights, .. } | Command::Grant { rights, .. } => {
            add(heap, subject, from, target, rights)
        }
        Command::Remove {
            target: name,
            rights,
        } => {
            heap.drop_rights(from.place, name, rights);
            Ok(())
        }
        Command::Write { value, .. } | Command::Append { value, .. } => {
            heap.write(target.place, value)?;
            Ok(())
        }
        Command::Retire => {
            heap.retire(subject.name);
            Ok(())
        }
        _ => unreachable!(),
    }
}

/// What the vertex with a name stores, if a worker may read it. `Some` is returned exactly if a read command of the
/// worker is to be served. Takes no memory.
pub fn readable<P: Payload>(heap: &Heap<P>, worker: u64, name: u64) -> Option<&P>
    requires { IsActive heap.now worker }
    ensures allowed { IsSome result ↔ (denial_of (content_of heap.now).label (content_of heap.now).value worker (Command.Read name) ≡ None) }
    ensures stored { IfSome result (λ payload. (content_of heap.now).value name ≡ Some (P.value payload.now)) }
{
    let read = Command::Read { target: name };
    match find_parties(heap, subject_of(heap, worker), &read) {
        Ok(parties) => Some(heap.payload(parties.target.place)),
        Err(_) => None,
    }
}

// One vertex gets rights over another.
#[inline(always)]
fn add<P: Payload>(
    heap: &mut Heap<P>,
    subject: Subject,
    from: Vertex,
    target: Vertex,
    rights: Label,
) -> Result<(), RoomFault>
    requires subject { HasSubject heap.old subject }
    requires from { HasVertex heap.old from }
    requires target { HasVertex heap.old target }
    ensures content { OnOk result (IsContent (content_of heap.new) (IsNamed (content_of heap.old))
        (with_rights (content_of heap.old).label from.name target.name rights) (content_of heap.old).value) }
    ensures indexed { OnOk result (KeepsIndexes heap.old heap.new from.place) }
    ensures done { IsDoneInPlace heap.old heap.new result }
    ensures full { result ≡ Err RoomFault.HeapFull → LacksCellsFor heap.old.table (nursery_space subject.nursery) 0 from.name target.name }
{
    heap.add_edge_as(subject, from.place, target.place, rights)?;
    Ok(())
}
