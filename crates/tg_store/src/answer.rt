//! How a command is answered on the heap, and entered in the journal with its reply.
ghost use Rattle.std.specs.Prelude.{◌≡◌, ◌≢◌, ◌<◌, None, Err, IfOk, Ok};
ghost use Rattle.tg_model.specs.Rules.{denial_of};
ghost use Rattle.tg_graph.specs.Heap.{content_of};
ghost use Rattle.tg_rules.specs.Effect.{AddsEdge, LacksCellsToServe, OnlyLooks};
ghost use Rattle.tg_rules.specs.Verdict.{HasSubject};
ghost use Rattle.tg_store.specs.Inner.Answering.{AnswersCommand, EntersAnswer, IsToServe, entry_answered};
ghost use Rattle.tg_store.specs.Inner.Entering.{Adds};

use crate::census::Refusal;
use crate::fault::ApplyFault;
use crate::tallied::TalliedJournal;
use std::alloc::Global;
use tg_graph::Heap;
use tg_journal::Entry;
use tg_model::{Command, Deed, Denial, Reply};
use tg_payload::Payload;
use tg_rules::{Parties, change_between, find_parties, look_between, only_looks};
use tg_subjects::Subject;

// Decides a command of a worker, performs it where it is served, and enters it with its reply, for which the journal
// has room. For each graph that the heap represents the reply is that graph's, and then the heap represents the graph
// after the command. Where it is refused, the heap and the journal are as they were. It is a call of its own: put into
// its callers it makes them so large that what it calls isn't put into it.
#[inline(never)]
pub(crate) fn answer_command<P: Payload>(
    alloc: Global,
    heap: &mut Heap<P>,
    journal: &mut TalliedJournal,
    subject: Subject,
    command: &Command,
) -> Result<Reply, ApplyFault>
    requires subject { HasSubject heap.old subject }
    requires room { 0 < journal.old.spare }
    ensures answered { AnswersCommand subject command.now heap.old heap.new result }
    ensures entered { EntersAnswer subject command.now journal.old journal.new result }
    ensures denied { (denial : Denial) → result ≡ Ok (Reply.Denied denial) → heap.new ≡ heap.old }
    ensures full { result ≡ Err ApplyFault.HeapFull → (denial_of (content_of heap.old).label (content_of heap.old).value subject.name command.now ≡ None)
        × AddsEdge command.now × LacksCellsToServe heap.old.table subject.nursery subject.name command.now }
{
    match find_parties(heap, subject, command) {
        Ok(parties) if only_looks(command) => {
            look(alloc, heap, journal, subject, command, parties)
        }
        Ok(parties) => change(heap, journal, subject, command, parties),
        Err(denial) => Ok(deny(journal, subject, command, &denial)),
    }
}

// Enters a command that is denied, and answers the denial.
#[inline(always)]
pub(crate) fn deny(
    journal: &mut TalliedJournal,
    subject: Subject,
    command: &Command,
    denial: &Denial,
) -> Reply
    requires room { 0 < journal.old.spare }
    ensures reply { result ≡ Reply.Denied denial.now }
    ensures entered { Adds (entry_answered subject command.now result) journal.old journal.new }
{
    journal.push_refusal(
        entry_of(subject, command, Reply::Denied(*denial)),
        Refusal::Denied,
    );
    Reply::Denied(*denial)
}

// Performs a command that changes nothing, and enters it. Its reply is copied, which may be refused.
#[inline(always)]
fn look<P: Payload>(
    alloc: Global,
    heap: &Heap<P>,
    journal: &mut TalliedJournal,
    subject: Subject,
    command: &Command,
    parties: Parties,
) -> Result<Reply, ApplyFault>
    requires to_serve { IsToServe subject command.now parties heap.now journal.old }
    requires looks { OnlyLooks command.now }
    ensures answered { AnswersCommand subject command.now heap.now heap.now result }
    ensures entered { EntersAnswer subject command.now journal.old journal.new result }
    ensures full { result ≢ Err ApplyFault.HeapFull }
{
    let reply = look_between(heap, subject, command, parties)?;
    let copy = reply.copy(alloc)?;
    journal.push(entry_of(subject, command, copy));
    Ok(reply)
}

// Performs a command whose reply says no more than that it is done, and enters it.
#[inline(always)]
fn change<P: Payload>(
    heap: &mut Heap<P>,
    journal: &mut TalliedJournal,
    subject: Subject,
    command: &Command,
    parties: Parties,
) -> Result<Reply, ApplyFault>
    requires to_serve { IsToServe subject command.now parties heap.old journal.old }
    requires changes { ¬ OnlyLooks command.now }
    ensures answered { AnswersCommand subject command.now heap.old heap.new result }
    ensures entered { EntersAnswer subject command.now journal.old journal.new result }
    ensures done { IfOk result (λ reply. reply ≡ Reply.Done) }
    ensures full { result ≡ Err ApplyFault.HeapFull → AddsEdge command.now × LacksCellsToServe heap.old.table subject.nursery subject.name command.now }
{
    change_between(heap, subject, command, parties)?;
    journal.push(entry_of(subject, command, Reply::Done));
    Ok(Reply::Done)
}

// The entry of a command of a subject with its reply.
#[inline(always)]
fn entry_of(subject: Subject, command: &Command, reply: Reply) -> Entry
    ensures { result ≡ entry_answered subject command.now reply }
{
    Entry {
        worker: subject.name,
        deed: Deed::Plain(*command),
        reply,
    }
}
