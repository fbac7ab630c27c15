//! How rights are handed on, on the heap and in the journal.
ghost use Rattle.std.specs.Prelude.{◌≡◌, ◌≤◌, ◌++◌, Err, IfErr, IfOk, None, OnErr, OnOk};
ghost use Rattle.tg_rights.specs.RightSet.{label_of};
ghost use Rattle.tg_graph.specs.Heap.{content_of};
ghost use Rattle.tg_rules.specs.Effect.{LacksCellsToServe};
ghost use Rattle.tg_rules.specs.Parties.{AreParties};
ghost use Rattle.tg_rules.specs.Verdict.{HasSubject};
ghost use Rattle.tg_store.specs.Handing.{denied_in_hand, done_by, entries_of_hand, grant_of, lent, take_of};
ghost use Rattle.tg_store.specs.Inner.Answering.{KeepsHeap};
ghost use Rattle.tg_store.specs.Inner.Handing.{HandsOnHeap, IsDeniedOn};

use crate::answer::deny;
use crate::fault::ApplyFault;
use crate::leaving::removal;
use crate::tallied::TalliedJournal;
use tg_graph::Heap;
use tg_journal::Entry;
use tg_model::{Command, Deed, Denial, Reply};
use tg_payload::Payload;
use tg_rights::Label;
use tg_rules::{Parties, change_between, find_parties, find_receiver};
use tg_subjects::Subject;

/// Rights that a worker hands on by [`Store::hand`](crate::Store::hand). `via` takes the rights from `from` over the
/// target, and grants them to `to`. Then it removes the rights that it didn't hold before. The four names are those of
/// vertices. A vertex may be an object, a subject, or a subject that retired. A name that was never made is treated as
/// a vertex without an edge.
#[derive(Clone, Copy, PartialEq, Eq, Debug)]
pub struct Hand {
    /// The worker who hands rights on.
    pub via: u64,
    /// Who holds the rights over the target.
    pub from: u64,
    /// Who is to hold them too.
    pub to: u64,
    /// The vertex that the rights are over.
    pub target: u64,
    /// The rights, of which there is at least one.
    pub rights: Label,
}

/// The answer to a hand that isn't refused.
#[derive(Clone, Copy, PartialEq, Eq, Debug)]
pub enum Handed {
    /// The rights were handed on. The journal has two entries more, the take and the grant. If `via` didn't hold all of
    /// the rights before, a third entry removes the missing ones, and `removed` has them.
    Done { removed: Option<Label> },
    /// The take or the grant is denied, for this reason. Its entry is the only one, and nothing else changed.
    Denied { command: Command, denial: Denial },
}

impl Hand {
    // The take with which it begins.
    fn take(&self) -> Command
        ensures { result ≡ take_of self.now }
    {
        Command::Take {
            rights: self.rights,
            via: self.from,
            target: self.target,
        }
    }

    // The grant that comes next.
    fn grant(&self) -> Command
        ensures { result ≡ grant_of self.now }
    {
        Command::Grant {
            rights: self.rights,
            via: self.to,
            target: self.target,
        }
    }
}

// Hands rights on. It decides both commands on the heap as it is, and adds the one edge that stays. Then it enters the
// commands, for which the journal has room. Where it is refused, the heap and the journal are as they were.
pub(crate) fn hand_on<P: Payload>(
    heap: &mut Heap<P>,
    journal: &mut TalliedJournal,
    subject: Subject,
    hand: &Hand,
) -> Result<Handed, ApplyFault>
    requires subject { HasSubject heap.old subject }
    requires named { subject.name ≡ hand.now.via }
    requires room { 3 ≤ journal.old.spare }
    ensures comes { IfOk result (HandsOnHeap hand.now heap.old heap.new journal.old journal.new) }
    ensures start { journal.new.start ≡ journal.old.start }
    ensures entries { OnErr result (journal.new.entries ≡ journal.old.entries) }
    ensures kept { KeepsHeap heap.old heap.new result }
    ensures full { result ≡ Err ApplyFault.HeapFull → (denied_in_hand (content_of heap.old).label (content_of heap.old).value hand.now ≡ None)
        × LacksCellsToServe heap.old.table subject.nursery subject.name (grant_of hand.now) }
{
    match check_hand(heap, subject, hand) {
        Ok(parties) => serve_hand(heap, journal, subject, hand, parties),
        Err((command, denial)) => {
            deny(journal, subject, &command, &denial);
            Ok(Handed::Denied { command, denial })
        }
    }
}

// Makes the checks of the take, and then those of the grant by one who took the rights. Answers the vertices that the
// grant is about, or the command that is denied, and why.
fn check_hand<P: Payload>(
    heap: &Heap<P>,
    subject: Subject,
    hand: &Hand,
) -> Result<Parties, (Command, Denial)>
    requires subject { HasSubject heap.now subject }
    requires named { subject.name ≡ hand.now.via }
    ensures denied { IfErr result (λ denied. IsDeniedOn hand.now (content_of heap.now) denied.0 denied.1) }
    ensures served { OnOk result (denied_in_hand (content_of heap.now).label (content_of heap.now).value hand.now ≡ None) }
    ensures found { IfOk result (AreParties heap.now subject.name (grant_of hand.now)) }
{
    let take = hand.take();
    match find_parties(heap, subject, &take) {
        Ok(met) => match find_receiver(heap, subject, hand.to, met) {
            Ok(parties) => Ok(parties),
            Err(denial) => Err((hand.grant(), denial)),
        },
        Err(denial) => Err((take, denial)),
    }
}

// Adds the edge of a hand that is served, and enters its commands.
fn serve_hand<P: Payload>(
    heap: &mut Heap<P>,
    journal: &mut TalliedJournal,
    subject: Subject,
    hand: &Hand,
    parties: Parties,
) -> Result<Handed, ApplyFault>
    requires subject { HasSubject heap.old subject }
    requires named { subject.name ≡ hand.now.via }
    requires room { 3 ≤ journal.old.spare }
    requires parties { AreParties heap.old subject.name (grant_of hand.now) parties }
    requires served { denied_in_hand (content_of heap.old).label (content_of heap.old).value hand.now ≡ None }
    ensures comes { IfOk result (HandsOnHeap hand.now heap.old heap.new journal.old journal.new) }
    ensures start { journal.new.start ≡ journal.old.start }
    ensures entries { OnErr result (journal.new.entries ≡ journal.old.entries) }
    ensures kept { KeepsHeap heap.old heap.new result }
    ensures full { result ≡ Err ApplyFault.HeapFull → LacksCellsToServe heap.old.table subject.nursery subject.name (grant_of hand.now) }
{
    let removed = rights_lent(heap, subject, hand);
    change_between(heap, subject, &hand.grant(), parties)?;
    enter_hand(journal, hand, &removed);
    Ok(Handed::Done { removed })
}

// The rights of a hand that the one who hands on doesn't hold, if there are any.
fn rights_lent<P: Payload>(heap: &Heap<P>, subject: Subject, hand: &Hand) -> Option<Label>
    requires subject { HasSubject heap.now subject }
    requires named { subject.name ≡ hand.now.via }
    ensures { result ≡ label_of (lent (content_of heap.now).label hand.now) }
{
    let rights = hand.rights.rights();
    match heap.find_edge(subject.place, hand.target) {
        Some(found) => Label::new(rights.minus(found.rights)),
        None => Some(hand.rights),
    }
}

// Enters the commands of a hand that is served.
fn enter_hand(journal: &mut TalliedJournal, hand: &Hand, removed: &Option<Label>)
    requires { 3 ≤ journal.old.spare }
    ensures entries { journal.new.entries ≡ journal.old.entries ++ entries_of_hand hand.now removed.now }
    ensures start { journal.new.start ≡ journal.old.start }
{
    journal.push(done_by(hand.via, hand.take()));
    journal.push(done_by(hand.via, hand.grant()));
    if let Some(rights) = removed {
        journal.push(removal(hand.via, hand.target, *rights));
    }
}

/// The entry of a command that is done.
pub(crate) fn done_by(worker: u64, command: Command) -> Entry
    ensures { result ≡ done_by worker command }
{
    Entry {
        worker,
        deed: Deed::Plain(command),
        reply: Reply::Done,
    }
}
