//! How a worker leaves, on the heap and in the journal.
ghost use Rattle.std.specs.Prelude.{◌≡◌, ◌<◌, ◌∷◌, ◌++◌, [], length, map};
ghost use Rattle.tg_model.specs.Graph.{ProtectionGraph, IsSubject, without_subject};
ghost use Rattle.tg_journal.specs.History.{IsLegal};
ghost use Rattle.tg_graph.specs.Heap.{content_of, subject_names};
ghost use Rattle.tg_graph.specs.Standing.{IsContentOf};
ghost use Rattle.tg_rules.specs.Verdict.{HasSubject};
ghost use Rattle.tg_store.specs.Leaving.{graph_after_leave, removal, retiring};

use crate::tallied::TalliedJournal;
use tg_graph::Heap;
use tg_journal::Entry;
use tg_model::{Command, Deed, EdgeList, Reply};
use tg_payload::Payload;
use tg_rights::Label;
use tg_subjects::Subject;

/// A subject gives up the edges of its row, in the order of the list, and retires. Each deed has its entry, for which
/// there is room already. Nothing is refused.
pub(crate) fn leave_heap<P: Payload>(
    heap: &mut Heap<P>,
    journal: &mut TalliedJournal,
    subject: Subject,
    row: &EdgeList,
)
    requires subject { HasSubject heap.old subject }
    requires room { length row.now < journal.old.spare }
    ensures entries { journal.new.entries ≡ journal.old.entries ++ map (removal subject.name) row.now ++ retiring subject.name ∷ [] }
    ensures start { journal.new.start ≡ journal.old.start }
    ensures limits { heap.new.table.limits ≡ heap.old.table.limits }
    ensures subjects { subject_names heap.new ≡ without_subject (subject_names heap.old) subject.name }
    ensures stands { (g : ProtectionGraph) → IsContentOf (content_of heap.old) g → IsSubject g subject.name → IsLegal g (map (removal subject.name) row.now) →
        IsContentOf (content_of heap.new) (graph_after_leave g subject.name row.now) }
{
    for edge in row.as_slice() {
        heap.drop_rights(subject.place, edge.0, edge.1);
        journal.push(removal(subject.name, edge.0, edge.1));
    }
    heap.retire(subject.name);
    journal.push(retiring(subject.name));
}

/// The entry by which a worker gives up an edge when it leaves.
pub fn removal(worker: u64, target: u64, rights: Label) -> Entry
    ensures { result ≡ removal worker (target, rights) }
{
    Entry {
        worker,
        deed: Deed::Plain(Command::Remove { target, rights }),
        reply: Reply::Done,
    }
}

/// The entry by which a worker retires.
pub fn retiring(worker: u64) -> Entry
    ensures { result ≡ retiring worker }
{
    Entry {
        worker,
        deed: Deed::Plain(Command::Retire),
        reply: Reply::Done,
    }
}
