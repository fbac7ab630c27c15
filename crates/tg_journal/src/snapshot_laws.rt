//! Laws of snapshots, and of histories that go on from one. A function here does nothing. Its `ensures` is the law.
ghost use Rattle.std.specs.Prelude.{◌↔◌, ◌<◌, ◌≤◌, ◌++◌, ℕ, List};
ghost use Rattle.tg_model.specs.Graph.{ProtectionGraph, IsSubject, IsSound};
ghost use Rattle.tg_model.specs.Opened.{Plan, IsPlan, start_of};
ghost use Rattle.tg_snapshot.specs.Snapshot.{Saved, IsSnapshot, IsSnapshotOf, graph_shown};
ghost use Rattle.tg_journal.specs.declared.entry.Entry.{Entry};
ghost use Rattle.tg_journal.specs.Auditing.{HasComeTo, Passes};
ghost use Rattle.tg_journal.specs.Continues.{IsSnapshotAfter, Continues};
ghost use Rattle.tg_journal.specs.History.{AnswersName, IsLegal, graph_after};
ghost use Rattle.tg_journal.specs.Live.{AuditState};
ghost use Rattle.tg_journal.specs.Raised.{LeadsTo, raised, with_unreached};
ghost use Rattle.tg_journal.specs.Saving.{CanBeSaved};

/// The graph that a snapshot shows is alike, wherever subjects reach, to the graph of which it is a snapshot.
pub fn a_snapshot_is_enough()
    ensures { (p : Saved) (g : ProtectionGraph) → IsSound g → IsSnapshotOf p g → HasComeTo g (graph_shown p) }
{}

/// From two graphs that are alike where subjects reach the same entries are legal, and the graphs after them are alike.
pub fn alike_graphs_have_the_same_histories()
    ensures legal { (g kept : ProtectionGraph) (es : List Entry) → HasComeTo g kept → IsLegal kept es ↔ IsLegal g es }
    ensures next { (g kept : ProtectionGraph) (es : List Entry) → HasComeTo g kept → IsLegal kept es →
        HasComeTo (graph_after g es) (graph_after kept es) }
{}

/// A history that goes on from a snapshot is the history that would have come from the first graph. Later entries are
/// legal exactly if they would have been legal there, and each later reply is the one that would have been given there.
/// The first graph may be that of an opening, or one that a snapshot before shows.
pub fn histories_go_on_from_a_snapshot()
    ensures sound { (first : ProtectionGraph) (front : List Entry) (p : Saved) →
        IsSound first → IsSnapshotAfter first front p → Continues first front (graph_shown p) }
    ensures opened { (plan : Plan) (front : List Entry) (p : Saved) →
        IsPlan plan → IsSnapshotAfter (start_of plan) front p → Continues (start_of plan) front (graph_shown p) }
{}

/// A snapshot whose count of vertices is raised is one of the graph in which more vertices were made that nobody
/// reaches. A history that goes on from there gives only names from that count on. Entries after the snapshot may have
/// been lost. If at most so many vertices were made in them, their names are never given again.
pub fn a_count_may_be_raised()
    ensures accepted { (p : Saved) (made : ℕ) → IsSnapshot p → p.picture.made ≤ made → made ≤ p.picture.limit →
        IsSnapshot (raised p made) }
    ensures sound { (g : ProtectionGraph) (made : ℕ) → IsSound g → g.made ≤ made → IsSound (with_unreached g made) }
    ensures of { (p : Saved) (g : ProtectionGraph) (made : ℕ) → IsSound g → IsSnapshotOf p g → g.made ≤ made →
        IsSnapshotOf (raised p made) (with_unreached g made) }
    ensures names { (p : Saved) (g : ProtectionGraph) (lost es : List Entry) (made i j old new : ℕ) →
        IsLegal g lost → (graph_after g lost).made ≤ made → IsLegal (graph_shown (raised p made)) es →
        AnswersName lost i old → AnswersName es j new → old < new }
{}

/// While there is an active subject, the graph of a raised count can come about. The subject makes so many vertices
/// more, and gives each of them up. So every promise about legal histories also holds of one that goes on from there.
pub fn a_raised_count_can_come_about()
    ensures { (g : ProtectionGraph) (x made : ℕ) → IsSound g → IsSubject g x → g.made ≤ made → made ≤ g.limit →
        LeadsTo g (with_unreached g made) }
{}

/// A part of a history is audited alone by an auditor that goes on from a snapshot of the graph before it. It is
/// accepted exactly if the whole history is. Both auditors have then come to the same. So both hand out the same
/// snapshot (`one_graph_has_one_snapshot` of `tg_snapshot`).
pub fn a_part_is_audited_alone()
    ensures whole { (first : ProtectionGraph) (front es : List Entry) (p : Saved) (a : AuditState) →
        IsSound first → IsSnapshotAfter first front p → Passes (graph_shown p) es a → Passes first (front ++ es) a }
    ensures part { (first : ProtectionGraph) (front es : List Entry) (p : Saved) (a : AuditState) →
        IsSound first → IsSnapshotAfter first front p → IsSnapshot p → Passes first (front ++ es) a →
        Passes (graph_shown p) es a }
{}

/// Three kinds of graph have a snapshot. The first is the graph that an opening starts from, and the second a graph
/// that a snapshot shows. The third is each graph after a legal history of a graph with a snapshot.
pub fn graphs_can_be_saved()
    ensures opened { (plan : Plan) → IsPlan plan → CanBeSaved (start_of plan) }
    ensures shown { (p : Saved) → IsSnapshot p → CanBeSaved (graph_shown p) }
    ensures after { (g : ProtectionGraph) (es : List Entry) → CanBeSaved g → IsLegal g es → CanBeSaved (graph_after g es) }
{}
