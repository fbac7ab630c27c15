//! What a store is that goes on from a history. A function here does nothing. Its `ensures` is the law.
ghost use Rattle.std.specs.Prelude.{ℕ, List};
ghost use Rattle.tg_model.specs.Graph.{IsSound, ProtectionGraph};
ghost use Rattle.tg_snapshot.specs.Snapshot.{IsSnapshotOf, Saved};
ghost use Rattle.tg_journal.specs.declared.entry.Entry.{Entry};
ghost use Rattle.tg_entries.specs.declared.kept.History.{History};
ghost use Rattle.tg_entries.specs.declared.kept.HistoryStart.TheVariants.{Shown};
ghost use Rattle.tg_entries.specs.Kept.{IsTextOf};
ghost use Rattle.tg_space.specs.SpaceTable.{BlockLimits};
ghost use Rattle.tg_store.specs.Store.{StoreState};
ghost use Rattle.tg_revive.specs.Reviving.{IsBadInHistory, IsRevived, RepresentsAfter};

/// No entry of a history that was read from its text is bad.
pub fn no_entry_of_a_text_is_bad()
    ensures { (text : List ℕ) (history : History) (at : ℕ) → IsTextOf text history →
        ¬ IsBadInHistory history.start history.entries.items at }
{}

/// A store that goes on from a snapshot of a graph, and from entries since, represents a graph. Wherever subjects
/// reach, the graph is alike to the graph after these entries. So each later reply is the reply of that graph.
pub fn a_snapshot_is_enough()
    ensures { (g : ProtectionGraph) (snapshot : Saved) (es : List Entry) (limits : BlockLimits) (store : StoreState) →
        IsSound g → IsSnapshotOf snapshot g → IsRevived (Shown snapshot) es limits store →
        RepresentsAfter g es store }
{}
