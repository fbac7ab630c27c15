//! Laws of snapshots. A function here does nothing. Its `ensures` is the law. Laws of the histories that go on from a
//! snapshot are in `tg_journal`.
ghost use Rattle.std.specs.Prelude.{◌≡◌};
ghost use Rattle.tg_model.specs.Graph.{ProtectionGraph, IsSound};
ghost use Rattle.tg_snapshot.specs.declared.fault.SnapshotFault.{SnapshotFault};
ghost use Rattle.tg_snapshot.specs.Faults.{IsFault};
ghost use Rattle.tg_snapshot.specs.Snapshot.{Saved, IsSnapshot, IsSnapshotOf, graph_shown};

/// The graph that a snapshot shows is sound, whoever wrote the snapshot.
pub fn snapshots_show_sound_graphs()
    ensures { (p : Saved) → IsSnapshot p → IsSound (graph_shown p) }
{}

/// One graph has one snapshot at a place.
pub fn one_graph_has_one_snapshot()
    ensures { (p q : Saved) (g : ProtectionGraph) → IsSnapshot p → IsSnapshot q → IsSnapshotOf p g → IsSnapshotOf q g →
        p.entries ≡ q.entries → p ≡ q }
{}

/// Lists with a fault are no snapshot, and have no other fault.
pub fn a_fault_is_the_only_one()
    ensures no_snapshot { (p : Saved) (fault : SnapshotFault) → IsFault p fault → ¬ IsSnapshot p }
    ensures only { (p : Saved) (fault other : SnapshotFault) → IsFault p fault → IsFault p other → fault ≡ other }
{}
