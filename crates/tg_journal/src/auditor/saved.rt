//! Auditors from snapshots, and the snapshot of what an auditor has come to.
ghost use Rattle.std.specs.Prelude.{◌≡◌, true, None, Ok, IfOk, IfSome, IsSome};
ghost use Rattle.tg_model.specs.Graph.{ProtectionGraph, IsSound};
ghost use Rattle.tg_snapshot.specs.Snapshot.{IsSnapshotOf, graph_shown};
ghost use Rattle.tg_journal.specs.Auditing.{StandsAt};
ghost use Rattle.tg_journal.specs.Saving.{CanBeSaved};

use crate::auditor::{Auditor, FIRST_SWEEP};
use crate::live::LiveGraph;
use std::alloc::{AllocError, Global};
use tg_snapshot::Snapshot;

impl Auditor {
    /// An audit that goes on from a snapshot. It audits a history of the graph that the snapshot shows, and so of each
    /// graph of which it is a snapshot. Its place is the snapshot's number of entries. A snapshot that another auditor
    /// handed out after the entries before needs no trust. Fails only when out of memory.
    pub fn reopen(alloc: Global, snapshot: &Snapshot) -> Result<Auditor, AllocError>
        ensures stands { IfOk result (StandsAt (graph_shown snapshot.now)) }
        ensures of { IfOk result (λ auditor. (g : ProtectionGraph) → IsSound g → IsSnapshotOf snapshot.now g → StandsAt g auditor) }
        ensures place { IfOk result (λ auditor. auditor.at ≡ snapshot.now.entries) }
    {
        Ok(Auditor {
            graph: LiveGraph::reopen(alloc, snapshot)?,
            at: snapshot.entries(),
            found_bad: false,
            sweep_at: FIRST_SWEEP,
        })
    }

    /// The snapshot of the graph that it has come to, at its place. Returns `None` after a bad entry, since it then has
    /// come to no graph. An auditor of an opening, or of a snapshot, that found no bad entry always has a snapshot.
    /// Fails only when out of memory.
    pub fn snapshot(&self) -> Result<Option<Snapshot>, AllocError>
        ensures of { (g : ProtectionGraph) → StandsAt g self.now → IfOk result (λ it. IfSome it (λ snapshot. IsSnapshotOf snapshot g)) }
        ensures some { (g : ProtectionGraph) → StandsAt g self.now → CanBeSaved g → IfOk result (λ it. IsSome it) }
        ensures place { IfOk result (λ it. IfSome it (λ snapshot. snapshot.entries ≡ self.now.at)) }
        ensures none { self.now.found_bad ≡ true → result ≡ Ok None }
    {
        if self.found_bad {
            return Ok(None);
        }
        let (picture, vertices) = self.graph.show()?;
        Ok(Snapshot::new(picture, vertices, self.at).ok())
    }
}
