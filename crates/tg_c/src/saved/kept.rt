//! The snapshot that a snapshot's handle leads to.
use tg_snapshot::Snapshot;

/// A snapshot of a graph, at a place of its history.
#[derive(Drop)]
pub struct KeptSnapshot {
    pub snapshot: Snapshot,
}
