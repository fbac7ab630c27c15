//! How far an audit has read.
ghost use Rattle.std.specs.Prelude.{◌≡◌, Bool, List, ◌++◌, ◌∷◌, [], IfSome, OnOk};
ghost use Rattle.tg_journal.specs.declared.entry.Entry.{Entry as EntryOf};
ghost use Rattle.tg_model.specs.Opened.{OpensPlan};
ghost use Rattle.tg_model.specs.declared.opening.TheConstants.{MAX_LASTING_VERTICES};
ghost use Rattle.tg_entries.specs.Kept.{IsKept};
ghost use Rattle.tg_entries.specs.Texts.{TextStart};

use crate::kept::{History, keep};
use std::alloc::AllocError;
use std::mem;
use tg_journal::{Auditor, Entry};
use tg_model::{Edge, Opening, Value};
use tg_saved::SnapshotStage;

/// What was read of an opening.
pub struct Head {
    pub workers: u64,
    pub max_vertices: u64,
    pub values: Vec<Value>,
    pub edges: Vec<Edge>,
}

// It is written out, so that code that drops a head doesn't prove again how each part of it is dropped.
impl Drop for Head {
    fn drop(self) {
        let Self {
            workers: _,
            max_vertices: _,
            values: _values,
            edges: _edges,
        } = self;
    }
}

impl Head {
    /// The opening that was read, if it may be one of a store that is to last.
    pub(crate) fn opening(self) -> Option<Opening>
        ensures { IfSome result (OpensPlan MAX_LASTING_VERTICES (record { workers = self.workers; edges = self.edges.items; values = self.values.items; limit = self.max_vertices })) }
    {
        let Self {
            workers,
            max_vertices,
            values,
            edges,
        } = self;
        Opening::lasting(workers, edges, values, max_vertices).ok()
    }
}

/// An audit that has come to some entry, how many passed, the sum of the part before, if its line came, and the history
/// so far, if it is kept.
pub struct Entered {
    pub auditor: Auditor,
    pub count: u64,
    pub before: Option<[u8; 32]>,
    pub kept: Option<History>,
}

// It is written out, so that code that drops an audit doesn't prove again how each part of it is dropped.
impl Drop for Entered {
    fn drop(self) {
        let Self {
            auditor: _auditor,
            count: _,
            before: _,
            kept: _kept,
        } = self;
    }
}

impl Entered {
    /// The history so far, if it is kept.
    pub(crate) fn history(self) -> Option<History>
        ensures { result ≡ self.kept }
    {
        let Self {
            auditor: _auditor,
            count: _,
            before: _,
            kept,
        } = self;
        kept
    }

    /// Keeps the entry after the others, if the history is kept. Fails only when out of memory.
    pub(crate) fn keep(&mut self, entry: Entry) -> Result<(), AllocError>
        ensures kept { (keeps : Bool) (origin : TextStart) (es : List EntryOf) → IsKept keeps origin es self.old.kept → OnOk result (IsKept keeps origin (es ++ entry ∷ []) self.new.kept) }
        ensures same { (self.new.auditor ≡ self.old.auditor) × (self.new.count ≡ self.old.count) × (self.new.before ≡ self.old.before) }
    {
        let kept = keep(self.kept.take(), entry)?;
        drop(mem::replace(&mut self.kept, kept));
        Ok(())
    }
}

/// Which line may come next.
#[derive(Drop)]
pub enum Stage {
    /// The first one.
    Version,
    /// The one with the number of workers and of vertices.
    Limits,
    /// A worker's value, an edge, or the first line after an opening.
    Opening(Head),
    /// A line of a snapshot that the history goes on from.
    Saved(SnapshotStage),
    /// The sum of the part before, an entry, or a count line. The last line of a snapshot came last.
    Joint(Entered),
    /// An entry, or a count line.
    Entries(Entered),
    /// Entries whose last line was a count line, so the text may end here.
    Ended(Entered),
    /// There is no next line, because a line was bad.
    Stopped,
}
