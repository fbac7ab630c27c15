//! What a journal no longer has in memory, for clauses alone.
ghost use Rattle.std.specs.Prelude.{◌≡◌, ◌++◌, List, []};
ghost use Rattle.std.specs.Borrow.{ftrue};
ghost use Rattle.tg_journal.specs.declared.entry.Entry.{Entry as EntryOf};
ghost use Rattle.tg_journal.specs.Journal.{placeholders};

use crate::entry::Entry;
use std::marker::Model;
use tg_snapshot::Snapshot;

/// The entries that a journal no longer has in memory. Only clauses read them. It takes no memory, and nothing is done
/// at run time.
#[derive(Drop)]
pub(crate) struct Past {
    pub ghost entries: { List EntryOf },
}

impl Model for Past {
    ghost also_owns = { λ _. ftrue };
}

// It owns nothing.
unsafe impl Send for Past {}

unsafe impl Sync for Past {}

impl Past {
    /// No entry.
    pub(crate) fn nothing() -> Past
        ensures { result.entries ≡ [] }
    {
        Past {}
    }

    /// The placeholders of the entries that were made before a snapshot.
    pub(crate) fn before(_snapshot: &Snapshot) -> Past
        ensures { result.entries ≡ placeholders _snapshot.now }
    {
        Past {}
    }

    /// These, followed by the listed ones.
    pub(crate) fn with(&self, _listed: &[Entry]) -> Past
        ensures { result.entries ≡ self.now.entries ++ _listed.now }
    {
        Past {}
    }
}
