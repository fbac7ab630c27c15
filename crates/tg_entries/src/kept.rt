//! A history that is kept while its text is read.
ghost use Rattle.std.specs.Prelude.{◌≡◌, Bool, List, ◌++◌, ◌∷◌, [], IfOk, false, true};
ghost use Rattle.tg_journal.specs.declared.entry.Entry.{Entry as EntryOf};
ghost use Rattle.tg_entries.specs.Kept.{BeginsAt, IsKept};
ghost use Rattle.tg_entries.specs.Texts.{TextStart};

use std::alloc::{AllocError, Global};
use tg_journal::Entry;
use tg_model::Opening;
use tg_snapshot::Snapshot;

/// Where a history begins.
#[derive(Drop)]
pub enum HistoryStart {
    /// At an opening.
    Opened(Opening),
    /// At the snapshot of an earlier graph.
    Shown(Snapshot),
}

/// A history: where it begins, and its entries since, oldest first.
#[derive(Drop)]
pub struct History {
    pub start: HistoryStart,
    pub entries: Vec<Entry>,
}

/// What an audit of a text is given: where it takes memory, and whether it keeps the history that it reads.
#[derive(Clone, Copy)]
pub(crate) struct Means {
    pub alloc: Global,
    pub keeps: bool,
}

impl Means {
    /// Keeps no history.
    pub(crate) fn auditing(alloc: Global) -> Means
        ensures { result.keeps ≡ false }
    {
        Means {
            alloc,
            keeps: false,
        }
    }

    /// Keeps the history.
    pub(crate) fn keeping(alloc: Global) -> Means
        ensures { result.keeps ≡ true }
    {
        Means { alloc, keeps: true }
    }

    /// A history that begins here, of which no entry was read, if it is to be kept.
    pub(crate) fn begin(self, start: HistoryStart) -> Option<History>
        ensures { (origin : TextStart) → BeginsAt start origin → IsKept self.keeps origin [] result }
    {
        if !self.keeps {
            return None;
        }
        let entries = Vec::new(self.alloc);
        Some(History { start, entries })
    }
}

/// The history with the next entry, if it is kept. Fails only when out of memory.
pub(crate) fn keep(kept: Option<History>, entry: Entry) -> Result<Option<History>, AllocError>
    ensures { (keeps : Bool) (origin : TextStart) (es : List EntryOf) → IsKept keeps origin es kept → IfOk result (IsKept keeps origin (es ++ entry ∷ [])) }
{
    let Some(history) = kept else {
        return Ok(None);
    };
    let History { start, mut entries } = history;
    entries.push(entry)?;
    Ok(Some(History { start, entries }))
}
