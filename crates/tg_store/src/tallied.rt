//! A journal that counts the refusals that are entered.
ghost use Rattle.std.specs.Prelude.{◌≡◌, ◌≤◌, [], length, None, Some};
ghost use Rattle.tg_journal.specs.Journal.{GoesOnAfter};
ghost use Rattle.tg_store.specs.Counts.{refusals_in};
ghost use Rattle.tg_store.specs.Inner.Entering.{Adds, HoldsFromPlace, MakesRoom, MayBeAdded};

use crate::census::{Refusal, Refusals};
use std::alloc::{AllocError, Global};
use std::marker::Model;
use tg_journal::{Entry, Journal};
use tg_snapshot::Snapshot;

/// A journal, with the number of entries that were ever made for each refusal. Contracts see only the journal.
#[derive(Drop)]
pub(crate) struct TalliedJournal {
    journal: Journal,
    refusals: Refusals,
}

impl Model for TalliedJournal {
    ghost use Rattle.std.specs.Prelude.{◌≡◌};
    ghost use Rattle.tg_journal.specs.Journal.{Entries};
    ghost use Rattle.tg_store.specs.Counts.{refusals_in};

    ghost Value = { Entries };

    ghost view = { λ a. a.journal };

    ghost invariant = { λ a. a.refusals ≡ refusals_in a.journal.entries };
}

impl TalliedJournal {
    /// A journal with no entry. Takes no memory.
    pub(crate) fn new(alloc: Global) -> TalliedJournal
        ensures entries { result.entries ≡ [] }
        ensures start { result.start ≡ 0 }
    {
        TalliedJournal {
            journal: Journal::new(alloc),
            refusals: Refusals {
                denied: 0,
                vertices_full: 0,
                workers_full: 0,
            },
        }
    }

    /// A journal that goes on after a snapshot, as [`Journal::after`] makes it. No entry before counts as a refusal.
    /// Takes no memory.
    pub(crate) fn after(alloc: Global, snapshot: &Snapshot) -> TalliedJournal
        ensures { GoesOnAfter snapshot.now result }
    {
        TalliedJournal {
            journal: Journal::after(alloc, snapshot),
            refusals: Refusals {
                denied: 0,
                vertices_full: 0,
                workers_full: 0,
            },
        }
    }

    /// The journal.
    pub(crate) fn journal(&self) -> &Journal
        ensures { result.now ≡ self.now }
    {
        &self.journal
    }

    /// How many entries were made for each refusal. Entries that are no longer held count too.
    pub(crate) fn refusals(&self) -> Refusals
        ensures { result ≡ refusals_in self.now.entries }
    {
        self.refusals
    }

    /// Makes room for one entry, as [`Journal::reserve`] does.
    #[inline(always)]
    pub(crate) fn reserve(&mut self) -> Result<(), AllocError>
        ensures { MakesRoom 1 self.old self.new result }
    {
        self.journal.reserve()
    }

    /// Makes room for so many entries, as [`Journal::reserve_many`] does.
    pub(crate) fn reserve_many(&mut self, more: usize) -> Result<(), AllocError>
        ensures { MakesRoom more self.old self.new result }
    {
        self.journal.reserve_many(more)
    }

    /// Adds an entry that records no refusal, for which there has to be room. Takes no memory, and looks at no reply.
    #[inline(always)]
    pub(crate) fn push(&mut self, entry: Entry)
        requires { MayBeAdded entry None self.old }
        ensures { Adds entry self.old self.new }
    {
        self.journal.push(entry);
    }

    /// Adds an entry that records a refusal, for which there has to be room, and counts it. Takes no memory.
    #[cold]
    #[inline(never)]
    pub(crate) fn push_refusal(&mut self, entry: Entry, refusal: Refusal)
        requires { MayBeAdded entry (Some refusal) self.old }
        ensures { Adds entry self.old self.new }
    {
        self.journal.push(entry);
        // This call shows that the entries have a number, and so their refusals have.
        let _ = self.journal.len();
        self.refusals.add(refusal);
    }

    /// Hands out what it holds, as [`Journal::take`] does. Takes no memory.
    pub(crate) fn take(&mut self, alloc: Global) -> Journal
        ensures part { result ≡ self.old }
        ensures rest { HoldsFromPlace (length self.old.entries) self.old self.new }
    {
        self.journal.take(alloc)
    }

    /// Gives up the entries before a place, as [`Journal::forget`] does. Takes no memory.
    pub(crate) fn forget(&mut self, upto: u64)
        requires { (self.old.start ≤ upto) × (upto ≤ length self.old.entries) }
        ensures { HoldsFromPlace upto self.old self.new }
    {
        self.journal.forget(upto);
    }
}
