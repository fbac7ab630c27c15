//! A part of a journal that is resumed.
ghost use Rattle.std.specs.Prelude.{◌≡◌, ◌≢◌, ◌↔◌, ◌≤◌, ◌+◌, ◌-◌, List, drop, length, Err, IfOk, IfErr, IfSome, IsSome, OnOk};
ghost use Rattle.tg_journal.specs.declared.entry.Entry.{Entry as EntryOf};
ghost use Rattle.tg_store.specs.Store.{StoreState};
ghost use Rattle.tg_resume.specs.Resuming.{IsHalted, IsStopped, Resumes};

use crate::entry::replay;
use crate::stopped::ResumeStopped;
use std::alloc::Global;
use tg_journal::{Entry, Journal};
use tg_payload::Payload;
use tg_rebuild::Maker;
use tg_space::RoomFault;
use tg_store::Store;

/// Entries of a journal that follow each other.
#[derive(Clone, Copy)]
pub struct Part<'a> {
    /// The place of the first entry in the journal, counted from 0.
    pub from: u64,
    /// The entries, oldest first.
    pub entries: &'a [Entry],
}

impl<'a> Part<'a> {
    /// The part that a journal holds.
    pub fn of(journal: &'a Journal) -> Part<'a>
        ensures from { result.from ≡ journal.now.start }
        ensures entries { result.entries.now ≡ drop journal.now.start journal.now.entries }
    {
        Part {
            from: journal.start(),
            entries: journal.entries(),
        }
    }

    /// The part from a place of the journal on, as a store goes on that had no room. `None` exactly if the place is
    /// neither in the part nor at its end.
    pub fn rest(self, at: u64) -> Option<Part<'a>>
        ensures within { IsSome result ↔ ((self.entry.from ≤ at) × (at ≤ self.entry.from + length self.entry.entries.now)) }
        ensures from { IfSome result (λ rest. rest.from ≡ at) }
        ensures entries { IfSome result (λ rest. rest.entries.now ≡ drop (at - self.entry.from) self.entry.entries.now) }
    {
        let passed = at.checked_sub(self.from)?;
        let entries = self.entries.get(passed as usize..)?;
        Some(Part { from: at, entries })
    }
}

/// Why entries were no more replayed, and at which place of the journal, counted from 0.
#[derive(Clone, Copy)]
pub enum Halted {
    /// The first entry that isn't legal. The store is of no use, because it may have done a deed that the entries don't
    /// have.
    BadEntry { at: u64 },
    /// There is no room for this entry. The store has all entries before it.
    NoRoom { at: u64, why: RoomFault },
}

/// Does the deed of each entry of a part again, and compares the replies. Payloads come from the maker. If the heap is
/// full for a deed, a full collection is made, and the deed is tried once more.
///
/// `Ok` has the store with exactly these entries more. They are a legal history of the graph that the store had, and
/// the store now has the graph after them. A reply that no more vertices may be made, or that no more subjects may be
/// active, is compared like any other. The journal holds all entries that it is fed. A host that keeps them elsewhere
/// has the store [forget](Store::forget) each part.
///
/// The refusals, in the order in which they are looked for:
///
/// - `BadPlace`, exactly if the part doesn't begin at the place of the journal's next entry. The store is handed back
///   as it was.
/// - `BadEntry`, with the first place in the journal whose entry isn't legal. The store is dropped.
/// - `NoRoom`, with the place of the entry for which there is no room. The store is handed back with all entries before
///   that place, and goes on if it is fed from there. The reason is `HeapFull` in two cases only. Either the heap is
///   still full for the deed after a full collection, or there is no room for that collection. Otherwise the reason is
///   `OutOfMemory`.
pub fn resume<P: Payload, M: Maker<P>>(
    alloc: Global,
    store: Store<P>,
    maker: &mut M,
    part: Part,
) -> Result<Store<P>, ResumeStopped<P>>
    ensures place { (result ≡ Err (ResumeStopped.BadPlace (length store.entries) part.entry.from store)) ↔ (part.entry.from ≢ length store.entries) }
    ensures resumed { IfOk result (Resumes part.entry.entries.now store) }
    ensures stopped { IfErr result (IsStopped part.entry.from part.entry.entries.now store) }
{
    let Part { from, entries } = part;
    let due = store.journal().len();
    if from != due {
        return Err(ResumeStopped::BadPlace { due, from, store });
    }
    let mut store = store;
    match replay_all(alloc, &mut store, maker, entries) {
        Ok(()) => Ok(store),
        Err(halted) => Err(stopped(store, halted)),
    }
}

// What is returned with the store of a part that was halted.
fn stopped<P: Payload>(store: Store<P>, halted: Halted) -> ResumeStopped<P>
    ensures { (es : List EntryOf) (old : StoreState) → IsHalted es old store halted → IsStopped (length old.entries) es old result }
{
    match halted {
        Halted::BadEntry { at } => {
            store.let_go();
            ResumeStopped::BadEntry { at }
        }
        Halted::NoRoom { at, why } => ResumeStopped::NoRoom { at, why, store },
    }
}

/// Replays entries on a store that is lent. The first entry has to be that of the journal's next place. The call goes
/// as far as [`resume`] does, by the same rules. It is for a host that can't move its store, for example one that has
/// it in a box.
///
/// The refusals:
///
/// - `BadEntry`, with the first place in the journal whose entry isn't legal. The host has to drop the store.
/// - `NoRoom`, with the place of the entry for which there is no room. The store has all entries before that place, and
///   goes on if it is fed from there.
pub fn replay_all<P: Payload, M: Maker<P>>(
    alloc: Global,
    store: &mut Store<P>,
    maker: &mut M,
    entries: &[Entry],
) -> Result<(), Halted>
    ensures resumed { OnOk result (Resumes entries.now store.old store.new) }
    ensures halted { IfErr result (IsHalted entries.now store.old store.new) }
{
    for entry in entries {
        let at = store.journal().len();
        match replay(alloc, store, maker, entry) {
            Ok(true) => {}
            Ok(false) => return Err(Halted::BadEntry { at }),
            Err(why) => return Err(Halted::NoRoom { at, why }),
        }
    }
    Ok(())
}
