//! Who may take a shared store's entries, see all of its graph, end a worker, withdraw rights, and park a user.
ghost use Rattle.std.specs.Prelude.{◌≡◌, ◌≢◌, ◌+◌, ◌++◌, ◌<◌, ◌≤◌, ◌∷◌, ◌^◌, [], true, Err, IfErr, IfOk, OnErr, drop, length, max, min};
ghost use Rattle.tg_could.specs.Reached.{IsReachedPicture};
ghost use Rattle.tg_store.specs.Store.{graph_of_store};
ghost use Rattle.tg_passes.specs.declared.signed.Maker.TheVariants as maker;
ghost use Rattle.tg_passes.specs.Passes.{fresh_pass, sign, sign_all};
ghost use Rattle.tg_shared.specs.Sessions.{AtSeen, HasEnded, IsNobodyAtSeen, KeeperLooked};

use crate::locked::entries_from;
use crate::mirror::Mirror;
use crate::round::{HandedOut, Register, Rolled, Round};
use crate::shared::SharedStore;
use std::alloc::{AllocError, Global};
use std::marker::Model;
use std::sync::Wait;
use std::sync::ledger::Share;
use tg_journal::{Entry, Journal};
use tg_model::Picture;
use tg_passes::{Pass, Roll};
use tg_payload::Payload;
use tg_store::ApplyFault;

/// The owner of a keeper may take the entries of a shared store, see its whole graph, end a worker, withdraw rights
/// from workers, and park and unpark users. A shared store has one keeper. Only [`SharedStore::new`] makes it, with the
/// sessions. So the maker of the shared store decides who has the keeper. A session can neither take the journal away
/// nor end another session's worker. A keeper takes no memory. [`close`](crate::close) works without it, because the
/// locked value counts the keeper's entries.
///
/// A keeper knows where its last part of the journal ended, and which entries it made. Only its own calls change this
/// knowledge. Each of its calls of the store looks at all entries since the store was shared. So the keeper knows of
/// which entries the answer speaks. Contracts see a `KeeperState`.
#[derive(Drop)]
pub struct Keeper<L: Round> {
    pub(crate) next: Mirror<HandedOut<L>>,
    // How many entries it made.
    entered: u64,
    pub(crate) pass: Pass<Rolled<L>>,
}

impl<L: Round> Model for Keeper<L> {
    ghost use Rattle.std.specs.Prelude.{◌≡◌, length};
    ghost use Rattle.tg_passes.specs.declared.signed.Maker.TheVariants as maker;
    ghost use Rattle.tg_shared.specs.Sessions.{KeeperState};

    ghost Value = { KeeperState };

    ghost view = { λ k. record { next = k.next; made = k.pass.made; seen = k.pass.seen } };

    ghost invariant = { λ k. (k.entered ≡ length k.pass.made) × (k.pass.maker ≡ maker.Keeper) };
}

impl<L: Round> Keeper<L> {
    /// The keeper of a store that is being shared.
    pub(crate) fn new(next: Mirror<HandedOut<L>>, pass: Pass<Rolled<L>>) -> Keeper<L>
        requires { pass ≡ fresh_pass maker.Keeper [] }
        ensures { result ≡ record { next = next; made = []; seen = [] } }
    {
        Keeper {
            next,
            entered: 0,
            pass,
        }
    }

    /// The place at which the keeper's last part of the journal ended. The next part begins there.
    pub fn next(&self) -> u64
        ensures { result ≡ self.now.next }
    {
        self.next.number()
    }

    /// How many entries it made for workers, in ends, withdrawals, parkings and unparkings. No session has a receipt of
    /// them.
    pub fn entered(&self) -> u64
        ensures { result ≡ length self.now.made }
    {
        self.entered
    }

    // Notes entries that it made, after all others. It has seen all others.
    pub(crate) fn note_all(&mut self, roll: &mut Roll<Rolled<L>>, entries: &[Entry])
        requires fits { length self.old.made + length entries.now < 2 ^ 64 }
        requires seen { self.old.seen ≡ roll.old.signed }
        ensures roll { roll.new ≡ record { signed = roll.old.signed ++ sign_all maker.Keeper entries.now; below = roll.old.below } }
        ensures keeper { self.new ≡ record { next = self.old.next; made = self.old.made ++ entries.now; seen = roll.new.signed } }
    {
        for entry in entries {
            self.note(roll, entry);
        }
    }

    // Notes an entry that it made, after all others.
    fn note(&mut self, roll: &mut Roll<Rolled<L>>, entry: &Entry)
        requires { length self.old.made + 1 < 2 ^ 64 }
        ensures roll { roll.new ≡ record { signed = roll.old.signed ++ sign maker.Keeper entry.now ∷ []; below = roll.old.below } }
        ensures keeper { self.new ≡ record { next = self.old.next; made = self.old.made ++ entry.now ∷ []; seen = roll.new.signed } }
    {
        roll.note(&mut self.pass, entry);
        self.entered += 1;
    }

    // Notes the entries of a journal from a place on, which it made, after all others. It has seen all others. The book
    // counts them, and they are added to the rest of the ledger. Returns how many they are.
    pub(crate) fn note_from(
        &mut self,
        register: &mut Register<L>,
        rest: &mut Share<L>,
        journal: &Journal,
        at: u64,
    ) -> u64
        requires place { (journal.now.start ≤ at) × (at ≤ length journal.now.entries) }
        requires counted { register.old.book.total ≤ at }
        requires seen { self.old.seen ≡ register.old.roll.signed }
        requires amount { rest.old.amount ≡ length self.old.made }
        requires part { 0 < rest.old.parts }
        ensures number { result ≡ length (drop at journal.now.entries) }
        ensures book { register.new.book.total ≡ register.old.book.total + result }
        ensures roll { register.new.roll ≡ record { signed = register.old.roll.signed ++ sign_all maker.Keeper (drop at journal.now.entries); below = register.old.roll.below } }
        ensures amount { rest.new.amount ≡ rest.old.amount + result }
        ensures fits { rest.new.amount < 2 ^ 64 }
        ensures parts { rest.new.parts ≡ rest.old.parts }
        ensures keeper { self.new ≡ record { next = self.old.next; made = self.old.made ++ drop at journal.now.entries; seen = register.new.roll.signed } }
    {
        let count = journal.len() - at;
        register.book.add(rest, count);
        // It shows that so many entries were made, so their number is one.
        register.book.audit(rest);
        self.note_all(&mut register.roll, entries_from(journal, at));
        count
    }

    /// Hands out the entries that the locked store holds, by one call of
    /// [`Locked::take_journal`](crate::Locked::take_journal) under the lock. It works at any moment, whatever the
    /// sessions do. The part begins where the part before it ended (`joined`). So each entry is in exactly one part,
    /// and all parts, in the order in which they were taken, are the journal. It ends with the last entry that the
    /// keeper has then seen (`held`). The store has to be shared so that it is handed out in parts. Takes no memory.
    pub fn take_journal<P: Payload, R: Wait>(
        &mut self,
        rt: &R,
        store: &SharedStore<L, P>,
    ) -> Journal
        requires in_parts { L.start.in_parts ≡ true }
        ensures joined { result.start ≡ self.old.next }
        ensures next { self.new.next ≡ length result.entries }
        ensures looked { KeeperLooked self.old self.new }
        ensures held { AtSeen L.start self.new.seen (λ s. (result.entries ≡ s.entries) × (result.start ≡ s.handed)) }
    {
        let mut locked = store.lock(rt);
        // It shows what holds of the store, all of whose entries the keeper has then seen.
        locked.tell(self);
        locked.take_journal(self)
    }

    /// Gives up the entries before a place that the locked store still holds, by one call of
    /// [`Locked::forget`](crate::Locked::forget) under the lock. The journal keeps their room. So a service that has
    /// written these entries out, from the receipts of all sessions, takes no more memory for later entries. All
    /// entries are given up if the place is after the last entry, and none if the last part ended after the place. The
    /// next part begins after what was given up, and the keeper has then seen all entries. As after
    /// [`take_journal`](Keeper::take_journal), a session that still has a receipt of such an entry can't be closed. The
    /// store has to be shared so that it is handed out in parts. Takes no memory.
    pub fn forget<P: Payload, R: Wait>(&mut self, rt: &R, store: &SharedStore<L, P>, upto: u64)
        requires in_parts { L.start.in_parts ≡ true }
        ensures next { self.new.next ≡ max self.old.next (min upto (length L.start.entries + length self.new.seen)) }
        ensures looked { KeeperLooked self.old self.new }
        ensures held { AtSeen L.start self.new.seen (λ s. s.handed ≡ self.new.next) }
    {
        let mut locked = store.lock(rt);
        // It shows what holds of the store, all of whose entries the keeper has then seen.
        locked.tell(self);
        locked.forget(self, upto);
        // It shows what holds of the store that is left.
        let _ = locked.store();
    }

    /// Ends a worker whose session is elsewhere, also if the session is lost, by one call of
    /// [`Locked::end`](crate::Locked::end) under the lock. The worker gives up each edge that it has, by rising name,
    /// and retires. Returns how many edges it gave up. The entries by which this worker leaves came next after all
    /// entries that the keeper had seen then, and were legal there (`ended`). They are exactly the entries that the
    /// keeper made more. So the named worker stopped being a subject, and no other did.
    /// [`close_with`](crate::close_with) compares what the keeper made with the journal. From then on each call of the
    /// worker's session reports that there is no such worker. Its receipts stay right. It is closed with as before, or
    /// the store is recovered without it ([`reclaim`](crate::reclaim)). The store has to be shared so that its keeper
    /// may end workers.
    ///
    /// If the call is refused, the keeper has made no entry, so nobody is ended (`refused`). Memory ran out, or there
    /// was no such worker after exactly the entries that the keeper has then seen. An end is done as a whole, or is
    /// refused before its first entry.
    pub fn end<P: Payload, R: Wait>(
        &mut self,
        rt: &R,
        store: &SharedStore<L, P>,
        worker: u64,
    ) -> Result<u64, ApplyFault>
        requires may_end { L.start.may_end ≡ true }
        ensures ended { IfOk result (HasEnded L.start worker self.old self.new) }
        ensures entered { IfOk result (λ count. length self.new.made ≡ length self.old.made + (count + 1)) }
        ensures refused { OnErr result (KeeperLooked self.old self.new × (self.new.next ≡ self.old.next)) }
        ensures no_such_worker { IfErr result (λ why. why ≡ ApplyFault.NoSuchWorker → IsNobodyAtSeen L.start self.new.seen worker) }
        ensures never_full { result ≢ Err ApplyFault.HeapFull }
    {
        let mut locked = store.lock(rt);
        // It shows what holds of the store.
        let _ = locked.store();
        let ended = locked.end(self, worker);
        // It shows what holds of the store that is left.
        let _ = locked.store();
        ended
    }

    /// The picture of the vertices that the active subjects reach, by one call of
    /// [`Locked::picture`](crate::Locked::picture) under the lock. It is the picture of the graph after exactly the
    /// entries that the keeper has then seen. Sessions wait while all reached rows are read. Questions are asked of the
    /// picture afterwards, without the lock. It makes no entry and no receipt. Fails only when out of memory.
    pub fn picture<P: Payload, R: Wait>(
        &mut self,
        rt: &R,
        alloc: Global,
        store: &SharedStore<L, P>,
    ) -> Result<Picture, AllocError>
        ensures shown { IfOk result (λ picture. AtSeen L.start self.new.seen (λ s. IsReachedPicture picture (graph_of_store s))) }
        ensures looked { KeeperLooked self.old self.new × (self.new.next ≡ self.old.next) }
    {
        let mut locked = store.lock(rt);
        // It shows what holds of the store, all of whose entries the keeper has then seen.
        locked.tell(self);
        locked.picture(alloc)
    }
}
