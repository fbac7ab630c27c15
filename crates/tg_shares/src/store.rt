//! A store with shares in its lock, from sharing it to having it back.
ghost use Rattle.std.specs.Prelude.{◌≡◌, ◌≢◌, ◌≤◌, ◌+◌, true, Err, IfErr, IfOk, OnErr, length};
ghost use Rattle.tg_model.specs.Graph.{ProtectionGraph};
ghost use Rattle.tg_store.specs.Store.{StandsFor};
ghost use Rattle.tg_shared.specs.Sessions.{AreFresh, AtSeen, HasEnded, HoldsWhenFree, IsNobodyAtSeen, KeeperLooked, MayShare};
ghost use Rattle.tg_shares.specs.Shares.{MayShareOut};

use crate::metered::{Metered, OpenedStore};
use crate::purse::{Portion, Purse, PurseBlanks};
use std::alloc::Global;
use std::sync::ledger::Ledger;
use std::sync::{Mutex, Wait};
use tg_journal::Journal;
use tg_payload::Payload;
use tg_shared::{Blanks, Keeper, Locked, Round, Session};
use tg_store::{ApplyFault, Store};

/// A store in a lock, whose vertices are shared out. Clients reach it by the calls of [`Client`](crate::Client), each
/// of which is paid for. Its keeper takes the journal and ends workers, which nobody pays for. Nobody else has the
/// lock.
pub struct MeteredStore<L: Round, V: Ledger, E: Ledger, P: Payload> {
    pub(crate) metered: Mutex<Metered<L, V, E, P>>,
}

// It is written out, so that a crate that drops one doesn't prove again how each part is dropped.
impl<L: Round, V: Ledger, E: Ledger, P: Payload> Drop for MeteredStore<L, V, E, P> {
    fn drop(self) {
        let Self { metered: _metered } = self;
    }
}

/// A store with shares, a session for each active subject by rising name, the purse that has all shares, and the one
/// keeper.
#[derive(Drop)]
pub struct SharedOut<L: Round, V: Ledger, E: Ledger, P: Payload> {
    pub store: MeteredStore<L, V, E, P>,
    pub sessions: Vec<Session<L>>,
    pub purse: Purse<V, E>,
    pub keeper: Keeper<L>,
}

impl<L: Round, V: Ledger, E: Ledger, P: Payload> MeteredStore<L, V, E, P> {
    /// Shares a store as [`SharedStore::new`](tg_shared::SharedStore::new) does, and hands out a purse with so many
    /// vertices and entries. Each vertex that a client makes, and each entry of a client's call, is paid out of this
    /// purse or a part of it.
    ///
    /// The first blanks are the blanks of the round. The other blanks have as many parts as the purse has vertices and
    /// entries ([`PurseBlanks::new`]), and so many vertices may still be made. All are spent. Fails only when out of
    /// memory, and hands the store back.
    pub fn new(
        alloc: Global,
        blanks: Blanks,
        parts: PurseBlanks,
        whole: Portion,
        store: Store<P>,
    ) -> Result<SharedOut<L, V, E, P>, Store<P>>
        requires shareable { MayShare L.name L.parts L.keeper L.start blanks store }
        requires shares { MayShareOut V.name V.parts E.name E.parts parts whole store }
        ensures sessions { (g : ProtectionGraph) → StandsFor store g → IfOk result (λ opened. AreFresh g.subjects opened.sessions.items) }
        ensures purse { IfOk result (λ opened. opened.purse ≡ whole) }
        ensures handed_back { IfErr result (λ refused. refused ≡ store) }
    {
        match Metered::open(alloc, blanks, parts, whole, store) {
            Ok(
                OpenedStore {
                    metered,
                    sessions,
                    keeper,
                    purse,
                },
            ) => Ok(SharedOut {
                store: MeteredStore {
                    metered: Mutex::new(metered),
                },
                sessions,
                purse,
                keeper,
            }),
            Err(store) => Err(store),
        }
    }

    /// Hands out the entries that the locked store holds, as [`Keeper::take_journal`] does of a store without shares.
    /// The part begins where the part before it ended, and ends with the last entry that the keeper has then seen. The
    /// store has to be shared so that its journal is handed out in parts. Nobody pays for it. Takes no memory.
    pub fn take_journal<R: Wait>(&self, rt: &R, keeper: &mut Keeper<L>) -> Journal
        requires in_parts { L.start.in_parts ≡ true }
        ensures joined { result.start ≡ keeper.old.next }
        ensures next { keeper.new.next ≡ length result.entries }
        ensures looked { KeeperLooked keeper.old keeper.new }
        ensures held { AtSeen L.start keeper.new.seen (λ s. (result.entries ≡ s.entries) × (result.start ≡ s.handed)) }
    {
        let mut metered = self.metered.lock(rt);
        // It shows what holds of the store, all of whose entries the keeper has then seen.
        metered.tell(keeper);
        metered.take_journal(keeper)
    }

    /// Ends a worker by its name, wherever its session is, as [`Keeper::end`] does in a store without shares. The
    /// worker gives up each edge that it has, by rising name, and retires. Returns how many edges it gave up. No purse
    /// pays for these entries. The store has to be shared so that its keeper may end workers.
    ///
    /// The keeper has made exactly the entries by which the named worker leaves, so no other worker stops being a
    /// subject. A refused end ends nobody. The refusals are `NoSuchWorker` and `OutOfMemory`.
    pub fn end<R: Wait>(
        &self,
        rt: &R,
        keeper: &mut Keeper<L>,
        worker: u64,
    ) -> Result<u64, ApplyFault>
        requires may_end { L.start.may_end ≡ true }
        ensures ended { IfOk result (HasEnded L.start worker keeper.old keeper.new) }
        ensures entered { IfOk result (λ count. length keeper.new.made ≡ length keeper.old.made + (count + 1)) }
        ensures refused { OnErr result (KeeperLooked keeper.old keeper.new × (keeper.new.next ≡ keeper.old.next)) }
        ensures no_such_worker { IfErr result (λ why. why ≡ ApplyFault.NoSuchWorker → IsNobodyAtSeen L.start keeper.new.seen worker) }
        ensures never_full { result ≢ Err ApplyFault.HeapFull }
    {
        let mut metered = self.metered.lock(rt);
        // It shows what holds of the store.
        let _ = metered.store();
        let ended = metered.end(keeper, worker);
        // It shows what holds of the store that is left.
        let _ = metered.store();
        ended
    }

    /// Returns the locked value without the shares. It has the store with all entries that were made while it was
    /// shared. [`Locked::close`](tg_shared::Locked::close) ends the round with the clients' sessions, and
    /// [`Locked::reclaim`](tg_shared::Locked::reclaim) ends it if some are lost. All clients together have made at most
    /// as many entries as the first purse had (`within`). Takes no memory, and waits for no lock.
    pub fn into_locked(self) -> Locked<L, P>
        ensures held { HoldsWhenFree L.start result }
        ensures within { length result.store.entries ≤ length L.start.entries + result.entered + E.parts }
    {
        let MeteredStore { metered } = self;
        metered.into_inner().into_locked()
    }
}
