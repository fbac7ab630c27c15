//! Collections of the shared store by several helpers.
ghost use Rattle.std.specs.Prelude.{◌≡◌, ◌≢◌, Err, IfOk, IfErr};
ghost use Rattle.tg_store.specs.Collecting.{AreHelpers};
ghost use Rattle.tg_store.specs.Room.{LacksRoomToCollect};
ghost use Rattle.tg_shared.specs.Sessions.{AtSeen, LeavesAtSeen, OnlyLooked};
ghost use Rattle.tg_shared.specs.Serving.{Collects};

use crate::locked::Locked;
use crate::round::Round;
use crate::session::Session;
use crate::shared::SharedStore;
use std::alloc::Global;
use std::sync::Wait;
use std::thread::Threads;
use tg_helpers::{Gate, HelpersFault, collect_with};
use tg_payload::Payload;
use tg_store::Kind;

impl<L: Round, P: Payload> Locked<L, P> {
    /// Collects the heap as [`collect`](Locked::collect) does, with as many helpers, from 1 to 8, by one call of
    /// `tg_helpers::collect_with`, each of whom passes the gate. The journal stays as it is, and no session is touched.
    pub fn collect_with<R: Threads + Wait + Sync, G: Gate>(
        &mut self,
        rt: &R,
        alloc: Global,
        kind: Kind,
        helpers: u32,
        gate: &G,
    ) -> Result<u64, HelpersFault>
        requires helpers { AreHelpers helpers }
        ensures collected { Collects kind helpers self.old self.new result }
        ensures full { result ≡ Err HelpersFault.HeapFull →
            LacksRoomToCollect kind helpers self.old.store.heap }
        ensures alone { helpers ≡ 1 → result ≢ Err HelpersFault.NoThread }
    {
        collect_with(rt, alloc, &mut self.store, kind, helpers, gate)
    }
}

impl<L: Round> Session<L> {
    /// Collects the heap of the shared store as [`collect`](Session::collect) does, with 1 to 8 helpers. The first
    /// helper is on the calling thread, and each other helper is on a thread of its own. Each helper passes the gate.
    /// The call is one call of [`Locked::collect_with`](crate::Locked::collect_with) under the lock. All threads that
    /// were started have ended before the lock is released. Returns how many vertices the heap then has.
    ///
    /// `HeapFull` has the reason of a store with exactly the entries that the session has then seen. In such a store
    /// each helper may leave a block open. `NoThread` means that a thread couldn't be started. It is never returned if
    /// there is one helper. The only other refusal is `OutOfMemory`. The call makes no entry and no receipt.
    pub fn collect_with<P: Payload, R: Threads + Wait + Sync, G: Gate>(
        &mut self,
        rt: &R,
        store: &SharedStore<L, P>,
        kind: Kind,
        helpers: u32,
        gate: &G,
    ) -> Result<u64, HelpersFault>
        requires helpers { AreHelpers helpers }
        ensures number { IfOk result (LeavesAtSeen L.start self.new.seen kind) }
        ensures full { IfErr result (λ why. why ≡ HelpersFault.HeapFull → AtSeen L.start self.new.seen (λ s.
            LacksRoomToCollect kind helpers s.heap)) }
        ensures looked { OnlyLooked self.old self.new }
        ensures alone { helpers ≡ 1 → result ≢ Err HelpersFault.NoThread }
    {
        let mut locked = store.lock(rt);
        // It shows what holds of the store, all of whose entries the session has then seen.
        locked.look(self);
        let left = locked.collect_with(rt, self.alloc(), kind, helpers, gate);
        // It shows what holds of the store that is left.
        let _ = locked.store();
        left
    }
}
