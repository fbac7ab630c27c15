//! A store's collections by several helpers.
//!
//! [`collect_with`] does what `Store::collect` does, with up to eight helpers on threads. It has a crate of its own
//! above the store and `tg_parallel`. The store is part of the library for C, and that library must not start threads
//! or wait.
#![tactic(auto)]

ghost use Rattle.std.specs.Prelude.{◌≡◌, ◌≢◌, Err, IfOk, OnOk};
ghost use Rattle.tg_store.specs.Collecting.{AreHelpers, IsSwept, KeepsHistory};
ghost use Rattle.tg_store.specs.Room.{LacksRoomToCollect};
ghost use Rattle.tg_store.specs.Store.{HasFewBlocks};
ghost use Rattle.tg_helpers.specs.Helping.{CollectsBy};

use std::alloc::Global;
use std::sync::Wait;
use std::thread::Threads;
use tg_parallel::collect_many;
pub use tg_parallel::{Gate, HelpersFault, NoGate};
use tg_payload::Payload;
use tg_space::Kind;
use tg_store::Store;

/// Collects as `Store::collect` does, with 1 to 8 helpers. One helper is on the calling thread, and each other helper
/// on a thread of its own, as the collectors of Halstead's Multilisp were. All threads that were started have ended
/// before the call returns. The answer is the number of vertices that the heap then has. Each helper may leave one
/// block open, so each space may have as many blocks more than after `Store::collect` as there are helpers. Each helper
/// passes the gate before it claims roots.
///
/// The refusals. After each the store is as it was:
///
/// - `HeapFull`, only if the cells that are reached and moved may not fit into the blocks that a space may have. Each
///   helper may leave one of these blocks open.
/// - `NoThread`, if a thread couldn't be started, which needs more than one helper.
/// - `OutOfMemory`, if memory runs out.
pub fn collect_with<P: Payload, R: Threads + Wait + Sync, G: Gate>(
    rt: &R,
    alloc: Global,
    store: &mut Store<P>,
    kind: Kind,
    helpers: u32,
    gate: &G,
) -> Result<u64, HelpersFault>
    requires helpers { AreHelpers helpers }
    ensures { CollectsBy kind helpers store.old store.new result }
{
    Team { rt, gate }.gather(alloc, store, kind, helpers)
}

// What starts helpers, and the gate that they pass.
#[derive(Clone, Copy)]
struct Team<'a, R, G> {
    rt: &'a R,
    gate: &'a G,
}

impl<R: Threads + Wait + Sync, G: Gate> Team<'_, R, G> {
    // What `collect_with` says.
    fn gather<P: Payload>(
        self,
        alloc: Global,
        store: &mut Store<P>,
        kind: Kind,
        helpers: u32,
    ) -> Result<u64, HelpersFault>
        requires { AreHelpers helpers }
        ensures swept { IfOk result (IsSwept kind store.old store.new) }
        ensures blocks { OnOk result (HasFewBlocks kind helpers store.old.heap.table store.new.heap.table) }
        ensures full { result ≡ Err HelpersFault.HeapFull → LacksRoomToCollect kind helpers store.old.heap }
        ensures alone { helpers ≡ 1 → result ≢ Err HelpersFault.NoThread }
        ensures history { KeepsHistory store.old store.new result }
    {
        let Team { rt, gate } = self;
        let spare = store.take_spare();
        let roots = store.roots(kind)?;
        let copied = collect_many(
            rt,
            alloc,
            store.spaces(),
            &roots,
            kind,
            helpers,
            gate,
            spare,
        )?;
        Ok(store.settle(kind, copied)?)
    }
}
