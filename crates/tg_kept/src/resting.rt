//! Calls of a kept store that make no entry.
ghost use Rattle.std.specs.Prelude.{◌≡◌, ◌≤◌, Err, IfOk, OnOk, length};
ghost use Rattle.tg_store.specs.Collecting.{IsSwept, KeepsHistory};
ghost use Rattle.tg_store.specs.Room.{LacksRoomToCollect};
ghost use Rattle.tg_store.specs.Store.{HasFewBlocks, HoldsFrom};
ghost use Rattle.tg_kept.specs.Keeping.{LeavesStore};

use crate::kept::Kept;
use sqlite_disk::Disk;
use tg_payload::Payload;
use tg_space::{Kind, RoomFault};

impl<D: Disk, P: Payload> Kept<D, P> {
    /// Collects the heap with one thread, as [`Store::collect`](tg_store::Store::collect) does. A collection makes no
    /// entry, so nothing is written.
    #[tactic(auto, using(crate::proofs::KeepingLaws::keeps_same, crate::proofs::KeepingLaws::began_same, crate::proofs::KeepingLaws::leaves_store))]
    pub fn collect(&mut self, kind: Kind) -> Result<u64, RoomFault>
        ensures swept { IfOk result (IsSwept kind self.old.store self.new.store) }
        ensures blocks { OnOk result (HasFewBlocks kind 0 self.old.store.heap.table self.new.store.heap.table) }
        ensures full { result ≡ Err RoomFault.HeapFull → LacksRoomToCollect kind 1 self.old.store.heap }
        ensures history { KeepsHistory self.old.store self.new.store result }
        ensures file { self.new.file ≡ self.old.file }
        ensures left { LeavesStore D.Disk self.new.store self.new.file.disk }
    {
        self.store.collect(kind)
    }

    /// Gives up the entries before a place, as [`Store::forget`](tg_store::Store::forget) does. All of them are on the
    /// disk, and stay there.
    #[tactic(auto, using(crate::proofs::KeepingLaws::keeps_same, crate::proofs::KeepingLaws::began_same, crate::proofs::KeepingLaws::leaves_store))]
    pub fn forget(&mut self, upto: u64)
        requires { (self.old.store.handed ≤ upto) × (upto ≤ length self.old.store.entries) }
        ensures held { HoldsFrom upto self.old.store self.new.store }
        ensures file { self.new.file ≡ self.old.file }
        ensures left { LeavesStore D.Disk self.new.store self.new.file.disk }
    {
        self.store.forget(upto);
    }
}
