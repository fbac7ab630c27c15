//! Batches that a layer above makes of a store and its file.
ghost use Rattle.std.specs.Prelude.{◌≡◌, ◌≢◌, ◌^◌, ◌≤◌, IfErr, OnErr, OnOk};
ghost use Rattle.tg_keep.specs.Opened.{CausesFault};
ghost use Rattle.tg_keep.specs.declared.fault.FileFault.TheVariants as FileFault;
ghost use Rattle.tg_kept.specs.Keeping.{IsKept, KeepsUpTo, LeavesClosedStore, LeavesFrom, LeavesStore};

use crate::lines::end_line;
use crate::put::{entries_from, put_entries};
use sqlite_disk::Disk;
use std::alloc::Global;
use tg_keep::{FileFault, LineFile};
use tg_payload::Payload;
use tg_store::Store;

/// Puts the entries of a store from a place on into its file, by one write and one sync. The file says the entries
/// before that place, and the store holds those after it. If there are none, nothing is written. After `Ok` the file
/// says exactly the entries of the store, and a crash leaves all of them. So the replies may be handed out.
///
/// A fault says that a call of the disk failed, or that there was no memory for the lines. A crash leaves all entries
/// before the place, and a front of those after it. Then the file may not be used any more, and no reply to these
/// entries may be handed out.
pub fn keep_entries<D: Disk, P: Payload>(
    alloc: Global,
    store: &Store<P>,
    file: &mut LineFile<D>,
    place: u64,
) -> Result<(), FileFault>
    requires { KeepsUpTo D.Disk place store.now file.old }
    ensures kept { OnOk result (IsKept D.Disk store.now file.new) }
    ensures left { OnOk result (LeavesStore D.Disk store.now file.new.disk) }
    ensures calm { D.is_clean file.new.disk ≡ D.is_clean file.old.disk }
    ensures lost { OnErr result (LeavesFrom D.Disk place store.now file.old.disk file.new.disk) }
    ensures cause { file.old.length ≤ 2 ^ 62 → CausesFault result (D.faults file.old.disk) (D.faults file.new.disk) }
{
    put_entries(alloc, file, entries_from(store, place))
}

/// Ends a run over a store and its file, which says exactly the entries of the store. The file gets the mark of a
/// closed run, as by [`Kept::close`](crate::Kept::close). After `Ok` and after a fault the file may not be used any
/// more.
pub fn close_entries<D: Disk, P: Payload>(
    alloc: Global,
    store: &Store<P>,
    file: &mut LineFile<D>,
) -> Result<(), FileFault>
    requires { IsKept D.Disk store.now file.old }
    ensures closed { OnOk result (LeavesClosedStore D.Disk store.now file.new.disk) }
    ensures left { LeavesStore D.Disk store.now file.new.disk }
    ensures calm { D.is_clean file.new.disk ≡ D.is_clean file.old.disk }
    ensures unmarked { IfErr result (λ why. why ≢ FileFault.BadMark) }
{
    let line = end_line(alloc, store.journal().len())?;
    // without the line feed
    file.close(alloc, &line[..line.len().saturating_sub(1)])
}
