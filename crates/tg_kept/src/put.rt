//! How the lines of a history come into a file.
ghost use Rattle.std.specs.Prelude.{◌≡◌, ◌≢◌, ◌^◌, ◌≤◌, [], IfErr, IsTrue, OnOk, drop, length, map};
ghost use Rattle.tg_keep.specs.Files.{HasPut, LeavesPart, MayBeWritten, MayUseDisk};
ghost use Rattle.tg_keep.specs.Opened.{CausesFault};
ghost use Rattle.tg_store.specs.Store.{IsFaithful};
ghost use Rattle.tg_kept.specs.Keeping.{HasBegunHistory};
ghost use Rattle.tg_kept.specs.Texts.{entry_line};

use crate::lines::{entry_lines, opening_lines};
use sqlite_disk::Disk;
use std::alloc::Global;
use tg_journal::Entry;
use tg_keep::{FileFault, LineFile};
use tg_model::Opening;
use tg_payload::Payload;
use tg_store::Store;

/// Begins a file, and puts the lines of an opening into it.
pub(crate) fn begin_history<D: Disk>(
    alloc: Global,
    file: &mut LineFile<D>,
    opening: &Opening,
) -> Result<(), FileFault>
    requires { MayUseDisk D.Disk file.old.disk }
    ensures begun { OnOk result (HasBegunHistory D.Disk opening.now file.old file.new) }
    ensures not_empty { IfErr result (λ fault. fault ≡ FileFault.NotEmpty → IsTrue (D.is_clean file.new.disk) → D.seen file.old.disk ≢ []) }
{
    file.begin(alloc)?;
    let lines = opening_lines(alloc, file.sum, opening)?;
    file.put(&lines)?;
    Ok(())
}

/// Puts the lines of entries into the file, by one write and one sync. If there are no entries, nothing is written.
pub(crate) fn put_entries<D: Disk>(
    alloc: Global,
    file: &mut LineFile<D>,
    entries: &[Entry],
) -> Result<(), FileFault>
    requires { MayBeWritten D.Disk file.old }
    ensures put { OnOk result (HasPut D.Disk (map entry_line entries.now) file.old file.new) }
    ensures left { LeavesPart D.Disk (map entry_line entries.now) file.old.disk file.new.disk }
    ensures cause { file.old.length ≤ 2 ^ 62 → CausesFault result (D.faults file.old.disk) (D.faults file.new.disk) }
{
    if entries.is_empty() {
        return Ok(());
    }
    let lines = entry_lines(alloc, file.sum, entries)?;
    file.put(&lines)?;
    Ok(())
}

/// The entries of a store from a place on.
pub(crate) fn entries_from<P: Payload>(store: &Store<P>, place: u64) -> &[Entry]
    requires { (store.now.handed ≤ place) × (place ≤ length store.now.entries) }
    ensures entries { result.now ≡ drop place store.now.entries }
    ensures faithful { IsFaithful store.now }
{
    let journal = store.journal();
    &journal.entries()[(place - journal.start()) as usize..]
}
