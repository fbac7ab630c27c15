//! The functions that C calls on a snapshot. Some make an auditor or a store of a snapshot, or a snapshot of an
//! auditor.
ghost use Rattle.std.specs.Prelude.{◌≡◌, false, true};
ghost use Rattle.tg_c.specs.Again.{ReopensStore};
ghost use Rattle.tg_c.specs.Saved.{ReadsSnapshot, ReopensAuditor, SnapshotsAuditor, WritesSnapshot};
ghost use Rattle.tg_c.specs.Statuses.{status_of};
ghost use Rattle.tg_c.specs.Texts.{TellsText, text_out};

use std::alloc::Global;
use tg_c::auditor::place::AuditorPlace;
use tg_c::forms::LimitsIn;
use tg_c::held::Holder;
use tg_c::place::StorePlace;
use tg_c::refusal::CallRefusal;
use tg_c::saved::calls;
use tg_c::saved::place::SnapshotPlace;
use tg_c::tell::DONE;
use tg_c::text::tell_text;

/// Reads a snapshot from its text, and opens the place with it. `AlreadyOpen` is returned exactly if the place is open.
/// `BadValues` is returned if the bytes aren't the text of a snapshot. Then the first line at fault goes to `line`,
/// counted from 1. Each other refusal is a lack of memory, and leaves `line`. A refused place is as it was.
#[unsafe(no_mangle)]
pub extern "C" fn tg_snapshot_read(
    alloc: Global,
    snapshot: &mut SnapshotPlace,
    text: &[u8],
    line: &mut u64,
) -> u32
    ensures { ReadsSnapshot snapshot.old snapshot.new text.now line.old line.new result }
{
    if snapshot.is_open {
        return CallRefusal::AlreadyOpen.status();
    }
    match calls::read(alloc, text, line) {
        Ok(kept) => {
            snapshot.put(kept);
            DONE
        }
        Err(refusal) => refusal.status(),
    }
}

/// Writes the text of the snapshot. The first bytes go to `text`, as many as there is room for. The number of all bytes
/// goes to `length`. If the place is open, only lack of memory is refused. A refusal writes nothing.
#[unsafe(no_mangle)]
pub extern "C" fn tg_snapshot_text(
    alloc: Global,
    snapshot: &mut SnapshotPlace,
    text: &mut [u8],
    length: &mut u64,
) -> u32
    ensures { WritesSnapshot snapshot.old snapshot.new
        (TellsText result (text_out length.old text.old) (text_out length.new text.new)) }
{
    match calls::text(alloc, snapshot) {
        Ok(bytes) => tell_text(bytes.as_slice(), text, length),
        Err(refusal) => refusal.status(),
    }
}

/// Gives back all memory of the snapshot. The place is closed then, whether it was open or not.
#[unsafe(no_mangle)]
pub extern "C" fn tg_snapshot_close(alloc: Global, snapshot: &mut SnapshotPlace) -> u32
    ensures closed { snapshot.new.is_open ≡ false }
    ensures done { snapshot.old.is_open ≡ true → result ≡ 0 }
    ensures not_open { snapshot.old.is_open ≡ false → result ≡ status_of CallRefusal.NotOpen }
{
    match snapshot.take(alloc) {
        Some(_kept) => DONE,
        None => CallRefusal::NotOpen.status(),
    }
}

/// Takes a snapshot of the graph that the auditor has come to, and opens the place with it. `AlreadyOpen` is returned
/// exactly if the snapshot's place is open. Otherwise `NotOpen` is returned exactly if the auditor's place is closed.
/// An auditor that found a bad entry is refused with `BadEntry`. A refused place is as it was, and the auditor always
/// is.
#[unsafe(no_mangle)]
pub extern "C" fn tg_auditor_snapshot(
    alloc: Global,
    auditor: &mut AuditorPlace,
    snapshot: &mut SnapshotPlace,
) -> u32
    ensures { SnapshotsAuditor auditor.old auditor.new snapshot.old snapshot.new result }
{
    if snapshot.is_open {
        return CallRefusal::AlreadyOpen.status();
    }
    match calls::show(alloc, auditor) {
        Ok(kept) => {
            snapshot.put(kept);
            DONE
        }
        Err(refusal) => refusal.status(),
    }
}

/// Opens an auditor that goes on from the snapshot, at its place. `AlreadyOpen` is returned exactly if the auditor's
/// place is open. Otherwise `NotOpen` is returned exactly if the snapshot's place is closed. Each other refusal is a
/// lack of memory. A refused place is as it was, and the snapshot always is.
#[unsafe(no_mangle)]
pub extern "C" fn tg_auditor_reopen(
    alloc: Global,
    auditor: &mut AuditorPlace,
    snapshot: &mut SnapshotPlace,
) -> u32
    ensures { ReopensAuditor auditor.old auditor.new snapshot.old snapshot.new result }
{
    if auditor.is_open {
        return CallRefusal::AlreadyOpen.status();
    }
    match calls::reopen(alloc, snapshot) {
        Ok(audit) => {
            auditor.put(audit);
            DONE
        }
        Err(refusal) => refusal.status(),
    }
}

/// Opens a store that goes on from the snapshot. Its names and its places in the journal go on, and it holds no entry
/// from before. `AlreadyOpen` is returned exactly if the store's place is open. Otherwise `NotOpen` is returned exactly
/// if the snapshot's place is closed. Then come the faults of `limits` and of the snapshot, in the order of
/// `again::reopen`. If there is none, only memory or blocks can be lacking. A refused place is as it was, and the
/// snapshot always is.
#[unsafe(no_mangle)]
pub extern "C" fn tg_reopen(
    alloc: Global,
    store: &mut StorePlace,
    snapshot: &mut SnapshotPlace,
    limits: &LimitsIn,
) -> u32
    ensures { ReopensStore store.old store.new snapshot.old snapshot.new limits.now result }
{
    if store.is_open {
        return CallRefusal::AlreadyOpen.status();
    }
    match calls::reopen_store(alloc, snapshot, limits) {
        Ok(reopened) => {
            store.put(reopened);
            DONE
        }
        Err(refusal) => refusal.status(),
    }
}
