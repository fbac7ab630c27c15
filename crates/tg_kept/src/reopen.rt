//! Opening a kept file again.
ghost use Rattle.std.specs.Prelude.{◌≡◌, IfOk, IfErr, IsTrue, OnOk};
ghost use Rattle.tg_keep.specs.Closed.{is_closed};
ghost use Rattle.tg_keep.specs.Files.{LeavesOldOrSame, MayUseDisk};
ghost use Rattle.tg_keep.specs.Opened.{HasOpened};
ghost use Rattle.tg_kept.specs.Keeping.{LeavesStore};
ghost use Rattle.tg_kept.specs.Reopening.{OpensAs, RefusesOpening};

use crate::fault::KeptOpenFault;
use crate::kept::Kept;
use crate::read::read_lines;
use sqlite_disk::Disk;
use std::alloc::Global;
use tg_keep::LineFile;
use tg_payload::Payload;
use tg_revive::{Maker, store_after};
use tg_store::{Limits, Store};

/// A store that goes on from its file, and how the last run ended.
#[derive(Drop)]
pub struct Reopened<D: Disk, P: Payload> {
    pub kept: Kept<D, P>,
    /// Whether the last run ended by [`LineFile::close`](tg_keep::LineFile::close). If it didn't, it ended by a crash.
    pub was_closed: bool,
}

/// No store goes on from a file. The disk is as the failed call left it.
#[derive(Drop)]
pub struct NotOpened<D: Disk> {
    pub disk: D,
    pub why: KeptOpenFault,
}

// The store of a file that was opened.
#[derive(Drop)]
struct MadeAgain<P: Payload> {
    store: Store<P>,
    was_closed: bool,
}

// Opens the file, reads its history, and makes the store of it.
fn open_store<D: Disk, P: Payload, M: Maker<P>>(
    alloc: Global,
    file: &mut LineFile<D>,
    limits: Limits,
    maker: &mut M,
) -> Result<MadeAgain<P>, KeptOpenFault>
    requires { MayUseDisk D.Disk file.old.disk }
    ensures opened { OnOk result (HasOpened D.Disk file.old file.new) }
    ensures store { IfOk result (λ found. OpensAs (D.is_clean file.new.disk) (D.seen file.old.disk) limits found.store) }
    ensures ended { IfOk result (λ found. IsTrue (D.is_clean file.new.disk) → found.was_closed ≡ is_closed (D.seen file.old.disk)) }
    ensures refused { IfErr result (λ why. IsTrue (D.is_clean file.new.disk) → RefusesOpening (D.seen file.old.disk) limits why) }
    ensures crash { IsTrue (D.is_clean file.new.disk) → LeavesOldOrSame D.seen D.may_leave file.old.disk file.new.disk }
    ensures clean { IsTrue (D.is_clean file.new.disk) → IsTrue (D.is_clean file.old.disk) }
{
    let opened = file.open(alloc)?;
    let history = read_lines(alloc, &opened.bytes)?;
    let store = store_after(alloc, history, limits, maker)?;
    Ok(MadeAgain {
        store,
        was_closed: opened.was_closed,
    })
}

impl<D: Disk, P: Payload> Kept<D, P> {
    /// Opens a file that a [`Kept`] has written, and that a crash may have left. The bytes after the last whole line
    /// were never answered, so they are cut off. The lines are read as a history, whose replies are compared with the
    /// replies of the rules. Then the deed of each entry is done again. `Ok` has a store with exactly the opening and
    /// the entries that the file says, and a crash leaves all of them. It goes on from there, by [`Kept::serve`] and
    /// the other calls.
    ///
    /// Payloads come from the maker. The heap has the limits that are given. Memory is taken for the whole file, for
    /// its text, and for the store. Nothing is put into the file.
    ///
    /// The refusals, in the order in which they are looked for. The store isn't made, or is dropped. A refusal that is
    /// not of the disk leaves a file with the same history:
    ///
    /// - [`KeptOpenFault::File`], as [`LineFile::open`] refuses a file: a call of the disk failed, memory ran out, the
    ///   file is no kept file, or a line is damaged.
    /// - [`KeptOpenFault::Text`], with the first line that is none of a legal history. Its reply isn't that of the
    ///   rules, for example. A mark has to have the number of the entries before it. Or memory ran out.
    /// - [`KeptOpenFault::Store`], if there is no room in the heap for the store. It has the place of the entry.
    pub fn open<M: Maker<P>>(
        alloc: Global,
        disk: D,
        limits: Limits,
        maker: &mut M,
    ) -> Result<Reopened<D, P>, NotOpened<D>>
        requires disk { MayUseDisk D.Disk disk }
        ensures store { IfOk result (λ back. OpensAs (D.is_clean back.kept.file.disk) (D.seen disk) limits back.kept.store) }
        ensures left { IfOk result (λ back. LeavesStore D.Disk back.kept.store back.kept.file.disk) }
        ensures ended { IfOk result (λ back. IsTrue (D.is_clean back.kept.file.disk) → back.was_closed ≡ is_closed (D.seen disk)) }
        ensures clean { IfOk result (λ back. IsTrue (D.is_clean back.kept.file.disk) → IsTrue (D.is_clean disk)) }
        ensures refused { IfErr result (λ refused. IsTrue (D.is_clean refused.disk) → RefusesOpening (D.seen disk) limits refused.why) }
        ensures crash { IfErr result (λ refused. IsTrue (D.is_clean refused.disk) → LeavesOldOrSame D.seen D.may_leave disk refused.disk) }
    {
        let mut file = LineFile::new(disk);
        match open_store(alloc, &mut file, limits, maker) {
            Ok(found) => {
                let MadeAgain { store, was_closed } = found;
                let kept = Kept { store, file };
                Ok(Reopened { kept, was_closed })
            }
            Err(why) => Err(NotOpened {
                disk: file.disk,
                why,
            }),
        }
    }
}
