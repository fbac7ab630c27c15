//! A store and the file that keeps it.
ghost use Rattle.tg_keep.specs.Files.{MayBeWritten};
ghost use Rattle.tg_kept.specs.Keeping.{BeganByOpening, KeepsStore};

use crate::lost::Lost;
use crate::parts::{close_entries, keep_entries};
use crate::put::begin_history;
use sqlite_disk::Disk;
use std::alloc::Global;
use tg_keep::LineFile;
use tg_model::Command;
use tg_payload::Payload;
use tg_store::{BatchFault, Store};

/// A store and the file that keeps its history. The file says exactly the entries of the store, and a crash leaves all
/// of them. So each answer of the store reports only what is on the disk.
#[derive(Drop)]
pub struct Kept<D: Disk, P: Payload> {
    pub(crate) store: Store<P>,
    pub(crate) file: LineFile<D>,
    ghost opened: { BeganByOpening store.opening },
    ghost writable: { MayBeWritten D.Disk file },
    ghost keeps: { KeepsStore D.Disk store file },
}

/// A store, and the file that keeps its history, apart. Whoever has both may let the store make entries that the file
/// doesn't say.
#[derive(Drop)]
pub struct KeptParts<D: Disk, P: Payload> {
    pub store: Store<P>,
    pub file: LineFile<D>,
}

/// A kept store that has served a batch of commands. All entries that the batch made are on the disk.
#[derive(Drop)]
pub struct Served<D: Disk, P: Payload> {
    pub kept: Kept<D, P>,
    /// How many commands were taken, or why one of them was refused, as [`Store::apply_all`] returns it.
    pub ended: Result<u64, BatchFault>,
}

impl<D: Disk, P: Payload> Kept<D, P> {
    ghost use Rattle.std.specs.Prelude.{◌≡◌, ◌≢◌, ◌↔◌, ◌^◌, ◌<◌, ◌≤◌, [], Err, IfOk, IfErr, IsOkAnd, IsTrue, length};
    ghost use Rattle.sqlite_disk.specs.Disk.{MoreFaults};
    ghost use Rattle.tg_keep.specs.Files.{MayUseDisk};
    ghost use Rattle.tg_keep.specs.Opened.{is_of_disk};
    ghost use Rattle.tg_keep.specs.declared.fault.FileFault.TheVariants as FileFault;
    ghost use Rattle.tg_store.specs.declared.batch.TheConstants.{MOST_BATCH};
    ghost use Rattle.tg_kept.specs.Keeping.{IsFirst, IsKept, KeepsUpTo, LeavesClosedStore, LeavesFrom, LeavesStore, LosesCommands, ServesCommands};

    /// Begins the file of a store that was just opened, and that has no entry yet. The disk's file is empty. After `Ok`
    /// it says the lines of the opening, and they are on the disk. A crash before that may leave anything, so a program
    /// begins a file under another name, and renames it after `Ok`. `NotEmpty` says that the file isn't empty.
    pub fn begin(alloc: Global, disk: D, store: Store<P>) -> Result<Kept<D, P>, Lost<D>>
        requires disk { MayUseDisk D.Disk disk }
        requires first { IsFirst store }
        ensures store { IfOk result (λ kept. kept.store ≡ store) }
        ensures empty { IfOk result (λ kept. IsTrue (D.is_clean kept.file.disk) → D.seen disk ≡ []) }
        ensures left { IfOk result (λ kept. LeavesStore D.Disk kept.store kept.file.disk) }
        ensures not_empty { IfErr result (λ lost. lost.why ≡ FileFault.NotEmpty → IsTrue (D.is_clean lost.disk) → D.seen disk ≢ []) }
    {
        let mut file = LineFile::new(disk);
        match begin_history(alloc, &mut file, store.opening()) {
            Ok(()) => Ok(Kept { store, file }),
            Err(why) => Err(Lost {
                disk: file.disk,
                why,
            }),
        }
    }

    /// The store. Each of its entries is on the disk, so each of its answers may be handed out.
    pub fn store(&self) -> &Store<P>
        ensures store { result.now ≡ self.now.store }
        ensures left { LeavesStore D.Disk result.now self.now.file.disk }
    {
        &self.store
    }

    /// Takes the commands of a worker in turn, as [`Store::apply_all`] does. Then puts the lines of their entries
    /// into the file, by one write and one sync. `Ok` is returned after the sync, and from then on a crash leaves all
    /// entries. The replies are in the last entries of the journal. If a command was refused, `ended` has the reason,
    /// and the entries of the commands before it are on the disk.
    ///
    /// `Lost` says that the lines couldn't be put into the file, or that there was no memory for the lines. Then the
    /// store is dropped, and no reply is handed out. A crash leaves all entries from before the call, and a front of
    /// the entries that these commands made.
    pub fn serve(
        self,
        alloc: Global,
        worker: u64,
        commands: &[Command],
    ) -> Result<Served<D, P>, Lost<D>>
        ensures served { IfOk result (λ served. ServesCommands worker commands.now self.store served.kept.store served.ended) }
        ensures too_long { IfOk result (λ served. (served.ended ≡ Err BatchFault.TooLong) ↔ (MOST_BATCH < length commands.now)) }
        ensures left { IfOk result (λ served. LeavesStore D.Disk served.kept.store served.kept.file.disk) }
        ensures calm { IfOk result (λ served. D.is_clean served.kept.file.disk ≡ D.is_clean self.file.disk) }
        ensures lost { IfErr result (λ lost. LosesCommands D.Disk worker commands.now self.store self.file.disk lost.disk) }
        ensures cause { IfErr result (λ lost. self.file.length ≤ 2 ^ 62 → IsTrue (is_of_disk lost.why) → MoreFaults (D.faults self.file.disk) (D.faults lost.disk)) }
    {
        let Kept { mut store, file } = self;
        let place = store.journal().len();
        let ended = store.apply_all(worker, commands);
        let kept = Kept::keep_from(alloc, store, file, place)?;
        Ok(Served { kept, ended })
    }

    /// Takes the kept store apart. The file says exactly the entries of the store. A layer above that makes batches of
    /// its own lets the store make entries, and calls [`keep_entries`] before it hands out a reply.
    pub fn into_parts(self) -> KeptParts<D, P>
        ensures store { result.store ≡ self.store }
        ensures file { result.file ≡ self.file }
        ensures kept { IsKept D.Disk result.store result.file }
    {
        let Kept { store, file } = self;
        KeptParts { store, file }
    }

    /// Ends the run. The file gets the mark of a closed run, with the number of its entries. After `Ok` each content
    /// that a crash may leave is that of a closed file, and says exactly the history of the store. The store is
    /// dropped. To go on, open the file again.
    ///
    /// `Lost` says that the mark couldn't be put into the file, or that there was no memory for it. A crash leaves all
    /// entries then, too.
    pub fn close(self, alloc: Global) -> Result<D, Lost<D>>
        ensures closed { IfOk result (λ disk. LeavesClosedStore D.Disk self.store disk) }
        ensures lost { IfErr result (λ lost. LeavesStore D.Disk self.store lost.disk) }
        ensures calm { IfOk result (λ disk. D.is_clean disk ≡ D.is_clean self.file.disk) }
        ensures unmarked { IfErr result (λ lost. lost.why ≢ FileFault.BadMark) }
    {
        let Kept { store, mut file } = self;
        match close_entries(alloc, &store, &mut file) {
            Ok(()) => Ok(file.disk),
            Err(why) => Err(Lost {
                disk: file.disk,
                why,
            }),
        }
    }

    // The file, without its store.
    pub(crate) fn into_file(self) -> LineFile<D>
        ensures { result ≡ self.file }
    {
        self.file
    }

    /// Puts the entries of a store from a place on into its file, which says those before. Then the store is kept.
    pub(crate) fn keep_from(
        alloc: Global,
        store: Store<P>,
        mut file: LineFile<D>,
        place: u64,
    ) -> Result<Kept<D, P>, Lost<D>>
        requires { KeepsUpTo D.Disk place store file }
        ensures store { IfOk result (λ kept. kept.store ≡ store) }
        ensures left { IfOk result (λ kept. LeavesStore D.Disk kept.store kept.file.disk) }
        ensures calm { IfOk result (λ kept. D.is_clean kept.file.disk ≡ D.is_clean file.disk) }
        ensures lost { IfErr result (λ lost. LeavesFrom D.Disk place store file.disk lost.disk) }
        ensures cause { IfErr result (λ lost. file.length ≤ 2 ^ 62 → IsTrue (is_of_disk lost.why) → MoreFaults (D.faults file.disk) (D.faults lost.disk)) }
    {
        match keep_entries(alloc, &store, &mut file, place) {
            Ok(()) => Ok(Kept { store, file }),
            Err(why) => Err(Lost {
                disk: file.disk,
                why,
            }),
        }
    }
}
