//! Many batches, one after the other.
ghost use Rattle.std.specs.Prelude.{◌≡◌, false, true, length, IsTrue, IfOk, OnOk};
ghost use Rattle.tg_keep.specs.Files.{HasPut, MayBeWritten, StaysReady};
ghost use Rattle.tg_keep.specs.Runs.{ComesBackFrom, LeavesRun, MayPutRun, all_texts};

use crate::batch::Batch;
use crate::fault::FileFault;
use crate::file::LineFile;
use crate::open::OpenedFile;
use sqlite_disk::{Crash, Disk};
use std::alloc::Global;
use std::io;

impl<D: Disk> LineFile<D> {
    /// Puts batch after batch, as [`LineFile::put`] does, and counts in `answered` how many are on the disk. A crash
    /// at any moment leaves all lines of these, and a front of the others.
    pub fn put_all(&mut self, batches: &[Batch], answered: &mut usize) -> io::Result<()>
        requires { MayPutRun D.Disk self.old batches.now }
        ensures put { OnOk result (HasPut D.Disk (all_texts batches.now) self.old self.new) }
        ensures all { OnOk result (answered.new ≡ length batches.now) }
        ensures left { LeavesRun D.Disk batches.now answered.new self.old.disk self.new.disk }
    {
        *answered = 0;
        for batch in batches {
            self.put(batch)?;
            *answered += 1;
        }
        Ok(())
    }
}

impl<D: Crash> LineFile<D> {
    /// The whole ladder. Batches are put, the machine crashes, and the file is opened again. Then it says all batches
    /// that were answered, and after them a front of the others. The opening doesn't report that the file was closed.
    pub fn put_until_crash(
        &mut self,
        alloc: Global,
        batches: &[Batch],
        answered: &mut usize,
    ) -> Result<OpenedFile, FileFault>
        requires { MayPutRun D.Disk self.old batches.now }
        ensures back { OnOk result (ComesBackFrom D.Disk batches.now answered.new self.old self.new) }
        ensures ended { IfOk result (λ opened. IsTrue (D.Disk.is_clean self.new.disk) → opened.was_closed ≡ false) }
    {
        let _ = self.put_all(batches, answered);
        self.crash_and_open(alloc)
    }

    /// The file is closed, the machine crashes, and the file is opened again. Then it says what it said, and the
    /// opening reports that the file was closed. An error says that it wasn't closed, or couldn't be opened.
    pub fn close_until_crash(&mut self, alloc: Global, mark: &[u8]) -> Result<OpenedFile, FileFault>
        requires { MayBeWritten D.Disk self.old }
        ensures back { OnOk result (StaysReady D.Disk self.old self.new) }
        ensures ended { IfOk result (λ opened. IsTrue (D.Disk.is_clean self.new.disk) → opened.was_closed ≡ true) }
    {
        self.close(alloc, mark)?;
        self.crash_and_open(alloc)
    }
}
