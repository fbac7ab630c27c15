//! Opening a file of lines that a crash may have left.
ghost use Rattle.std.specs.Prelude.{◌≡◌, IsTrue, IfOk, IfErr, OnOk};
ghost use Rattle.tg_keep.specs.Closed.{is_closed};
ghost use Rattle.tg_keep.specs.Files.{AlwaysMixes, LeavesOldOrSame, MayUseDisk};
ghost use Rattle.tg_keep.specs.Opened.{CausesFault, ComesBack, HasOpened, RefusesFile, ReportsLeft, is_refusal};

use crate::fault::FileFault;
use crate::file::LineFile;
use crate::mend::{end_lines, read_synced};
use crate::scan::lines_end;
use sqlite_disk::{Crash, Disk};
use std::alloc::Global;

/// The bytes of a file that was opened, of which a [`LineReader`](crate::LineReader) reads the lines, and whether the
/// last run ended by [`LineFile::close`]. If it didn't, it ended by a crash, or is still writing.
#[derive(Drop)]
pub struct OpenedFile {
    pub bytes: Vec<u8>,
    pub was_closed: bool,
}

impl<D: Disk> LineFile<D> {
    /// Opens a file that a crash may have left, and returns its bytes and how the last run ended. What comes after the
    /// last whole line was never answered, so it is cut off. The file says the same then, and so does each content that
    /// a crash inside of the call may leave. `NotKept` says that the file isn't one of ours, and `Damaged` that bytes
    /// which were on the disk aren't there any more. Then the file is as it was.
    pub fn open(&mut self, alloc: Global) -> Result<OpenedFile, FileFault>
        requires { MayUseDisk D.Disk self.old.disk }
        ensures opened { OnOk result (HasOpened D.Disk self.old self.new) }
        ensures bytes { IfOk result (λ opened. IsTrue (D.is_clean self.new.disk) → opened.bytes.items ≡ D.seen self.old.disk) }
        ensures ended { IfOk result (λ opened. IsTrue (D.is_clean self.new.disk) → opened.was_closed ≡ is_closed (D.seen self.old.disk)) }
        ensures refused { IfErr result (λ fault. IsTrue (D.is_clean self.new.disk) → RefusesFile (D.seen self.old.disk) fault) }
        ensures unchanged { IfErr result (λ fault. IsTrue (is_refusal fault) → D.seen self.new.disk ≡ D.seen self.old.disk) }
        ensures crash { IsTrue (D.is_clean self.new.disk) → LeavesOldOrSame D.seen D.may_leave self.old.disk self.new.disk }
        ensures cause { CausesFault result (D.faults self.old.disk) (D.faults self.new.disk) }
        ensures clean { IsTrue (D.is_clean self.new.disk) → IsTrue (D.is_clean self.old.disk) }
    {
        let bytes = read_synced(alloc, &mut self.disk)?;
        let lines = lines_end(&bytes)?;
        end_lines(&mut self.disk, lines.at)?;
        self.end = lines.at;
        self.length = lines.at + 1;
        self.sum = lines.sum;
        Ok(OpenedFile {
            bytes,
            was_closed: lines.closed,
        })
    }
}

impl<D: Crash> LineFile<D> {
    /// A crash of the machine, and the opening after it. The file says what one of the contents says that the crash may
    /// have left.
    pub fn crash_and_open(&mut self, alloc: Global) -> Result<OpenedFile, FileFault>
        requires mixing { AlwaysMixes D.Disk.is_mixing }
        ensures back { OnOk result (ComesBack D.Disk self.old self.new) }
        ensures ended { IfOk result (λ opened. IsTrue (D.Disk.is_clean self.new.disk) → ReportsLeft D.Disk.may_leave self.old.disk opened.was_closed) }
        ensures clean { IsTrue (D.Disk.is_clean self.new.disk) → IsTrue (D.Disk.is_clean self.old.disk) }
    {
        self.disk.crash();
        self.open(alloc)
    }
}
