//! A file of lines, over zeros that are on the disk.
ghost use Rattle.std.specs.Prelude.{◌≡◌, ◌≢◌, ◌*◌, ◌^◌, ◌<◌, ◌≤◌, [], IsTrue, IfErr, OnOk};
ghost use Rattle.sqlite_disk.specs.Disk.{CountsFault};
ghost use Rattle.tg_keep.specs.Lines.{texts_after};
ghost use Rattle.tg_keep.specs.Batches.{batch_texts};
ghost use Rattle.tg_keep.specs.Files.{AwaitsBatch, HasBegun, HasEmptied, HasGrown, HasPut, HasRoomAhead, HasWrittenLines, LeavesAsItWas, LeavesLines, LeavesPart, MayGrow, MayPut, MayUseDisk, MayWrite};
ghost use Rattle.tg_keep.specs.Opened.{CausesFault};

use crate::batch::Batch;
use crate::fault::FileFault;
use crate::scan::FIRST_TEXT;
use crate::sum::LineSum;
use crate::zeros::{PAGE, lay_zeros};
use sqlite_disk::Disk;
use std::alloc::Global;
use std::io;

/// How many pages of zeros are laid ahead.
const PAGES_AHEAD: usize = 256;

/// Zeros are laid after a file of at most so many bytes.
const MOST: usize = 1 << 62;

/// A file that has whole lines up to `end`, and zeros from there up to its length. `sum` is that of the last line.
#[derive(Drop)]
pub struct LineFile<D: Disk> {
    pub disk: D,
    pub end: usize,
    pub length: usize,
    pub sum: LineSum,
}

impl<D: Disk> LineFile<D> {
    /// A file on this disk, which is to be begun or opened before a batch is put.
    pub fn new(disk: D) -> LineFile<D>
        ensures { result.disk ≡ disk }
    {
        LineFile {
            disk,
            end: 0,
            length: 0,
            sum: LineSum::first(),
        }
    }

    /// Makes a new file of an empty one. It says `kovshenul kept 1`. A crash may leave anything before that is done, so
    /// a program begins a file under another name, and renames it after `Ok`.
    pub fn begin(&mut self, alloc: Global) -> Result<(), FileFault>
        requires { MayUseDisk D.Disk self.old.disk }
        ensures begun { OnOk result (HasBegun D.Disk self.old self.new) }
        ensures not_empty { IfErr result (λ fault. fault ≡ FileFault.NotEmpty → IsTrue (D.is_clean self.new.disk) → D.seen self.old.disk ≢ []) }
        ensures cause { CausesFault result (D.faults self.old.disk) (D.faults self.new.disk) }
    {
        if self.disk.len()? != 0 {
            return Err(FileFault::NotEmpty);
        }
        self.make_empty()?;
        let mut batch = Batch::new(alloc, self.sum);
        batch.add(&FIRST_TEXT)?;
        self.put(&batch)?;
        Ok(())
    }

    // Lays zeros over an empty file. It has no lines then.
    fn make_empty(&mut self) -> io::Result<()>
        requires usable { IsTrue (D.is_usable self.old.disk) }
        requires empty { IsTrue (D.is_clean self.old.disk) → D.seen self.old.disk ≡ [] }
        ensures emptied { OnOk result (HasEmptied D.Disk self.new) }
        ensures size { OnOk result (self.new.length ≡ 2 ^ 20) }
        ensures cause { CountsFault result (D.faults self.old.disk) (D.faults self.new.disk) }
        ensures calm { D.is_clean self.new.disk ≡ D.is_clean self.old.disk }
    {
        lay_zeros(&mut self.disk, 0, PAGES_AHEAD)?;
        self.end = 0;
        self.length = PAGES_AHEAD * PAGE;
        self.sum = LineSum::first();
        Ok(())
    }

    /// Puts the lines of the batch after the lines of the file, by one write and one sync. Before that it lays zeros if
    /// too few are left. At `Ok` each crash leaves a file that has the lines. An error is one of the disk, unless the
    /// file has more than 2^62 bytes. Then a crash leaves a front of them, and the file may not be used any more. No
    /// crash leaves a file that seems to be closed.
    pub fn put(&mut self, batch: &Batch) -> io::Result<()>
        requires { MayPut D.Disk self.old batch.now }
        ensures put { OnOk result (HasPut D.Disk (batch_texts batch.now) self.old self.new) }
        ensures sum { OnOk result (self.new.sum ≡ batch.now.sum) }
        ensures left { LeavesPart D.Disk (batch_texts batch.now) self.old.disk self.new.disk }
        ensures cause { self.old.length ≤ 2 ^ 62 → CountsFault result (D.faults self.old.disk) (D.faults self.new.disk) }
    {
        self.make_room(batch.bytes.len())?;
        self.write(&batch.bytes, batch.sum)
    }

    // Lays zeros if no zero would be left after so many bytes.
    pub(crate) fn make_room(&mut self, bytes: usize) -> io::Result<()>
        requires small { bytes < 2 ^ 63 }
        requires settled { AwaitsBatch D.Disk self.old }
        ensures room { OnOk result (HasRoomAhead D.Disk bytes self.old self.new) }
        ensures left { LeavesAsItWas D.Disk self.old.disk self.new.disk }
        ensures cause { self.old.length ≤ 2 ^ 62 → CountsFault result (D.faults self.old.disk) (D.faults self.new.disk) }
    {
        if bytes < self.length - self.end {
            return Ok(());
        }
        if self.length > MOST {
            return Err(io::ErrorKind::FileTooLarge.into());
        }
        self.add_zeros(bytes / PAGE + PAGES_AHEAD)
    }

    // Lays so many pages of zeros after those that are there.
    fn add_zeros(&mut self, pages: usize) -> io::Result<()>
        requires { MayGrow D.Disk self.old pages }
        ensures grown { OnOk result (HasGrown D.Disk (4096 * pages) self.old self.new) }
        ensures end { self.new.end ≡ self.old.end }
        ensures sum { self.new.sum ≡ self.old.sum }
        ensures left { LeavesAsItWas D.Disk self.old.disk self.new.disk }
        ensures cause { CountsFault result (D.faults self.old.disk) (D.faults self.new.disk) }
    {
        lay_zeros(&mut self.disk, self.length, pages)?;
        self.length += PAGE * pages;
        Ok(())
    }

    // Writes whole lines, of which the last has this sum, over zeros, and syncs them.
    pub(crate) fn write(&mut self, bytes: &[u8], sum: LineSum) -> io::Result<()>
        requires { MayWrite D.Disk self.old bytes.now sum.digits }
        ensures written { OnOk result (HasWrittenLines D.Disk bytes.now self.old self.new) }
        ensures sum { OnOk result (self.new.sum ≡ sum) }
        ensures left { LeavesLines D.Disk (texts_after self.old.sum.digits bytes.now) self.old.disk self.new.disk }
        ensures cause { CountsFault result (D.faults self.old.disk) (D.faults self.new.disk) }
    {
        self.disk.write_at(self.end, bytes)?;
        self.disk.sync()?;
        self.end += bytes.len();
        self.sum = sum;
        Ok(())
    }
}
