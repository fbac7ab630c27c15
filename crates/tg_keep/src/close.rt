//! Closing a file of lines.
ghost use Rattle.std.specs.Prelude.{◌≡◌, ◌↔◌, false, IfErr, IsErrOf, OnOk};
ghost use Rattle.tg_keep.specs.Files.{HasClosed, HasMark, LeavesAsItWas, LeavesLast, MayBeWritten, MayMark};
ghost use Rattle.tg_keep.specs.Lines.{is_marking};

use crate::batch::is_marking;
use crate::fault::FileFault;
use crate::file::LineFile;
use crate::line::write_line;
use crate::mend::cut_zeros;
use sqlite_disk::Disk;
use std::alloc::Global;

impl<D: Disk> LineFile<D> {
    /// Ends a run. The call puts a mark twice, and ends the file right after it. The mark is a text as `entries 12`,
    /// which says how many entries came before it. The file says what it said, and the next opening reports that the
    /// file was closed. A crash inside of the call leaves a file that says what it said. After the call the file may
    /// not be used any more. `BadMark` says that the mark doesn't begin with `entries `, or has a zero byte or a line
    /// feed. Then the file is as it was.
    pub fn close(&mut self, alloc: Global, mark: &[u8]) -> Result<(), FileFault>
        requires { MayBeWritten D.Disk self.old }
        ensures closed { OnOk result (HasClosed D.Disk self.old.disk self.new.disk) }
        ensures bad { IsErrOf result FileFault.BadMark ↔ (is_marking mark.now ≡ false) }
        ensures unchanged { IsErrOf result FileFault.BadMark → self.new ≡ self.old }
        ensures left { LeavesLast D.Disk self.old.disk self.new.disk }
    {
        if !is_marking(mark) {
            return Err(FileFault::BadMark);
        }
        self.put_mark(alloc, mark)?;
        self.put_mark(alloc, mark)?;
        cut_zeros(&mut self.disk, self.end)?;
        self.length = self.end;
        Ok(())
    }

    // Puts the mark as a batch of its own.
    fn put_mark(&mut self, alloc: Global, mark: &[u8]) -> Result<(), FileFault>
        requires { MayMark D.Disk self.old mark.now }
        ensures marked { OnOk result (HasMark D.Disk mark.now self.old self.new) }
        ensures left { LeavesAsItWas D.Disk self.old.disk self.new.disk }
        ensures own { IfErr result (λ fault. fault ≡ FileFault.BadMark → ⊥) }
    {
        let mut line = Vec::new(alloc);
        let sum = write_line(&mut line, &self.sum.digits, true, mark)?;
        self.make_room(line.len())?;
        self.write(&line, sum)?;
        Ok(())
    }
}
