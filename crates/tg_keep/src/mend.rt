//! What the opening and the closing of a file ask of its disk.
ghost use Rattle.std.specs.Prelude.{◌≡◌, ◌≤◌, ℕ, List, IsTrue, IfOk, IfErr, OnOk};
ghost use Rattle.sqlite_disk.specs.Disk.{CountsFault, Only};
ghost use Rattle.tg_keep.specs.Files.{AlwaysMixes, LeavesSame};
ghost use Rattle.tg_keep.specs.Opened.{CausesFault, HasCut, HasEndedLines, HasLinesTo, MayCut, MayEnd, is_refusal};

use crate::fault::FileFault;
use sqlite_disk::Disk;
use std::alloc::Global;
use std::io;

// Reads all bytes of the file. They are on the disk then.
pub(crate) fn read_synced<D: Disk>(alloc: Global, disk: &mut D) -> Result<Vec<u8>, FileFault>
    requires { IsTrue (D.is_usable disk.old) }
    ensures usable { OnOk result (IsTrue (D.is_usable disk.new)) }
    ensures bytes { IfOk result (λ bytes. IsTrue (D.is_clean disk.new) → bytes.items ≡ D.seen disk.old) }
    ensures durable { OnOk result (Only (D.seen disk.old) (D.may_leave disk.new)) }
    ensures seen { D.seen disk.new ≡ D.seen disk.old }
    ensures crash { (c : List ℕ) → D.may_leave disk.new c → D.may_leave disk.old c }
    ensures clean { IsTrue (D.is_clean disk.new) → IsTrue (D.is_clean disk.old) }
    ensures read { IfErr result (λ fault. IsTrue (is_refusal fault) → ⊥) }
    ensures cause { CausesFault result (D.faults disk.old) (D.faults disk.new) }
{
    disk.sync()?;
    let length = disk.len()?;
    let mut bytes = vec![in alloc; 0; length]?;
    disk.read_at(0, &mut bytes)?;
    Ok(bytes)
}

// Ends the file with one zero after its lines. What comes after them is cut off only once the zero is on the disk.
pub(crate) fn end_lines<D: Disk>(disk: &mut D, end: usize) -> io::Result<()>
    requires { MayEnd D.Disk disk.old end }
    ensures ended { OnOk result (HasEndedLines D.Disk end disk.old disk.new) }
    ensures crash { AlwaysMixes D.is_mixing → HasLinesTo D.seen D.may_leave end disk.old → LeavesSame D.seen D.may_leave disk.old disk.new }
    ensures cause { CountsFault result (D.faults disk.old) (D.faults disk.new) }
    ensures calm { D.is_clean disk.new ≡ D.is_clean disk.old }
{
    disk.write_at(end, &[0])?;
    disk.sync()?;
    disk.set_len(end + 1)?;
    disk.sync()
}

// Ends the file right after its lines. All zeros but one are cut off first. Until a sync, a cut may leave any bytes
// after its place, and a single byte is no line.
pub(crate) fn cut_zeros<D: Disk>(disk: &mut D, end: usize) -> io::Result<()>
    requires { MayCut D.Disk disk.old end }
    ensures cut { OnOk result (HasCut D.Disk end disk.old disk.new) }
    ensures crash { HasLinesTo D.seen D.may_leave end disk.old → LeavesSame D.seen D.may_leave disk.old disk.new }
    ensures calm { D.is_clean disk.new ≡ D.is_clean disk.old }
{
    end_lines(disk, end)?;
    disk.set_len(end)?;
    disk.sync()
}
