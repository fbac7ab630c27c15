//! Zeros after the end of a file, which are on the disk before a line is written over them.
ghost use Rattle.std.specs.Prelude.{◌≡◌, ◌*◌, length, IsTrue, OnOk};
ghost use Rattle.sqlite_disk.specs.Disk.{CountsFault};
ghost use Rattle.tg_keep.specs.Zeros.{AddsZeros, HasLaid, KeepsFront, MayLay};

use sqlite_disk::Disk;
use std::io;

/// How many zeros one write lays.
pub(crate) const PAGE: usize = 4096;

// Writes so many pages of zeros from `end` on, which is the file's length.
fn write_zeros<D: Disk>(disk: &mut D, end: usize, pages: usize) -> io::Result<()>
    requires { MayLay D.Disk disk.old end pages }
    ensures usable { IsTrue (D.is_usable disk.new) }
    ensures zeros { OnOk result (end ≡ length (D.seen disk.old) → AddsZeros (4096 * pages) (D.seen disk.old) (D.seen disk.new)) }
    ensures left { KeepsFront D.Disk end disk.old disk.new }
    ensures cause { CountsFault result (D.faults disk.old) (D.faults disk.new) }
{
    let zeros = [0; PAGE];
    for page in 0..pages {
        disk.write_at(end + PAGE * page, &zeros)?;
    }
    Ok(())
}

// Lays so many pages of zeros at the end, and syncs them.
pub(crate) fn lay_zeros<D: Disk>(disk: &mut D, end: usize, pages: usize) -> io::Result<()>
    requires { MayLay D.Disk disk.old end pages }
    ensures laid { OnOk result (HasLaid D.Disk end (4096 * pages) disk.old disk.new) }
    ensures left { KeepsFront D.Disk end disk.old disk.new }
    ensures cause { CountsFault result (D.faults disk.old) (D.faults disk.new) }
{
    write_zeros(disk, end, pages)?;
    disk.sync()
}
