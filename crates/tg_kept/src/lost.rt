//! The remains of a store whose file has failed.
use sqlite_disk::Disk;
use tg_keep::FileFault;

/// A store is gone, because its history couldn't be put into the file. No reply to the last batch was handed out. The
/// file has all that was answered before. To go on, open the file again.
#[derive(Drop)]
pub struct Lost<D: Disk> {
    /// The disk, as the failed call left it.
    pub disk: D,
    /// Why the file wasn't written: a call of the disk failed, or there was no memory for the lines.
    pub why: FileFault,
}
