//! The disk of a real file, which is found by its path.
//!
//! [`open_disk`] opens a file that is there, and [`make_disk`] makes a file under another name. Both lock the file
//! against other processes, and return it as a [`Disk`](sqlite_disk::Disk). `tg_keep` and `tg_kept` are written over
//! such disks. The calls on the file are those of the toolchain's crate `sqlite_std_file`.
//!
//! ```text
//!     open_disk(PATH)      PATH is a file with one name, and no link    -> its disk
//!     make_disk(PATH)      PATH isn't there: PATH.new is made           -> its disk, and its two names
//!         NewName::rename          PATH.new gets the name PATH
//!         NewName::sync_folder     and a crash leaves that name
//! ```
//!
//! The contents of the file before the call are those that the type [`Start`](sqlite_disk::Start) names. No code can
//! read them there, so a contract over each `Start` holds for all contents. A program passes
//! [`Unknown`](sqlite_disk::Unknown).
//!
//! `sqlite_std_file` opens each file together with a log, which has the name PATH-wal. The log is empty, and is removed
//! at once. A PATH-wal that isn't empty is the file of another program. It is never touched, and the call fails. So it
//! is with PATH-journal, if another program could play it back into the file.
#![tactic(auto)]

mod disk;
mod fault;
mod names;
mod new_name;
#[cfg(test)]
mod tests;

pub use disk::{NewFile, make_disk, open_disk};
pub use fault::PathFault;
pub use new_name::NewName;
pub use sqlite_std_file::FileFrom;
