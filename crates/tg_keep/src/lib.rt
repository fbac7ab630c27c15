//! A file of lines that a crash can't tear. The crate says how lines are written and read, and how a batch of them is
//! put into a file.
//!
//! ```text
//!     kovshenul kept 1 @c4b942f6
//!     0 create rw c0 = ok 2 @1a4b1ddd     the first line of a batch
//!     0 write 2 5 = ok #c9d42721          and another one
//! ```
//!
//! A line has a text, a sign and a sum. The sum covers the sum of the line before, so a line that is lost, moved or
//! there twice is noticed. The sign is `@` at the first line of a batch, and else `#`. After the last line the file
//! has zeros.
//!
//! `history_of` in `specs/Lines` says what the bytes of a file say. A file says the texts of its lines, up to the
//! first that isn't whole, without the *marks* among them. A mark is a text as `entries 12`, which says how many
//! entries came before it.
//!
//! A batch is written over zeros that are on the disk, and then synced ([`LineFile::put`]). A crash in between leaves
//! of each byte the zero or the new one. No line has a zero. Therefore what is read then is what the file said before
//! and a front of the batch ([`a_crash_leaves_a_front`]). No sum has to be believed for that.
//!
//! [`LineFile::close`] puts a mark twice, and ends the file right after it. A file in use always has a zero after its
//! last line. So the next opening finds out whether the last run ended by a close ([`OpenedFile`]).
//!
//! What can be used now, over any [`Disk`](sqlite_disk::Disk):
//!
//! | Call | What it does |
//! |---|---|
//! | [`LineFile::begin`] | makes a new file of an empty one, under a name of its own |
//! | [`LineFile::open`] | opens a file that a crash may have left, drops a torn end, and refuses damage |
//! | [`LineReader`] | reads the lines of the bytes that `open` returns |
//! | [`report_of`], [`whole_front`] | report on the bytes of a file that a program only reads |
//! | [`Batch::add`] | adds a line to a batch |
//! | [`LineFile::put`], [`LineFile::put_all`] | put batches into the file. At `Ok` each crash leaves their lines |
//! | [`LineFile::close`] | ends a run, so that the next opening reports it as closed |
//!
//! After an error of `put` or `close` the program drops the file and opens it anew. Two things are still missing. The
//! first is files over a disk whose torn write may leave any bytes, and not only old or new ones. The second is the
//! calls that reach a real file.
#![tactic(auto)]

mod batch;
mod close;
mod fault;
mod file;
mod laws;
mod line;
mod mend;
mod open;
mod reader;
mod report;
mod run;
mod scan;
mod sum;
mod table;
mod zeros;

pub use batch::{Batch, BatchFault};
pub use fault::FileFault;
pub use file::LineFile;
pub use laws::{a_crash_leaves_a_front, a_torn_batch_is_no_damage, what_is_written_is_read};
pub use line::write_line;
pub use open::OpenedFile;
pub use reader::LineReader;
pub use report::{FileReport, report_of, whole_front};
pub use sum::{LineSum, sum_after};
