//! The history that the bytes of a kept file say, for a program that only reads the file.
//!
//! A kept file has the lines of one history, each with a checksum. `tg_keep` says which lines of some bytes are whole.
//! `kept_text` in `specs/Kept` says which text of a history these lines are. The text has another first line, then the
//! texts of all later lines, and at the end the number of entries. `tg_entries` reads it.
//!
//! | What | What it is for |
//! |---|---|
//! | [`kept_history`] | the history that a kept file says, up to its last whole line |
//! | [`KeptFault`] | why a kept file isn't read, with the line and the byte at which it begins |
//! | [`UnreadFile`] | the text of a fault, and what would be right |
//! | [`TornEnd`] | the end that a crash cut off, which is no fault |
//!
//! The definition to believe is `kept_text`, with those of `tg_keep` and `tg_entries` that it uses. A program that
//! audits a file takes a line at a time, and uses the faults and the texts of this crate. Nothing here opens a file.
#![tactic(auto)]

mod advice;
mod fault;
mod history;
mod shown;
mod text;
mod torn;
mod unread;

pub use advice::advice_on_line;
pub use fault::KeptFault;
pub use history::{KeptHistory, kept_history};
pub use shown::bytes_left_out;
pub use text::{begins_with_digit, end_line};
pub use torn::TornEnd;
pub use unread::UnreadFile;
