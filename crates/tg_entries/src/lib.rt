//! The text of a history, and an audit that reads it.
//!
//! A history is written line by line. The first line names the form of the text. Then come the opening, with a line for
//! each worker's value and for each edge, and a line for each entry. The last line says how many entries there are.
//! Such a count line may also come before and between entries. So a host can end the text at each flush, and go on with
//! it. `specs/Texts` defines the spelling of each line.
//!
//! ```text
//!     kovshenul entries 1
//!     opening 2 1000000
//!     worker c0
//!     worker c0
//!     edge 0 1 rw
//!     0 create r c0 = ok 2
//!     1 take 0 2 r = denied take 1->0 t
//!     entries 2
//! ```
//!
//! [`write_history`] writes all of it into a sink of `tg_text`. A host that writes as it goes uses [`write_opening`],
//! [`write_entry`], [`write_entries`] and [`write_end`]. [`audit_text`] reads a text from a reader. It returns the
//! number of entries only if the text is that of a legal history of the opening in it. [`read_history`] returns the
//! history in the place of the number. [`TextAudit`] audits a line at a time. The code that takes a line apart needs no
//! trust, and no reply is parsed. The audit writes the deed of the line again, followed by the answer of `tg_journal`'s
//! [`Auditor`](tg_journal::Auditor). The line has to be equal to that.
//!
//! [`audit_text`] keeps at most 1,606 bytes of a line. Only an entry that lists edges may be longer. Its deed is read
//! from the front of the line. Then the edges of the reply are written one after another, and each is compared with the
//! bytes that are read next. So the memory of an audit grows with the edges of the opening and with what its subjects
//! reach. It is independent of the number of lines. The memory of [`read_history`] grows with the entries too.
#![tactic(auto)]

mod audit;
mod fault;
mod history;
mod joint;
mod kept;
pub mod laws;
mod listing;
mod long;
mod part;
mod piece;
mod read;
mod stage;
mod stream;
mod sum;
mod summed;
mod write;

pub use audit::TextAudit;
pub use fault::{LineFault, TextFault};
pub use history::{write_entries, write_history, write_opening};
pub use kept::{History, HistoryStart};
pub use read::MOST_DEED_BYTES;
pub use stream::{audit_text, audit_to_snapshot, read_history};
pub use sum::{PartHead, audit_after, audit_to_head, part_head_bytes, sum_of, write_part_head};
pub use write::{VERSION, write_end, write_entry, write_limits, write_sum, write_worker};
