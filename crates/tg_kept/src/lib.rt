//! A store that is kept in a file.
//!
//! A [`Kept`] has a store and the file of its history. The file's lines are the lines of a history's text, which are
//! the opening and a line for each entry. Whoever holds a `Kept` knows that each entry of its store is on the disk. So
//! its store may be asked anything.
//!
//! ```text
//!     kept.serve(worker, commands)
//!         |  the store takes the commands             no reply is handed out yet
//!         |  the lines of the entries that they made
//!         |  one write and one sync
//!         +--> Ok: the same Kept, with the replies in its journal
//!         +--> Err(Lost): no store, and no reply
//! ```
//!
//! A batch of commands is served by a call that takes the `Kept` and hands it back once the batch is on the disk. If
//! the file fails, [`Lost`] comes back in its place. Then the store is gone, and the file has all that was answered
//! before. [`Kept::open`] opens the file again, and its store has exactly the entries that the file says.
//!
//! | Call | What it does |
//! |---|---|
//! | [`Kept::begin`] | begins the file of a store that was just opened |
//! | [`Kept::open`] | opens a file again, and makes the store that it says |
//! | [`Kept::serve`] | takes a worker's commands, and puts the lines of their entries into the file |
//! | [`Kept::serve_all`] | serves batch after batch |
//! | [`Kept::make`], [`Kept::hand`] | make a vertex, or hand rights on, and put the lines into the file |
//! | [`Kept::withdraw`], [`Kept::leave`] | withdraw rights, or have a worker leave, and put the lines into the file |
//! | [`Kept::collect`], [`Kept::forget`] | collect the heap, and give up entries. Neither writes to the file |
//! | [`Kept::close`] | ends the run by the mark of a closed file |
//! | [`Kept::into_parts`] | takes the store and the file apart, for a layer that makes batches of its own |
//! | [`keep_entries`], [`close_entries`] | put entries of such a store into its file, and close it |
//! | [`Kept::store`] | lends the store, of which each entry is on the disk |
//! | [`entry_lines`], [`opening_lines`] | the lines of entries, and of an opening, as a batch of `tg_keep` |
#![tactic(auto)]

mod deeds;
mod fault;
mod kept;
pub mod laws;
mod lines;
mod lost;
mod parts;
mod put;
mod read;
mod reopen;
mod resting;
mod run;

pub use deeds::{Answered, AskedVertex};
pub use fault::KeptOpenFault;
pub use kept::{Kept, KeptParts, Served};
pub use lines::{entry_lines, opening_lines};
pub use lost::Lost;
pub use parts::{close_entries, keep_entries};
pub use reopen::{NotOpened, Reopened};
pub use run::{AskedBatch, Returned};
