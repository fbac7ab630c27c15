//! A store that goes on from the entries that it made in another process.
//!
//! A store ends with its process. A host that kept the entries opens another store with the same opening, and hands it
//! the entries. [`resume`] does the deed of each entry again, and compares the reply with that of the entry. `Ok`
//! is returned only if the entries are a legal history of the graph that the store represented. The store then has
//! exactly these additional entries. Another legal history is accepted too, so a host has to keep its entries out of
//! reach of others.
//!
//! ```text
//!     opening ---- Store::open ----> store ---- resume, part after part ----> the store as it was, in other cells
//! ```
//!
//! **Payloads.** An entry has the law and the first state of a vertex that was made. A [`Maker`] makes its payload
//! again. [`ByLaw`] makes payloads of the four laws, and a host makes payloads of its own. A later write is an entry,
//! and is done again on that payload.
//!
//! **Collections.** Entries don't say when the store collected. If the heap is full for a deed, `resume` makes a full
//! collection and tries the deed once more. Graphs and replies are independent of collections.
//!
//! **Places.** Each place is counted from 0 in the whole journal, also if a part is resumed.
//!
//! **Parts.** `tg_resume::laws` has a law about a store that is resumed from several parts.
//!
//! **Who may call.** This crate calls public functions of [`Store`](tg_store::Store) alone. Any store can be resumed.
//! It may have been just opened or resumed before, and it may have taken commands since.
#![tactic(auto)]

mod entry;
pub mod laws;
mod part;
mod stopped;

pub use part::{Halted, Part, replay_all, resume};
pub use stopped::ResumeStopped;
pub use tg_rebuild::{ByLaw, Maker};
