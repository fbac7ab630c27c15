//! A store that goes on from the history that was kept of another one.
//!
//! A [`History`](tg_entries::History) is an opening or a snapshot, and the entries since. [`store_after`] opens a store
//! from the opening, or opens one again from the snapshot, and does the deed of each entry again. So a host that has
//! the text of a history goes on from it by two calls:
//!
//! ```text
//!     text ---- tg_entries::read_history ----> History ---- store_after ----> the store as it was, in other cells
//! ```
//!
//! The store then holds exactly the entries of the history, and represents the graph after them. The laws of
//! `tg_revive::laws` say what this means for a text, and for a store that came to an end.
//!
//! **Payloads.** A [`Maker`] makes the payload of each vertex: of the opening's workers, of the snapshot's vertices and
//! of the vertices that the entries make. [`ByLaw`] makes payloads of the four laws.
//!
//! **Places.** Places are counted from 0 in the whole history, also if it begins at a snapshot.
#![tactic(auto)]

mod begin;
mod fault;
pub mod laws;
mod revive;

pub use fault::ReviveFault;
pub use revive::store_after;
pub use tg_resume::{ByLaw, Maker};
