//! The store. It has a protection graph in a heap that takes commands, and objects with payloads of the caller's own.
//!
//! A store is opened with an [`Opening`](tg_model::Opening), which says who its workers are. The caller also hands in a
//! draft of the payload of each worker, and how many blocks the heap may have. Or it is opened again from a snapshot
//! ([`Store::reopen`]). From then on the store keeps a journal. Each decided command, served or denied, has one entry
//! with its reply. A create or a spawn has one too, also if no more vertices may be made. The journal is handed out in
//! parts, or given up ([`Store::take_journal`], [`Store::forget`]), and the store goes on.
//!
//! The graph of a store (`StandsFor`) is the one that it began with, after the deeds of all entries, held or handed
//! out. Contracts speak of this graph. [`Store::apply`] answers what the rules answer on it, and then the store has the
//! next graph by the rules. [`Store::create`] and [`Store::spawn`] do the same. [`Store::apply_all`] takes several
//! commands of one worker in a row. [`Store::hand`] hands rights on by up to three commands, completely or not at all.
//! [`Store::park`] puts all that a subject holds into an account, and the subject leaves, completely or not at all.
//! [`Store::unpark`] lets a new subject take out what an account holds, completely or not at all.
//!
//! ```text
//!     opening --deeds of the journal--> graph        every reply is by this graph, and no collection changes it
//!                                         |
//!                                     stands for
//!                                         |
//!     heap    --commands, collections--> content     the cells that there are: all that can be reached, and no other rights
//! ```
//!
//! The heap has the cells and payloads of all vertices that can be reached, and maybe of some that can't. It agrees
//! with the graph, and that is the promise of every store (`IsFaithful`, which [`Store::journal`] ensures). The journal
//! is a legal history of the opening, and the heap represents the graph after it. [`Store::collect`] changes the heap
//! alone. After a full collection the heap has exactly what can be reached, and the payloads of all other vertices were
//! dropped. A nursery collection may keep some of the others.
//!
//! A refused call leaves the store as it was, and hands back its arguments. Two refusals have an entry. A create or a
//! spawn is refused so if there are too many vertices, and a spawn if there are too many subjects. A call makes room
//! for the entry first, and copies the reply. Then it takes what a command needs of the heap ('Why the entry comes
//! last' in docs/inside/ARCHITECTURE.md).
//!
//! A store is generic in its payloads, and a box of a payload is a payload (`tg_payload`). So payloads of several kinds
//! are in boxes side by side, and the store makes none. Only a read, a write or an append that the rules allow reaches
//! a payload.
//!
//! [`Store::picture`] has what the active subjects reach on the graph. `tg_could` answers about it what could ever come
//! about.
#![tactic(auto)]

mod answer;
mod batch;
mod census;
mod fault;
mod handing;
pub mod laws;
mod leaving;
mod making;
mod origin;
mod parking;
mod pouring;
mod seen;
mod store;
mod store_fault;
mod tallied;
mod unparking;

pub use batch::{BatchFault, MOST_BATCH};
pub use census::{Census, Collections, Refusals};
pub use fault::{
    ApplyFault, CreateFault, CreateRefused, OpenFault, OpenRefused, ReopenFault, ReopenRefused,
    StoreAuditFault,
};
pub use handing::{Hand, Handed};
pub use leaving::{removal, retiring};
pub use parking::{ParkFault, Parked, Parking};
pub use store::Store;
pub use store_fault::StoreFault;
pub use tg_space::{Kind, Limits, RoomFault};
