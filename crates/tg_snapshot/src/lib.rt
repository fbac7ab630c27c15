//! Snapshots. A snapshot is what is kept of a graph to go on from it.
//!
//! A store can be opened again from its opening and all entries since. That takes as long as its whole life. A
//! [`Snapshot`] is the short way. It has what the active subjects reach, each vertex with what it stores, and each
//! edge. It also has how many vertices were made, the most that may be, and how many entries were made before.
//!
//! ```text
//!     vertices    2 c1   5 m0   7 l4:1,2        rising names, each with what it stores
//!     subjects    2      5                      rising names, each of a vertex above
//!     edges       2 5 tg   5 7 rwa              rising ends, each pair once
//!     counts      9 made, at most 1000000, after 77 entries
//! ```
//!
//! All lists rise, and each pair of ends occurs once. So one graph has one snapshot, and two snapshots can be compared
//! as texts (`one_graph_has_one_snapshot` of [`laws`]). [`Snapshot::new`] looks at the form of the lists, and returns
//! the first fault with its place ([`SnapshotFault`]). It can't look at anything else. **Whoever can write to a
//! snapshot gives rights**. A right that somebody writes into its text is a right in the store that goes on from it.
//!
//! The definitions to believe are in `specs/`. `Snapshot` says which lists are a snapshot (`IsSnapshot`), which graph
//! it shows (`graph_shown`), and of which graph it is the snapshot (`IsSnapshotOf`). `Faults` has `IsFault`. A vertex
//! that was made and isn't shown stores a Cell with 0 in `graph_shown`, which keeps the graph sound. No command reaches
//! such a vertex, so the choice is never seen.
//!
//! `tg_journal` has the promise. Later entries are legal after a snapshot exactly if they are legal after all entries
//! before it. Each later reply is the one that would have been given there. The auditor of `tg_journal` opens from a
//! snapshot, and hands one out.
#![tactic(auto)]

mod check;
mod fault;
pub mod laws;
mod snapshot;
mod vertex;

pub use fault::SnapshotFault;
pub use snapshot::Snapshot;
pub use vertex::ShownVertex;
