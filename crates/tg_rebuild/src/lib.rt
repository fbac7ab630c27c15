//! The heap of a snapshot.
//!
//! A store goes on from a snapshot in another process. [`heap_of`] builds its heap by the public calls of
//! [`Heap`](tg_graph::Heap) alone.
//!
//! ```text
//!     Heap::open ------ new_subject, new_vertex, drop_rights ------ add_edge ------> heap of the snapshot
//!     the vertex 0      each subject, then each other vertex        each edge
//! ```
//!
//! **Vertices.** A heap is opened with at least one worker, so the vertex 0 is there first. Each other vertex is made
//! for the first subject of the snapshot, which then has an edge to it. The edge shows where the vertex is, and is
//! dropped at once. So all vertices are there, without any edge, before the first edge of the snapshot is added. An
//! empty place of a row is used again, so the row of the first subject stays short.
//!
//! **The vertex 0.** The heap has it even if the snapshot doesn't show it. Then nobody reaches it. It stores the number
//! 0, and the next full collection drops it. Unless the snapshot has the vertex 0 as a subject, it is a subject only
//! until another vertex can act. So at most 64 subjects are active at each point.
//!
//! **Payloads.** A [`Maker`] makes the payload of each vertex. [`ByLaw`] makes payloads of the four laws, and a host
//! makes payloads of its own.
//!
//! **Cells.** All cells are in nurseries. A full collection moves them to Old.
#![tactic(auto)]

mod bare;
mod edges;
mod heap;
mod lines;
mod maker;
mod scaffold;
mod subjects;
mod vertices;
mod zero;

pub use heap::heap_of;
pub use maker::{ByLaw, Maker};
