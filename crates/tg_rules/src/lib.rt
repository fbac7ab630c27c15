//! The rules, on a heap. They say whether a command of a worker is served, and what it then does.
//!
//! A heap has a content: names, labels and values (`Content` of `tg_graph`). [`decide`] returns for a command what the
//! rules say on that content, and changes nothing. [`perform`] carries out a command that is served. It answers and
//! changes the content as the rules say. If memory or room runs out, it is refused and changes nothing.
//!
//! A store does both with one look-up for each edge. [`find_parties`] makes the checks and returns the vertices that it
//! met. From these, [`look_between`] answers a command that only looks, and [`change_between`] carries out any other.
//!
//! [`find_receiver`] makes the checks of a grant that follows a take of the same rights, before anything is taken.
//!
//! [`readable`] lends what a vertex stores to a worker that may read it.
//!
//! All of them start at the worker's own vertex and follow edges. They never look for a name in any other way:
//!
//! ```text
//!   take y z      x --t--> y --rights--> z       x, y: the row of x      y, z: the row of y
//!                 x ------rights-------> z       is added to the row of x
//!
//!   grant y z     x --g--> y                     both edges: the row of x
//!                 x --rights--> z
//!                 y --rights--> z                is added to the row of y
//!
//!   append y      x --a--> y                     the row of x, and then what y stores: a log, or it is denied
//!
//!   inspect y     x --l--> y                     the row of x, and then the row of y is listed
//! ```
//!
//! So the denial is the same for a name that was never made, for one that was collected, and for one without an edge.
//!
//! A heap is collected now and then, and has fewer vertices than were ever made. [`laws`] say why this is harmless. If
//! a content represents a graph, which was never collected, then denials, replies and steps are those of the graph. The
//! layer above may use these laws, and the contracts of the two calls.
#![tactic(auto)]

mod decision;
mod effect;
pub mod laws;
mod vertex;

pub use decision::{Verdict, decide, find_parties, find_receiver};
pub use effect::{change_between, look_between, only_looks, perform, readable};
pub use vertex::Parties;
