//! A collection by several helpers, each on a thread of its own.
//!
//! By every schedule the helpers leave what one thread leaves (`IsCollection` of `tg_space`). Exactly the cells of
//! from-space that the roots reach are copied. Each is copied once, to a place of its generation, and all references
//! are moved. The scheme is that of parallel copying collectors (Halstead, 1985, and Marlow, Harris, James and Peyton
//! Jones, 2008). Each cell has one forwarding word, which is written by a compare-and-exchange, and each helper has
//! blocks of places for itself.
//!
//! ```text
//!    roots   0..8   8..16   16..24   24..32        a chunk is claimed by the helper that comes first
//!             |       |       |        |
//!          helper 0  helper 1  0       1           each walks on from its own wins
//!             |       |
//!    blocks   0  3    1  2                         numbers are claimed too, when a cell needs a place
//! ```
//!
//! *Work.* A helper ([`Job::help`]) repeats three steps. It passes the gate, it claims eight roots, and it walks on
//! from them as `tg_evac` does. In the walk it claims what a cell names, and copies the cell once all of that has
//! places. To claim a cell is to see its place, or to win it for the next place in one's own blocks. A loser of the
//! exchange sees the winner's place. Places never change, so a copy is right when it is made. When no roots are left,
//! the helper hands over its record and its blocks, each with its number ([`Part`]).
//!
//! The lists of a helper keep their size. They have room for a word of each cell that has one in the table, which is
//! the most that a helper can win. So no call in the walk refers to what a helper has at its seat, and the compiler
//! keeps that in registers.
//!
//! *Joining.* The records become one, list after list, and so do the parts ([`laws::parts_become_one`]). The one record
//! represents all helpers, and then the table is closed. Its rule says that each cell was won once, that places differ,
//! and that block numbers have no gap. Therefore the blocks in the order of their numbers are the new spaces. Together
//! with the words they are a collection ([`laws::what_helpers_made_is_a_collection`]).
//!
//! *Room.* A helper claims a block of a space only if its other blocks of that space are full. So each helper leaves at
//! most one open block in a space. A block number past the limit therefore shows that many cells are reached
//! ([`laws::a_block_past_the_limit_tells_of_want_of_room`]).
//!
//! **Who may call.** `tg_helpers` calls [`collect_many`], in which the calling thread is one of the helpers.
//! [`collect_seated`] is the same with one helper, and it needs no permission to start threads or to wait. Only tests
//! and a measurement call it. A gate lets a test make helpers meet, and other callers pass [`NoGate`].
#![tactic(auto)]

pub use fault::HelpersFault;
pub use gate::{Gate, NoGate};
pub use job::{Job, Newcomer, Task};
pub use many::{MOST_HELPERS, collect_many, collect_seated};
pub use part::{Helped, Part};

mod fault;
mod gate;
mod job;
pub mod laws;
mod links;
mod many;
mod merge;
mod own_blocks;
mod part;
mod seat;
mod winner;
mod work;
