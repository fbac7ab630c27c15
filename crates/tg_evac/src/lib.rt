//! A collection, which copies the cells that the roots reach into new blocks.
//!
//! There are two kinds. A full collection moves all cells to Old, whose new blocks are numbered from 0. A nursery
//! collection moves the cells of Aged and of the nurseries. Old then keeps its blocks and gets new ones after them, and
//! Aged is made anew. Both kinds go over the cells once, and only read them.
//!
//! *Claim.* Each reached cell that is to be moved is won once. It gets the next place of Old or of Aged, and its
//! forwarding word becomes the link to that place. The pair of the cell and its place is added to the list of won
//! cells. A cell goes straight to Old in a full collection, and if it is in Aged. It also goes to Old if it is first
//! met from a remembered cell, or from a cell whose copy is in Old. Any other cell goes to Aged ('Where a copy goes' in
//! docs/inside/ARCHITECTURE.md). A cell that is met again keeps its place.
//!
//! *Scan.* First the targets of the roots are claimed, the rows before the remembered cells. Then the won cells are
//! scanned in the order in which they were won, until none is left. The walk is therefore breadth first. A full
//! collection does this for one root after the other, so that what a root reaches lies together. A scan copies the
//! cell, and then claims what the cell names. In the copy, the place in each reference and link becomes the place of
//! the target's copy if the target is moved. The other words stay. The copies of a space are made in the order of their
//! places. So they fill its new blocks one after the other, and only the last block has free cells.
//!
//! ```text
//!    Old            Aged       nursery
//!    a ----------------------> m --> o      a is remembered, and n is the object of a worker's row
//!                    p <------ n --> o
//!
//!    won, in order     first met from     goes to
//!    n                 the row            Aged 0
//!    m                 a                  Old, after the blocks that stay
//!    p                 n                  Old: it was in Aged
//!    o                 n                  Aged 1: n is scanned before m
//! ```
//!
//! A copy is right when it is made, because a place that was given never changes. Once a cell is scanned, all that it
//! names has a place. The contracts say that a copy is right by every map that has the known places, and that the known
//! places only grow. At the end that map is the table of forwarding words.
//!
//! *Notes.* At the end the collection notes the cells of Old that will name young cells. These are the remembered cells
//! that still do, and the copies in Old that name young cells. In the picture it is the copy of m, because o is in Aged
//! now. The cell a names no young cell any more. A full collection has all its copies in Old, and looks for no such
//! cell.
//!
//! So each live cell that is moved is read once and written once. Of the other cells only remembered cells and cells of
//! rows are read. A collection takes memory for the new blocks, for the notes, and for a word for each cell of
//! from-space. The list of won cells also has room for a word for each cell of from-space. Its memory is independent of
//! the number of references. The memory of a nursery collection is also independent of the cells in Old.
//!
//! **Who may call.** The store calls [`collect_one`] with the rows of the heap's workers as roots, and with the
//! remembered cells in a nursery collection. It hands the result to the heap's graph, which settles there. It may use
//! that the forwarding words, the new blocks and the notes are a collection of the spaces (`IsCollection` of
//! `tg_space`). The collection has only the blocks that its copies need, and keeps within the limit (`AreFewBlocks`).
//! `Collects` has the whole promise. A refused collection changes nothing.
//!
//! **What other collectors may use.** The walk asks of its table of claims only what [`Claimer`] says, so it serves any
//! table. [`Walk::along`] is generic, and [`Copies`] holds what it copies. Won pairs with their copies are a collection
//! in whatever order, and by whichever helper, they were won (`proofs/Collecting.antt`). The proof needs a reason for
//! each claim. `proofs/Reasons.antt` proves that the reasons put copies in the space of their generation.
//! `proofs/Counting.antt` proves that at most as many cells are won as are in use. 'Maps of the proofs' in
//! docs/inside/ARCHITECTURE.md describes the other lemmas.
#![tactic(auto)]

pub use both::Both;
pub use claimer::Claimer;
pub use collect::collect_one;
pub use copies::{Copies, Reads};
pub use new_blocks::{NewBlocks, Original};
pub use notes::Made;
pub use plan::Plan;
pub use tg_space::{Copied, Root};
pub use walk::Walk;

mod both;
mod claimer;
mod claims;
mod collect;
mod copies;
mod images;
mod new_blocks;
mod notes;
mod plan;
mod roots;
mod walk;
