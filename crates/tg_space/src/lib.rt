//! Spaces of blocks of cells, on which the heap's graph and its collections are built.
//!
//! A heap is a list of spaces. Space 0 is Old, space 1 is Aged, and space 2 + k is the nursery with number k. A space
//! is a list of blocks. It only grows, until a collection takes all its blocks away. A block is 64 cells of 8 words.
//!
//! ```text
//!   space 0  Old         [block 0] [block 1] [block 2]
//!   space 1  Aged        [block 0]
//!   space 2  nursery 0   [block 0] [bl|ck 1]              | `used`: the cells after it are free
//!   space 3  nursery 1   [blo|k 0]
//! ```
//!
//! A place names a cell by its space, its block and its number in the block. Its flat number counts the cells of Old,
//! then Aged, then the nurseries, space by space and block by block, 64 a block. Both name the same cells. A flat
//! number takes one sum to find, because the number of blocks before each space is kept.
//!
//! The cells of a nursery are handed out one after the other, and the others are free. So a cell that is handed out is
//! always a free one. A nursery grows by one block at a time, within the `Limits`.
//!
//! Contracts see `Spaces` as a record. It has the words of all cells as a list of lists, how many cells of each nursery
//! were handed out, and the limits.
//!
//! **Who may call.** The heap's graph reads and writes words and allocates. A collection only reads. It builds new
//! blocks in a `Space` of its own, and hands them over by `adopt`. So a refused collection leaves everything as it was.
//! These calls take memory: `new`, `add_block`, `adopt`, `ForwardingTable::new`, and of a `Space` `with_capacity`,
//! `push`, `add_block` and `append`.
//!
//! **While a collection's blocks are put in place**, the old cells may be gone already. `Numbering` keeps their
//! numbers. With it, `Moves` says where the collection has put what a word or a place named.
//!
//! **Definitions for several crates above** are in `specs/`. They define the targets of cells and roots, and the
//! closure of the roots as the least set. They define the image of a cell under a map to new places, and which spaces
//! and roots are sound. They also define what a collection of either kind leaves. The module `laws` has the laws of
//! these definitions. The main law is that of tracing. A complete trace from the roots is exactly their closure.
#![tactic(auto)]

pub use adoption::Adoption;
pub use copied::Copied;
pub use forwarding::{Forwarding, ForwardingTable};
pub use kind::Kind;
pub use limits::{Limits, MOST_BLOCKS, MOST_LARGE_BLOCKS};
pub use moves::Moves;
pub use numbering::Numbering;
pub use pointers::first_pointer;
pub use room_fault::RoomFault;
pub use root::Root;
pub use space::Space;
pub use spaces::Spaces;
pub use spare::Spare;

mod adoption;
mod copied;
mod forwarding;
mod kind;
pub mod laws;
mod limits;
mod moves;
mod next_block;
mod numbering;
mod pointers;
mod room_fault;
mod root;
mod space;
mod space_list;
mod spaces;
mod spare;
