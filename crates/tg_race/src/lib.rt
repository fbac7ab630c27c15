//! The race of a collection. It has forwarding words that several helpers share, and the rule that they keep.
//!
//! A collection copies the cells that the roots reach, each into one place of Aged or of Old. Several helpers that do
//! this at once share one row of words:
//!
//! ```text
//! word   0            1             2            3 + i
//!       +------------+-------------+------------+--------------------------------------------------+
//!       | next chunk | next block  | next block | where the i-th cell after those of Old's kept    |
//!       | of roots   | of Aged     | of Old     | blocks went, or 0 (a reference with no rights)   |
//!       +------------+-------------+------------+--------------------------------------------------+
//! ```
//!
//! The blocks that Old keeps come first, and their cells stay. They have no word in the table, so that a nursery
//! collection takes no memory for Old. Contracts see a word for each cell, and those of the kept blocks are 0.
//!
//! A helper draws numbers from the counters to claim chunks of 8 roots and blocks of places. To give a cell a place it
//! exchanges the cell's word, which is 0, for that place. One helper wins. The others see where the cell went, which is
//! all that they need. A helper's [`Record`] has what it has done, and exists in proofs alone when the table runs.
//!
//! The rule between the words and the records has seven sentences (`specs/Race.antt`, and `KeepsRule` of
//! `specs/Course.antt`):
//!
//! - *chunks_once*: each chunk of roots is claimed once.
//! - *blocks_once*: each block number is claimed once.
//! - *wins_once*: each cell is won once, by the one record that has the pair of the cell and its place.
//! - *places_own*: won places differ, and are in the winner's own blocks.
//! - *seen_stands*: what was seen is in the table.
//! - *wins_earned*: each won cell is a target of a claimed root or of an earlier win.
//! - *within_share*: no record wastes more than its share of chunk numbers past the last and of blocks with room.
//!
//! The rule is proved twice, over the same definitions. [`World`] is the race as a state machine without atomics. Any
//! number of helpers do events in any order, and the rule holds after each event (`laws`). No event changes a place
//! that a cell has. If one complete record is left, the cells with a place are exactly the closure of the roots.
//! [`RaceTable`] is the table itself, over the crate `atomic_table`, and [`Helper`] is a seat at it. Between any two
//! steps of any threads the rule holds, except for *wins_earned*, which speaks of targets and stays with each helper.
//! Each call of a helper does to the record what its event does. It requires the event's condition by the same test as
//! the world (`specs/Conditions.antt`).
//!
//! One condition concerns room. A helper claims its next block only if its last one is full. So blocks are few
//! (`laws::blocks_are_few`), which bounds the counters. For the same reason a collection reports a full heap only if
//! the heap is nearly full.
//!
//! The layer above starts helpers on threads. It cites the contracts of `Helper`, `RaceTable::close` (the words, and
//! the one record under the rule), the laws of [`laws`], and `IsCompleteRecord`.
#![tactic(auto)]

pub use event::Event;
pub use helper::{Claim, Helper};
pub use race_table::{CellWord, Opened, RaceTable};
pub use record::{Counts, Record};
pub use shape::Shape;
pub use world::World;

mod conditions;
mod event;
mod helper;
pub mod laws;
mod links;
mod plays;
mod race_table;
mod record;
mod shape;
mod world;
