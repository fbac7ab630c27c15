//! What each of several callers of one journal knows of it. There is a roll of all entries, and a pass for each of its
//! makers.
//!
//! The roll is kept with the journal, under the same lock. It has all entries since the start, each with its maker. A
//! maker is the session of a worker, or the keeper of the round. Each session has a pass, and so has the keeper. A pass
//! takes no bytes.
//!
//! A pass knows which entries were made with it. These are *exactly* the entries of its maker in the roll. The reason
//! is that an entry is noted with the pass of its maker, and that each maker has one pass. A pass also knows which
//! entries it has seen. These are all entries of the roll up to its last look or note. So an answer that is given after
//! a look speaks of exactly these entries.
//!
//! The roll is a table of one word of `atomic_table`, whose seats are joined for each step and split again. So a step
//! costs three accesses of that word.
#![tactic(auto)]

mod board;
mod pass;
mod signed;

pub use board::Board;
pub use pass::{BlankRoll, Pass, Roll};
pub use signed::{Maker, Signed};
