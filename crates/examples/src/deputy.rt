//! An example of a confused deputy, and of a deputy that isn't confused.
//!
//! A deputy writes what its clients ask for, and keeps a ledger of its own. A client may ask it to write to any name,
//! so it names the ledger. The deputy may write to the ledger. It is confused, because it uses its own right for a
//! client that has no right. The cure is that the deputy asks with rights that aren't its own. For this it has a second
//! subject, its hand, which has only the rights that clients grant to it. A client could have written itself whatever
//! the hand may write.
//!
//! The deputy and its hand work on one thread. Meanwhile the client reads its paper on another thread, and has all
//! garbage collected again and again. In the end the store is closed. The close shows that each call is in the journal.
//! Then the journal is audited from an opening of the program's own.

mod errands;
mod opening;
mod round;
mod tell;

use crate::fault::StoryFault;
use round::run_round;
use std::sync::Wait;
use std::thread::Threads;
use tell::print_ending;

/// Plays the story, and prints its ending.
pub fn run_story<R: Threads + Wait + Sync + Print + AllocGlobal>(rt: &R) -> Result<(), StoryFault> {
    let (ending, entries) = run_round(rt, rt.alloc())?;
    print_ending(rt, &ending, entries)
}
