//! The lines that are printed of the story.

use super::errands::Errands;
use crate::fault::StoryFault;
use crate::tell::tell_audit;
use std::io;

/// The ending of the story.
#[derive(Clone, Copy)]
pub struct Ending {
    /// The names of the ledger and of the paper.
    pub ledger: u64,
    pub paper: u64,
    pub errands: Errands,
}

/// Prints the ending, with the number of entries of the journal, which passed its audit.
pub fn print_ending<R: Print>(rt: &R, ending: &Ending, entries: u64) -> Result<(), StoryFault> {
    print_errands(rt, ending)?;
    tell_audit(rt, entries)
}

fn print_errands<R: Print>(rt: &R, ending: &Ending) -> io::Result<()> {
    let Ending {
        ledger,
        paper,
        errands,
    } = ending;
    let by_deputy = outcome(errands.ledger_by_deputy);
    let paper_by_hand = outcome(errands.paper_by_hand);
    let ledger_by_hand = outcome(errands.ledger_by_hand);
    println!(rt;
        "the deputy makes a ledger, whose name is {ledger}\n\
         the client makes a paper, whose name is {paper}\n\
         the deputy writes to the ledger for the client: {by_deputy}\n\
         its hand writes to the paper for the client: {paper_by_hand}\n\
         its hand writes to the ledger for the client: {ledger_by_hand}"
    )
}

fn outcome(is_done: bool) -> &'static str {
    if is_done { "done" } else { "denied" }
}
