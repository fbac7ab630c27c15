//! The events of the race.
use tg_word::Place;

/// What one helper can do in one step.
#[derive(Clone, Copy)]
pub enum Event {
    /// Draws the number of the next chunk of roots.
    Claim,
    /// Looks where a cell went, and has seen it if it has a place.
    Look { cell: u64 },
    /// Gives a cell that has no place this one.
    Win { cell: u64, place: Place },
    /// Finds a cell that has a place, and has seen it.
    Lose { cell: u64 },
    /// Draws the number of the next block of Aged, or of Old.
    Block { aged: bool },
    /// Makes another helper, of share 1, out of its own share.
    Part,
    /// Takes in all that another helper has done, who is then spent.
    Meet { other: usize },
}
