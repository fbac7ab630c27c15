//! Which round a token is of.
ghost use Rattle.atomic_table.specs.Seated.{TableId};
ghost use Rattle.tg_passes.specs.Passes.{no_table};

use std::marker::Brand;

/// One round, which is the time for which passes are handed out. Its parameter ties the passes to the roll. A function
/// that opens a roll is generic in it, and is called with `Brand`.
pub trait Board {
    /// The table of the round.
    ghost board: { TableId };
}

impl Board for Brand {
    ghost board = { no_table };
}
