//! The rule of the table, and what each step on it shows to the helper that makes it.
ghost use Rattle.tg_race.specs.Board.{IsBoardOfRace, does, drew_chunk, drew_aged, drew_old, looked, skipped_of, tried};
ghost use Rattle.tg_race.specs.Race.{empty, both, less_one};

use crate::record::{Counts, Record};
use atomic_table::{Join, Play, Split, TableRule};

/// What a seat knows, in proofs alone. It is how many of the first cells have no word in the table, and what its helper
/// has done.
pub struct View {
    /// How many of the first cells have no word.
    pub skipped: u64,
    /// What the helper has done.
    pub done: Record,
}

/// The rule of the table. Its words and the records of its helpers are those of a race under the rule.
pub struct Forwards;

impl TableRule<u8, View, Counts> for Forwards {
    ghost holds = { IsBoardOfRace };

    ghost first = { λ k. record { skipped = skipped_of k; done = empty k.helpers } };
}

pub(crate) struct DrawChunk;

impl Play<u8, View> for DrawChunk {
    ghost then = { drew_chunk };
}

pub(crate) struct DrawAged;

impl Play<u8, View> for DrawAged {
    ghost then = { drew_aged };
}

pub(crate) struct DrawOld;

impl Play<u8, View> for DrawOld {
    ghost then = { drew_old };
}

pub(crate) struct Look;

impl Play<u8, View> for Look {
    ghost then = { looked };
}

pub(crate) struct Try;

impl Play<u8, View> for Try {
    ghost then = { tried };
}

pub(crate) struct Cut;

impl Split<View> for Cut {
    ghost left = { λ u. does u (less_one u.done) };

    ghost right = { λ u. does u (empty 1) };
}

pub(crate) struct Glue;

impl Join<View> for Glue {
    ghost both = { λ u w. does u (both u.done w.done) };

    ghost spent = { record { skipped = 0; done = empty 0 } };
}
