//! Two sets of numbers, two bits for each number.
ghost use Rattle.std.specs.Prelude.{◌≡◌};
ghost use Rattle.tg_could.specs.Separation.{pair_in, is_first, is_second};

use crate::search::growth::table;
use std::alloc::{AllocError, Global};

// How many numbers have their two bits in one word.
const PAIRS: u64 = 32;

/// Two sets of numbers. Each number has a bit for the second set, and above it a bit for the first. Numbers past the
/// last word are in none.
#[derive(Drop)]
pub(crate) struct Pairs {
    words: Vec<u64>,
}

impl Pairs {
    /// Empty sets of so many numbers. Notes whether memory ran out.
    pub(crate) fn none(alloc: Global, count: usize, grown: &mut Result<(), AllocError>) -> Pairs {
        let words = count.div_ceil(PAIRS as usize);
        Pairs {
            words: table(alloc, 0, words, grown),
        }
    }

    /// The two bits of a number, with those of the following numbers above them.
    #[tactic(auto, unfolding(crate::specs::Separation::pair_in))]
    pub(crate) fn pair(&self, number: u64) -> u64
        ensures { result ≡ pair_in self.now.words.items number }
    {
        match self.words.get((number / PAIRS) as usize) {
            Some(word) => *word >> (number % PAIRS * 2),
            None => 0,
        }
    }

    /// Puts a number into one of the sets. Whether it wasn't there.
    pub(crate) fn put(&mut self, number: u64, first: bool) -> bool {
        let at = (number / PAIRS) as usize;
        if at >= self.words.len() {
            return false;
        }
        let bit = 1 << (number % PAIRS * 2 + first as u64);
        let new = self.words[at] & bit == 0;
        self.words[at] |= bit;
        new
    }
}

/// Whether the two bits of a number are those of one in the first set.
#[tactic(auto, unfolding(crate::specs::Separation::is_first))]
pub(crate) fn is_in_first(pair: u64) -> bool
    ensures { result ≡ is_first pair }
{
    pair >> 1 & 1 == 1
}

/// Whether the two bits of a number are those of one in the second set.
#[tactic(auto, unfolding(crate::specs::Separation::is_second))]
pub(crate) fn is_in_second(pair: u64) -> bool
    ensures { result ≡ is_second pair }
{
    pair & 1 == 1
}
