//! Where the cells of a heap go.
ghost use Rattle.std.specs.Prelude.{◌≡◌, ◌≢◌, ◌<◌, ◌≤◌, ◌++◌, ℕ, length, replicate, slice_index, slice_set, IfOk};
ghost use Rattle.tg_space.specs.Forwarding.{words_in};

use std::alloc::{AllocError, Global};
use std::marker::Model;
use tg_closed::{ClosedWords, zeros};

/// The forwarding words of a collection by one thread. For each cell, by its flat number, there is the word of its new
/// place, or 0 if it has none. The first cells may be skipped. Their words are always 0, and take no memory.
///
/// The idea is that of a collector's forwarding addresses (Jones, Hosking and Moss, The Garbage Collection Handbook,
/// 2012). They are kept in a table of their own, so that the cells are only read.
#[derive(Drop)]
pub struct ForwardingTable {
    skipped: u64,
    words: Vec<u64>,
}

impl Model for ForwardingTable {
    ghost use Rattle.std.specs.Prelude.{◌++◌, replicate};
    ghost use Rattle.tg_space.specs.Forwarding.{ForwardingWords};

    ghost Value = { ForwardingWords };

    ghost view = { λ f. record { skipped = f.skipped; words = replicate f.skipped 0 ++ f.words.items } };
}

impl ForwardingTable {
    /// Makes a table with a word of 0 for each of `cells` cells, of which the first ones are skipped. The words of the
    /// others use the given room if it is large enough. Otherwise the room is dropped. The call is refused only if
    /// memory for these words was refused.
    #[inline(always)]
    pub fn new(alloc: Global, cells: u64, skipped: u64, room: Vec<u64>) -> Result<Self, AllocError>
        requires { skipped ≤ cells }
        ensures skipped { IfOk result (λ forward. forward.skipped ≡ skipped) }
        ensures words { IfOk result (λ forward. forward.words ≡ replicate cells 0) }
    {
        let words = zeros(alloc, (cells - skipped) as usize, room)?;
        Ok(ForwardingTable { skipped, words })
    }

    /// The word of a cell that isn't skipped.
    #[inline(always)]
    pub fn moved_word(&self, cell: u64) -> u64
        requires inside { cell < length self.now.words }
        requires moved { self.now.skipped ≤ cell }
        ensures { result ≡ slice_index self.now.words cell }
    {
        self.words[(cell - self.skipped) as usize]
    }

    /// Sets the word of a cell that isn't skipped.
    #[inline(always)]
    pub fn set(&mut self, cell: u64, word: u64)
        requires inside { cell < length self.old.words }
        requires kept { self.old.skipped ≤ cell }
        ensures words { self.new.words ≡ slice_set self.old.words cell word }
        ensures skipped { self.new.skipped ≡ self.old.skipped }
    {
        self.words[(cell - self.skipped) as usize] = word;
    }

    /// The words, which are given no more.
    pub fn into_forwarding(self) -> Forwarding
        ensures { result ≡ self }
    {
        Forwarding {
            skipped: self.skipped,
            words: Words::Listed(self.words),
        }
    }
}

/// The forwarding word of each cell, by its flat number. It is the word of its new place, or 0 if it has none. The
/// first cells may be skipped. Then their words are 0. The others are read where they were given, by one thread or by
/// several.
#[derive(Drop)]
pub struct Forwarding {
    skipped: u64,
    words: Words,
}

/// Where forwarding words are kept.
#[derive(Drop)]
pub enum Words {
    /// In one thread's table.
    Listed(Vec<u64>),
    /// In a table that several helpers shared.
    Closed {
        /// The words.
        words: ClosedWords,
        /// Room that a helper has no more use for.
        room: Vec<u64>,
    },
}

impl Model for Forwarding {
    ghost use Rattle.std.specs.Prelude.{◌++◌, replicate};
    ghost use Rattle.tg_space.specs.Forwarding.{ForwardingWords, words_in};

    ghost Value = { ForwardingWords };

    ghost view = { λ f. record { skipped = f.skipped; words = replicate f.skipped 0 ++ words_in f.words } };
}

impl Forwarding {
    /// Puts the words of a closed table after those of the skipped cells, with room for the next collection.
    pub fn of_closed(skipped: u64, words: ClosedWords, room: Vec<u64>) -> Self
        ensures { result ≡ record { skipped = skipped; words = replicate skipped 0 ++ words } }
    {
        Forwarding {
            skipped,
            words: Words::Closed { words, room },
        }
    }

    /// The room that the next collection may use. It is that of the words, if one thread gave them. Takes no memory.
    pub(crate) fn into_room(self) -> Vec<u64> {
        match self.words {
            Words::Listed(words) => words,
            Words::Closed { room, .. } => room,
        }
    }

    /// The word of a cell.
    #[inline(always)]
    pub fn word(&self, cell: u64) -> u64
        requires { cell < length self.now.words }
        ensures { result ≡ slice_index self.now.words cell }
    {
        if cell < self.skipped {
            return 0;
        }
        self.words.word((cell - self.skipped) as usize)
    }

    /// The first cell from `from` on whose word is 0, or `end` where each of those before `end` has another.
    pub fn next_unmoved(&self, from: u64, end: u64) -> u64
        requires order { from ≤ end }
        requires inside { end ≤ length self.now.words }
        ensures behind { from ≤ result }
        ensures before { result ≤ end }
        ensures moved { (cell : ℕ) → from ≤ cell → cell < result → slice_index self.now.words cell ≢ 0 }
        ensures unmoved { result < end → slice_index self.now.words result ≡ 0 }
    {
        for cell in from..end {
            if self.word(cell) == 0 {
                return cell;
            }
        }
        end
    }
}

impl Words {
    // The word with this number.
    #[inline(always)]
    fn word(&self, number: usize) -> u64
        requires { number < length (words_in self.now) }
        ensures { result ≡ slice_index (words_in self.now) number }
    {
        match self {
            Words::Listed(words) => words[number],
            Words::Closed { words, .. } => words.word(number),
        }
    }
}
