//! Sets of numbers as the bits of words. No change takes memory but `widen`.
ghost use Rattle.std.specs.Prelude.{◌≡◌, ◌≢◌, ℕ, ◌*◌, ◌^◌, ◌<◌, ◌≤◌, [], ◌∷◌, ◌++◌, length, slice_index, None, IfSome, OnErr, OnOk};
ghost use Rattle.tg_index.specs.Bits.{IsFirstFrom, IsNextFrom, SetsBit, bit_in};

use std::alloc::{AllocError, Global};

/// How many numbers a word has a bit for.
pub(crate) const BITS: usize = 64;

/// How many words a set may have. Its numbers are below 2 ^ 32.
pub(crate) const MOST_WORDS: usize = 1 << 26;

/// A set of numbers. Each number of the set has its bit set.
#[derive(Drop)]
pub(crate) struct Bits {
    pub(crate) words: Vec<u64>,
}

impl Bits {
    /// No number, and no bit. Takes no memory.
    pub(crate) fn new(alloc: Global) -> Bits
        ensures { result.words.items ≡ [] }
    {
        Bits {
            words: Vec::new(alloc),
        }
    }

    /// Makes the bits of one more word.
    pub(crate) fn widen(&mut self) -> Result<(), AllocError>
        ensures ok { OnOk result (self.new.words.items ≡ self.old.words.items ++ 0 ∷ []) }
        ensures err { OnErr result (self.new.words.items ≡ self.old.words.items) }
    {
        Ok(self.words.push(0)?)
    }

    /// Puts a number into the set.
    pub(crate) fn insert(&mut self, number: usize)
        requires { number < 64 * length self.old.words.items }
        ensures { SetsBit self.old.words.items self.new.words.items number 1 }
    {
        self.words[number / BITS] |= 1 << (number % BITS);
    }

    /// Takes a number out of the set.
    pub(crate) fn remove(&mut self, number: usize)
        requires { number < 64 * length self.old.words.items }
        ensures { SetsBit self.old.words.items self.new.words.items number 0 }
    {
        self.words[number / BITS] &= !(1 << (number % BITS));
    }

    /// The first number of the set in a word, which has one.
    pub(crate) fn first_in(&self, word: usize) -> usize
        requires some { slice_index self.now.words.items word ≢ 0 }
        requires few { 64 * length self.now.words.items < 2 ^ 64 }
        ensures { IsFirstFrom self.now.words.items word result }
    {
        word * BITS + self.words[word].trailing_zeros() as usize
    }

    /// The first word from one on that isn't 0, or the number of words.
    pub(crate) fn first_word(&self, from: usize) -> usize
        requires { from ≤ length self.now.words.items }
        ensures behind { from ≤ result }
        ensures within { result ≤ length self.now.words.items }
        ensures before { (w : ℕ) → from ≤ w → w < result → slice_index self.now.words.items w ≡ 0 }
        ensures found { result < length self.now.words.items → slice_index self.now.words.items result ≢ 0 }
    {
        let mut word = from;
        while word < self.words.len() && self.words[word] == 0 {
            word += 1;
        }
        word
    }

    /// The least number of the set from one on.
    pub(crate) fn next(&self, from: usize) -> Option<usize>
        requires { 64 * length self.now.words.items < 2 ^ 64 }
        ensures some { IfSome result (IsNextFrom self.now.words.items from) }
        ensures none { result ≡ None → (n : ℕ) → from ≤ n → bit_in self.now.words.items n ≡ 0 }
    {
        let word = from / BITS;
        if word >= self.words.len() {
            return None;
        }
        let left = self.words[word] >> (from % BITS);
        if left != 0 {
            return Some(from + left.trailing_zeros() as usize);
        }
        let later = self.first_word(word + 1);
        if later == self.words.len() {
            return None;
        }
        Some(self.first_in(later))
    }
}
