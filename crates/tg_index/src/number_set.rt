//! A set of numbers. It has a bit for each number, and a bit above for each word that has a number of the set. So the
//! first number is found by two looks, and a look for the next number passes over 4,096 numbers at a step. To put a
//! number in or take a number out takes no memory.
//!
//! Contracts see the words of the lower bits.
ghost use Rattle.std.specs.Prelude.{◌≡◌, ℕ, List, ◌*◌, ◌^◌, ◌<◌, ◌≤◌, [], length, None, IfSome, OnOk};
ghost use Rattle.tg_index.specs.Bits.{AreMarks, IsFirstOf, IsNextFrom, SetsBit, bit_in};
ghost use Rattle.tg_index.specs.Inner.Steps.{MakesRoomFor, MayLengthen};

use crate::bits::{BITS, Bits, MOST_WORDS};
use std::alloc::{AllocError, Global};
use std::marker::Model;

/// A set of numbers below 2 ^ 32, which is gone through from the least on. There is room for the numbers below some
/// one.
#[derive(Drop)]
pub struct NumberSet {
    places: Bits,
    // The words of `places` that aren't 0.
    marks: Bits,
    // The first word of `marks` that isn't 0, or the number of them.
    least: usize,
}

impl Model for NumberSet {
    ghost use Rattle.std.specs.Prelude.{ℕ, List};
    ghost use Rattle.tg_index.specs.Bits.{AreMarks};

    ghost Value = { List ℕ };

    ghost view = { λ a. a.places.words.items };

    ghost invariant = { λ a. AreMarks a.places.words.items a.marks.words.items a.least };
}

impl NumberSet {
    /// No number. Takes no memory.
    pub fn new(alloc: Global) -> NumberSet
        ensures { result ≡ [] }
    {
        NumberSet {
            places: Bits::new(alloc),
            marks: Bits::new(alloc),
            least: 0,
        }
    }

    /// Makes room for the numbers below this one. Nothing else changes. Fails only when out of memory, or past 2 ^ 32.
    #[inline(always)]
    pub fn reserve(&mut self, numbers: usize) -> Result<(), AllocError>
        ensures room { OnOk result (numbers ≤ 64 * length self.new) }
        ensures kept { (n : ℕ) → bit_in self.new n ≡ bit_in self.old n }
    {
        if numbers <= self.places.words.len() * BITS {
            return Ok(());
        }
        self.reserve_words(numbers)
    }

    // Makes room for the numbers below this one, word by word.
    #[inline(never)]
    fn reserve_words(&mut self, numbers: usize) -> Result<(), AllocError>
        ensures { MakesRoomFor self.old self.new numbers result }
    {
        while self.room() < numbers {
            self.lengthen(self.room())?;
        }
        Ok(())
    }

    // Below which number there is room.
    #[inline(always)]
    fn room(&self) -> usize
        ensures room { result ≡ 64 * length self.now }
        ensures few { 64 * length self.now ≤ 2 ^ 32 }
    {
        self.places.words.len() * BITS
    }

    /// Makes the bit of a place after all that have one, or answers that there would be too many. Nothing else changes.
    #[inline(always)]
    pub(crate) fn lengthen(&mut self, place: usize) -> Result<(), AllocError>
        requires { place ≤ 64 * length self.old }
        ensures room { OnOk result (place < 64 * length self.new) }
        ensures words { MayLengthen self.old self.new }
    {
        let words = self.places.words.len();
        if place / 64 < words {
            return Ok(());
        }
        if words == MOST_WORDS {
            return Err(AllocError);
        }
        reserve_mark(words, &mut self.marks, &mut self.least)?;
        self.places.widen()?;
        Ok(())
    }

    /// The least number of the set.
    pub(crate) fn first(&self) -> Option<usize>
        ensures some { IfSome result (IsFirstOf self.now) }
        ensures none { result ≡ None → (n : ℕ) → bit_in self.now n ≡ 0 }
    {
        if self.least == self.marks.words.len() {
            return None;
        }
        let word = self.marks.first_in(self.least);
        Some(self.places.first_in(word))
    }

    /// The least number of the set from one on.
    pub fn next(&self, from: usize) -> Option<usize>
        ensures some { IfSome result (IsNextFrom self.now from) }
        ensures none { result ≡ None → (n : ℕ) → from ≤ n → bit_in self.now n ≡ 0 }
    {
        let word = from / BITS;
        if word >= self.places.words.len() {
            return None;
        }
        let left = self.places.words[word] >> (from % BITS);
        if left != 0 {
            return Some(from + left.trailing_zeros() as usize);
        }
        match self.marks.next(word + 1) {
            Some(later) => Some(self.places.first_in(later)),
            None => None,
        }
    }

    /// Takes all numbers out of the set. The room for them goes too, but its memory stays.
    pub fn clear(&mut self)
        ensures { self.new ≡ [] }
    {
        self.places.words.clear();
        self.marks.words.clear();
        self.least = 0;
    }

    /// Puts a number into the set, for which there is room. Takes no memory.
    pub fn insert(&mut self, place: usize)
        requires { place < 64 * length self.old }
        ensures { SetsBit self.old self.new place 1 }
    {
        let word = place / 64;
        self.places.insert(place);
        self.marks.insert(word);
        self.least = self.least.min(word / 64);
    }

    /// Takes a number out of the set. Takes no memory.
    pub fn remove(&mut self, place: usize)
        requires { bit_in self.old place ≡ 1 }
        ensures { SetsBit self.old self.new place 0 }
    {
        let word = place / 64;
        self.places.remove(place);
        if self.places.words[word] != 0 {
            return;
        }
        self.marks.remove(word);
        self.least = self.marks.first_word(self.least);
    }
}

// Makes a mark for one more word than these.
fn reserve_mark(words: usize, marks: &mut Bits, least: &mut usize) -> Result<(), AllocError>
    requires { words ≤ 64 * length marks.old.words.items }
    ensures room { OnOk result (words < 64 * length marks.new.words.items) }
    ensures kept { (lower : List ℕ) → length lower ≡ words → AreMarks lower marks.old.words.items least.old → AreMarks lower marks.new.words.items least.new }
{
    let end = marks.words.len();
    if words / 64 < end {
        return Ok(());
    }
    marks.widen()?;
    if *least < end {
        return Ok(());
    }
    *least = marks.words.len();
    Ok(())
}
