//! Where a collection has the cells that words and places name.
ghost use Rattle.std.specs.Prelude.{◌≡◌, ◌<◌, ◌≤◌, drop, length, slice_index};
ghost use Rattle.std.specs.List.{All};
ghost use Rattle.tg_block.specs.declared.TheConstants.{WORDS};
ghost use Rattle.tg_word.specs.Word.{place_in};
ghost use Rattle.tg_space.specs.Collection.{new_place};
ghost use Rattle.tg_space.specs.Numbering.{AreStarts, IsNumbered, NamesNumbered, followed_place, followed_word, number_by, renamed_word};
ghost use Rattle.tg_space.specs.Soundness.{IsPointer};
ghost use Rattle.tg_space.specs.SpaceList.{SpaceList};
ghost use Rattle.tg_space.specs.Targets.{from_space, image_of, pointers_of};

use crate::forwarding::Forwarding;
use crate::kind::Kind;
use crate::numbering::Numbering;
use crate::pointers::first_pointer;
use tg_block::WORDS;
use tg_word::{Place, place_of, with_place};

/// Where a collection has what words and places name.
#[derive(Clone, Copy)]
pub struct Moves<'a> {
    /// The numbers of the cells as they were before it.
    pub numbering: &'a Numbering,
    /// Which cells it moved.
    pub kind: Kind,
    /// For each cell the word of its new place.
    pub forward: &'a Forwarding,
}

impl Moves<'_> {
    /// Returns a word that names the cell after the collection. It is the forwarding word of the cell, or the same word
    /// if the cell isn't moved.
    #[inline(always)]
    pub fn link(self, word: u64) -> u64
        requires { IsNumbered self.numbering.now.starts (length self.forward.now.words) (place_in word) }
        ensures { result ≡ followed_word (from_space self.entry.kind) self.entry.numbering.now.starts self.entry.forward.now.words word }
    {
        if self.kind.moves(place_of(word).space) {
            self.forwarding_word(word)
        } else {
            word
        }
    }

    /// Returns the forwarding word of the cell that a word names, whether a collection of this kind moves the cell or
    /// not. It is 0 if the cell wasn't copied.
    #[inline(always)]
    pub fn forwarding_word(self, word: u64) -> u64
        requires { IsNumbered self.numbering.now.starts (length self.forward.now.words) (place_in word) }
        ensures { result ≡ slice_index self.entry.forward.now.words (number_by self.entry.numbering.now.starts (place_in word)) }
    {
        self.forward.word(self.numbering.number(word))
    }

    /// Where the collection has the cell at a place.
    #[inline(always)]
    pub fn place(self, place: Place) -> Place
        requires { IsNumbered self.numbering.now.starts (length self.forward.now.words) place }
        ensures { result ≡ followed_place (from_space self.entry.kind) self.entry.numbering.now.starts (new_place self.entry.forward.now.words) place }
    {
        if self.kind.moves(place.space) {
            place_of(self.forward.word(self.numbering.number_at(place)))
        } else {
            place
        }
    }

    /// Returns the words of a cell with its references and its link moved. A word that names a moved cell gets the
    /// place in the forwarding word of that cell, and keeps its rights. All other words are equal. Takes no memory.
    #[inline(always)]
    pub fn image(self, words: [u64; WORDS]) -> [u64; WORDS]
        requires { All (NamesNumbered self.numbering.now.starts (length self.forward.now.words)) (pointers_of words) }
        ensures { (h : SpaceList) → AreStarts self.entry.numbering.now.starts h → All (IsPointer h) (pointers_of words) → result ≡ image_of (from_space self.entry.kind) h (new_place self.entry.forward.now.words) words }
    {
        let first = first_pointer(words[0]);
        [
            words[0],
            self.image_word(&words, first, 1),
            self.image_word(&words, first, 2),
            self.image_word(&words, first, 3),
            self.image_word(&words, first, 4),
            self.image_word(&words, first, 5),
            self.image_word(&words, first, 6),
            self.image_word(&words, first, 7),
        ]
    }

    // A word of the image of a cell whose words may name cells from one on.
    #[inline(always)]
    fn image_word(self, words: &[u64; WORDS], first: usize, i: usize) -> u64
        requires inside { i < WORDS }
        requires named { All (NamesNumbered self.numbering.now.starts (length self.forward.now.words)) (drop first words.now) }
        ensures below { i < first → result ≡ slice_index words.now i }
        ensures above { first ≤ i → result ≡ renamed_word (from_space self.entry.kind) self.entry.numbering.now.starts (new_place self.entry.forward.now.words) (slice_index words.now i) }
    {
        if i < first {
            return words[i];
        }
        self.renamed(words[i])
    }

    // The word with the new place of the cell that it names, where that cell is moved.
    #[inline(always)]
    fn renamed(self, word: u64) -> u64
        requires { NamesNumbered self.numbering.now.starts (length self.forward.now.words) word }
        ensures { result ≡ renamed_word (from_space self.entry.kind) self.entry.numbering.now.starts (new_place self.entry.forward.now.words) word }
    {
        if word == 0 || !self.kind.moves(place_of(word).space) {
            return word;
        }
        with_place(word, self.forwarding_word(word))
    }
}
