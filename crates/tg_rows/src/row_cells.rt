//! The cells of a long row. See 'Rows and their indexes' in docs/inside/ARCHITECTURE.md.
ghost use Rattle.std.specs.Prelude.{◌≡◌, ◌<◌, ◌++◌, ◌∷◌, ◌^◌, [], Some, length, map, slice_get, OnOk};
ghost use Rattle.tg_word.specs.Word.{place_in};

use std::alloc::AllocError;
use std::marker::Model;
use tg_word::{Place, place_of};

/// The cells of a row, in chain order. Each is given by the link to it, or another word that names it.
#[derive(Drop)]
pub struct RowCells {
    // Only their places count.
    pub(crate) words: Vec<u64>,
}

impl Model for RowCells {
    ghost use Rattle.std.specs.Prelude.{◌-◌, map, vec_len};
    ghost use Rattle.std.specs.Vec.{vec_capacity};
    ghost use Rattle.tg_rows.specs.Inner.Cells.{CellList};
    ghost use Rattle.tg_word.specs.Word.{place_in};

    ghost Value = { CellList };

    ghost view = { λ a. record { items = map place_in a.words.items; spare = vec_capacity a.words - vec_len a.words } };
}

impl RowCells {
    /// The cells that these words name. Takes no memory.
    pub(crate) fn of_words(words: Vec<u64>) -> RowCells
        ensures { result.items ≡ map place_in words.items }
    {
        RowCells { words }
    }

    /// How many there are.
    #[inline(always)]
    pub fn len(&self) -> usize
        ensures len { result ≡ length self.now.items }
        ensures few { length self.now.items < 2 ^ 60 }
    {
        // Of a slice it is known how long it may be.
        self.words.as_slice().len()
    }

    /// A word that names the first cell.
    #[inline(always)]
    pub(crate) fn first_word(&self) -> u64
        requires { 0 < length self.now.items }
        ensures { slice_get self.now.items 0 ≡ Some (place_in result) }
    {
        self.words[0]
    }

    /// The cell with a number.
    #[inline(always)]
    pub fn place(&self, number: usize) -> Place
        requires { number < length self.now.items }
        ensures { slice_get self.now.items number ≡ Some result }
    {
        place_of(self.words[number])
    }

    /// Makes room for one more cell. Nothing else changes.
    #[inline(always)]
    pub(crate) fn reserve(&mut self) -> Result<(), AllocError>
        ensures room { OnOk result (0 < self.new.spare) }
        ensures items { self.new.items ≡ self.old.items }
    {
        self.words.reserve(1)
    }

    /// Adds the cell that a word names after the others. There is room for it.
    #[inline(always)]
    pub(crate) fn push(&mut self, word: u64)
        requires { 0 < self.old.spare }
        ensures { self.new.items ≡ self.old.items ++ place_in word ∷ [] }
    {
        self.words.push(word).unwrap();
    }
}
