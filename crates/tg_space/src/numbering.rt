//! The numbers that the cells of a heap had before a collection. The blocks of from-space may be gone by then, so cells
//! are named by their numbers.
ghost use Rattle.std.specs.Prelude.{◌≡◌, ◌<◌, ◌≤◌, ◌^◌, length};
ghost use Rattle.tg_word.specs.Word.{place_in};
ghost use Rattle.tg_space.specs.Numbering.{AreStarts, number_by};
ghost use Rattle.tg_space.specs.SpaceList.{cells_of};
ghost use Rattle.tg_space.specs.SpaceTable.{IsSpaceTable};

use crate::spaces::Spaces;
use tg_word::{CELLS, Place, SPACES, number_of, nursery_space, place_of};

// How many spaces there may be.
const MOST_SPACES: usize = SPACES as usize;

/// How many blocks were before each space of a heap. The numbers of its cells come from this. A collection may then put
/// other blocks in their place.
#[derive(Drop)]
pub struct Numbering {
    starts: [u64; MOST_SPACES],
}

impl Numbering {
    /// The numbers of the cells as they are now. Takes no memory.
    pub fn of(spaces: &Spaces) -> Numbering
        ensures starts { AreStarts result.starts spaces.now.spaces }
        ensures table { IsSpaceTable spaces.now }
        ensures few { length (cells_of spaces.now.spaces) ≤ 2 ^ 64 }
    {
        // It shows what holds of all spaces, and that their cells are few.
        let _ = spaces.cells();
        let mut starts = [0; MOST_SPACES];
        let mut before = 0;
        for space in 0..spaces.nurseries() + nursery_space(0) {
            starts[space as usize] = before;
            before += spaces.len(space);
        }
        Numbering { starts }
    }

    // The number of the cell that a word names.
    #[inline(always)]
    pub(crate) fn number(&self, word: u64) -> u64
        requires space { (place_in word).space < length self.now.starts }
        requires few { number_by self.now.starts (place_in word) < 2 ^ 64 }
        ensures { result ≡ number_by self.now.starts (place_in word) }
    {
        let space = place_of(word).space;
        CELLS * self.starts[space as usize] + number_of(word)
    }

    // The number of the cell at a place.
    #[inline(always)]
    pub(crate) fn number_at(&self, place: Place) -> u64
        requires space { place.space < length self.now.starts }
        requires few { number_by self.now.starts place < 2 ^ 64 }
        ensures { result ≡ number_by self.now.starts place }
    {
        CELLS * (self.starts[place.space as usize] + place.block) + place.cell
    }
}
