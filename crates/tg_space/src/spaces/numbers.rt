//! The numbers of cells. Those of Old come first, then those of Aged and of the nurseries, each space block by block.
ghost use Rattle.std.specs.Prelude.{◌≡◌, ◌<◌, ◌≤◌, ◌*◌, ◌^◌, [], length, slice_index_or};
ghost use Rattle.tg_block.specs.declared.TheConstants.{WORDS};
ghost use Rattle.tg_word.specs.Word.{place_in};
ghost use Rattle.tg_word.specs.declared.TheConstants.{MOST_SPACE_CELLS, SPACES};
ghost use Rattle.tg_space.specs.SpaceList.{HasCell, blocks_before, cells_of, flat_of};
ghost use Rattle.tg_space.specs.SpaceTable.{IsSpaceTable};

use crate::spaces::Spaces;
use tg_block::WORDS;
use tg_word::{CELLS, OLD, Place, number_of, place_of};

impl Spaces {
    /// How many cells there are.
    pub fn cells(&self) -> u64
        ensures cells { result ≡ length (cells_of self.now.spaces) }
        ensures few { result ≤ SPACES * MOST_SPACE_CELLS }
        ensures table { IsSpaceTable self.now }
    {
        CELLS * self.blocks()
    }

    /// The number of a cell. The cells of Old come first, then those of Aged and of the nurseries, each space block by
    /// block. It takes the same short time in every heap.
    #[inline(always)]
    pub fn flat(&self, place: Place) -> u64
        requires { HasCell self.now.spaces place }
        ensures flat { result ≡ flat_of self.now.spaces place }
        ensures inside { result < length (cells_of self.now.spaces) }
    {
        CELLS * (self.starts[place.space as usize] + place.block) + place.cell
    }

    /// The number of the cell that a word names.
    #[inline(always)]
    pub fn target_of(&self, word: u64) -> u64
        requires { HasCell self.now.spaces (place_in word) }
        ensures flat { result ≡ flat_of self.now.spaces (place_in word) }
        ensures inside { result < length (cells_of self.now.spaces) }
    {
        let space = place_of(word).space;
        if space == OLD {
            // It shows what holds of all spaces (`IsSpaceTable`).
            let _ = self.blocks();
            // No cell is before those of Old.
            return number_of(word);
        }
        CELLS * self.starts[space as usize] + number_of(word)
    }

    /// The place of the cell with a number.
    #[inline(always)]
    pub fn unflat(&self, number: u64) -> Place
        requires { number < length (cells_of self.now.spaces) }
        ensures held { HasCell self.now.spaces result }
        ensures flat { flat_of self.now.spaces result ≡ number }
    {
        self.unflat_from(number, OLD)
    }

    // The place of the cell with a number, which is looked for from a space on, unless it comes before this space.
    #[inline(always)]
    fn unflat_from(&self, number: u64, near: u64) -> Place
        requires { number < length (cells_of self.now.spaces) }
        ensures held { HasCell self.now.spaces result }
        ensures flat { flat_of self.now.spaces result ≡ number }
    {
        let block = number / CELLS;
        let mut space = self.first_searched(block, near) as usize;
        while self.starts[space + 1] <= block {
            space += 1;
        }
        Place {
            space: space as u64,
            block: block - self.starts[space],
            cell: number % CELLS,
        }
    }

    // This space, unless the block that has so many blocks before it comes before the space too. Then it is Old.
    #[inline(always)]
    fn first_searched(&self, block: u64, near: u64) -> u64
        ensures inside { result < length self.now.spaces }
        ensures before { blocks_before self.now.spaces result ≤ block }
    {
        if near < self.spaces.len() as u64 && self.starts[near as usize] <= block {
            near
        } else {
            OLD
        }
    }

    /// Lends the words of the cell with a number.
    #[inline(always)]
    pub fn numbered_words(&self, number: u64) -> &[u64; WORDS]
        requires { number < length (cells_of self.now.spaces) }
        ensures words { result.now ≡ slice_index_or (cells_of self.now.spaces) number [] }
        ensures whole { length result.now ≡ WORDS }
    {
        let mut near = OLD;
        self.words_near(number, &mut near)
    }

    /// Lends the words of the cell with a number. A cell that isn't of Old is found at once if it is in the space
    /// `near`, which then is the space of the cell. Cells that are asked for one after the other are mostly of one
    /// nursery.
    #[inline(always)]
    pub fn words_near(&self, number: u64, near: &mut u64) -> &[u64; WORDS]
        requires { number < length (cells_of self.now.spaces) }
        ensures words { result.now ≡ slice_index_or (cells_of self.now.spaces) number [] }
        ensures whole { length result.now ≡ WORDS }
    {
        let of_old = Place {
            space: OLD,
            block: number / CELLS,
            cell: number % CELLS,
        };
        // Most cells that are asked for are of Old, and need no search.
        if of_old.block < self.len(OLD) {
            return self.words(of_old);
        }
        let place = self.unflat_from(number, *near);
        *near = place.space;
        self.words(place)
    }
}
