//! All spaces of a heap.
ghost use Rattle.std.specs.Prelude.{◌≡◌, ◌<◌, ◌≤◌, ◌+◌, ◌*◌, ◌^◌, ◌↔◌, [], length, slice_index, slice_index_or, Err, IfOk, OnOk, OnErr, IsOk, IsTrue};
ghost use Rattle.tg_block.specs.declared.TheConstants.{WORDS};
ghost use Rattle.tg_block.specs.Cells.{free_cell};
ghost use Rattle.tg_word.specs.Word.{IsPlace, nursery_space};
ghost use Rattle.tg_word.specs.declared.TheConstants.{CELLS, MAX_NURSERIES, MOST_SPACE_BLOCKS, SPACES};
ghost use Rattle.tg_space.specs.SpaceList.{HasCell, IsEmptyFrom, block_count, cell_at, cells_of, flat_of, space_of, with_block, with_cell_at, with_word_at};
ghost use Rattle.tg_space.specs.SpaceTable.{IsFull, IsHandedOut, IsNursery, IsPrefixCount, IsSpaceTable, kept_blocks, no_blocks, place_in_space, used_of, with_adopted, with_one_used, with_spaces};

use crate::adoption::Adoption;
use crate::forwarding::Forwarding;
use crate::kind::Kind;
use crate::limits::Limits;
use crate::next_block::NextBlock;
use crate::room_fault::RoomFault;
use crate::space::Space;
use crate::space_list::{add_one, count_old_and_aged, empty_spaces, put_alone, put_behind};
use crate::spare::Spare;
use std::alloc::{AllocError, Global};
use std::marker::Model;
use std::mem;
use tg_block::{Block, WORDS};
use tg_word::{CELLS, OLD, Place, nursery_space};

mod numbers;

// How many spare blocks a nursery collection gives back that it doesn't need. They are so few that it hardly takes
// longer.
const GIVEN_BACK: u64 = 64;

/// All spaces of a heap: Old, Aged and the nurseries.
#[derive(Drop)]
pub struct Spaces {
    alloc: Global,
    spaces: Vec<Space>,
    // How many cells of each space were handed out. It is 0 for Old and Aged.
    used: Vec<u64>,
    // How many blocks are before each space, and at last how many there are.
    starts: Vec<u64>,
    limits: Limits,
    // What the last collection left for the next one to use.
    spare: Spare,
    // The block that the next space to grow gets, where a nursery collection kept one.
    next: NextBlock,
}

impl Model for Spaces {
    ghost use Rattle.tg_space.specs.SpaceTable.{SpaceTable, IsSpaceTable, IsPrefixCount};

    ghost Value = { SpaceTable };

    ghost view = { λ a. record { spaces = a.spaces.items; used = a.used.items; limits = a.limits } };

    ghost invariant = { λ a. IsSpaceTable (record { spaces = a.spaces.items; used = a.used.items; limits = a.limits }) × IsPrefixCount a.starts.items a.spaces.items };
}

impl Spaces {
    /// The spaces of a heap with so many nurseries, from 1 to `MAX_NURSERIES`. No space has a block.
    ///
    /// It is refused only where memory was.
    pub fn new(alloc: Global, nurseries: u64, limits: Limits) -> Result<Spaces, AllocError>
        requires some { 1 ≤ nurseries }
        requires few { nurseries ≤ MAX_NURSERIES }
        ensures { IfOk result (λ spaces. spaces ≡ no_blocks nurseries limits) }
    {
        let count = nursery_space(nurseries) as usize;
        let spaces = empty_spaces(alloc, count)?;
        let used = vec![in alloc; 0; count]?;
        let starts = vec![in alloc; 0; count + 1]?;
        Ok(Spaces {
            alloc,
            spaces,
            used,
            starts,
            limits,
            spare: Spare::none(alloc),
            next: NextBlock::none(),
        })
    }

    /// How many blocks the heap may have.
    pub fn limits(&self) -> Limits
        ensures limits { result ≡ self.now.limits }
        ensures table { IsSpaceTable self.now }
    {
        self.limits
    }

    /// How many nurseries there are, from 1 to `MAX_NURSERIES`.
    pub fn nurseries(&self) -> u64
        ensures spaces { nursery_space result ≡ length self.now.spaces }
        ensures table { IsSpaceTable self.now }
    {
        self.spaces.len() as u64 - nursery_space(0)
    }

    /// How many blocks a space has.
    #[inline]
    pub fn len(&self, space: u64) -> u64
        requires { space < length self.now.spaces }
        ensures blocks { result ≡ length (space_of self.now.spaces space) }
        ensures few { result ≤ MOST_SPACE_BLOCKS }
    {
        self.spaces[space as usize].len()
    }

    /// How many blocks all spaces have.
    pub fn blocks(&self) -> u64
        ensures blocks { result ≡ block_count self.now.spaces }
        ensures few { result ≤ SPACES * MOST_SPACE_BLOCKS }
        ensures table { IsSpaceTable self.now }
    {
        self.starts[self.spaces.len()]
    }

    /// How many cells of a nursery were handed out.
    #[inline]
    pub fn used(&self, space: u64) -> u64
        requires { space < length self.now.spaces }
        ensures used { result ≡ used_of self.now space }
        ensures within { result ≤ CELLS * length (space_of self.now.spaces space) }
        ensures table { IsSpaceTable self.now }
    {
        self.used[space as usize]
    }

    /// Whether a place names a cell.
    #[inline]
    pub fn holds(&self, place: Place) -> bool
        ensures { IsTrue result ↔ HasCell self.now.spaces place }
    {
        place.space < self.spaces.len() as u64
            && place.block < self.spaces[place.space as usize].len()
            && place.cell < CELLS
    }

    /// A word of a cell.
    #[inline]
    pub fn read(&self, place: Place, i: usize) -> u64
        requires held { HasCell self.now.spaces place }
        requires inside { i < WORDS }
        ensures { result ≡ slice_index (cell_at self.now.spaces place) i }
    {
        self.spaces[place.space as usize].word(place.block, place.cell, i)
    }

    /// Sets a word of a cell. Where the cell is in a nursery, it was handed out.
    #[inline]
    pub fn write(&mut self, place: Place, i: usize, word: u64)
        requires held { HasCell self.old.spaces place }
        requires inside { i < WORDS }
        requires handed_out { IsHandedOut self.old place }
        ensures { self.new ≡ with_spaces self.old (with_word_at self.old.spaces place i word) }
    {
        let space = &mut self.spaces[place.space as usize];
        space.set_word(place.block, place.cell, i, word);
    }

    /// Sets all words of a cell. Where the cell is in a nursery, it was handed out.
    #[inline]
    pub fn write_cell(&mut self, place: Place, words: [u64; WORDS])
        requires held { HasCell self.old.spaces place }
        requires handed_out { IsHandedOut self.old place }
        ensures { self.new ≡ with_spaces self.old (with_cell_at self.old.spaces place words) }
    {
        let space = &mut self.spaces[place.space as usize];
        space.set_cell(place.block, place.cell, words);
    }

    /// The words of a cell.
    #[inline]
    pub fn cell(&self, place: Place) -> [u64; WORDS]
        requires { HasCell self.now.spaces place }
        ensures words { result ≡ cell_at self.now.spaces place }
        ensures numbered { result ≡ slice_index_or (cells_of self.now.spaces) (flat_of self.now.spaces place) [] }
        ensures whole { length result ≡ WORDS }
        ensures table { IsSpaceTable self.now }
    {
        self.spaces[place.space as usize].cell(place.block, place.cell)
    }

    /// Lends the words of a cell.
    #[inline(always)]
    pub fn words(&self, place: Place) -> &[u64; WORDS]
        requires { HasCell self.now.spaces place }
        ensures words { result.now ≡ cell_at self.now.spaces place }
        ensures numbered { result.now ≡ slice_index_or (cells_of self.now.spaces) (flat_of self.now.spaces place) [] }
        ensures whole { length result.now ≡ WORDS }
        ensures table { IsSpaceTable self.now }
    {
        self.spaces[place.space as usize].words(place.block, place.cell)
    }

    /// Hands out the next cell of a nursery, which is free.
    ///
    /// The nursery has a cell that was not handed out: `used` is below 64 times `len`.
    pub fn hand_out(&mut self, space: u64) -> Place
        requires nursery { IsNursery self.old space }
        requires room { used_of self.old space < CELLS * length (space_of self.old.spaces space) }
        ensures place { result ≡ place_in_space space (used_of self.old space) }
        ensures held { HasCell self.old.spaces result }
        ensures free { cell_at self.old.spaces result ≡ free_cell }
        ensures counted { self.new ≡ with_one_used self.old space }
        ensures handed_out { IsHandedOut self.new result }
        ensures in_range { IsPlace result }
    {
        let used = self.used[space as usize];
        self.used[space as usize] = used + 1;
        Place {
            space,
            block: used / CELLS,
            cell: used % CELLS,
        }
    }

    /// Whether a space gets no more blocks. Then all spaces together have `max_blocks` or more, or it has
    /// `space_blocks`.
    pub fn is_full(&self, space: u64) -> bool
        requires { space < length self.now.spaces }
        ensures { IsTrue result ↔ IsFull self.now space }
    {
        self.blocks() >= self.limits.max_blocks() || self.len(space) >= self.limits.space_blocks()
    }

    /// Adds a block of free cells at the end of a space. It is a block that a nursery collection kept, or a new block.
    ///
    /// It is refused if memory runs out, or the space is full. Then nothing is changed.
    pub fn add_block(&mut self, space: u64) -> Result<(), RoomFault>
        requires { space < length self.old.spaces }
        ensures added { OnOk result (self.new ≡ with_spaces self.old (with_block self.old.spaces space)) }
        ensures table { OnOk result (IsSpaceTable self.new) }
        ensures refused { OnErr result (self.new ≡ self.old) }
        ensures full { (result ≡ Err RoomFault.HeapFull) ↔ IsFull self.old space }
    {
        if self.is_full(space) {
            return Err(RoomFault::HeapFull);
        }
        let block = self.next.take_or_new(self.alloc)?;
        let grown = &mut self.spaces[space as usize];
        grown.push(block)?;
        // From the space that grew on, one block more is before each space, and before the end.
        add_one(&mut self.starts[space as usize + 1..]);
        Ok(())
    }

    /// Replaces the blocks that a collection emptied by the blocks that it made.
    ///
    /// After a full collection Old has exactly the new blocks, and every other space has none. The call then takes no
    /// memory and isn't refused. After a nursery collection the new blocks of Old come after those that Old has, for
    /// which there has to be room. Aged then has exactly its new blocks, and the nurseries have none. That call is
    /// refused only if memory was refused, and then nothing is changed.
    ///
    /// Emptied blocks are kept as spare blocks for the next collection. After a full collection these are the earlier
    /// blocks of Old. After a nursery collection these are the earlier blocks of Aged, after the spare blocks that the
    /// collection didn't use. No more spare blocks are kept than the heap has blocks. A nursery collection keeps as
    /// many as it emptied, and drops 64 of the rest.
    ///
    /// A nursery collection also keeps the only block of the first nursery. The next space that grows gets this block.
    pub fn adopt(&mut self, kind: Kind, adoption: Adoption) -> Result<(), AllocError>
        requires { kind ≡ Kind.Nursery → kept_blocks kind self.old.spaces + length adoption.old ≤ MOST_SPACE_BLOCKS }
        ensures adopted { OnOk result (self.new ≡ with_adopted self.old kind adoption.aged adoption.old) }
        ensures refused { OnErr result (self.new ≡ self.old) }
        ensures full { kind ≡ Kind.Full → IsOk result }
        ensures table { OnOk result (IsSpaceTable self.new) }
    {
        let Adoption { aged, old, left } = adoption;
        match kind {
            Kind::Full => self.keep_only(old),
            Kind::Nursery => self.keep_old_and(aged, old, left)?,
        }
        Ok(())
    }

    /// What the last collection left, for the next one to use. Nothing is left then. Takes no memory.
    pub fn take_spare(&mut self) -> Spare
        ensures { self.new ≡ self.old }
    {
        mem::replace(&mut self.spare, Spare::none(self.alloc))
    }

    /// Keeps the room of forwarding words that nobody asks any more, for the next collection. It is 8 bytes for each
    /// cell of the last collection, and at most 32 bytes for each cell that the heap has now. Takes no memory.
    pub fn keep_words(&mut self, forward: Forwarding)
        ensures { self.new ≡ self.old }
    {
        let cells = self.cells();
        self.spare
            .keep_words(self.alloc, forward.into_room(), cells);
    }

    // How many spaces there are up to the last nursery that has a block: as many as a collection has to empty. Old and
    // Aged count always.
    fn filled(&self) -> usize
        ensures some { 2 ≤ result }
        ensures empty { IsEmptyFrom result self.now.spaces }
        ensures table { IsSpaceTable self.now }
    {
        let all = self.blocks();
        let mut filled = nursery_space(0) as usize;
        while self.starts[filled] < all {
            filled += 1;
        }
        filled
    }

    // Old is followed by these blocks, Aged is the other ones, and every nursery has none. Of the spare blocks and
    // those that Aged had as many are kept as the collection emptied.
    #[tactic(auto, using(crate::proofs::Tables::table_adopted))]
    fn keep_old_and(&mut self, aged: Space, old: Space, left: Vec<Block>) -> Result<(), AllocError>
        requires { length (space_of self.old.spaces 0) + length old ≤ MOST_SPACE_BLOCKS }
        ensures adopted { OnOk result (self.new ≡ with_adopted self.old Kind.Nursery aged old) }
        ensures refused { OnErr result (self.new ≡ self.old) }
        ensures table { OnOk result (IsSpaceTable self.new) }
    {
        let filled = self.filled();
        let young = self.blocks().saturating_sub(self.len(OLD));
        let used = self.used[nursery_space(0) as usize];
        let emptied = put_behind(self.alloc, &mut self.spaces, filled, aged, old, left)?;
        self.next.keep_only(emptied.nursery, used);
        self.used.fill(0);
        count_old_and_aged(&self.spaces, &mut self.starts);
        let most = self.starts[self.spaces.len()];
        let wanted = wanted_of(emptied.spare.len() as u64, young);
        self.spare.keep_blocks(emptied.spare, most.min(wanted));
        Ok(())
    }

    // Old is these blocks, and every other space has none.
    fn keep_only(&mut self, old: Space)
        ensures adopted { self.new ≡ with_adopted self.old Kind.Full [] old }
        ensures table { IsSpaceTable self.new }
    {
        let filled = self.filled();
        let emptied = put_alone(self.alloc, &mut self.spaces, filled, old);
        self.used.fill(0);
        count_old_and_aged(&self.spaces, &mut self.starts);
        let most = self.starts[self.spaces.len()];
        self.spare.keep_blocks(emptied, most);
    }
}

// How many of so many spare blocks stay after a nursery collection that emptied so many: the next one may need as many.
fn wanted_of(spare: u64, emptied: u64) -> u64 {
    emptied.max(spare.saturating_sub(GIVEN_BACK))
}
