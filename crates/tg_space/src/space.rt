//! One space.
ghost use Rattle.std.specs.Prelude.{◌≡◌, ◌<◌, ◌≤◌, ◌^◌, ◌+◌, ◌++◌, ◌∷◌, [], length, slice_index, slice_index_or, slice_set, vec_capacity, IfOk, OnOk, OnErr};
ghost use Rattle.tg_word.specs.declared.TheConstants.{CELLS, MOST_SPACE_BLOCKS};
ghost use Rattle.tg_block.specs.declared.TheConstants.{WORDS};
ghost use Rattle.tg_block.specs.Cells.{cell_of, with_word, free_block};
ghost use Rattle.tg_space.specs.SpaceList.{IsSpace};

use std::alloc::{AllocError, Global};
use std::marker::Model;
use tg_block::{Block, WORDS};

/// The blocks of one space, at most 1,048,576. Contracts see the list of its blocks, each a list of 64 cells of 8
/// words.
#[derive(Drop)]
pub struct Space {
    blocks: Vec<Block>,
}

impl Model for Space {
    ghost use Rattle.tg_space.specs.SpaceList.{BlockList, IsSpace};

    ghost Value = { BlockList };

    ghost view = { λ s. s.blocks.items };

    ghost invariant = { λ s. IsSpace s.blocks.items };
}

impl Space {
    /// A space with no block.
    pub fn new(alloc: Global) -> Self
        ensures { result ≡ [] }
    {
        Space {
            blocks: Vec::new(alloc),
        }
    }

    /// A space with no block, and room for so many.
    ///
    /// It is refused only where memory was.
    pub fn with_capacity(alloc: Global, blocks: usize) -> Result<Self, AllocError>
        ensures { IfOk result (λ space. space ≡ []) }
    {
        Ok(Space {
            blocks: Vec::with_capacity(alloc, blocks)?,
        })
    }

    /// How many blocks there are.
    #[inline]
    pub fn len(&self) -> u64
        ensures blocks { result ≡ length self.now }
        ensures few { result ≤ MOST_SPACE_BLOCKS }
        ensures whole { IsSpace self.now }
    {
        self.blocks.len() as u64
    }

    /// A word of a cell of a block.
    #[inline]
    pub fn word(&self, block: u64, cell: u64, i: usize) -> u64
        requires block_inside { block < length self.now }
        requires cell_inside { cell < CELLS }
        requires word_inside { i < WORDS }
        ensures { result ≡ slice_index (cell_of (slice_index_or self.now block []) cell) i }
    {
        self.blocks[block as usize].word(cell as usize, i)
    }

    /// The words of a cell of a block.
    #[inline]
    pub fn cell(&self, block: u64, cell: u64) -> [u64; WORDS]
        requires block_inside { block < length self.now }
        requires cell_inside { cell < CELLS }
        ensures { result ≡ cell_of (slice_index_or self.now block []) cell }
    {
        self.blocks[block as usize].cell(cell as usize)
    }

    /// Lends the words of a cell of a block.
    #[inline(always)]
    pub fn words(&self, block: u64, cell: u64) -> &[u64; WORDS]
        requires block_inside { block < length self.now }
        requires cell_inside { cell < CELLS }
        ensures { result.now ≡ cell_of (slice_index_or self.now block []) cell }
    {
        self.blocks[block as usize].words(cell as usize)
    }

    /// Sets a word of a cell of a block.
    #[inline]
    pub fn set_word(&mut self, block: u64, cell: u64, i: usize, word: u64)
        requires block_inside { block < length self.old }
        requires cell_inside { cell < CELLS }
        requires word_inside { i < WORDS }
        ensures changed { self.new ≡ slice_set self.old block (with_word (slice_index_or self.old block []) cell i word) }
        ensures whole { IsSpace self.new }
    {
        let block = &mut self.blocks[block as usize];
        block.set_word(cell as usize, i, word);
    }

    /// Sets the words of a cell of a block.
    #[inline]
    pub fn set_cell(&mut self, block: u64, cell: u64, words: [u64; WORDS])
        requires block_inside { block < length self.old }
        requires cell_inside { cell < CELLS }
        ensures changed { self.new ≡ slice_set self.old block (slice_set (slice_index_or self.old block []) cell words) }
        ensures whole { IsSpace self.new }
    {
        let block = &mut self.blocks[block as usize];
        block.set_cell(cell as usize, words);
    }

    /// Adds a block at the end.
    ///
    /// It is refused only if memory runs out. Then nothing is changed.
    #[inline]
    pub fn push(&mut self, block: Block) -> Result<(), AllocError>
        requires { length self.old < MOST_SPACE_BLOCKS }
        ensures added { OnOk result (self.new ≡ self.old ++ block ∷ []) }
        ensures whole { OnOk result (IsSpace self.new) }
        ensures refused { OnErr result (self.new ≡ self.old) }
    {
        self.blocks.push(block)?;
        Ok(())
    }

    /// Adds a block of free cells at the end.
    ///
    /// It is refused only if memory runs out. Then nothing is changed.
    pub fn add_block(&mut self, alloc: Global) -> Result<(), AllocError>
        requires { length self.old < MOST_SPACE_BLOCKS }
        ensures added { OnOk result (self.new ≡ self.old ++ free_block ∷ []) }
        ensures whole { OnOk result (IsSpace self.new) }
        ensures refused { OnErr result (self.new ≡ self.old) }
    {
        self.push(Block::new(alloc)?)
    }

    /// The blocks, in order.
    pub fn into_blocks(self) -> Vec<Block>
        ensures { result.items ≡ self }
    {
        self.blocks
    }

    /// Puts the blocks of another space after the own blocks. No block is copied. The call is refused only if memory
    /// was refused, and then nothing is changed.
    pub fn append(&mut self, other: Space) -> Result<(), AllocError>
        requires { length self.old + length other ≤ MOST_SPACE_BLOCKS }
        ensures appended { OnOk result (self.new ≡ self.old ++ other) }
        ensures whole { OnOk result (IsSpace self.new) }
        ensures refused { OnErr result (self.new ≡ self.old) }
    {
        self.blocks.reserve(other.blocks.len())?;
        push_all(&mut self.blocks, other.blocks);
        Ok(())
    }
}

/// Puts blocks after others, for which there is room. Takes no memory.
pub(crate) fn push_all(blocks: &mut Vec<Block>, more: Vec<Block>)
    requires { length blocks.old.items + length more.items ≤ vec_capacity blocks.old }
    ensures { blocks.new.items ≡ blocks.old.items ++ more.items }
{
    for block in more {
        blocks.push(block).unwrap();
    }
}
