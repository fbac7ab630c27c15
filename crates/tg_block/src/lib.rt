//! Blocks of cells.
//!
//! The heap grows by blocks. A block has 64 cells, and a cell has 8 words of 64 bits:
//!
//! ```text
//!            word 0   1      2            3          4          5          6          7
//!  free      0        0      0            0          0          0          0          0
//!  object    1        name   payload key  0          reference  reference  reference  next chunk
//!  chunk     2        reference ..                                         reference  next chunk
//! ```
//!
//! The first word of a cell is its tag. It says whether the cell is free, an object or a chunk, and a cell with another
//! tag is bad. The meaning of references is defined in crates above. Code knows the layout by the constants of this
//! crate. A function that writes a whole cell writes its words in the order of the table.
//!
//! The cells of a block are one allocation of 4 KiB, which is zeroed in place. A block moves by its pointer. Therefore
//! its cells never move, and a list of blocks grows without copying them.
//!
//! Contracts see a block as a list of 64 cells, and a cell as a list of 8 words. A call that sets a word or a cell
//! changes it alone.
#![tactic(auto)]

ghost use Rattle.std.specs.Prelude.{◌≡◌, ℕ, ◌<◌, List, IfOk, slice_index, slice_set};
ghost use Rattle.tg_word.specs.declared.TheConstants.{CELLS};
ghost use Rattle.tg_block.specs.declared.TheConstants.{WORDS};
ghost use Rattle.tg_block.specs.Cells.{IsBlock, cell_of, kind_of, with_word, free_block, all_are_zero};

use std::alloc::{AllocError, Global};
use std::marker::Model;
use tg_word::CELLS;

/// How many words a cell has.
pub const WORDS: usize = 8;

/// The first word of an object.
pub const OBJECT_TAG: u64 = 1;

/// The first word of a chunk.
pub const CHUNK_TAG: u64 = 2;

/// The word of an object that is its name.
pub const NAME: usize = 1;

/// The word of an object that is the key of its payload.
pub const KEY: usize = 2;

/// The first word of an object that may name another cell. Its references and its link begin here.
pub const OBJECT_POINTERS: usize = 4;

/// The first word of a chunk that may name another cell.
pub const CHUNK_POINTERS: usize = 1;

/// The word of an object or a chunk that links to the next chunk.
pub const LINK: usize = 7;

/// What a cell is.
#[derive(Clone, Copy, PartialEq, Eq, Debug)]
pub enum CellKind {
    /// All words are 0.
    Free,
    /// A vertex. The first word is 1.
    Object,
    /// More references of a vertex. The first word is 2.
    Chunk,
    /// None of these.
    Bad,
}

/// 64 cells of 8 words.
#[derive(Drop)]
pub struct Block {
    cells: Vec<[u64; WORDS]>,
}

impl Model for Block {
    ghost Value = { List (List ℕ) };

    ghost view = { λ b. b.cells.items };

    ghost invariant = { λ b. IsBlock b.cells.items };
}

impl Block {
    /// A block of free cells. It is refused only if memory for its 4 KiB runs out.
    pub fn new(alloc: Global) -> Result<Block, AllocError>
        ensures { IfOk result (λ block. block ≡ free_block) }
    {
        let cells = vec![in alloc; [0; WORDS]; CELLS as usize]?;
        Ok(Block { cells })
    }

    /// The block of these cells.
    #[inline]
    pub fn of(cells: Vec<[u64; WORDS]>) -> Block
        requires { IsBlock cells.items }
        ensures { result ≡ cells.items }
    {
        Block { cells }
    }

    /// The cells, in a list that has room for as many.
    #[inline]
    pub fn into_cells(self) -> Vec<[u64; WORDS]>
        ensures cells { result.items ≡ self }
        ensures whole { IsBlock result.items }
    {
        self.cells
    }

    /// A word of a cell.
    #[inline]
    pub fn word(&self, cell: usize, i: usize) -> u64
        requires cell_inside { cell < CELLS }
        requires word_inside { i < WORDS }
        ensures word { result ≡ slice_index (cell_of self.now cell) i }
        ensures block { IsBlock self.now }
    {
        self.cells[cell][i]
    }

    /// Sets a word of a cell. All other words stay.
    #[inline]
    pub fn set_word(&mut self, cell: usize, i: usize, word: u64)
        requires cell_inside { cell < CELLS }
        requires word_inside { i < WORDS }
        ensures { self.new ≡ with_word self.old cell i word }
    {
        self.cells[cell][i] = word;
    }

    /// The words of a cell.
    #[inline]
    pub fn cell(&self, at: usize) -> [u64; WORDS]
        requires { at < CELLS }
        ensures words { result ≡ cell_of self.now at }
        ensures block { IsBlock self.now }
    {
        self.cells[at]
    }

    /// Lends the words of a cell.
    #[inline(always)]
    pub fn words(&self, at: usize) -> &[u64; WORDS]
        requires { at < CELLS }
        ensures words { result.now ≡ cell_of self.now at }
        ensures block { IsBlock self.now }
    {
        &self.cells[at]
    }

    /// Sets the words of a cell. All other cells stay.
    #[inline]
    pub fn set_cell(&mut self, at: usize, words: [u64; WORDS])
        requires { at < CELLS }
        ensures { self.new ≡ slice_set self.old at words }
    {
        self.cells[at] = words;
    }

    /// What a cell is.
    pub fn kind(&self, cell: usize) -> CellKind
        requires { cell < CELLS }
        ensures { result ≡ kind_of (cell_of self.now cell) }
    {
        let words = &self.cells[cell];
        match words[0] {
            0 if is_all_zero(words) => CellKind::Free,
            OBJECT_TAG => CellKind::Object,
            CHUNK_TAG => CellKind::Chunk,
            _ => CellKind::Bad,
        }
    }
}

// Whether each of the words is 0.
fn is_all_zero(words: &[u64]) -> bool
    ensures { result ≡ all_are_zero words.now }
{
    words.iter().all(|word| *word == 0)
}
