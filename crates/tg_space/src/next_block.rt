//! The block that the next space to grow gets.
ghost use Rattle.std.specs.Prelude.{◌≡◌, ◌≢◌, ◌≤◌, ◌∷◌, [], length, Some, None, IfOk, IfSome};
ghost use Rattle.tg_word.specs.declared.TheConstants.{CELLS};
ghost use Rattle.tg_block.specs.Cells.{free_block};
ghost use Rattle.tg_space.specs.SpaceTable.{IsFreeBehind};

use crate::space::Space;
use std::alloc::{AllocError, Global};
use std::marker::Model;
use tg_block::{Block, WORDS};

/// The block of free cells that the next space to grow gets, or none. It counts for no limit.
///
/// A nursery collection keeps the only block of the first nursery here. Only the cells that were handed out need to be
/// zeroed. A new block is zeroed whole.
#[derive(Drop)]
pub struct NextBlock {
    free: Option<Block>,
}

impl Model for NextBlock {
    ghost use Rattle.std.specs.Prelude.{◌≡◌, Option, List, ℕ, IfSome};
    ghost use Rattle.tg_block.specs.Cells.{free_block};

    ghost Value = { Option (List (List ℕ)) };

    ghost view = { λ n. n.free };

    ghost invariant = { λ n. IfSome n.free (λ block. block ≡ free_block) };
}

impl NextBlock {
    /// No block is kept.
    pub fn none() -> Self
        ensures { result ≡ None }
    {
        NextBlock { free: None }
    }

    /// The block that is kept, or a new block of free cells. No block is kept then.
    ///
    /// It is refused only where no block is kept and memory for a new one is refused.
    pub fn take_or_new(&mut self, alloc: Global) -> Result<Block, AllocError>
        ensures free { IfOk result (λ block. block ≡ free_block) }
        ensures none { self.new ≡ None }
    {
        match self.free.take() {
            Some(block) => Ok(block),
            None => Block::new(alloc),
        }
    }

    /// Keeps the only block of a nursery of which so many cells were handed out, as a block of free cells. A nursery
    /// with no block or with several changes nothing. Takes no memory.
    pub fn keep_only(&mut self, nursery: Space, used: u64)
        requires { IsFreeBehind used nursery }
        ensures one { length nursery ≡ 1 → self.new ≡ Some free_block }
        ensures other { length nursery ≢ 1 → self.new ≡ self.old }
    {
        if let Some(block) = only_block(nursery) {
            self.free = Some(emptied(block, used));
        }
    }
}

// The block of a space that has one block.
fn only_block(space: Space) -> Option<Block>
    ensures one { IfSome result (λ block. space ≡ block ∷ []) }
    ensures other { result ≡ None → length space ≢ 1 }
{
    let mut blocks = space.into_blocks();
    if blocks.len() != 1 {
        return None;
    }
    blocks.pop()
}

// The block with so many first cells zeroed. The other cells are free.
fn emptied(block: Block, used: u64) -> Block
    requires { IsFreeBehind used (block ∷ []) }
    ensures { result ≡ free_block }
{
    let mut cells = block.into_cells();
    for at in 0..used as usize {
        cells[at] = [0; WORDS];
    }
    Block::of(cells)
}
