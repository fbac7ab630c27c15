//! New blocks of a space, filled cell after cell.
ghost use Rattle.std.specs.Prelude.{◌≡◌, ◌<◌, ◌≤◌, ◌-◌, ◌++◌, [], length, replicate, vec_capacity, IfOk, OnOk};
ghost use Rattle.std.specs.List.{flat_map};
ghost use Rattle.tg_word.specs.declared.TheConstants.{CELLS, MOST_SPACE_CELLS};
ghost use Rattle.tg_block.specs.Cells.{IsBlock, free_cell};
ghost use Rattle.tg_space.specs.SpaceList.{IsSpace};
ghost use Rattle.tg_space.specs.Targets.{pointers_of};
ghost use Rattle.tg_evac.specs.Claimers.{AddsCopy};
ghost use Rattle.tg_evac.specs.Copies.{HaveOpenBlock, HoldCells, IsOpenBlock};
ghost use Rattle.tg_evac.specs.Inner.Blocks.{HasClosed, MayCloseBlock};
ghost use Rattle.tg_evac.specs.Walks.{ClaimsNamedBy, MayMove};

use crate::claimer::Claimer;
use crate::walk::Walk;
use std::alloc::{AllocError, Global};
use std::marker::Model;
use std::mem;
use tg_block::{Block, WORDS};
use tg_space::{RoomFault, Space};
use tg_word::CELLS;

/// A won cell that is to be copied.
#[derive(Clone, Copy)]
pub struct Original<'a> {
    /// Its words.
    pub words: &'a [u64; WORDS],
    /// Whether its copy is in Old.
    pub is_in_old: bool,
}

/// The blocks that a collection makes in a space. Contracts see the list of their cells.
///
/// A block takes its 4 KiB when its first cell comes, or has those of a spare block, and none of them is zeroed first.
#[derive(Drop)]
pub struct NewBlocks {
    alloc: Global,
    full: Space,
    // The cells after the full blocks. There is room for all of a block.
    last: Vec<[u64; WORDS]>,
}

impl Model for NewBlocks {
    ghost use Rattle.std.specs.Prelude.{ℕ, List, ◌++◌};
    ghost use Rattle.std.specs.List.{flat_map};
    ghost use Rattle.tg_evac.specs.Copies.{HaveOpenBlock};

    ghost Value = { List (List ℕ) };

    ghost view = { λ b. flat_map (λ block. block) b.full ++ b.last.items };

    ghost invariant = { λ b. HaveOpenBlock b.full b.last };
}

impl NewBlocks {
    /// No cell yet. It is refused only where memory for the first block was.
    pub fn new(alloc: Global) -> Result<NewBlocks, AllocError>
        ensures { IfOk result (λ blocks. blocks ≡ []) }
    {
        Ok(NewBlocks {
            alloc,
            full: Space::new(alloc),
            last: Vec::with_capacity(alloc, CELLS as usize)?,
        })
    }

    /// Puts the copy of a cell after the others. The cells that its words name are claimed and its words moved, in
    /// place. If the copy is in Old, these cells go straight to Old. A block that is opened is one of the spare ones,
    /// as long as there are any.
    ///
    /// The call is refused as a claim is, or with `OutOfMemory` if memory for a block was refused.
    #[inline(always)]
    pub fn push_copy<C: Claimer>(
        &mut self,
        spare: &mut Vec<Block>,
        claimer: &mut C,
        walk: Walk<'_>,
        original: Original<'_>,
    ) -> Result<(), RoomFault>
        requires room { length self.old < MOST_SPACE_CELLS }
        requires may { MayMove walk.kind walk.spaces.now.spaces (pointers_of original.words.now) (C.walked claimer.old) }
        ensures claims { ClaimsNamedBy C.walked C.knows C.is_full walk.entry.spaces.now.spaces original.entry.is_in_old original.entry.words.now claimer.old claimer.new result }
        ensures copied { OnOk result (AddsCopy (C.walked claimer.old).kind walk.entry.spaces.now.spaces (C.knows claimer.new) original.entry.words.now self.old self.new) }
    {
        make_room(self.alloc, spare, &mut self.full, &mut self.last)?;
        let at = self.last.len();
        self.last.push_reserved(*original.words);
        walk.move_cell(claimer, original.is_in_old, &mut self.last[at])
    }

    /// Returns the blocks, with free cells after the last used one. The call is refused only if memory was refused.
    pub fn finish(self) -> Result<Space, AllocError>
        requires { length self ≤ MOST_SPACE_CELLS }
        ensures cells { IfOk result (λ blocks. HoldCells self blocks) }
        ensures whole { IfOk result IsSpace }
    {
        let NewBlocks { mut full, last, .. } = self;
        if last.is_empty() {
            return Ok(full);
        }
        full.push(Block::of(padded(last)?))?;
        Ok(full)
    }
}

// Opens a block, where the open one has no room for a cell more.
#[inline(always)]
fn make_room(
    alloc: Global,
    spare: &mut Vec<Block>,
    full: &mut Space,
    last: &mut Vec<[u64; WORDS]>,
) -> Result<(), AllocError>
    requires open { HaveOpenBlock full.old last.old }
    requires room { length (flat_map (λ block. block) full.old ++ last.old.items) < MOST_SPACE_CELLS }
    ensures open { HaveOpenBlock full.new last.new }
    ensures ready { OnOk result (length last.new.items < CELLS) }
    ensures same { OnOk result (flat_map (λ block. block) full.new ++ last.new.items ≡ flat_map (λ block. block) full.old ++ last.old.items) }
{
    if last.len() < CELLS as usize {
        return Ok(());
    }
    close(alloc, spare, full, last)
}

// Makes the cells of an open block a full one after the others, and opens the next.
#[inline(never)]
fn close(
    alloc: Global,
    spare: &mut Vec<Block>,
    full: &mut Space,
    last: &mut Vec<[u64; WORDS]>,
) -> Result<(), AllocError>
    requires { MayCloseBlock full.old last.old }
    ensures { HasClosed full.old last.old full.new last.new result }
{
    let cells = mem::replace(last, open_cells(alloc, spare)?);
    full.push(Block::of(cells))
}

// No cell, with room for those of a block: the room of a spare block, where there is one.
fn open_cells(alloc: Global, spare: &mut Vec<Block>) -> Result<Vec<[u64; WORDS]>, AllocError>
    ensures empty { IfOk result (λ cells. cells.items ≡ []) }
    ensures room { IfOk result (λ cells. CELLS ≤ vec_capacity cells) }
{
    match spare.pop() {
        Some(block) => Ok(emptied(block)),
        None => Vec::with_capacity(alloc, CELLS as usize),
    }
}

// The room of a block, without its cells.
fn emptied(block: Block) -> Vec<[u64; WORDS]>
    ensures empty { result.items ≡ [] }
    ensures room { CELLS ≤ vec_capacity result }
{
    let mut cells = block.into_cells();
    cells.clear();
    cells
}

// These cells, and as many free ones as a block has room for after them.
fn padded(mut cells: Vec<[u64; WORDS]>) -> Result<Vec<[u64; WORDS]>, AllocError>
    requires { IsOpenBlock cells.items }
    ensures cells { IfOk result (λ padded. padded.items ≡ cells.items ++ replicate (CELLS - length cells.items) free_cell) }
    ensures whole { IfOk result (λ padded. IsBlock padded.items) }
{
    while cells.len() < CELLS as usize {
        cells.push([0; WORDS])?;
    }
    Ok(cells)
}
