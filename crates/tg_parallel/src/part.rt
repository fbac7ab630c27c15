//! What a helper hands over.
ghost use Rattle.std.specs.Prelude.{◌≡◌, ◌<◌, ◌≤◌, ◌^◌, ◌⊎◌, ℕ, All, Contains, IfErr, IfOk, OnOk, drop, length, nat_lt, slice_index_or};
ghost use Rattle.std.specs.List.{list_all};
ghost use Rattle.std.specs.Vec.Iter.{into_iter_items};
ghost use Rattle.tg_word.specs.declared.TheConstants.{MOST_SPACE_CELLS};
ghost use Rattle.tg_block.specs.Cells.{free_block};
ghost use Rattle.tg_parallel.specs.Parts.{numbers_of};
ghost use Rattle.tg_parallel.specs.Seats.{AreLaidOut, block_at};

use std::alloc::{AllocError, Global};
use std::vec::IntoIter;
use tg_block::Block;
use tg_evac::Copies;
use tg_race::Helper;
use tg_space::{RoomFault, Space};

/// What a helper has copied, which is its blocks, each with its number. And the spare blocks that it had no use for.
#[derive(Drop)]
pub struct Part {
    /// Its blocks of Aged.
    pub aged: Vec<(u64, Block)>,
    /// Its blocks of Old.
    pub old: Vec<(u64, Block)>,
    /// Spare blocks that it didn't fill.
    pub left: Vec<Block>,
}

/// A helper that has done its work, and what it made.
#[derive(Drop)]
pub struct Helped {
    /// The helper.
    pub helper: Helper,
    /// What it made, or why it stopped.
    pub part: Result<Part, RoomFault>,
    /// Room that it has no more use for.
    pub room: Vec<u64>,
}

impl Part {
    /// The part of a helper that has made these copies, with the numbers of the blocks that it has claimed.
    ///
    /// It is refused with `HeapFull` where a number is past the limit, and with `OutOfMemory` where memory was refused.
    pub(crate) fn of(
        alloc: Global,
        copies: Copies,
        aged: &[u64],
        old: &[u64],
        limit: u64,
    ) -> Result<Part, RoomFault>
        requires aged_room { length copies.aged ≤ MOST_SPACE_CELLS }
        requires old_room { length copies.old ≤ MOST_SPACE_CELLS }
        ensures aged { IfOk result (λ part. AreLaidOut copies.aged aged.now part.aged.items) }
        ensures old { IfOk result (λ part. AreLaidOut copies.old old.now part.old.items) }
        ensures left { IfOk result (λ part. part.left.items ≡ copies.spare.items) }
        ensures aged_few { OnOk result (All (λ b. b < limit) aged.now) }
        ensures old_few { OnOk result (All (λ b. b < limit) old.now) }
        ensures full { IfErr result (λ fault. fault ≡ RoomFault.HeapFull → (b : ℕ) × (Contains aged.now b ⊎ Contains old.now b) × (limit ≤ b)) }
    {
        if !are_below(aged, limit) {
            return Err(RoomFault::HeapFull);
        }
        if !are_below(old, limit) {
            return Err(RoomFault::HeapFull);
        }
        Ok(Part::numbered(alloc, copies, aged, old)?)
    }

    // The part of a helper whose numbers are all below the limit.
    fn numbered(
        alloc: Global,
        copies: Copies,
        aged: &[u64],
        old: &[u64],
    ) -> Result<Part, AllocError>
        requires aged_room { length copies.aged ≤ MOST_SPACE_CELLS }
        requires old_room { length copies.old ≤ MOST_SPACE_CELLS }
        ensures aged { IfOk result (λ part. AreLaidOut copies.aged aged.now part.aged.items) }
        ensures old { IfOk result (λ part. AreLaidOut copies.old old.now part.old.items) }
        ensures left { IfOk result (λ part. part.left.items ≡ copies.spare.items) }
    {
        let blocks = copies.finish()?;
        Ok(Part {
            aged: laid_out(alloc, aged, blocks.aged)?,
            old: laid_out(alloc, old, blocks.old)?,
            left: blocks.left,
        })
    }
}

// Whether all numbers are below the limit.
fn are_below(numbers: &[u64], limit: u64) -> bool
    ensures { result ≡ list_all (λ b. nat_lt b limit) numbers.now }
{
    for number in numbers {
        if *number >= limit {
            return false;
        }
    }
    true
}

// As many of these blocks as there are numbers, each with its number, and free ones after the last.
fn laid_out(alloc: Global, numbers: &[u64], blocks: Space) -> Result<Vec<(u64, Block)>, AllocError>
    ensures numbered { IfOk result (λ laid. numbers_of laid.items ≡ numbers.now) }
    ensures each { IfOk result (λ laid. (i : ℕ) → i < length numbers.now → block_at laid.items i ≡ slice_index_or blocks i free_block) }
{
    let mut blocks = blocks.into_blocks().into_iter();
    let mut laid = Vec::with_capacity(alloc, numbers.len())?;
    for number in numbers {
        let block = next_block(alloc, &mut blocks)?;
        laid.push_reserved((*number, block));
    }
    Ok(laid)
}

// The next of these blocks, and a free one where there is none.
fn next_block(alloc: Global, blocks: &mut IntoIter<Block>) -> Result<Block, AllocError>
    ensures block { IfOk result (λ block. block ≡ slice_index_or (into_iter_items blocks.old) 0 free_block) }
    ensures rest { OnOk result (into_iter_items blocks.new ≡ drop 1 (into_iter_items blocks.old)) }
{
    match blocks.next() {
        Some(block) => Ok(block),
        None => Block::new(alloc),
    }
}
