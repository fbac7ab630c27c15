//! The events' conditions on a record, as tests.
ghost use Rattle.std.specs.Prelude.{◌≡◌, nat_lt};
ghost use Rattle.std.specs.List.{list_all};
ghost use Rattle.tg_race.specs.Words.{space_of_age};
ghost use Rattle.tg_race.specs.Race.{has_number, owns, used_in};
ghost use Rattle.tg_race.specs.Conditions.{uses, can_use, is_new, can_part, blocks_of, can_claim_block};

use crate::record::Record;
use std::collections::LinkedList;
use tg_word::{CELLS, Place};

// The number of the space that a collection copies into: Aged is 1 and Old is 0.
fn space_of(aged: bool) -> u64
    ensures { result ≡ space_of_age aged }
{
    if aged { 1 } else { 0 }
}

impl Record {
    pub(crate) fn chunks_below(&self, chunks: u64) -> bool
        ensures { result ≡ list_all (λ c. nat_lt c chunks) self.now.chunks }
    {
        self.chunks.iter().all(|c| *c < chunks)
    }

    // How many of the won cells lie in the block.
    fn used_in(&self, space: u64, block: u64) -> usize
        ensures { result ≡ used_in space block self.now.won }
    {
        self.won
            .iter()
            .filter(|q| q.1.space == space && block == q.1.block)
            .count()
    }

    fn blocks_of(&self, aged: bool) -> &LinkedList<u64>
        ensures { result.now ≡ blocks_of aged self.now }
    {
        if aged {
            &self.aged_blocks
        } else {
            &self.old_blocks
        }
    }

    // Whether each block of that space is full.
    pub(crate) fn can_claim_block(&self, aged: bool) -> bool
        ensures { result ≡ can_claim_block aged self.now }
    {
        let space = space_of(aged);
        self.blocks_of(aged)
            .iter()
            .all(|b| self.used_in(space, *b) >= CELLS as usize)
    }

    pub(crate) fn blocks_below(&self, aged: bool, limit: u64) -> bool
        ensures { result ≡ list_all (λ b. nat_lt b limit) (blocks_of aged self.now) }
    {
        self.blocks_of(aged).iter().all(|b| *b < limit)
    }

    fn owns(&self, place: Place) -> bool
        ensures { result ≡ owns self.now place }
    {
        match place.space {
            1 => has(&self.aged_blocks, place.block),
            0 => has(&self.old_blocks, place.block),
            _ => false,
        }
    }

    fn uses(&self, place: Place) -> bool
        ensures { result ≡ uses self.now place }
    {
        self.won.iter().any(|q| {
            q.1.space == place.space && q.1.block == place.block && q.1.cell == place.cell
        })
    }

    // Whether the place is unused in a block of its own.
    pub(crate) fn can_use(&self, place: Place) -> bool
        ensures { result ≡ can_use self.now place }
    {
        self.owns(place) && !self.uses(place)
    }

    fn is_new(&self) -> bool
        ensures { result ≡ is_new self.now }
    {
        self.chunks.is_empty()
            && self.won.is_empty()
            && self.seen.is_empty()
            && self.aged_blocks.is_empty()
            && self.old_blocks.is_empty()
    }

    pub(crate) fn can_part(&self) -> bool
        ensures { result ≡ can_part self.now }
    {
        self.is_new() && self.share > 1
    }
}

fn has(blocks: &LinkedList<u64>, block: u64) -> bool
    ensures { result ≡ has_number block blocks.now }
{
    blocks.iter().any(|b| *b == block)
}
