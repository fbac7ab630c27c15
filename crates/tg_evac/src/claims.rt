//! The plain table of claims, which one thread has for itself.
ghost use Rattle.std.specs.Prelude.{◌≡◌, ◌≢◌, ◌+◌, ◌<◌, ◌≤◌, ◌==◌, ◌*◌, [], length, slice_index, IfErr, IfOk};
ghost use Rattle.std.specs.List.{Contains};
ghost use Rattle.tg_word.specs.declared.TheConstants.{CELLS, MOST_SPACE_BLOCKS, MOST_SPACE_CELLS};
ghost use Rattle.tg_evac.specs.Claims.{HasFilledRoom};
ghost use Rattle.tg_evac.specs.Claimers.{HasPlacesOf, IsClaimLink, walked_of};
ghost use Rattle.tg_evac.specs.Walks.{HasClaimed, MayClaim};

use crate::claimer::Claimer;
use crate::plan::Plan;
use std::alloc::Global;
use std::marker::Model;
use tg_space::{ForwardingTable, RoomFault};
use tg_word::{CELLS, OLD, link, place_of};

/// What one collection has claimed. It is the forwarding word of each cell, and the cells that were won, in order.
#[derive(Drop)]
pub struct Claims {
    plan: Plan,
    /// The forwarding word of each cell, 0 where it has none.
    pub forward: ForwardingTable,
    // The numbers of the cells that were won, in the order in which they were. A cell's word is in the table.
    won: Vec<u64>,
    // The number of the next new cell of Old, and of Aged.
    next: [u64; 2],
}

impl Model for Claims {
    ghost use Rattle.std.specs.Prelude.{◌≡◌, ◌*◌, ◌-◌, ◌≤◌, length, vec_capacity};
    ghost use Rattle.std.specs.List.{All};
    ghost use Rattle.tg_word.specs.declared.TheConstants.{CELLS};
    ghost use Rattle.tg_evac.specs.Claims.{Claimed, AreClaims, wins_at};

    ghost Value = { Claimed };

    ghost view = { λ c. record { plan = c.plan; forward = c.forward.words; won = wins_at c.forward.words c.won.items; next = c.next } };

    ghost invariant = { λ c. AreClaims (record { plan = c.plan; forward = c.forward.words; won = wins_at c.forward.words c.won.items; next = c.next }) × (c.forward.skipped ≡ CELLS * c.plan.kept) × All (λ w. CELLS * c.plan.kept ≤ w.cell) (wins_at c.forward.words c.won.items) × (length c.forward.words - CELLS * c.plan.kept ≤ vec_capacity c.won) };
}

impl Claims {
    /// Begins with no claim, over as many cells. The cells of the blocks that stay have no forwarding word. The words
    /// of the others are kept in the given room, as `ForwardingTable::new` says.
    #[inline(always)]
    pub fn new(alloc: Global, cells: u64, plan: Plan, room: Vec<u64>) -> Result<Self, RoomFault>
        requires room { plan.room ≤ MOST_SPACE_CELLS }
        requires kept { plan.kept ≤ MOST_SPACE_BLOCKS }
        requires within { CELLS * plan.kept ≤ cells }
        ensures won { IfOk result (λ claims. claims.won ≡ []) }
        ensures whole { IfOk result (λ claims. length claims.forward ≡ cells) }
        ensures plan { IfOk result (λ claims. claims.plan ≡ plan) }
        ensures refused { IfErr result (λ fault. fault ≡ RoomFault.OutOfMemory) }
    {
        let kept = CELLS * plan.kept;
        Ok(Claims {
            plan,
            forward: ForwardingTable::new(alloc, cells, kept, room)?,
            // There is room for every cell that may be won at once, so the list never grows.
            won: Vec::with_capacity(alloc, (cells - kept) as usize)?,
            next: [kept, 0],
        })
    }

    // The word of a cell that is moved. If it isn't 0, it is that of the cell's pair.
    #[inline(always)]
    fn word(&self, cell: u64) -> u64
        requires inside { cell < length self.now.forward }
        requires moved { CELLS * self.now.plan.kept ≤ cell }
        ensures word { result ≡ slice_index self.now.forward cell }
        ensures won { result ≢ 0 → Contains self.now.won (record { cell = cell; word = result }) }
        ensures link { result ≢ 0 → IsClaimLink result }
    {
        self.forward.moved_word(cell)
    }

    // Gives a cell the next place of a space, and answers its word.
    #[inline(always)]
    fn give_place(&mut self, cell: u64, space: u64) -> Result<u64, RoomFault>
        requires claim { MayClaim (walked_of self.old) cell space }
        requires none { slice_index self.old.forward cell ≡ 0 }
        ensures { HasClaimed cell space self.old self.new result }
    {
        let number = self.next[space as usize];
        if self.plan.room <= number {
            return Err(RoomFault::HeapFull);
        }
        let word = link(space, number);
        self.forward.set(cell, word);
        self.won.push_reserved(cell);
        self.next[space as usize] = number + 1;
        Ok(word)
    }
}

impl Claimer for Claims {
    ghost Fixed = { Unit {0} };

    ghost walked = { walked_of };

    ghost knows = { λ c. HasPlacesOf c.won };

    ghost is_full = { HasFilledRoom };

    #[inline(always)]
    fn len(&self) -> usize {
        self.won.len()
    }

    #[inline(always)]
    fn won_cell(&self, k: usize) -> u64 {
        self.won[k]
    }

    #[inline(always)]
    fn is_won_in_old(&self, k: usize) -> bool {
        place_of(self.forward.moved_word(self.won[k])).space == OLD
    }

    #[inline(always)]
    fn claim(&mut self, cell: u64, space: u64) -> Result<u64, RoomFault> {
        let found = self.word(cell);
        if found != 0 {
            return Ok(found);
        }
        self.give_place(cell, space)
    }
}
