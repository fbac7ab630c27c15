//! A helper with the list of what it has won.
ghost use Rattle.std.specs.Prelude.{◌≡◌, ◌≢◌, ◌+◌, ◌<◌, ◌≤◌, ◌==◌, false, [], length, vec_capacity};
ghost use Rattle.tg_word.specs.Word.{IsPlace, place_in};
ghost use Rattle.tg_race.specs.Course.{has_met};
ghost use Rattle.tg_race.specs.Conditions.{MayLookAtWord};
ghost use Rattle.tg_race.specs.Race.{with_seen};
ghost use Rattle.tg_evac.specs.Claims.{win_at};
ghost use Rattle.tg_evac.specs.Claimers.{IsClaimLink};
ghost use Rattle.tg_parallel.specs.Inner.Places.{DrawsBlock, DrawsRoots, HasWonAt, MayDrawBlock, MayDrawRoots, MayFindNext};
ghost use Rattle.tg_parallel.specs.Parts.{wins_of};
ghost use Rattle.tg_parallel.specs.Seats.{FindsNext};

use crate::own_blocks::OwnBlocks;
use std::marker::Model;
use tg_race::{CellWord, Helper, RaceTable};
use tg_word::next_link;

/// A helper, and the cells that it has won, which its record has in proofs alone.
#[derive(Drop)]
pub struct Winner {
    helper: Helper,
    // Twice the number of each cell that was won, in the order in which they were, and 1 more where its copy is in
    // Aged.
    won: Vec<u64>,
}

impl Model for Winner {
    ghost use Rattle.std.specs.Prelude.{◌≡◌, ◌+◌, ◌≤◌, map, vec_capacity};
    ghost use Rattle.tg_race.specs.Seats.{Seated};
    ghost use Rattle.tg_parallel.specs.Parts.{note_of};

    ghost Value = { Seated };

    ghost view = { λ w. w.helper };

    ghost invariant = { λ w. (w.won.items ≡ map note_of w.helper.done.won) × (w.helper.table.id.words ≤ vec_capacity w.won + 3) };
}

impl Winner {
    /// A helper that has won nothing yet. Its list of won cells is kept in the room, and doesn't grow.
    #[inline(always)]
    pub fn new(helper: Helper, mut room: Vec<u64>) -> Self
        requires none { helper.done.won ≡ [] }
        requires room { helper.table.id.words ≤ vec_capacity room + 3 }
        ensures { result ≡ helper }
    {
        room.clear();
        Winner { helper, won: room }
    }

    /// The helper alone, and the room of the list.
    #[inline(always)]
    pub fn into_parts(self) -> (Helper, Vec<u64>)
        ensures { result.0 ≡ self }
    {
        (self.helper, self.won)
    }

    /// How many cells were won.
    #[inline(always)]
    pub fn len(&self) -> usize
        ensures { result ≡ length self.now.done.won }
    {
        self.won.len()
    }

    /// The cell that was won as the k-th.
    #[inline(always)]
    pub fn cell(&self, k: usize) -> u64
        requires { HasWonAt k self.now }
        ensures { result ≡ (win_at (wins_of self.now.done.won) k).cell }
    {
        self.won[k] / 2
    }

    /// Whether the copy of the cell that was won as the k-th is in Old.
    #[inline(always)]
    pub fn is_in_old(&self, k: usize) -> bool
        requires { HasWonAt k self.now }
        ensures { result ≡ ((place_in (win_at (wins_of self.now.done.won) k).word).space == 0) }
    {
        self.won[k] % 2 == 0
    }

    /// Claims the next chunk of roots, as the helper does.
    #[inline(always)]
    pub fn claim_roots(&mut self, table: &RaceTable) -> u64
        requires { MayDrawRoots table.now self.old }
        ensures { DrawsRoots self.old self.new result }
    {
        self.helper.claim_roots(table)
    }

    /// The word of the place that a cell has got, as the helper sees it, or 0 where it has none.
    #[inline(always)]
    pub fn look_word(&mut self, table: &RaceTable, at: CellWord) -> u64
        requires { MayLookAtWord self.old table.now at }
        ensures none { result ≡ 0 → self.new ≡ self.old }
        ensures some { result ≢ 0 → self.new ≡ record self.old { done = with_seen self.old.done (at.cell, place_in result) } }
        ensures place { result ≢ 0 → IsPlace (place_in result) }
        ensures link { result ≢ 0 → IsClaimLink result }
        ensures unmet { result ≡ 0 → has_met self.old.done at.cell ≡ false }
    {
        self.helper.look_word(table, at)
    }

    /// Gives a cell that the helper hasn't met the next place of these blocks, unless another helper gives it one
    /// first. Returns the word of the place that the cell has.
    #[inline(always)]
    pub fn claim_next(&mut self, table: &RaceTable, at: CellWord, blocks: &mut OwnBlocks) -> u64
        requires { MayFindNext table.now at self.old blocks.old }
        ensures { FindsNext at.cell blocks.old self.old blocks.new self.new result }
    {
        let word = blocks.next;
        let found = self.helper.claim_word(table, at, word);
        if found != 0 {
            return found;
        }
        self.won.push_reserved(2 * at.cell + u64::from(blocks.aged));
        blocks.next = next_link(word);
        word
    }

    /// Claims the next block of Aged or of Old, as the helper does.
    #[inline(always)]
    pub fn claim_block(&mut self, table: &RaceTable, aged: bool) -> u64
        requires { MayDrawBlock aged table.now self.old }
        ensures { DrawsBlock aged self.old self.new result }
    {
        self.helper.claim_block(table, aged)
    }
}
