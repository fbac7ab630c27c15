//! A helper at its seat, which claims cells at the table that it shares with others.
ghost use Rattle.std.specs.Prelude.{◌≡◌, ℕ, ◌+◌, ◌*◌, ◌<◌, ◌≤◌, ◌==◌, ◌^◌, false, true, All, IsTrue};
ghost use Rattle.tg_word.specs.declared.TheConstants.{CELLS, MOST_SPACE_BLOCKS};
ghost use Rattle.tg_word.specs.Word.{IsPlace};
ghost use Rattle.tg_race.specs.Course.{has_met};
ghost use Rattle.tg_race.specs.Conditions.{can_claim_roots};
ghost use Rattle.tg_race.specs.Race.{with_chunk};
ghost use Rattle.tg_race.specs.Seats.{IsWordIn};
ghost use Rattle.tg_evac.specs.Walks.{ClaimsCell};
ghost use Rattle.tg_parallel.specs.Helping.{IsNew};
ghost use Rattle.tg_parallel.specs.Parts.{HasClaimedPast, HasPlaces};
ghost use Rattle.tg_parallel.specs.Seats.{AreEmptyLists, AreFilled, walked_at};

use crate::own_blocks::OwnBlocks;
use crate::winner::Winner;
use std::marker::Model;
use tg_evac::{Both, Claimer};
use tg_race::{CellWord, Helper, RaceTable};
use tg_space::{Kind, RoomFault};
use tg_word::OLD;

/// A helper with its own blocks, at the table that it shares with other helpers.
#[derive(Drop)]
pub struct Seat<'a> {
    kind: Kind,
    // How many blocks a space may have.
    limit: u64,
    table: &'a RaceTable,
    winner: Winner,
    aged: OwnBlocks,
    old: OwnBlocks,
}

/// The lists of a helper, which have room for all that it may come to have, so that none of them grows.
#[derive(Drop)]
pub struct Lists {
    /// The cells that it has won.
    pub won: Vec<u64>,
    /// The numbers of its blocks of Aged, in the order in which they were claimed.
    pub aged: Vec<u64>,
    /// Those of Old.
    pub old: Vec<u64>,
}

/// What a helper leaves its seat with.
#[derive(Drop)]
pub struct Left {
    /// The helper.
    pub helper: Helper,
    /// Its lists.
    pub lists: Lists,
}

impl<'a> Model for Seat<'a> {
    ghost use Rattle.tg_parallel.specs.Seats.{IsSeat, Sitting};

    ghost Value = { Sitting };

    ghost view = { λ s. record { kind = s.kind; limit = s.limit; board = s.table.now; done = s.winner.done } };

    ghost invariant = { λ s. IsSeat s.limit s.table.now s.winner s.aged s.old };
}

impl<'a> Seat<'a> {
    /// The seat of a helper that has done nothing yet.
    #[inline(always)]
    pub fn new(table: &'a RaceTable, helper: Helper, kind: Kind, limit: u64, lists: Lists) -> Self
        requires new { IsNew table.now helper }
        requires few { limit ≤ MOST_SPACE_BLOCKS }
        requires small { table.now.counts.cells < 2 ^ 61 }
        requires whole { table.now.table.id.words + CELLS * table.now.counts.kept ≡ table.now.counts.cells + 3 }
        requires lists { AreEmptyLists table.now.table.id.words lists }
        ensures { result ≡ record { kind = kind; limit = limit; board = table.now; done = helper.done } }
    {
        Seat {
            kind,
            limit,
            table,
            winner: Winner::new(helper, lists.won),
            aged: OwnBlocks::new(true, lists.aged),
            old: OwnBlocks::new(false, lists.old),
        }
    }

    /// Claims the next chunk of roots, and answers its number, which may be past the last.
    #[inline(always)]
    pub fn claim_chunk(&mut self) -> u64
        requires { IsTrue (can_claim_roots self.now.board.counts self.now.done) }
        ensures drawn { self.exit.now ≡ record self.entry.now { done = with_chunk self.entry.now.done result } }
        ensures fresh { All (λ c. c < result) self.entry.now.done.chunks }
    {
        self.winner.claim_roots(self.table)
    }

    /// What the helper leaves its seat with.
    #[inline(always)]
    pub fn into_left(self) -> Left
        ensures seat { result.helper.table ≡ self.entry.board.table }
        ensures done { result.helper.done ≡ self.entry.done }
        ensures places { All (λ q. IsPlace q.1 × (q.1.space < 2)) self.entry.done.won }
        ensures aged { (used : ℕ) × AreFilled true self.entry.done result.lists.aged.items used }
        ensures old { (used : ℕ) × AreFilled false self.entry.done result.lists.old.items used }
    {
        let Seat {
            winner,
            aged,
            old,
            ..
        } = self;
        let (helper, won) = winner.into_parts();
        Left {
            helper,
            lists: Lists {
                won,
                aged: aged.numbers,
                old: old.numbers,
            },
        }
    }

    // Gives a cell that has no place the next one of a space, unless another helper does so first, and answers its
    // word.
    #[inline(always)]
    fn give_word(&mut self, at: CellWord, space: u64) -> Result<u64, RoomFault>
        requires word { IsWordIn self.now.board at }
        requires two { space < 2 }
        requires unmet { has_met self.now.done at.cell ≡ false }
        ensures { ClaimsCell walked_at (λ s. HasPlaces s.done) (λ s. HasClaimedPast s.limit s.done) at.cell space self.entry.now self.exit.now result }
    {
        let mut both = Both {
            old: &mut self.old,
            aged: &mut self.aged,
        };
        both.one(space == OLD)
            .word_of(&mut self.winner, self.table, at, self.limit)
    }
}

impl<'a> Claimer for Seat<'a> {
    ghost use Rattle.tg_parallel.specs.Parts.{HasClaimedPast, HasPlaces};
    ghost use Rattle.tg_parallel.specs.Seats.{Fixed as FixedOf, walked_at};

    ghost Fixed = { FixedOf };

    ghost walked = { walked_at };

    ghost knows = { λ s. HasPlaces s.done };

    ghost is_full = { λ s. HasClaimedPast s.limit s.done };

    #[inline(always)]
    fn len(&self) -> usize {
        self.winner.len()
    }

    #[inline(always)]
    fn won_cell(&self, k: usize) -> u64 {
        self.winner.cell(k)
    }

    #[inline(always)]
    fn is_won_in_old(&self, k: usize) -> bool {
        self.winner.is_in_old(k)
    }

    #[inline(always)]
    fn claim(&mut self, cell: u64, space: u64) -> Result<u64, RoomFault> {
        let at = self.table.word_of(cell);
        let word = self.winner.look_word(self.table, at);
        if word != 0 {
            return Ok(word);
        }
        self.give_word(at, space)
    }
}
