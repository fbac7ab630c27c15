//! A helper, which is a seat at the table. Each call is one event of the race, and ensures what that event does to the
//! record.
ghost use Rattle.std.specs.Prelude.{◌≡◌, ◌≢◌, ◌<◌, false, IfSome, IfNone, Some, All};
ghost use Rattle.tg_word.specs.declared.Place.{Place as PlaceOf};
ghost use Rattle.tg_word.specs.Word.{IsPlace};
ghost use Rattle.tg_race.specs.Race.{HasMet, empty, with_chunk, with_seen, with_won, with_claimed_block, both, less_one};
ghost use Rattle.tg_race.specs.Board.{IsRecorded};
ghost use Rattle.tg_race.specs.Words.{IsForward, place_of};
ghost use Rattle.tg_race.specs.Conditions.{MayAct, MayClaimCell, MayClaimWord, MayLookAtCell, MayLookAtWord, SitTogether, blocks_of, can_claim_roots, can_claim_block, can_part};
ghost use Rattle.tg_race.specs.Course.{has_met};
ghost use Rattle.tg_race.specs.Claims.{claimed, place_found};

use crate::links::{place_in, word_to};
use crate::plays::{Cut, DrawAged, DrawChunk, DrawOld, Glue, Look, Try, View};
use crate::race_table::{CellWord, RaceTable};
use atomic_table::Seat;
use std::marker::Model;
use tg_word::Place;

/// What a claim of a cell found.
#[derive(Clone, Copy)]
pub enum Claim {
    /// The cell had no place, and has the one that was offered now.
    Won,
    /// The cell has had this place before.
    Lost(Place),
}

/// A helper at the table. It takes no memory, and no call of it waits.
///
/// A clause sees the table that it sits at and what it has done (`done`, its record).
#[derive(Drop)]
pub struct Helper {
    pub(crate) seat: Seat<u8, View>,
}

impl Model for Helper {
    ghost use Rattle.std.specs.Prelude.{◌≡◌, ◌<◌, []};
    ghost use Rattle.tg_race.specs.Seats.{Seated};

    ghost Value = { Seated };

    ghost view = { λ h. record { table = record { id = h.seat.table_id; skipped = h.seat.me.0.skipped }; done = h.seat.me.0.done } };

    ghost invariant = { λ h. (h.seat.me.1 ≡ []) × (0 < h.seat.me.0.done.share) };
}

impl Helper {
    /// Makes another helper, of share 1, and keeps the rest of its own share.
    pub fn split(&mut self, table: &RaceTable) -> Helper
        requires { MayAct self.old table.now (can_part self.old.done) }
        ensures kept { self.new ≡ record self.old { done = less_one self.old.done } }
        ensures made { (result.table ≡ self.old.table) × (result.done ≡ empty 1) }
    {
        let seat = table.table.shared.split_seat::<Cut>(&mut self.seat);
        Helper { seat }
    }

    /// Takes in all that another helper has done, with its share.
    pub fn join(&mut self, table: &RaceTable, other: Helper)
        requires { SitTogether self.old other table.now }
        ensures { self.new ≡ record self.old { done = both self.old.done other.done } }
    {
        let Helper { seat } = other;
        table.table.shared.join_seat::<Glue>(&mut self.seat, seat);
    }

    /// Claims the next chunk of roots, and answers its number, which may be past the last. It is greater than those of
    /// all chunks that the helper claimed before.
    pub fn claim_roots(&mut self, table: &RaceTable) -> u64
        requires { MayAct self.old table.now (can_claim_roots table.now.counts self.old.done) }
        ensures drawn { self.new ≡ record self.old { done = with_chunk self.old.done result } }
        ensures fresh { All (λ c. c < result) self.old.done.chunks }
    {
        table
            .table
            .shared
            .fetch_add::<DrawChunk>(&mut self.seat, 0, 1)
    }

    /// The place that a cell has got, if it has one. The helper has then seen it. A cell that the helper has won or
    /// seen before has one, and it is the same.
    #[inline(always)]
    pub fn look(&mut self, table: &RaceTable, cell: u64) -> Option<Place>
        requires { MayLookAtCell self.old table.now cell }
        ensures none { IfNone result (self.new ≡ self.old) }
        ensures some { IfSome result (λ p. self.new ≡ record self.old { done = with_seen self.old.done (cell, p) }) }
        ensures place { IfSome result IsPlace }
        ensures unmet { IfNone result (has_met self.old.done cell ≡ false) }
        ensures known { (p : PlaceOf) → IsPlace p → HasMet self.old.done cell p → result ≡ Some p }
    {
        let word = self.look_word(table, table.word_of(cell));
        if word == 0 {
            None
        } else {
            Some(place_in(word))
        }
    }

    /// The word of the place that a cell has got, or 0 where it has none. The helper has then seen it.
    #[inline(always)]
    pub fn look_word(&mut self, table: &RaceTable, at: CellWord) -> u64
        requires { MayLookAtWord self.old table.now at }
        ensures none { result ≡ 0 → self.new ≡ self.old }
        ensures some { result ≢ 0 → self.new ≡ record self.old { done = with_seen self.old.done (at.cell, place_of result) } }
        ensures forward { result ≢ 0 → IsForward result }
        ensures known { IsRecorded self.old.done at.cell result }
    {
        table.table.shared.load::<Look>(&mut self.seat, at.number)
    }

    /// Gives a cell this place, if it has none. The place is unused, in a block that the helper has claimed.
    ///
    /// One exchange decides whether the cell was won or lost. A place that a cell has never changes.
    #[inline(always)]
    pub fn claim_cell(&mut self, table: &RaceTable, cell: u64, place: Place) -> Claim
        requires { MayClaimCell self.old table.now cell place }
        ensures done { self.new ≡ record self.old { done = claimed self.old.done cell place result } }
        ensures place { IsPlace (place_found place result) }
    {
        let found = self.claim_word(table, table.word_of(cell), word_to(place));
        if found == 0 {
            return Claim::Won;
        }
        Claim::Lost(place_in(found))
    }

    /// Gives a cell the place in a word, if it has none, and returns 0. Otherwise it returns the word of the place that
    /// the cell has.
    #[inline(always)]
    pub fn claim_word(&mut self, table: &RaceTable, at: CellWord, word: u64) -> u64
        requires { MayClaimWord self.old table.now at word }
        ensures won { result ≡ 0 → self.new ≡ record self.old { done = with_won self.old.done (at.cell, place_of word) } }
        ensures lost { result ≢ 0 → self.new ≡ record self.old { done = with_seen self.old.done (at.cell, place_of result) } }
        ensures forward { result ≢ 0 → IsForward result }
    {
        table
            .table
            .shared
            .compare_exchange::<Try>(&mut self.seat, at.number, 0, word)
    }

    /// Claims the next block of Aged or of Old, and returns its number. The number is greater than those of all blocks
    /// of that space that the helper claimed before. These blocks are full.
    pub fn claim_block(&mut self, table: &RaceTable, aged: bool) -> u64
        requires { MayAct self.old table.now (can_claim_block aged self.old.done) }
        ensures drawn { self.new ≡ record self.old { done = with_claimed_block aged self.old.done result } }
        ensures fresh { All (λ b. b < result) (blocks_of aged self.old.done) }
    {
        if aged {
            table
                .table
                .shared
                .fetch_add::<DrawAged>(&mut self.seat, 1, 1)
        } else {
            table
                .table
                .shared
                .fetch_add::<DrawOld>(&mut self.seat, 2, 1)
        }
    }
}
