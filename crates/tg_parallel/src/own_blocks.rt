//! The places that a helper gives away. They are in its own blocks of a space, one after the other.
ghost use Rattle.std.specs.Prelude.{◌≡◌, ◌≤◌, [], false, vec_capacity};
ghost use Rattle.tg_word.specs.declared.TheConstants.{MOST_SPACE_BLOCKS};
ghost use Rattle.tg_race.specs.Seats.{IsWordIn};
ghost use Rattle.tg_parallel.specs.Inner.Places.{MayDraw, MayMakeReady};
ghost use Rattle.tg_parallel.specs.Seats.{AreReady, GivePlace, HasRoomFor, IsNumberDrawn, HoldsBlocks, KnowsNext};

use crate::links::word_to;
use crate::winner::Winner;
use tg_race::{CellWord, RaceTable};
use tg_space::RoomFault;
use tg_word::{AGED, CELLS, OLD, Place, next_link};

/// The blocks that a helper has claimed in a space, and what is left in the last of them.
#[derive(Drop)]
pub struct OwnBlocks {
    /// Whether the space is Aged, and not Old.
    pub aged: bool,
    /// The numbers of the blocks, in the order in which they were claimed.
    pub numbers: Vec<u64>,
    /// The word of the next place, in the last block. All others are full.
    pub next: u64,
    /// The word after that of the last place of the block. If it is the next word, no place is left.
    pub end: u64,
    /// Whether the last block is past the limit. Then it has no place to give.
    pub is_past: bool,
}

impl OwnBlocks {
    /// Begins with no block. The numbers of blocks go to this list, which is empty and doesn't grow.
    #[inline(always)]
    pub fn new(aged: bool, numbers: Vec<u64>) -> Self
        requires { numbers.items ≡ [] }
        ensures space { result.aged ≡ aged }
        ensures numbers { result.numbers.items ≡ [] }
        ensures room { vec_capacity result.numbers ≡ vec_capacity numbers }
        ensures next { result.next ≡ result.end }
        ensures within { result.is_past ≡ false }
    {
        OwnBlocks {
            aged,
            numbers,
            next: 0,
            end: 0,
            is_past: false,
        }
    }

    /// Returns the word of the place of a cell that the helper hasn't met. Another helper gave the cell its place, or
    /// it gets the next place of these blocks. A block is claimed late, for a cell that needs it.
    ///
    /// The call is refused with `HeapFull` if the block is past the limit. Takes no memory.
    #[inline(always)]
    pub fn word_of(
        &mut self,
        winner: &mut Winner,
        table: &RaceTable,
        at: CellWord,
        limit: u64,
    ) -> Result<u64, RoomFault>
        requires held { HoldsBlocks table.now winner.old self.now }
        requires word { IsWordIn table.now at }
        requires room { HasRoomFor table.now at.cell winner.old }
        requires limit { limit ≤ MOST_SPACE_BLOCKS }
        requires next { KnowsNext limit winner.old.done self.now }
        ensures { GivePlace limit at.cell self.entry.now winner.old self.exit.now winner.new result }
    {
        self.make_ready(winner, table, limit)?;
        Ok(winner.claim_next(table, at, self))
    }

    // Claims a block, where no place is left.
    //
    // It is small, and refers to the parts of the seat only by calls that are inlined here. So the seat is kept in
    // registers.
    #[inline(always)]
    fn make_ready(
        &mut self,
        winner: &mut Winner,
        table: &RaceTable,
        limit: u64,
    ) -> Result<(), RoomFault>
        requires { MayMakeReady limit table.now winner.old self.now }
        ensures { AreReady limit self.entry.now winner.old self.exit.now winner.new result }
    {
        if self.next != self.end {
            return Ok(());
        }
        if self.is_past {
            return Err(RoomFault::HeapFull);
        }
        let block = self.draw(winner, table);
        if block >= limit {
            self.is_past = true;
            return Err(RoomFault::HeapFull);
        }
        let space = if self.aged { AGED } else { OLD };
        self.next = word_to(Place {
            space,
            block,
            cell: 0,
        });
        self.end = next_link(word_to(Place {
            space,
            block,
            cell: CELLS - 1,
        }));
        Ok(())
    }

    // Claims a block, and answers its number. All blocks are full of won cells, and one cell isn't won: so the list
    // has room for one number more.
    #[inline(always)]
    fn draw(&mut self, winner: &mut Winner, table: &RaceTable) -> u64
        requires { MayDraw table.now winner.old self.now }
        ensures { IsNumberDrawn self.entry.now winner.old self.exit.now winner.new result }
    {
        let number = winner.claim_block(table, self.aged);
        self.numbers.push_reserved(number);
        number
    }
}
