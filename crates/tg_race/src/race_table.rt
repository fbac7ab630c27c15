//! The table of forwarding words.
ghost use Rattle.std.specs.Prelude.{◌≡◌, ◌+◌, ◌*◌, ◌++◌, ◌^◌, ◌<◌, ◌≤◌, IfOk, length, replicate};
ghost use Rattle.tg_word.specs.declared.TheConstants.{CELLS, MOST_SPACE_BLOCKS};
ghost use Rattle.tg_race.specs.Race.{empty};
ghost use Rattle.tg_race.specs.Board.{IsClosedTable};
ghost use Rattle.tg_race.specs.Seats.{IsWordIn};

use crate::helper::Helper;
use crate::plays::{Forwards, View};
use crate::record::Counts;
use atomic_table::Table;
use std::alloc::{AllocError, Global};
use std::marker::Model;
use tg_closed::{ClosedWords, zeros};
use tg_word::CELLS;

// How many words are in front of those of the cells.
const COUNTERS: usize = 3;

/// The table that the helpers of one collection share. It has three counters and a word for each cell that may move.
/// The cells of the blocks that Old keeps have no word, because they don't move.
///
/// A clause sees which table it is and the numbers with which it was opened. All helpers use it at once, each through
/// its own `Helper` and a `&RaceTable`.
#[derive(Drop)]
pub struct RaceTable {
    pub(crate) table: Table<u8, View, Counts, Forwards, Global>,
    pub(crate) counts: Counts,
    // How many cells lie in the blocks that Old keeps.
    skipped: u64,
}

/// The word of a cell in the table. It is asked for once where it is looked at and then claimed.
#[derive(Clone, Copy)]
pub struct CellWord {
    /// The cell's flat number.
    pub cell: u64,
    /// The number of its word, counted after the counters.
    pub number: usize,
}

/// A table that was opened.
#[derive(Drop)]
pub struct Opened {
    /// The table, in which no cell has a place.
    pub table: RaceTable,
    /// Its first helper, whose record is that of all helpers.
    pub helper: Helper,
    /// The room in which its words were laid out first. It holds them still.
    pub room: Vec<u64>,
}

impl Model for RaceTable {
    ghost use Rattle.std.specs.Prelude.{◌≡◌, ◌+◌, ◌^◌, ◌<◌, ◌≤◌};
    ghost use Rattle.tg_race.specs.Board.{skipped_of};
    ghost use Rattle.tg_race.specs.Seats.{Board};

    ghost Value = { Board };

    ghost view = { λ f. record { table = record { id = f.table.shared.table_id; skipped = skipped_of f.counts }; counts = f.counts } };

    ghost invariant = { λ f. (f.table.shared.key ≡ f.counts) × (f.table.shared.table_id.words + skipped_of f.counts ≡ f.counts.cells + 3) × (f.table.shared.table_id.slots ≡ 0) × (skipped_of f.counts ≤ f.counts.cells) × (f.counts.cells < 2 ^ 61) × (f.skipped ≡ skipped_of f.counts) };
}

impl RaceTable {
    /// Opens a table in which no cell has a place, with its first helper, whose record is that of all helpers.
    ///
    /// Only this call takes memory, which is a word for each cell that isn't in one of Old's `kept` blocks. Those
    /// blocks come first, so `kept` is also the number of Old's first new block. The words are laid out in the room
    /// that is handed in, as `tg_closed::zeros` does, and the room is handed back.
    pub fn open(
        alloc: Global,
        cells: u64,
        roots: u64,
        kept: u64,
        helpers: u32,
        room: Vec<u64>,
    ) -> Result<Opened, AllocError>
        requires few { cells < 2 ^ 61 }
        requires kept { kept ≤ MOST_SPACE_BLOCKS }
        requires within { CELLS * kept ≤ cells }
        requires some { 0 < helpers }
        ensures counts { IfOk result (λ opened. opened.table.counts ≡ record { cells = cells; roots = roots; kept = kept; helpers = helpers }) }
        ensures first { IfOk result (λ opened. (opened.helper.table ≡ opened.table.table) × (opened.helper.done ≡ empty helpers)) }
        ensures room { IfOk result (λ opened. length opened.room.items ≡ opened.table.table.id.words) }
    {
        let counts = Counts {
            cells,
            roots,
            kept,
            helpers,
        };
        let skipped = CELLS * kept;
        let moved = (cells - skipped) as usize;
        let mut words = zeros(alloc, moved + COUNTERS, room)?;
        words[2] = counts.kept;
        let (table, seat) = Table::of_words(alloc, words.as_slice(), &counts)?;
        let shared = RaceTable {
            table,
            counts,
            skipped,
        };
        Ok(Opened {
            table: shared,
            helper: Helper { seat },
            room: words,
        })
    }

    /// How many words it has. It has three counters, and a word for each cell that isn't in a block that Old keeps.
    pub fn len(&self) -> usize
        ensures len { result ≡ self.now.table.id.words }
        ensures whole { result + CELLS * self.now.counts.kept ≡ self.now.counts.cells + 3 }
        ensures small { self.now.counts.cells < 2 ^ 61 }
    {
        (self.counts.cells - self.skipped) as usize + COUNTERS
    }

    /// Returns the words of the cells that Old doesn't keep, once the record of the helper that is left is that of all.
    ///
    /// Suppose that each cell that Old keeps gets a 0. Then these words and the record are those of a race under the
    /// rule with that one record.
    pub fn close(self, helper: Helper) -> ClosedWords
        requires own { helper.table ≡ self.table }
        requires all { helper.done.share ≡ self.counts.helpers }
        ensures { IsClosedTable self.counts (replicate (CELLS * self.counts.kept) 0 ++ result) helper.done }
    {
        let RaceTable { table, .. } = self;
        let Helper { seat } = helper;
        ClosedWords::of(table.close_with(seat), COUNTERS)
    }

    /// The word of a cell that isn't in a block that Old keeps.
    #[inline(always)]
    pub fn word_of(&self, cell: u64) -> CellWord
        requires inside { cell < self.now.counts.cells }
        requires moved { CELLS * self.now.counts.kept ≤ cell }
        ensures cell { result.cell ≡ cell }
        ensures word { IsWordIn self.now result }
    {
        CellWord {
            cell,
            number: (cell - self.skipped) as usize + COUNTERS,
        }
    }
}
