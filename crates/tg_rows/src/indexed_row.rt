//! The index of a row. It finds the reference to each name without a walk. See 'Rows and their indexes' in
//! docs/inside/ARCHITECTURE.md.
ghost use Rattle.std.specs.Prelude.{◌≡◌, ◌≢◌, ℕ, Option, Some, None, IsSome, ◌+◌, ◌*◌, ◌^◌, ◌<◌, ◌≤◌, length, slice_index_or, IfSome, OnOk};
ghost use Rattle.tg_word.specs.declared.Place.{Place};
ghost use Rattle.tg_index.specs.Slots.{ClearsName, place_number};
ghost use Rattle.tg_rows.specs.Inner.Following.{HasRoomIn, IsRowFollowed, IsNotedIn, HasSameIndex, NotesCell};
ghost use Rattle.tg_rows.specs.Index.{IsPlaceOf, IsRowIndex};
ghost use Rattle.tg_rows.specs.declared.indexed_row.TheConstants.{CHUNK_REFERENCES, FEWER_IN_OBJECT};
ghost use Rattle.tg_rows.specs.Spots.{IsSoundIndex, IsSoundIndexWithout, IsSpotOf};

use crate::row_cells::RowCells;
use crate::rows::Spot;
use std::alloc::AllocError;
use tg_block::{CHUNK_POINTERS, LINK, OBJECT_POINTERS};
use tg_index::{NumberSet, RowIndex};
use tg_space::Spaces;
use tg_word::Place;

// How many references a chunk has: its words from the first one on, up to its link.
const CHUNK_REFERENCES: usize = LINK - CHUNK_POINTERS;

// How many references fewer an object has than a chunk.
const FEWER_IN_OBJECT: usize = OBJECT_POINTERS - CHUNK_POINTERS;

/// The index of one row. It has its names by the numbers of their places, and its cells in chain order.
#[derive(Drop)]
pub struct IndexedRow {
    /// Its names, by the numbers of their places.
    pub names: RowIndex,
    /// Its cells, in chain order.
    pub cells: RowCells,
    /// How many of the first cells are known to be in Old.
    pub old_cells: usize,
    /// The numbers of the cells among them that may be remembered. No other cell of the row names a young cell.
    pub noted: NumberSet,
}

/// Rights over a vertex were put in a row.
#[derive(Clone, Copy)]
pub(crate) struct RowPut {
    /// The object of the row.
    pub(crate) from: Place,
    /// The name of the vertex.
    pub(crate) name: u64,
    /// The spot for the reference to it.
    pub(crate) spot: Spot,
    /// The cell that was noted with it, if there is one.
    pub(crate) note: Option<Place>,
}

impl IndexedRow {
    /// Makes room for one more name and for one more cell, and for the note of each cell that is known to be in Old.
    /// Nothing else changes.
    #[inline(always)]
    pub(crate) fn reserve(&mut self) -> Result<(), AllocError>
        ensures room { OnOk result (HasRoomIn self.new) }
        ensures kept { HasSameIndex self.old self.new }
    {
        self.names.reserve()?;
        self.noted.reserve(self.old_cells)?;
        self.cells.reserve()
    }

    /// What follows in the index where a reference was put in the row. There is room for it.
    #[inline(always)]
    pub(crate) fn follow(&mut self, spaces: &Spaces, put: RowPut)
        requires put { IsRowFollowed spaces.now put.from put.name put.spot put.note self.old }
        requires room { HasRoomIn self.old }
        ensures index { IsRowIndex spaces.now.spaces put.from self.new.names self.new.cells.items }
        ensures marks { NotesCell put.note self.old self.new }
    {
        self.mark(put.note);
        match put.spot {
            Spot::Reference { .. } => {}
            Spot::Empty { .. } => self.names.put(put.name),
            Spot::Full { last } => {
                self.names.grow(CHUNK_REFERENCES as u64);
                self.names.put(put.name);
                self.cells.push(spaces.read(last, LINK));
            }
        }
    }

    // Marks the cell of the row that is noted, if there is one and it is known to be in Old. It is the one to which a
    // new reference goes, or from which a new chunk is linked.
    #[inline(always)]
    fn mark(&mut self, note: Option<Place>)
        requires noted { IsNotedIn self.old note }
        requires short { self.old.names.len + CHUNK_REFERENCES < 2 ^ 64 }
        requires room { self.old.old_cells ≤ 64 * length self.old.noted }
        ensures names { self.new.names ≡ self.old.names }
        ensures cells { self.new.cells ≡ self.old.cells }
        ensures old { self.new.old_cells ≡ self.old.old_cells }
        ensures marks { NotesCell note self.old self.new }
    {
        if note.is_none() {
            return;
        }
        let number = self.number_noted(note);
        if number < self.old_cells {
            self.noted.insert(number);
        }
    }

    // The number of the cell of the row that is noted, if there is one.
    #[inline(always)]
    fn number_noted(&self, note: Option<Place>) -> usize
        requires noted { IsNotedIn self.now note }
        requires short { self.now.names.len + CHUNK_REFERENCES < 2 ^ 64 }
        ensures { IfSome note (λ cell. (n : ℕ) → n < length self.now.cells.items → slice_index_or self.now.cells.items n cell ≡ cell → n ≡ result) }
    {
        match self.names.first_empty() {
            Some(number) => (number as usize + FEWER_IN_OBJECT) / CHUNK_REFERENCES,
            None => self.cells.len() - 1,
        }
    }
}

/// Takes a name away where the word of its reference is empty.
pub(crate) fn forget_if_empty(names: &mut RowIndex, name: u64, word: u64)
    requires { IsSome (place_number names.old name) }
    ensures gone { word ≡ 0 → ClearsName names.old name names.new }
    ensures len { names.new.len ≡ names.old.len }
    ensures kept { word ≢ 0 → names.new ≡ names.old }
{
    if word == 0 {
        names.clear(name);
    }
}

/// Finds what `find_spot` finds, in one look into the index.
pub(crate) fn find_indexed(spaces: &Spaces, row: &IndexedRow, from: Place, name: u64) -> Spot
    requires { IsSoundIndex spaces.now.spaces from row.now }
    ensures { IsSpotOf spaces.now from name result }
{
    // It shows what holds of all spaces, and that their cells are few.
    let _ = spaces.cells();
    if let Some(number) = row.names.find(name) {
        let (cell, index) = place_of_number(&row.cells, number);
        return Spot::Reference { cell, index };
    }
    spot_for_new(spaces, row, from, name)
}

/// Where a reference to a name that the row doesn't have may be put, with no look for the name.
#[inline(always)]
pub(crate) fn spot_for_new(spaces: &Spaces, row: &IndexedRow, from: Place, name: u64) -> Spot
    requires { IsSoundIndexWithout spaces.now.spaces from name row.now }
    ensures { IsSpotOf spaces.now from name result }
{
    // It shows what holds of all spaces, and that their cells are few.
    let _ = spaces.cells();
    if let Some(number) = row.names.first_empty() {
        let (cell, index) = place_of_number(&row.cells, number);
        return Spot::Empty { cell, index };
    }
    Spot::Full {
        last: row.cells.place(row.cells.len() - 1),
    }
}

// The place with a number, as the word of a cell.
fn place_of_number(cells: &RowCells, number: u64) -> (Place, usize)
    requires { number + FEWER_IN_OBJECT < length cells.now.items * CHUNK_REFERENCES }
    ensures { IsPlaceOf cells.now.items number result }
{
    // This call shows that the cells are few.
    let _ = cells.len();
    let number = number as usize + FEWER_IN_OBJECT;
    (
        cells.place(number / CHUNK_REFERENCES),
        CHUNK_POINTERS + number % CHUNK_REFERENCES,
    )
}
