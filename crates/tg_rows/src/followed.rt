//! What a collection does to the indexes of rows. The blocks of from-space may be gone by then, so cells are named by
//! their numbers (`Moves`).
ghost use Rattle.std.specs.Prelude.{◌≡◌, ◌≢◌, ◌≤◌, ◌<◌, ℕ, List, Some, length, map, slice_get, take, OnErr, OnOk};
ghost use Rattle.std.specs.List.{All};
ghost use Rattle.indexmap.specs.IndexMap.{index_map_len, values};
ghost use Rattle.tg_index.specs.Bits.{bit_in};
ghost use Rattle.tg_space.specs.Collection.{new_place};
ghost use Rattle.tg_space.specs.Numbering.{IsNumbered, followed_place, followed_word};
ghost use Rattle.tg_space.specs.Targets.{from_space};
ghost use Rattle.tg_word.specs.Word.{place_in};
ghost use Rattle.tg_word.specs.declared.Place.{Place as PlaceOf};
ghost use Rattle.tg_rows.specs.Index.{AreAged, AreFollowable, AreFollowed, AreMovedToOld, IsAged, IsFollowedTo, IsLeftBehind, IsMarked, IsOldPlace, IsOldRow, known_notes};
ghost use Rattle.tg_rows.specs.Inner.Followed.{CanFollow, CanFollowCells, CanFollowEach, CanMark, FollowsRowAt, KeepsMarks};
ghost use Rattle.tg_rows.specs.declared.indexed_row.IndexedRow.{IndexedRow as RowOf};

use crate::indexed_row::IndexedRow;
use crate::indexes::LongRows;
use crate::row_cells::RowCells;
use indexmap::IndexMap;
use std::alloc::AllocError;
use tg_index::NumberSet;
use tg_remember::Remembered;
use tg_space::{Kind, Moves};
use tg_word::place_of;

// What became of a row in a collection.
#[derive(Clone, Copy)]
enum Fate {
    // The row wasn't copied.
    Gone,
    // It may have cells outside Old, or marked ones.
    Young,
    // It lies in Old whole, and no cell of it is marked.
    Old,
}

impl LongRows {
    /// Turns each index into that of the row's copy, and drops the index of a row that a collection of this kind didn't
    /// copy. A nursery collection looks only at the rows that may have young or remembered cells, and only at these
    /// cells. Cells have the numbers that they had before it. The cells that are to be remembered are in `noted`. The
    /// call asks for memory only for marks, and goes on without them if that is refused.
    pub fn follow(&mut self, moves: Moves, noted: &Remembered)
        requires rows { AreFollowable moves.kind moves.numbering.now.starts (length moves.forward.now.words) noted.now.places self.old.entries }
        requires to_old { AreMovedToOld moves.kind moves.forward.now.words }
        ensures { AreFollowed moves.entry.kind moves.entry.numbering.now.starts moves.entry.forward.now.words noted.now.places self.old.entries self.new.entries }
    {
        let old = match moves.kind {
            Kind::Full => 0,
            Kind::Nursery => self.old_rows,
        };
        self.old_rows = follow_rows(moves, noted, &mut self.indexes, old);
    }
}

// Follows the rows after the first `old` ones. The answer is how many lie in Old whole now.
fn follow_rows(
    moves: Moves,
    noted: &Remembered,
    rows: &mut IndexMap<u64, IndexedRow>,
    first: usize,
) -> usize
    requires rows { CanFollowEach moves.kind moves.numbering.now.starts moves.forward.now.words noted.now.places rows.old.entries }
    requires aged { AreAged rows.old.entries first }
    requires full { moves.kind ≡ Kind.Full → first ≡ 0 }
    ensures followed { AreFollowed moves.entry.kind moves.entry.numbering.now.starts moves.entry.forward.now.words noted.now.places rows.old.entries rows.new.entries }
    ensures aged { AreAged rows.new.entries result }
{
    // This call shows that no name is there twice.
    let _ = rows.len();
    let mut old = first;
    let mut i = first;
    while i < rows.len() {
        match follow_row_at(moves, noted, rows, i) {
            Fate::Gone => drop(rows.swap_remove_index(i)),
            Fate::Young => i += 1,
            Fate::Old => {
                rows.swap_indices(i, old);
                old += 1;
                i += 1;
            }
        }
    }
    old
}

// The index at a place of the map becomes that of the row's copy, unless the row wasn't copied.
fn follow_row_at(
    moves: Moves,
    noted: &Remembered,
    rows: &mut IndexMap<u64, IndexedRow>,
    at: usize,
) -> Fate
    requires inside { at < index_map_len rows.old }
    requires can { (row : RowOf) → slice_get (values rows.old) at ≡ Some row → CanFollow moves.kind moves.numbering.now.starts moves.forward.now.words noted.now.places row }
    ensures { FollowsRowAt moves.entry.kind moves.entry.numbering.now.starts moves.entry.forward.now.words noted.now.places rows.old.entries rows.new.entries at result }
{
    match rows.get_index_mut(at) {
        Some(row) => follow_row(moves, noted, row),
        None => unreachable!(),
    }
}

// The index becomes that of the row's copy, unless the row wasn't copied.
fn follow_row(moves: Moves, noted: &Remembered, row: &mut IndexedRow) -> Fate
    requires { CanFollow moves.kind moves.numbering.now.starts moves.forward.now.words noted.now.places row.old }
    ensures gone { result ≡ Fate.Gone → IsLeftBehind moves.entry.kind moves.entry.numbering.now.starts moves.entry.forward.now.words row.old }
    ensures followed { result ≢ Fate.Gone → IsFollowedTo moves.entry.kind moves.entry.numbering.now.starts moves.entry.forward.now.words row.old row.new }
    ensures aged { IsAged row.new }
    ensures old { result ≡ Fate.Old → IsOldRow row.new }
    ensures marked { result ≢ Fate.Gone → IsMarked noted.now.places row.new }
{
    let object = row.cells.first_word();
    if moves.kind.moves(place_of(object).space) && moves.forwarding_word(object) == 0 {
        return Fate::Gone;
    }
    forget_moved(moves.kind, row);
    let old = follow_cells(moves, &mut row.cells, row.old_cells);
    forget_unnoted(noted, row);
    mark_noted(noted, row, old);
    if row.old_cells < row.cells.len() || row.noted.next(0).is_some() {
        return Fate::Young;
    }
    Fate::Old
}

// What is known of cells that a collection of this kind moves is known no more: a full one moves all.
fn forget_moved(kind: Kind, row: &mut IndexedRow)
    ensures names { row.new.names ≡ row.old.names }
    ensures cells { row.new.cells ≡ row.old.cells }
    ensures full { kind ≡ Kind.Full → row.new.old_cells ≡ 0 }
    ensures marked { (places : List PlaceOf) → IsMarked (known_notes kind places) row.old → IsMarked places row.new }
{
    match kind {
        Kind::Full => {
            row.noted.clear();
            row.old_cells = 0;
        }
        Kind::Nursery => {}
    }
}

// Follows the cells after the first ones, which stay where they are. The answer is how many of the first lie in Old
// now.
fn follow_cells(moves: Moves, cells: &mut RowCells, first: usize) -> usize
    requires { CanFollowCells moves.kind moves.numbering.now.starts moves.forward.now.words first cells.old.items }
    ensures moved { cells.new.items ≡ map (followed_place (from_space moves.entry.kind) moves.entry.numbering.now.starts (new_place moves.entry.forward.now.words)) cells.old.items }
    ensures from { first ≤ result }
    ensures within { result ≤ length cells.new.items }
    ensures old { All IsOldPlace (take result cells.new.items) }
{
    let (_, young) = cells.words.split_at_mut(first);
    follow_words(moves, young);
    first + count_moved(moves.kind, young)
}

// Each of these words becomes one of where the collection has the cell.
fn follow_words(moves: Moves, words: &mut [u64])
    requires { All (λ word. IsNumbered moves.numbering.now.starts (length moves.forward.now.words) (place_in word)) words.old }
    ensures { words.new ≡ map (followed_word (from_space moves.entry.kind) moves.entry.numbering.now.starts moves.entry.forward.now.words) words.old }
{
    for word in words.iter_mut() {
        *word = moves.link(*word);
    }
}

// How many of the first of these cells lie in Old, where a collection of this kind has them: all after a full one.
fn count_moved(kind: Kind, words: &[u64]) -> usize
    requires { kind ≡ Kind.Full → All IsOldPlace (map place_in words.now) }
    ensures within { result ≤ length words.now }
    ensures old { All IsOldPlace (take result (map place_in words.now)) }
{
    if let Kind::Full = kind {
        return words.len();
    }
    for (count, word) in words.iter().enumerate() {
        if Kind::Nursery.moves(place_of(*word).space) {
            return count;
        }
    }
    words.len()
}

// Cells that aren't noted are marked no more.
fn forget_unnoted(noted: &Remembered, row: &mut IndexedRow)
    requires { IsMarked noted.now.places row.old }
    ensures kept { KeepsMarks noted.now.places row.old row.new }
    ensures old { row.new.old_cells ≡ row.old.old_cells }
{
    let mut from = 0;
    while let Some(number) = row.noted.next(from) {
        if !noted.contains(row.cells.place(number)) {
            row.noted.remove(number);
        }
        from = number + 1;
    }
}

// As many first cells of a row lie in Old. They are known to, and the noted ones of those that weren't are marked.
// Where memory for a mark is refused, the cells from there on aren't known to.
fn mark_noted(noted: &Remembered, row: &mut IndexedRow, old: usize)
    requires { CanMark noted.now.places row.old old }
    ensures { KeepsMarks noted.now.places row.old row.new }
{
    if noted.len() == 0 {
        row.old_cells = old;
        return;
    }
    while row.old_cells < old {
        if noted.contains(row.cells.place(row.old_cells)) {
            let Ok(()) = mark_cell(&mut row.noted, row.old_cells, old) else {
                return;
            };
        }
        row.old_cells += 1;
    }
}

// Marks the cell with a number, one of so many. Where memory for the mark is refused, no mark changes.
fn mark_cell(marks: &mut NumberSet, number: usize, cells: usize) -> Result<(), AllocError>
    requires { number < cells }
    ensures here { OnOk result (bit_in marks.new number ≡ 1) }
    ensures others { (n : ℕ) → n ≢ number → bit_in marks.new n ≡ bit_in marks.old n }
    ensures refused { OnErr result ((n : ℕ) → bit_in marks.new n ≡ bit_in marks.old n) }
{
    marks.reserve(cells)?;
    marks.insert(number);
    Ok(())
}
