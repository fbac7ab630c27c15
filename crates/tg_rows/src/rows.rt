//! Walks along rows.
ghost use Rattle.std.specs.Prelude.{◌≡◌, ◌↔◌, ◌+◌, ◌<◌, ◌≤◌, ◌++◌, length, map, option_map, position, IfOk, IsTrue, OnOk, IfSome};
ghost use Rattle.std.specs.Option.{option_or};
ghost use Rattle.std.specs.List.{All};
ghost use Rattle.tg_space.specs.SpaceTable.{IsSpaceTable};
ghost use Rattle.tg_space.specs.Soundness.{IsReference};
ghost use Rattle.tg_rows.specs.Index.{name_referred};
ghost use Rattle.tg_rows.specs.Rows.{IsRow, edges_in, row_words};
ghost use Rattle.tg_space.specs.Rows.{row_of};
ghost use Rattle.tg_rows.specs.Spots.{cells_for, is_empty, note_for, old_cell_if, refers_to, spot_for_new as new_spot, IsPositionIn, IsSoundRow, IsSpotOf};

use crate::references::reference_to;
use crate::row_cells::RowCells;
use std::alloc::{AllocError, Global};
use tg_block::{LINK, NAME};
use tg_rights::{Label, Rights};
use tg_space::{Kind, Spaces, first_pointer};
use tg_word::{Place, place_of, rights_of};

/// How many cells of a row may be walked along. A longer row has an index from the first call on that writes to it.
pub(crate) const SHORT: usize = 4;

/// The place of the reference to a name in a row, or the spot at which a new one may be put.
#[derive(Clone, Copy)]
pub enum Spot {
    /// The reference is this word of this cell.
    Reference { cell: Place, index: usize },
    /// There is no reference to the name, and this word of this cell is the first empty place.
    Empty { cell: Place, index: usize },
    /// There is no reference to the name, nor an empty place, and this is the last cell of the row.
    Full { last: Place },
}

impl Spot {
    /// How many cells a new reference takes.
    pub(crate) fn cells(self) -> u64
        ensures { result ≡ cells_for self }
    {
        match self {
            Spot::Full { .. } => 1,
            _ => 0,
        }
    }

    /// The cell of Old that names a young one once a reference was put here, if there is one. The new reference may
    /// name a young cell, and a link to a new chunk always does.
    pub(crate) fn note(self, young: bool) -> Option<Place>
        ensures { result ≡ note_for self young }
    {
        match self {
            Spot::Reference { .. } => None,
            Spot::Empty { cell, .. } => old_cell(cell, young),
            Spot::Full { last } => old_cell(last, true),
        }
    }
}

// The cell, if it is in Old and this is asked for.
fn old_cell(cell: Place, wanted: bool) -> Option<Place>
    ensures { result ≡ old_cell_if wanted cell }
{
    if wanted && !Kind::Nursery.moves(cell.space) {
        return Some(cell);
    }
    None
}

/// Whether the row of an object has `SHORT` cells or more, so that one more makes it long.
pub(crate) fn may_get_long(spaces: &Spaces, from: Place) -> bool
    requires { IsRow spaces.now.spaces from }
    ensures { IsTrue result ↔ (SHORT ≤ length (row_of spaces.now.spaces from)) }
{
    let mut at = from;
    for _step in 0..SHORT - 1 {
        let link = spaces.read(at, LINK);
        if link == 0 {
            return false;
        }
        at = place_of(link);
    }
    true
}

/// Finds the reference to a name in the row of an object. If there is none, the answer is the first empty place in the
/// order of the chain, or else the last cell. The call walks the chain once, up to the reference if there is one.
pub fn find_spot(spaces: &Spaces, from: Place, name: u64) -> Spot
    requires { IsSoundRow spaces.now.spaces from }
    ensures { IsSpotOf spaces.now from name result }
{
    let mut empty = None;
    let mut at = from;
    let mut left = spaces.cells();
    'row: loop {
        let cell = spaces.words(at);
        let first = first_pointer(cell[0]);
        let words = &cell[first..LINK];
        if let Some(k) = position_of(spaces, words, name) {
            return Spot::Reference {
                cell: at,
                index: first + k,
            };
        }
        empty = first_empty(empty, at, first, words);
        if cell[LINK] == 0 {
            return spot_for_new(empty, at);
        }
        at = place_of(cell[LINK]);
        left -= 1;
    }
}

// The number of the reference to a name among these words.
#[inline(always)]
fn position_of(spaces: &Spaces, words: &[u64], name: u64) -> Option<usize>
    requires { All (IsReference spaces.now.spaces) words.now }
    ensures { IsPositionIn (refers_to spaces.now.spaces name) words.now result }
{
    for (k, word) in words.iter().enumerate() {
        if *word != 0 && spaces.read(place_of(*word), NAME) == name {
            return Some(k);
        }
    }
    None
}

// The empty place that was found before, or else the first among the words of a cell.
#[inline(always)]
fn first_empty(
    before: Option<(Place, usize)>,
    cell: Place,
    first: usize,
    words: &[u64],
) -> Option<(Place, usize)>
    requires { first + length words.now ≤ 8 }
    ensures { result ≡ option_or before (option_map (λ k. (cell, first + k)) (position is_empty words.now)) }
{
    if before.is_some() {
        return before;
    }
    let k = position_of_empty(words)?;
    Some((cell, first + k))
}

// The number of the first empty place among these words.
fn position_of_empty(words: &[u64]) -> Option<usize>
    ensures is { result ≡ position is_empty words.now }
    ensures inside { IfSome result (λ k. k < length words.now) }
{
    words.iter().position(|word| *word == 0)
}

// The empty place, if one was found, or else the last cell.
fn spot_for_new(empty: Option<(Place, usize)>, last: Place) -> Spot
    ensures { result ≡ new_spot empty last }
{
    match empty {
        Some((cell, index)) => Spot::Empty { cell, index },
        None => Spot::Full { last },
    }
}

/// The references of the row of an object. They are the name of each target with the label, in chain order. Fails only
/// when out of memory.
#[inline(always)]
pub(crate) fn edges_of(
    alloc: Global,
    spaces: &Spaces,
    from: Place,
) -> Result<Vec<(u64, Label)>, AllocError>
    requires { IsSoundRow spaces.now.spaces from }
    ensures table { OnOk result (IsSpaceTable spaces.now) }
    ensures edges { IfOk result (λ edges. edges.items ≡ edges_in spaces.now.spaces (row_words spaces.now.spaces from)) }
{
    let mut edges = Vec::new(alloc);
    let mut at = from;
    let mut left = spaces.cells();
    'row: loop {
        let cell = spaces.words(at);
        let first = first_pointer(cell[0]);
        push_edges(spaces, &cell[first..LINK], &mut edges)?;
        if cell[LINK] == 0 {
            return Ok(edges);
        }
        at = place_of(cell[LINK]);
        left -= 1;
    }
}

// Puts the edges of these references at the end.
#[inline(always)]
fn push_edges(
    spaces: &Spaces,
    words: &[u64],
    edges: &mut Vec<(u64, Label)>,
) -> Result<(), AllocError>
    requires { All (IsReference spaces.now.spaces) words.now }
    ensures { OnOk result (edges.new.items ≡ edges.old.items ++ edges_in spaces.now.spaces words.now) }
{
    for word in words {
        if let Some(label) = Label::new(rights_of(*word)) {
            edges.push((spaces.read(place_of(*word), NAME), label))?;
        }
    }
    Ok(())
}

/// The name at each place of the row of an object, in chain order, and the cells of the row. Fails only when out of
/// memory.
pub(crate) fn places_of(
    alloc: Global,
    spaces: &Spaces,
    from: Place,
) -> Result<(Vec<Option<u64>>, RowCells), AllocError>
    requires { IsSoundRow spaces.now.spaces from }
    ensures names { IfOk result (λ places. places.0.items ≡ map (name_referred spaces.now.spaces) (row_words spaces.now.spaces from)) }
    ensures cells { IfOk result (λ places. places.1.items ≡ row_of spaces.now.spaces from) }
{
    let mut names = Vec::new(alloc);
    let mut words = Vec::new(alloc);
    let mut left = spaces.cells();
    let mut word = reference_to(from, Rights::empty());
    'row: loop {
        let cell = spaces.words(place_of(word));
        let first = first_pointer(cell[0]);
        push_names(spaces, &cell[first..LINK], &mut names)?;
        words.push(word)?;
        if cell[LINK] == 0 {
            return Ok((names, RowCells::of_words(words)));
        }
        word = cell[LINK];
        left -= 1;
    }
}

// Puts the names to which these references refer at the end.
fn push_names(
    spaces: &Spaces,
    words: &[u64],
    names: &mut Vec<Option<u64>>,
) -> Result<(), AllocError>
    requires { All (IsReference spaces.now.spaces) words.now }
    ensures { OnOk result (names.new.items ≡ names.old.items ++ map (name_referred spaces.now.spaces) words.now) }
{
    for word in words {
        names.push(name_of_target(spaces, *word))?;
    }
    Ok(())
}

// The name to which a reference refers, if it isn't empty.
fn name_of_target(spaces: &Spaces, word: u64) -> Option<u64>
    requires { IsReference spaces.now.spaces word }
    ensures { result ≡ name_referred spaces.now.spaces word }
{
    if word == 0 {
        return None;
    }
    Some(spaces.read(place_of(word), NAME))
}
