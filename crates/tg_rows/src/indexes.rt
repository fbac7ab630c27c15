//! The indexes of long rows, and which of them may have young cells. See 'Rows and their indexes' in
//! docs/inside/ARCHITECTURE.md.
ghost use Rattle.std.specs.Prelude.{◌≡◌, ◌≤◌, ◌<◌, ℕ, List, [], None, Some, if◌then◌else◌, length, nat_eq, option_copied, slice_get, IfSome, OnOk};
ghost use Rattle.std.specs.Map.{lookup};
ghost use Rattle.tg_rows.specs.Inner.Following.{IsReadyAt};
ghost use Rattle.tg_rows.specs.Index.{AreIndexed, HasIndexAt, IsAged, SameIndexed};
ghost use Rattle.tg_space.specs.SpaceList.{SpaceList};
ghost use Rattle.tg_word.specs.declared.Place.{Place};
ghost use Rattle.tg_rows.specs.declared.indexed_row.IndexedRow.{IndexedRow as IndexedRowOf};

use crate::indexed_row::IndexedRow;
use indexmap::IndexMap;
use std::alloc::{AllocError, Global};
use std::marker::Model;

// For how many first names the last place of the index is kept.
const HINTS: usize = 64;

/// How the row of an object is looked along.
#[derive(Drop)]
pub(crate) enum Way {
    /// It has no index, and is walked along.
    Walk,
    /// By its index, which is at this place.
    Index(usize),
    /// By this new index, which the row gets with the change. It is in a box, so that a way is small.
    New(Box<IndexedRow>),
}

/// The indexes of long rows, each under the name of the row's vertex. The rows that are known to be in Old as a whole
/// come first. A nursery collection begins after them.
#[derive(Drop)]
pub struct LongRows {
    pub(crate) indexes: IndexMap<u64, IndexedRow>,
    // How many rows are known to lie in Old whole.
    pub(crate) old_rows: usize,
    // Where the index of each of the first names was last, so that its name needn't be looked up. The index may be
    // elsewhere by now, so its name is compared.
    hints: [usize; HINTS],
}

impl Model for LongRows {
    ghost use Rattle.indexmap.specs.IndexMap.{spare};
    ghost use Rattle.tg_rows.specs.Index.{Indexes, AreAged};

    ghost Value = { Indexes };

    ghost view = { λ a. record { entries = a.indexes.entries; old_rows = a.old_rows; spare = spare a.indexes } };

    ghost invariant = { λ a. AreAged a.indexes.entries a.old_rows };
}

impl LongRows {
    /// No index. Takes no memory.
    pub fn new(alloc: Global) -> LongRows
        ensures { result.entries ≡ [] }
    {
        LongRows {
            indexes: IndexMap::new(alloc),
            old_rows: 0,
            hints: [0; HINTS],
        }
    }

    /// The index of the row of the vertex with a name, if it has one. Takes no memory.
    pub fn find(&self, name: u64) -> Option<&IndexedRow>
        ensures { option_copied result ≡ lookup (nat_eq name) self.now.entries }
    {
        self.indexes.get(&name)
    }

    /// Returns the place of the index of the row of the vertex with a name, if it has one. Takes no memory.
    #[inline(always)]
    pub(crate) fn place(&self, name: u64) -> Option<usize>
        ensures there { IfSome result (HasIndexAt self.now.entries name) }
        ensures none { result ≡ None → lookup (nat_eq name) self.now.entries ≡ None }
    {
        match self.hinted(name) {
            Some(at) => Some(at),
            None => self.indexes.get_index_of(&name),
        }
    }

    // The place that is kept for the index of a row, if the index is still there.
    #[inline(always)]
    fn hinted(&self, name: u64) -> Option<usize>
        ensures { IfSome result (HasIndexAt self.now.entries name) }
    {
        let at = *self.hints.get(name as usize)?;
        let (key, _) = self.indexes.get_index(at)?;
        if *key == name { Some(at) } else { None }
    }

    // Keeps where the index of the row of the vertex with a name is.
    #[inline(always)]
    fn keep_hint(&mut self, name: u64, at: usize)
        ensures { self.new ≡ self.old }
    {
        if let Some(hint) = self.hints.get_mut(name as usize) {
            *hint = at;
        }
    }

    /// The index at a place. Takes no memory.
    #[inline(always)]
    pub(crate) fn index(&self, at: usize) -> &IndexedRow
        requires { at < length self.now.entries }
        ensures { (name : ℕ) (row : IndexedRowOf) → slice_get self.now.entries at ≡ Some (name, row) → result.now ≡ row }
    {
        match self.indexes.get_index(at) {
            Some((_, row)) => row,
            None => unreachable!(),
        }
    }

    /// Moves the index of the row of the vertex with a name, if the row has one. The index goes to the indexes of rows
    /// that may have young cells. Returns the place of the index then. Takes no memory.
    #[inline(always)]
    pub(crate) fn young_place(&mut self, name: u64) -> Option<usize>
        ensures young { IfSome result (λ at. self.new.old_rows ≤ at) }
        ensures there { IfSome result (HasIndexAt self.new.entries name) }
        ensures none { result ≡ None → lookup (nat_eq name) self.new.entries ≡ None }
        ensures same { (q : ℕ) → lookup (nat_eq q) self.new.entries ≡ lookup (nat_eq q) self.old.entries }
    {
        let place = self.place(name)?;
        let at = self.make_young(place);
        self.keep_hint(name, at);
        Some(at)
    }

    /// Makes room for one more name and one more cell in the index at this place. It is the index of the row of the
    /// vertex with a name. The index is among those of rows that may have young cells.
    #[inline(always)]
    pub(crate) fn reserve_at(&mut self, name: u64, at: usize) -> Result<(), AllocError>
        requires there { HasIndexAt self.old.entries name at }
        requires young { self.old.old_rows ≤ at }
        ensures ready { OnOk result (IsReadyAt self.new name at) }
        ensures indexed { (h : SpaceList) (places : List Place) → AreIndexed h places self.old.entries → AreIndexed h places self.new.entries }
        ensures names { SameIndexed self.old.entries self.new.entries }
    {
        match self.indexes.get_index_mut(at) {
            Some(row) => row.reserve(),
            None => unreachable!(),
        }
    }

    /// Makes room for the index of one more row. Nothing else changes.
    pub(crate) fn reserve(&mut self) -> Result<(), AllocError>
        ensures room { OnOk result (0 < self.new.spare) }
        ensures entries { self.new.entries ≡ self.old.entries }
    {
        self.indexes.reserve(1)
    }

    /// Adds the index of the row of the vertex with a name, which has none, among those of rows that may have young
    /// cells. There is room for it. Takes no memory.
    pub(crate) fn add(&mut self, name: u64, row: IndexedRow)
        requires absent { lookup (nat_eq name) self.old.entries ≡ None }
        requires aged { IsAged row }
        requires room { 0 < self.old.spare }
        ensures { (q : ℕ) → lookup (nat_eq q) self.new.entries ≡ if nat_eq name q then Some row else lookup (nat_eq q) self.old.entries }
    {
        drop(self.indexes.insert(name, row).unwrap());
    }

    /// Moves the index at a place to those of rows that may have young cells, and returns its new place. Takes no
    /// memory.
    pub(crate) fn make_young(&mut self, at: usize) -> usize
        requires { at < length self.old.entries }
        ensures young { self.new.old_rows ≤ result }
        ensures there { (name : ℕ) → HasIndexAt self.old.entries name at → HasIndexAt self.new.entries name result }
        ensures same { (name : ℕ) → lookup (nat_eq name) self.new.entries ≡ lookup (nat_eq name) self.old.entries }
    {
        if self.old_rows <= at {
            return at;
        }
        self.old_rows -= 1;
        self.indexes.swap_indices(at, self.old_rows);
        self.old_rows
    }
}
