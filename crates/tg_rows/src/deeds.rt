//! The graph in the cells, in which some rows have an index. Each call uses the index of the row if it has one, and
//! walks otherwise.
ghost use Rattle.std.specs.Prelude.{◌≡◌, ◌<◌, List, None, nat_eq, Err, IfOk, IsTrue};
ghost use Rattle.tg_word.specs.declared.Place.{Place as PlaceOf};
ghost use Rattle.tg_block.specs.declared.CellKind.TheVariants.{Object};
ghost use Rattle.tg_space.specs.Soundness.{IsKindAt};
ghost use Rattle.tg_rows.specs.Inner.Following.{AreBehind, AreUncleared, IsReadyToFollow, IsWay};
ghost use Rattle.tg_rows.specs.Graph.{IsLongRow};
ghost use Rattle.tg_rows.specs.Index.{AreIndexed, IsAged, IsMarked, IsRowIndex, MayIndex, indexed_in};
ghost use Rattle.std.specs.Map.{lookup};
ghost use Rattle.tg_rows.specs.Rows.{name_at};
ghost use Rattle.tg_rows.specs.Inner.Deeds.{AddsEdgeToRow, CanGive, CanLook, CanMake, FollowsChange, HasObject, HasSpot, IsEdgeFound, IsReadied, KeepsIndexed, LooksAlong, LooksForNew, MakesVertex, TakesRights};

use crate::cells::{Cells, Found, Gift, NewVertex, VertexRefused};
use crate::indexed_row::{IndexedRow, RowPut, find_indexed, forget_if_empty, spot_for_new};
use crate::indexes::{LongRows, Way};
use crate::references::narrow;
use crate::rows::{Spot, find_spot, may_get_long, places_of};
use std::alloc::AllocError;
use tg_index::{NumberSet, RowIndex};
use tg_payload::Payload;
use tg_rights::Rights;
use tg_space::{Kind, RoomFault};
use tg_word::Place;

impl<P: Payload> Cells<P> {
    /// The index of the row of an object, along which it walks once. Fails only when out of memory.
    pub(crate) fn index_of(&self, from: Place) -> Result<IndexedRow, AllocError>
        requires { HasObject self.now from }
        ensures index { IfOk result (λ row. IsRowIndex self.now.spaces.spaces from row.names row.cells.items) }
        ensures aged { IfOk result IsAged }
        ensures marked { (places : List PlaceOf) → IfOk result (IsMarked places) }
    {
        let (names, cells) = places_of(self.alloc, &self.spaces, from)?;
        Ok(IndexedRow {
            names: RowIndex::of_row(self.alloc, &names)?,
            cells,
            old_cells: 0,
            noted: NumberSet::new(self.alloc),
        })
    }

    /// How the row of an object is looked along.
    #[inline(always)]
    pub(crate) fn way(&self, rows: &LongRows, from: Place) -> Way
        requires { IsKindAt self.now.spaces.spaces Object from }
        ensures { IsWay self.now.spaces.spaces rows.now.entries from result }
    {
        match rows.place(self.name_of(from)) {
            Some(at) => Way::Index(at),
            None => Way::Walk,
        }
    }

    /// How the row of an object is looked along for a change. Its index then has room for the change. It is the row's
    /// own index, or a new index if the row may get long. Where memory was refused, no name has another index.
    #[inline(always)]
    fn way_to_change(&self, rows: &mut LongRows, from: Place) -> Result<Way, AllocError>
        requires { CanLook self.now rows.old from }
        ensures { IsReadied self.now rows.old rows.new from result }
    {
        let name = self.name_of(from);
        let Some(at) = rows.young_place(name) else {
            return self.way_unindexed(rows, from);
        };
        rows.reserve_at(name, at)?;
        Ok(Way::Index(at))
    }

    // How a row without an index is looked along for a change.
    fn way_unindexed(&self, rows: &mut LongRows, from: Place) -> Result<Way, AllocError>
        requires row { HasObject self.now from }
        requires none { lookup (nat_eq (name_at self.now.spaces.spaces from)) rows.old.entries ≡ None }
        ensures entries { rows.new.entries ≡ rows.old.entries }
        ensures ready { IfOk result (IsReadyToFollow self.now.spaces.spaces rows.new from) }
    {
        if !may_get_long(&self.spaces, from) {
            return Ok(Way::Walk);
        }
        rows.reserve()?;
        let mut row = self.index_of(from)?;
        row.reserve()?;
        Ok(Way::New(Box::new(self.alloc, row)?))
    }

    // Updates the indexes after rights over the vertex with a name were put at its spot in a row. The spot was found by
    // `way`. The row has an index then, if it is long.
    #[inline(always)]
    fn follow(&self, rows: &mut LongRows, way: Way, put: RowPut)
        requires { AreBehind self.now.spaces self.now.remembered.places rows.old way put.from put.name put.spot put.note }
        ensures indexed { AreIndexed self.now.spaces.spaces self.now.remembered.places rows.new.entries }
        ensures long { IsLongRow self.now.spaces.spaces put.from → IsTrue (indexed_in rows.new.entries (name_at self.now.spaces.spaces put.from)) }
        ensures names { MayIndex (name_at self.now.spaces.spaces put.from) rows.old.entries rows.new.entries }
    {
        match way {
            Way::Walk => {}
            Way::Index(at) => match rows.indexes.get_index_mut(at) {
                Some(row) => row.follow(&self.spaces, put),
                None => unreachable!(),
            },
            Way::New(row) => {
                let mut row = Box::into_inner(row);
                row.follow(&self.spaces, put);
                rows.add(self.name_of(put.from), row);
            }
        }
    }

    /// Finds the reference to a name in the row of an object, or the spot at which a new one may be put.
    #[inline(always)]
    pub(crate) fn spot(&self, rows: &LongRows, way: &Way, from: Place, name: u64) -> Spot
        requires { LooksAlong self.now rows.now way.now from }
        ensures { HasSpot self.now from name result }
    {
        match way {
            Way::Walk => find_spot(&self.spaces, from, name),
            Way::Index(at) => find_indexed(&self.spaces, rows.index(*at), from, name),
            Way::New(row) => find_indexed(&self.spaces, row, from, name),
        }
    }

    // Where the reference to a vertex that isn't made yet may be put in the row of an object. An index isn't asked for
    // its name.
    #[inline(always)]
    fn spot_for_new(&self, rows: &LongRows, way: &Way, from: Place, name: u64) -> Spot
        requires { LooksForNew self.now rows.now way.now from name }
        ensures { HasSpot self.now from name result }
    {
        // It shows what holds of all spaces (`IsSpaceTable`).
        let _ = self.spaces.blocks();
        match way {
            Way::Walk => find_spot(&self.spaces, from, name),
            Way::Index(at) => spot_for_new(&self.spaces, rows.index(*at), from, name),
            Way::New(row) => spot_for_new(&self.spaces, row, from, name),
        }
    }

    /// The reference in the row of an object to the vertex with a name.
    #[inline(always)]
    pub fn find_edge(&self, rows: &LongRows, from: Place, name: u64) -> Option<Found>
        requires { CanLook self.now rows.now from }
        ensures { IsEdgeFound self.now from name result }
    {
        let way = self.way(rows, from);
        match self.spot(rows, &way, from, name) {
            Spot::Reference { cell, index } => Some(self.found_at(cell, index)),
            _ => None,
        }
    }

    /// Gives one object rights over another, and notes the written cell if it has to be remembered. Growth comes first,
    /// and that of the spaces last. If it is refused, there may be room for one more note, and nothing else is changed.
    /// The row has an index then, if it is long.
    pub fn add_edge(
        &mut self,
        rows: &mut LongRows,
        nursery: u64,
        from: Place,
        gift: Gift,
    ) -> Result<(), RoomFault>
        requires row { CanLook self.old rows.old from }
        requires gift { CanGive self.old nursery gift.to gift.rights }
        ensures edge { AddsEdgeToRow self.old self.new nursery from gift.to gift.rights result }
        ensures rows { FollowsChange self.old self.new rows.old rows.new from result }
    {
        let Ok(way) = self.way_to_change(rows, from) else {
            return Err(RoomFault::OutOfMemory);
        };
        let to = gift.to;
        let name = self.name_of(to);
        let spot = self.spot(rows, &way, from, name);
        self.put_edge(nursery, from, spot, gift)?;
        let note = spot.note(Kind::Nursery.moves(to.space));
        self.follow(
            rows,
            way,
            RowPut {
                from,
                name,
                spot,
                note,
            },
        );
        Ok(())
    }

    /// Takes rights over a vertex from an object. A reference that has none left becomes the empty word. What is
    /// remembered stays.
    pub fn drop_rights(&mut self, rows: &mut LongRows, from: Place, name: u64, rights: Rights)
        requires { CanLook self.old rows.old from }
        ensures taken { TakesRights self.old self.new from name rights }
        ensures rows { KeepsIndexed self.new rows.old rows.new }
        ensures places { self.new.remembered.places ≡ self.old.remembered.places }
    {
        let way = self.way(rows, from);
        if let Spot::Reference { cell, index } = self.spot(rows, &way, from, name) {
            narrow(&mut self.spaces, cell, index, rights);
            let word = self.spaces.read(cell, index);
            self.forget(rows, way, name, word);
        }
    }

    // Updates the index of a row, in which the reference to the vertex with a name lost rights and is this word now.
    // The reference was found by `way`.
    fn forget(&self, rows: &mut LongRows, way: Way, name: u64, word: u64)
        requires { AreUncleared self.now.spaces self.now.remembered.places rows.old.entries way name word }
        ensures { KeepsIndexed self.now rows.old rows.new }
    {
        let Way::Index(at) = way else {
            return;
        };
        match rows.indexes.get_index_mut(at) {
            Some(row) => forget_if_empty(&mut row.names, name, word),
            None => unreachable!(),
        }
    }

    /// Makes an object with a new name, and gives another object rights over it. The written cell is noted if it has to
    /// be remembered. If the row is long, it has an index afterwards. The answer is the place of the object. Growth
    /// comes first, and that of the spaces last. If it is refused, there may be room for one more payload and one more
    /// note. Nothing else is changed then.
    #[inline(always)]
    pub fn new_vertex(
        &mut self,
        rows: &mut LongRows,
        nursery: u64,
        from: Place,
        vertex: NewVertex<P>,
    ) -> Result<Place, VertexRefused<P>>
        requires row { CanLook self.old rows.old from }
        requires vertex { CanMake self.old nursery vertex.name vertex.rights }
        ensures vertex { MakesVertex self.old self.new nursery from vertex.name vertex.rights vertex.draft result }
        ensures rows { FollowsChange self.old self.new rows.old rows.new from result }
    {
        let Ok(way) = self.way_to_change(rows, from) else {
            return Err(VertexRefused {
                draft: vertex.draft,
                why: RoomFault::OutOfMemory,
            });
        };
        let name = vertex.name;
        let spot = self.spot_for_new(rows, &way, from, name);
        let to = self.put_vertex(nursery, from, spot, vertex)?;
        let note = spot.note(true);
        self.follow(
            rows,
            way,
            RowPut {
                from,
                name,
                spot,
                note,
            },
        );
        Ok(to)
    }
}
