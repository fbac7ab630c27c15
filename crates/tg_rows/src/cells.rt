//! What one change writes to the graph in the cells.
ghost use Rattle.std.specs.Prelude.{◌≡◌, ◌+◌, ◌<◌, ◌≤◌, ◌⊎◌, ◌↔◌, ℕ, List, true, length, slice_index, slice_set, Err, IfOk, IfSome, IsOk, None, OnErr, OnOk, Some, option_map};
ghost use Rattle.std.specs.List.{Contains};
ghost use Rattle.tg_word.specs.declared.Place.{Place};
ghost use Rattle.tg_word.specs.Word.{nursery_space, place_in, rights_in};
ghost use Rattle.tg_word.specs.declared.TheConstants.{MAX_NURSERIES};
ghost use Rattle.tg_model.specs.Rules.{state_of};
ghost use Rattle.tg_block.specs.declared.CellKind.TheVariants.{Object};
ghost use Rattle.tg_space.specs.SpaceList.{HasCell, cell_at, space_of};
ghost use Rattle.tg_space.specs.SpaceTable.{IsSpaceTable, place_in_space, used_of};
ghost use Rattle.tg_space.specs.Soundness.{IsKindAt};
ghost use Rattle.tg_space.specs.Generations.{AreRemembered};
ghost use Rattle.tg_nursery.specs.Allocation.{HasRoomLeft};
ghost use Rattle.tg_rows.specs.Content.{IsNamed};
ghost use Rattle.tg_rows.specs.Graph.{IsGraph, content_in};
ghost use Rattle.tg_rows.specs.Rows.{IsVertexAt, name_at};
ghost use Rattle.tg_rows.specs.Steps.{TakesOneCell, KeepsRows};
ghost use Rattle.tg_rows.specs.Spots.{vertex_put, with_note};
ghost use Rattle.tg_rows.specs.Inner.Deeds.{AddsEdgeToRow, CanGive, CanMakeAt, CanReserve, HasObject, HasSpot, IsEdgePut, ListsRow, MakesRoomInCells, MakesVertexAt, MakesVertexRoom, PlacesVertex, WritesNumber};

use crate::references::put;
use crate::rows::{Spot, edges_of};
use std::alloc::{AllocError, Global};
use tg_block::{KEY, NAME, OBJECT_TAG};
use tg_model::{EdgeList, Law, Numbers};
use tg_nursery::reserve;
use tg_payload::{Draft, Payload, PayloadTable};
use tg_remember::Remembered;
use tg_rights::Rights;
use tg_space::{Kind, RoomFault, Spaces};
use tg_word::{Place, nursery_space, place_of, rights_of};

/// A reference that was found in a row.
#[derive(Clone, Copy, PartialEq, Eq, Debug)]
pub struct Found {
    /// Where its target is.
    pub place: Place,
    /// The rights over the target, at least one.
    pub rights: Rights,
}

/// Rights over an object that are given to another.
#[derive(Clone, Copy)]
pub struct Gift {
    /// Where the object is.
    pub to: Place,
    /// The rights over it, at least one.
    pub rights: Rights,
}

/// A vertex that is to be made.
#[derive(Drop)]
pub struct NewVertex<P: Payload> {
    /// Its name, which no vertex has.
    pub name: u64,
    /// The rights over it that its maker gets, at least one.
    pub rights: Rights,
    /// What it stores.
    pub draft: Draft<P>,
}

/// No vertex was made. The draft comes back as it was.
#[derive(Drop)]
pub struct VertexRefused<P: Payload> {
    pub draft: Draft<P>,
    pub why: RoomFault,
}

/// The cells of all spaces, what the objects among them store, and which cells of Old are remembered.
#[derive(Drop)]
pub struct Cells<P: Payload> {
    /// What is asked for memory.
    pub alloc: Global,
    /// The cells.
    pub spaces: Spaces,
    /// What the objects among them store, each under its key.
    pub payloads: PayloadTable<P>,
    /// Which cells of Old are remembered.
    pub remembered: Remembered,
}

impl<P: Payload> Cells<P> {
    /// The name of an object.
    #[inline(always)]
    pub fn name_of(&self, at: Place) -> u64
        requires { IsKindAt self.now.spaces.spaces Object at }
        ensures { result ≡ name_at self.now.spaces.spaces at }
    {
        self.spaces.read(at, NAME)
    }

    /// What a reference says.
    #[inline(always)]
    pub(crate) fn found_at(&self, cell: Place, index: usize) -> Found
        requires held { HasCell self.now.spaces.spaces cell }
        requires inside { index < 8 }
        ensures { let word = slice_index (cell_at self.now.spaces.spaces cell) index in result ≡ record { place = place_in word; rights = rights_in word } }
    {
        let word = self.spaces.read(cell, index);
        Found {
            place: place_of(word),
            rights: rights_of(word),
        }
    }

    /// The edges of an object, by rising name of the target.
    #[inline(always)]
    pub fn row(&self, from: Place) -> Result<EdgeList, AllocError>
        requires { HasObject self.now from }
        ensures { IfOk result (ListsRow self.now from) }
    {
        let mut edges = edges_of(self.alloc, &self.spaces, from)?;
        edges.sort_unstable_by_key(|edge| edge.0);
        Ok(EdgeList::from_vec(edges))
    }

    /// The state that an object stores.
    #[inline(always)]
    pub fn state(&self, at: Place) -> Result<Numbers, AllocError>
        requires { HasObject self.now at }
        ensures { IfOk result (λ state. state ≡ state_of ((content_in self.now.spaces.spaces self.now.payloads).value (name_at self.now.spaces.spaces at))) }
    {
        let cell = self.spaces.cell(at);
        self.payloads.read(cell[KEY])
    }

    /// Lends the payload of an object.
    pub fn payload(&self, at: Place) -> &P
        requires { HasObject self.now at }
        ensures { (content_in self.now.spaces.spaces self.now.payloads).value (name_at self.now.spaces.spaces at) ≡ Some (P.value result.now) }
    {
        let cell = self.spaces.cell(at);
        self.payloads.payload(cell[KEY])
    }

    /// The law of what an object stores.
    pub fn law(&self, at: Place) -> Law
        requires { HasObject self.now at }
        ensures { option_map (λ value. value.law) ((content_in self.now.spaces.spaces self.now.payloads).value (name_at self.now.spaces.spaces at)) ≡ Some result }
    {
        self.payload(at).law()
    }

    /// Writes a number to what an object stores. Where it is refused, nothing is changed.
    #[inline(always)]
    pub fn write(&mut self, at: Place, number: u64) -> Result<(), AllocError>
        requires { HasObject self.old at }
        ensures written { OnOk result (WritesNumber self.old self.new at number) }
        ensures spaces { self.new.spaces ≡ self.old.spaces }
        ensures places { self.new.remembered.places ≡ self.old.remembered.places }
        ensures refused { OnErr result (self.new.payloads ≡ self.old.payloads) }
    {
        let cell = self.spaces.cell(at);
        self.payloads.write(cell[KEY], number)
    }

    /// Gives one object rights over another, at the spot for them, and notes the written cell if it has to be
    /// remembered. Growth comes first, and that of the spaces last. If it is refused, there may be room for one more
    /// note, and nothing else is changed.
    pub fn put_edge(
        &mut self,
        nursery: u64,
        from: Place,
        spot: Spot,
        gift: Gift,
    ) -> Result<(), RoomFault>
        requires row { HasSpot self.old from (name_at self.old.spaces.spaces gift.to) spot }
        requires gift { CanGive self.old nursery gift.to gift.rights }
        ensures edge { AddsEdgeToRow self.old self.new nursery from gift.to gift.rights result }
        ensures had_room { HasRoomLeft self.old.spaces (nursery_space nursery) 1 → length (space_of self.old.spaces.spaces 0) ≡ 0 → IsOk result }
        ensures put { OnOk result (IsEdgePut self.old self.new from gift.to spot) }
        ensures one_cell { OnOk result (TakesOneCell self.old.spaces self.new.spaces (nursery_space nursery)) }
    {
        let to = gift.to;
        let note = spot.note(Kind::Nursery.moves(to.space));
        self.make_room(nursery, note, spot.cells())?;
        put(&mut self.spaces, nursery, spot, to, gift.rights);
        remember(&mut self.remembered, note);
        Ok(())
    }

    /// Makes an object with a new name, and gives another object rights over it, at the spot for them. The written cell
    /// is noted if it has to be remembered. The answer is the place of the object. Growth comes first, and that of the
    /// spaces last. If it is refused, there may be room for one more payload and one more note. Nothing else is changed
    /// then.
    #[inline(always)]
    pub(crate) fn put_vertex(
        &mut self,
        nursery: u64,
        from: Place,
        spot: Spot,
        vertex: NewVertex<P>,
    ) -> Result<Place, VertexRefused<P>>
        requires { CanMakeAt self.old nursery from vertex.name spot vertex.rights }
        ensures { MakesVertexAt self.old self.new nursery from vertex.name spot vertex.rights vertex.draft result }
    {
        let NewVertex {
            name,
            rights,
            draft,
        } = vertex;
        let note = spot.note(true);
        if let Err(why) = self.make_vertex_room(nursery, note, 1 + spot.cells()) {
            return Err(VertexRefused { draft, why });
        }
        let to = self.place_vertex(nursery, name, draft);
        put(&mut self.spaces, nursery, spot, to, rights);
        remember(&mut self.remembered, note);
        Ok(to)
    }

    /// Makes room for one payload, then for a note, and then for so many cells of a nursery.
    #[inline(always)]
    pub(crate) fn make_vertex_room(
        &mut self,
        nursery: u64,
        note: Option<Place>,
        cells: u64,
    ) -> Result<(), RoomFault>
        requires { CanReserve self.old nursery cells }
        ensures { MakesVertexRoom self.old self.new nursery note cells result }
    {
        let Ok(()) = self.payloads.reserve(1) else {
            return Err(RoomFault::OutOfMemory);
        };
        self.make_room(nursery, note, cells)
    }

    /// Makes room for a note, if there is one, and then for so many cells of a nursery.
    #[inline(always)]
    pub(crate) fn make_room(
        &mut self,
        nursery: u64,
        note: Option<Place>,
        cells: u64,
    ) -> Result<(), RoomFault>
        requires { CanReserve self.old nursery cells }
        ensures room { MakesRoomInCells self.old self.new nursery note cells result }
        ensures payloads { self.new.payloads ≡ self.old.payloads }
        ensures had_room { HasRoomLeft self.old.spaces (nursery_space nursery) cells → note ≡ None → IsOk result }
    {
        let Ok(()) = reserve_note(&mut self.remembered, note) else {
            return Err(RoomFault::OutOfMemory);
        };
        reserve(&mut self.spaces, nursery, cells)
    }

    /// Puts an object with a name that none has into the next cell of a nursery. There is room for it.
    #[inline(always)]
    pub fn place_vertex(&mut self, nursery: u64, name: u64, draft: Draft<P>) -> Place
        requires few { nursery < MAX_NURSERIES }
        requires nursery { nursery_space nursery < length self.old.spaces.spaces }
        requires table { IsSpaceTable self.old.spaces }
        requires graph { IsGraph self.old.spaces.spaces self.old.payloads }
        requires fresh { ¬ IsNamed (content_in self.old.spaces.spaces self.old.payloads) name }
        requires spare { 0 < self.old.payloads.spare }
        requires left { HasRoomLeft self.old.spaces (nursery_space nursery) 1 }
        ensures placed { PlacesVertex self.old self.new name draft }
        ensures vertex { IsVertexAt self.new.spaces.spaces name result }
        ensures next { result ≡ place_in_space (nursery_space nursery) (used_of self.old.spaces (nursery_space nursery)) }
        ensures written { (key : ℕ) × (self.new.spaces ≡ vertex_put self.old.spaces (nursery_space nursery) name key) }
        ensures rows { KeepsRows self.old.spaces.spaces self.new.spaces.spaces }
        ensures table { IsSpaceTable self.new.spaces }
        ensures used { self.new.spaces.used ≡ slice_set self.old.spaces.used (nursery_space nursery) (used_of self.old.spaces (nursery_space nursery) + 1) }
        ensures blocks { (space : ℕ) → length (space_of self.new.spaces.spaces space) ≡ length (space_of self.old.spaces.spaces space) }
        ensures spare_left { self.old.payloads.spare ≤ self.new.payloads.spare + 1 }
        ensures remembered { (places : List Place) → AreRemembered self.old.spaces.spaces places → AreRemembered self.new.spaces.spaces places }
        ensures notes { self.new.remembered ≡ self.old.remembered }
    {
        let key = match self.payloads.insert(draft) {
            Ok(key) => key,
            Err(_) => unreachable!(),
        };
        let place = self.spaces.hand_out(nursery_space(nursery));
        self.spaces
            .write_cell(place, [OBJECT_TAG, name, key, 0, 0, 0, 0, 0]);
        place
    }
}

// Makes room for the note of a cell, if there is one.
#[inline(always)]
fn reserve_note(remembered: &mut Remembered, note: Option<Place>) -> Result<(), AllocError>
    ensures places { remembered.new.places ≡ remembered.old.places }
    ensures room { OnOk result (IfSome note (λ _. 0 < remembered.new.spare)) }
    ensures none { note ≡ None → IsOk result }
{
    if note.is_some() {
        remembered.reserve()?;
    }
    Ok(())
}

/// Remembers a cell, if there is one. There is room for it.
#[inline(always)]
pub(crate) fn remember(remembered: &mut Remembered, note: Option<Place>)
    requires { IfSome note (λ _. 0 < remembered.old.spare) }
    ensures noted { remembered.new.places ≡ with_note remembered.old.places note }
    ensures members { (q : Place) → Contains remembered.new.places q ↔ (Contains remembered.old.places q ⊎ (note ≡ Some q)) }
{
    if let Some(cell) = note {
        remembered.note(cell);
    }
}
