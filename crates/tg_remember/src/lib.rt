//! The remembered set, which has the places of old cells that may refer to young cells.
//!
//! A nursery collection reads only the remembered cells of Old. So each old cell that gets a reference or a link into a
//! younger space is noted here, once, however often it is written. The set keeps the order of first notes, because the
//! collection goes through it in that order. The result of a collection then depends on the order of writes alone.
//!
//! The heap notes a cell when it writes to it, and such a write must not be refused half way. Therefore the heap
//! reserves room for its one note before any change. Contracts see that room as the number `spare`. The set knows only
//! places. Whether a cell is old, and what it refers to, is known in crates above.
#![tactic(auto)]

ghost use Rattle.std.specs.Prelude.{◌≡◌, ◌≢◌, ◌+◌, ◌<◌, ◌≤◌, ◌↔◌, ◌⊎◌, [], length, Some, IsTrue, IsOk, OnOk, Contains, AllPairs, slice_get};
ghost use Rattle.tg_remember.specs.Notes.{noted};

use indexmap::IndexSet;
use std::alloc::{AllocError, Global};
use std::marker::Model;
use tg_word::Place;

// A place as a key that has a hash: its space, block and cell.
type Key = (u64, u64, u64);

/// Places, each once, in the order in which they were first noted. Contracts see the list of them, and `spare`, for how
/// many more there is room.
#[derive(Drop)]
pub struct Remembered {
    keys: IndexSet<Key>,
}

impl Model for Remembered {
    ghost use Rattle.std.specs.Prelude.{map};
    ghost use Rattle.indexmap.specs.IndexSet.{spare};
    ghost use Rattle.tg_remember.specs.Notes.{Notes, place_of_key};

    ghost Value = { Notes };

    ghost view = { λ a. record { places = map place_of_key a.keys.keys; spare = spare a.keys } };
}

impl Remembered {
    /// A set with no place. Takes no memory.
    pub fn new(alloc: Global) -> Remembered
        ensures { result.places ≡ [] }
    {
        Remembered {
            keys: IndexSet::new(alloc),
        }
    }

    /// Makes room for one more place. Takes no memory where there is room. Where memory is refused, and else too, the
    /// places stay.
    pub fn reserve(&mut self) -> Result<(), AllocError>
        ensures room { OnOk result (0 < self.new.spare) }
        ensures had_room { 0 < self.old.spare → IsOk result }
        ensures kept { self.new.places ≡ self.old.places }
        ensures spare { self.old.spare ≤ self.new.spare }
    {
        self.keys.reserve(1)
    }

    /// Adds the place at the end, where it isn't there yet. There has to be room for it, or it is there. Takes no
    /// memory.
    pub fn note(&mut self, place: Place)
        requires { (0 < self.old.spare) ⊎ Contains self.old.places place }
        ensures noted { self.new.places ≡ noted self.old.places place }
        ensures members { (q : Place) → Contains self.new.places q ↔ (Contains self.old.places q ⊎ (q ≡ place)) }
        ensures spare { self.old.spare ≤ self.new.spare + 1 }
    {
        self.keys.insert(key_of(place)).unwrap();
    }

    /// Whether the place was noted. Takes no memory.
    pub fn contains(&self, place: Place) -> bool
        ensures { IsTrue result ↔ Contains self.now.places place }
    {
        self.keys.contains(&key_of(place))
    }

    /// How many places there are. Takes no memory.
    pub fn len(&self) -> usize
        ensures len { result ≡ length self.now.places }
        ensures each_once { AllPairs (λ p q. p ≢ q) self.now.places }
    {
        self.keys.len()
    }

    /// The place with this number, in the order of first notes, from 0 on. Takes no memory.
    pub fn nth(&self, i: usize) -> Place
        requires { i < length self.now.places }
        ensures { slice_get self.now.places i ≡ Some result }
    {
        let (space, block, cell) = *self.keys.get_index(i).unwrap();
        Place { space, block, cell }
    }
}

// The key of the place.
fn key_of(place: Place) -> Key
    ensures { result ≡ (place.space, place.block, place.cell) }
{
    (place.space, place.block, place.cell)
}
