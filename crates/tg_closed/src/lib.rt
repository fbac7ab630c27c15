//! The words of a table that several helpers shared, read in place after the last helper has gone.
//!
//! A collection by several helpers gives each cell its new place in such a table (`tg_race`). Code that settles the
//! heap afterwards reads the words in place (`tg_space`). Therefore closing the table copies no word. A new table has
//! zeros only. `zeros` writes them into room that the last collection left.
#![tactic(auto)]

ghost use Rattle.std.specs.Prelude.{◌≡◌, ◌+◌, ◌<◌, ◌≤◌, IfOk, drop, length, replicate, slice_index};
ghost use Rattle.std.specs.Slots.{IsFull, slots_items, slots_len};

use atomic_table::Closed;
use std::alloc::{AllocError, Global};
use std::marker::Model;

/// The words of a closed table, after the first ones, which are of no use any more. A clause sees a list of words.
pub struct ClosedWords {
    closed: Closed<u8, Global>,
    // how many words are in front
    front: usize,
}

impl Model for ClosedWords {
    ghost use Rattle.std.specs.Prelude.{◌≡◌, ◌≤◌, ℕ, List, drop};
    ghost use Rattle.std.specs.Slots.{IsFull, slots_items, slots_len};

    ghost Value = { List ℕ };

    ghost view = { λ w. drop w.front (slots_items w.closed.words) };

    ghost invariant = { λ w. IsFull w.closed.words × (w.front ≤ slots_len w.closed.words) × (slots_len w.closed.slots ≡ 0) };
}

impl ClosedWords {
    /// The words of a closed table without slots, after so many in front.
    pub fn of(closed: Closed<u8, Global>, front: usize) -> Self
        requires full { IsFull closed.words }
        requires front { front ≤ slots_len closed.words }
        requires none { slots_len closed.slots ≡ 0 }
        ensures { result ≡ drop front (slots_items closed.words) }
    {
        ClosedWords { closed, front }
    }

    /// How many words there are.
    pub fn len(&self) -> usize
        ensures { result ≡ length self.now }
    {
        self.closed.words.len() - self.front
    }

    /// The word with this number.
    #[inline(always)]
    pub fn word(&self, number: usize) -> u64
        requires { number < length self.now }
        ensures { result ≡ slice_index self.now number }
    {
        self.closed.word(self.front + number)
    }
}

impl Drop for ClosedWords {
    fn drop(self) {
        let Self { closed, front: _ } = self;
        closed.free();
    }
}

/// As many zeros. They are in the room if it is large enough, whatever it holds. Otherwise the room is given back, and
/// the zeros take memory of their own.
///
/// It is refused only where memory was.
#[inline(never)]
pub fn zeros(alloc: Global, count: usize, mut room: Vec<u64>) -> Result<Vec<u64>, AllocError>
    ensures { IfOk result (λ words. words.items ≡ replicate count 0) }
{
    if room.capacity() < count {
        drop(room);
        return vec![in alloc; 0; count];
    }
    room.clear();
    room.resize(count, 0)?;
    Ok(room)
}
