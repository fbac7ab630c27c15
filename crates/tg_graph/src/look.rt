//! What there is in a heap.
ghost use Rattle.std.specs.Prelude.{◌≡◌, ◌==◌, length, slice_set};
ghost use Rattle.std.specs.List.{IsDistinct};
ghost use Rattle.tg_graph.specs.Heap.{content_of};
ghost use Rattle.tg_graph.specs.Shown.{shown_in};

use crate::heap::Heap;
use tg_block::{NAME, OBJECT_TAG};
use tg_payload::Payload;

impl<P: Payload> Heap<P> {
    /// Writes the names of the heap's vertices to `into`, and returns how many vertices there are. The names are in the
    /// order of the places of their objects, and each comes once. If there is less room than names, the first names are
    /// written. The rest of `into` stays as it is. The call goes once over the cells. Takes no memory.
    pub fn names(&self, into: &mut [u64]) -> u64
        ensures number { result ≡ length (content_of self.now).names }
        ensures shown { into.new ≡ shown_in (content_of self.now).names into.old }
        ensures once { IsDistinct (λ a b. a == b) (content_of self.now).names }
    {
        let spaces = &self.cells.spaces;
        let mut count: usize = 0;
        for number in 0..spaces.cells() {
            let words = spaces.numbered_words(number);
            if words[0] == OBJECT_TAG {
                put_at(into, count, words[NAME]);
                count += 1;
            }
        }
        count as u64
    }
}

// Sets a number of a slice, where there is one.
fn put_at(numbers: &mut [u64], at: usize, number: u64)
    ensures { numbers.new ≡ slice_set numbers.old at number }
{
    if at < numbers.len() {
        numbers[at] = number;
    }
}
