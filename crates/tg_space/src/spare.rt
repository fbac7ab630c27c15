//! What a collection leaves for the next one to use.
ghost use Rattle.std.specs.Prelude.{◌≡◌, ◌≤◌, ◌*◌, ◌<◌, ◌^◌, [], take, vec_capacity};

use std::alloc::Global;
use tg_block::Block;

/// What the last collection left for the next one to use. It counts for no limit, and is no more than the heap may need
/// for a full collection.
#[derive(Drop)]
pub struct Spare {
    /// Blocks that collections emptied or didn't use. There are at most as many as the heap had blocks after the last
    /// collection. Their content has no meaning.
    pub blocks: Vec<Block>,
    /// Room for a word of each cell that may be moved, or for no word. If one thread collected, it is the room of the
    /// forwarding words. Otherwise it is the room of a helper's list of cells. It is at most for four times as many
    /// cells as the heap had after the last collection.
    pub words: Vec<u64>,
}

impl Spare {
    /// Nothing that is left. Takes no memory.
    pub fn none(alloc: Global) -> Self
        ensures blocks { result.blocks.items ≡ [] }
        ensures words { result.words.items ≡ [] }
    {
        Spare {
            blocks: Vec::new(alloc),
            words: Vec::new(alloc),
        }
    }

    /// Keeps these blocks for the next collection, but no more than `most`. The others are given back. Takes no memory.
    pub(crate) fn keep_blocks(&mut self, mut blocks: Vec<Block>, most: u64)
        ensures { self.new.blocks.items ≡ take most blocks.items }
    {
        blocks.truncate(most as usize);
        self.blocks = blocks;
    }

    /// Keeps this room for the next collection of as many cells, but gives it back where it is for more than four times
    /// as many. Takes no memory.
    pub(crate) fn keep_words(&mut self, alloc: Global, room: Vec<u64>, cells: u64)
        requires { 4 * cells < 2 ^ 64 }
        ensures { vec_capacity self.new.words ≤ 4 * cells }
    {
        self.words = if room.capacity() as u64 <= 4 * cells {
            room
        } else {
            Vec::new(alloc)
        };
    }
}
