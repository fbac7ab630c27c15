//! Which words of a cell may name cells.
ghost use Rattle.std.specs.Prelude.{◌≡◌, ◌≤◌};
ghost use Rattle.tg_space.specs.Targets.{first_pointer as first_pointer_of};

use tg_block::{CHUNK_POINTERS, CHUNK_TAG, OBJECT_POINTERS, OBJECT_TAG, WORDS};

/// The first word of a cell with this tag that may name a cell. It is 4 for an object and 1 for a chunk. For any other
/// tag it is 8, which is past the last word.
#[inline(always)]
pub fn first_pointer(tag: u64) -> usize
    ensures word { result ≡ first_pointer_of tag }
    ensures inside { result ≤ 8 }
{
    match tag {
        OBJECT_TAG => OBJECT_POINTERS,
        CHUNK_TAG => CHUNK_POINTERS,
        _ => WORDS,
    }
}
