//! What a change of a row writes.
ghost use Rattle.std.specs.Prelude.{◌≡◌, slice_index};
ghost use Rattle.tg_word.specs.Word.{IsPlace, nursery_space, word_at};
ghost use Rattle.tg_space.specs.SpaceList.{cell_at};
ghost use Rattle.tg_rows.specs.Spots.{chunk_put, narrowed, table_put, widened, word_put, CanExtend, CanPutRights, CanRewrite};

use crate::rows::Spot;
use tg_block::{CHUNK_TAG, LINK};
use tg_rights::Rights;
use tg_space::Spaces;
use tg_word::{Place, Slot, nursery_space, pack, place_of, rights_of};

/// Puts rights over the object at a place into a row. If there is a reference to the object, it gets the rights too.
/// Otherwise the empty place gets a reference with them. If there is none, a new chunk from a nursery gets it, and the
/// nursery has a cell left for it.
#[inline(always)]
pub(crate) fn put(spaces: &mut Spaces, nursery: u64, spot: Spot, to: Place, rights: Rights)
    requires { CanPutRights spaces.old nursery spot to }
    ensures { spaces.new ≡ table_put spaces.old (nursery_space nursery) spot rights to }
{
    let word = reference_to(to, rights);
    match spot {
        Spot::Reference { cell, index } => widen(spaces, cell, index, rights),
        Spot::Empty { cell, index } => spaces.write(cell, index, word),
        Spot::Full { last } => extend(spaces, nursery, last, word),
    }
}

// Adds rights to a reference.
fn widen(spaces: &mut Spaces, cell: Place, index: usize, rights: Rights)
    requires { CanRewrite spaces.old cell index }
    ensures { spaces.new ≡ word_put spaces.old cell index (widened (slice_index (cell_at spaces.old.spaces cell) index) rights) }
{
    let word = spaces.read(cell, index);
    let rights = rights_of(word).union(rights);
    spaces.write(cell, index, reference_to(place_of(word), rights));
}

/// Takes rights off a reference, which becomes the empty word where it has none left.
pub(crate) fn narrow(spaces: &mut Spaces, cell: Place, index: usize, rights: Rights)
    requires { CanRewrite spaces.old cell index }
    ensures { spaces.new ≡ word_put spaces.old cell index (narrowed (slice_index (cell_at spaces.old.spaces cell) index) rights) }
{
    let word = spaces.read(cell, index);
    let rights = rights_of(word).minus(rights);
    let left = if rights.is_empty() {
        0
    } else {
        reference_to(place_of(word), rights)
    };
    spaces.write(cell, index, left);
}

// Links the last cell of a row to a new chunk with this reference.
fn extend(spaces: &mut Spaces, nursery: u64, last: Place, word: u64)
    requires { CanExtend spaces.old nursery last }
    ensures { spaces.new ≡ chunk_put spaces.old (nursery_space nursery) last word }
{
    let chunk = spaces.hand_out(nursery_space(nursery));
    spaces.write_cell(chunk, [CHUNK_TAG, word, 0, 0, 0, 0, 0, 0]);
    spaces.write(last, LINK, reference_to(chunk, Rights::empty()));
}

/// The word of a reference.
pub(crate) fn reference_to(place: Place, rights: Rights) -> u64
    requires { IsPlace place }
    ensures { result ≡ word_at rights place }
{
    pack(Slot::To { rights, place })
}
