//! A walk over a heap that looks whether it may be collected.
ghost use Rattle.std.specs.Prelude.{◌≡◌, ◌≢◌, ◌<◌, ℕ, IsTrue, length};
ghost use Rattle.std.specs.List.{All};
ghost use Rattle.tg_block.specs.Cells.{all_are_zero};
ghost use Rattle.tg_block.specs.declared.CellKind.TheVariants.{Object, Chunk};
ghost use Rattle.tg_space.specs.SpaceList.{cells_of};
ghost use Rattle.tg_space.specs.Soundness.{AreSound, HasLayout, HasLayoutOf, IsKindAt, IsLink, IsReference, IsRootIn};
ghost use Rattle.tg_space.specs.Rows.{link_of};
ghost use Rattle.tg_space.specs.Targets.{cell_numbered};
ghost use Rattle.tg_word.specs.Word.{is_present, place_in};
ghost use Rattle.heap_tests.specs.Links.{HaveOwnLinks};

use tg_block::{CHUNK_TAG, OBJECT_TAG, WORDS};
use tg_space::{Root, Spaces};
use tg_word::{PRESENT_AT, Place, SPACES, place_of, rights_of};

/// Whether each cell has its layout, no chunk is linked to twice, and the roots are rows or cells of Old. `false` says
/// nothing.
pub fn are_sound(spaces: &Spaces, roots: &[Root]) -> bool
    ensures { IsTrue result → AreSound spaces.now.spaces roots.now }
{
    have_layouts(spaces) && have_own_links(spaces) && are_roots(spaces, roots)
}

// Whether each cell has its layout.
fn have_layouts(spaces: &Spaces) -> bool
    ensures { IsTrue result → All (HasLayout spaces.now.spaces) (cells_of spaces.now.spaces) }
{
    for number in 0..spaces.cells() {
        let words = *spaces.numbered_words(number);
        if !has_layout(spaces, &words) {
            return false;
        }
    }
    true
}

// Whether no chunk is linked to twice.
fn have_own_links(spaces: &Spaces) -> bool
    ensures { IsTrue result → HaveOwnLinks spaces.now.spaces }
{
    for number in 0..spaces.cells() {
        let words = *spaces.numbered_words(number);
        if words[7] != 0 && !is_own_link(spaces, number, words[7]) {
            return false;
        }
    }
    true
}

// Whether no cell but one has the link.
fn is_own_link(spaces: &Spaces, owner: u64, link: u64) -> bool
    ensures { IsTrue result → (d : ℕ) → d < length (cells_of spaces.now.spaces) → link ≡ link_of (cell_numbered spaces.now.spaces d) → owner ≡ d }
{
    for number in 0..spaces.cells() {
        let words = *spaces.numbered_words(number);
        if words[7] == link && number != owner {
            return false;
        }
    }
    true
}

// Whether the roots are rows or cells of Old.
fn are_roots(spaces: &Spaces, roots: &[Root]) -> bool
    ensures { IsTrue result → All (IsRootIn spaces.now.spaces) roots.now }
{
    roots.iter().all(|root| is_root(spaces, *root))
}

fn is_root(spaces: &Spaces, root: Root) -> bool
    ensures { IsTrue result → IsRootIn spaces.now.spaces root }
{
    match root {
        Root::Row(place) => has_tag(spaces, place, OBJECT_TAG),
        Root::Remembered(place) => place.space == 0 && spaces.holds(place),
    }
}

// Whether the words of a cell have the layout that its first word says.
fn has_layout(spaces: &Spaces, words: &[u64; WORDS]) -> bool
    ensures { IsTrue result → HasLayout spaces.now.spaces words.now }
{
    match words[0] {
        0 => is_all_zero(words),
        OBJECT_TAG => has_object_layout(spaces, words),
        CHUNK_TAG => has_chunk_layout(spaces, words),
        _ => false,
    }
}

fn is_all_zero(words: &[u64]) -> bool
    ensures { result ≡ all_are_zero words.now }
{
    words.iter().all(|word| *word == 0)
}

fn has_object_layout(spaces: &Spaces, words: &[u64; WORDS]) -> bool
    ensures { IsTrue result → HasLayoutOf spaces.now.spaces words.now Object }
{
    if words[3] != 0 {
        return false;
    }
    are_references(spaces, &words[4..7]) && is_link(spaces, words[7])
}

fn has_chunk_layout(spaces: &Spaces, words: &[u64; WORDS]) -> bool
    ensures { IsTrue result → HasLayoutOf spaces.now.spaces words.now Chunk }
{
    are_references(spaces, &words[1..7]) && is_link(spaces, words[7])
}

// Whether each word is empty or refers to an object.
fn are_references(spaces: &Spaces, words: &[u64]) -> bool
    ensures { IsTrue result → All (IsReference spaces.now.spaces) words.now }
{
    words.iter().all(|word| is_reference(spaces, *word))
}

fn is_reference(spaces: &Spaces, word: u64) -> bool
    ensures { IsTrue result → IsReference spaces.now.spaces word }
{
    word == 0 || !rights_of(word).is_empty() && names(spaces, word, OBJECT_TAG)
}

// Whether a word is empty or names a chunk.
fn is_link(spaces: &Spaces, word: u64) -> bool
    ensures { IsTrue result → IsLink spaces.now.spaces word }
{
    word == 0 || rights_of(word).is_empty() && names(spaces, word, CHUNK_TAG)
}

// Whether a word names a cell with this first word, at a place that there can be.
fn names(spaces: &Spaces, word: u64, tag: u64) -> bool
    ensures present { IsTrue result → IsTrue (is_present word) }
    ensures object { IsTrue result → tag ≡ OBJECT_TAG → IsKindAt spaces.now.spaces Object (place_in word) }
    ensures chunk { IsTrue result → tag ≡ CHUNK_TAG → IsKindAt spaces.now.spaces Chunk (place_in word) }
{
    let place = place_of(word);
    word >> PRESENT_AT == 1 && place.space < SPACES && has_tag(spaces, place, tag)
}

// Whether the cell at a place has this first word.
fn has_tag(spaces: &Spaces, place: Place, tag: u64) -> bool
    ensures object { IsTrue result → tag ≡ OBJECT_TAG → IsKindAt spaces.now.spaces Object place }
    ensures chunk { IsTrue result → tag ≡ CHUNK_TAG → IsKindAt spaces.now.spaces Chunk place }
{
    spaces.holds(place) && spaces.read(place, 0) == tag
}
