//! The cells of Old that will name young ones.
ghost use Rattle.std.specs.Prelude.{◌≡◌, ◌≤◌, ◌+◌, ◌↔◌, ◌⊎◌, length, IfOk, IsTrue, OnOk};
ghost use Rattle.std.specs.List.{All, Contains};
ghost use Rattle.tg_word.specs.declared.TheConstants.{MOST_SPACE_BLOCKS};
ghost use Rattle.tg_word.specs.declared.Place.{Place as PlaceOf};
ghost use Rattle.tg_space.specs.Generations.{NamesYoung};
ghost use Rattle.tg_space.specs.Soundness.{IsRootIn};
ghost use Rattle.tg_space.specs.declared.root.Root.TheVariants.{Remembered as RememberedAt};
ghost use Rattle.tg_evac.specs.Copies.{AreForwarded, IsPlaceIn, new_cell};
ghost use Rattle.tg_evac.specs.Notes.{AddsNotes, IsYoungIn, IsYoungInBlock, IsYoungRoot, made_cell};
ghost use Rattle.tg_evac.specs.Inner.Steps.{MayNoteBlock, MayNoteRoot, MayNoteRoots};

use std::alloc::{AllocError, Global};
use tg_block::WORDS;
use tg_remember::Remembered;
use tg_space::{Kind, Moves, Root, Space, Spaces, first_pointer};
use tg_word::{CELLS, OLD, Place, place_of};

/// What a collection has made of cells of these spaces.
#[derive(Clone, Copy)]
pub struct Made<'a, 'b> {
    /// The spaces, which are only read.
    pub spaces: &'a Spaces,
    /// Where it has their cells.
    pub moves: Moves<'b>,
}

impl Made<'_, '_> {
    /// Returns the remembered roots that will name young cells, and the cells of the new blocks of Old that do. `kept`
    /// blocks of Old come before the new ones. A full collection leaves none.
    ///
    /// The call is refused only if memory was refused.
    pub fn notes(
        self,
        alloc: Global,
        roots: &[Root],
        old: &Space,
        kept: u64,
    ) -> Result<Remembered, AllocError>
        requires forward { AreForwarded self.spaces.now.spaces self.moves.numbering.now.starts self.moves.forward.now.words }
        requires roots { All (IsRootIn self.spaces.now.spaces) roots.now }
        requires few { kept + length old.now ≤ MOST_SPACE_BLOCKS }
        requires full { self.moves.kind ≡ Kind.Full → (p : PlaceOf) → IsPlaceIn 0 kept old.now p → NamesYoung (new_cell kept old.now p) → ⊥ }
        ensures { IfOk result (λ noted. (p : PlaceOf) → Contains noted.places p ↔ (IsYoungRoot self.entry roots.now p ⊎ IsYoungIn kept old.now p)) }
    {
        let mut remembered = Remembered::new(alloc);
        self.note_roots(&mut remembered, roots)?;
        match self.moves.kind {
            Kind::Full => Ok(remembered),
            Kind::Nursery => {
                note_blocks(&mut remembered, old, kept)?;
                Ok(remembered)
            }
        }
    }

    // Notes the remembered cells that will name young ones.
    fn note_roots(self, remembered: &mut Remembered, roots: &[Root]) -> Result<(), AllocError>
        requires { MayNoteRoots self.spaces.now.spaces self.moves.numbering.now.starts self.moves.forward.now.words roots.now }
        ensures { OnOk result (AddsNotes (IsYoungRoot self.entry roots.now) remembered.old.places remembered.new.places) }
    {
        for root in roots {
            self.note_root(remembered, *root)?;
        }
        Ok(())
    }

    // Notes the cell of a root, where it is remembered and will name a young one.
    fn note_root(self, remembered: &mut Remembered, root: Root) -> Result<(), AllocError>
        requires { MayNoteRoot self.spaces.now.spaces self.moves.numbering.now.starts self.moves.forward.now.words root }
        ensures { OnOk result (AddsNotes (λ p. (root ≡ RememberedAt p) × NamesYoung (made_cell self.entry p)) remembered.old.places remembered.new.places) }
    {
        match root {
            Root::Row(_) => Ok(()),
            Root::Remembered(place) => {
                let words = self.moves.image(*self.spaces.words(place));
                note_young(remembered, place, &words)
            }
        }
    }
}

// Notes the cells of these blocks of Old, after as many other ones, that name young cells.
fn note_blocks(remembered: &mut Remembered, blocks: &Space, kept: u64) -> Result<(), AllocError>
    requires { kept + length blocks.now ≤ MOST_SPACE_BLOCKS }
    ensures { OnOk result (AddsNotes (IsYoungIn kept blocks.now) remembered.old.places remembered.new.places) }
{
    for block in 0..blocks.len() {
        note_block(remembered, blocks, block, kept)?;
    }
    Ok(())
}

// Notes the cells of one of the blocks that name young cells.
fn note_block(
    remembered: &mut Remembered,
    blocks: &Space,
    block: u64,
    kept: u64,
) -> Result<(), AllocError>
    requires { MayNoteBlock kept blocks.now block }
    ensures { OnOk result (AddsNotes (IsYoungInBlock kept blocks.now block) remembered.old.places remembered.new.places) }
{
    for cell in 0..CELLS {
        let place = Place {
            space: OLD,
            block: kept + block,
            cell,
        };
        note_young(remembered, place, blocks.words(block, cell))?;
    }
    Ok(())
}

// Notes a place of Old, where the words of its cell name a young one.
fn note_young(
    remembered: &mut Remembered,
    place: Place,
    words: &[u64; WORDS],
) -> Result<(), AllocError>
    ensures { OnOk result (AddsNotes (λ p. (p ≡ place) × (place.space ≡ 0) × NamesYoung words.now) remembered.old.places remembered.new.places) }
{
    if place.space == OLD && names_young(words) {
        remembered.reserve()?;
        remembered.note(place);
    }
    Ok(())
}

// Whether a reference or link among the words of a cell names a cell of Aged or of a nursery.
#[inline]
fn names_young(words: &[u64; WORDS]) -> bool
    ensures { IsTrue result ↔ NamesYoung words.now }
{
    let first = first_pointer(words[0]);
    for i in 1..WORDS {
        if first <= i && place_of(words[i]).space != OLD {
            return true;
        }
    }
    false
}
