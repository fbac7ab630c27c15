//! The copy of a cell, whose words are moved in place. What they name is claimed.
ghost use Rattle.std.specs.Prelude.{◌≡◌, ℕ, ◌≤◌, ◌<◌, drop, get_or, OnOk, IsTrue};
ghost use Rattle.tg_word.specs.Word.{place_in, rights_in, word_at};
ghost use Rattle.tg_space.specs.Soundness.{IsPointer};
ghost use Rattle.tg_space.specs.Targets.{pointers_of};
ghost use Rattle.tg_evac.specs.Claimers.{IsClaimLink};
ghost use Rattle.tg_evac.specs.Walks.{ClaimsTargetOf, IsMovedWord, IsTableFor, MayMove, MovesCell, MovesFrom};

use crate::claimer::Claimer;
use crate::plan::space_for;
use crate::walk::Walk;
use tg_block::{CHUNK_POINTERS, CHUNK_TAG, OBJECT_POINTERS, OBJECT_TAG, WORDS};
use tg_space::RoomFault;
use tg_word::{place_of, rights_of};

impl Walk<'_> {
    /// Makes these words of a cell those of its copy. What they name is claimed, to go straight to Old or not.
    #[inline(always)]
    pub fn move_cell<C: Claimer>(
        self,
        claimer: &mut C,
        straight: bool,
        cell: &mut [u64; WORDS],
    ) -> Result<(), RoomFault>
        requires { MayMove self.kind self.spaces.now.spaces (pointers_of cell.old) (C.walked claimer.old) }
        ensures { MovesCell C.walked C.knows C.is_full self.entry.spaces.now.spaces straight cell.old cell.new claimer.old claimer.new result }
    {
        // A loop from a known word on is laid out word by word.
        match cell[0] {
            OBJECT_TAG => self.move_object(claimer, straight, cell),
            CHUNK_TAG => self.move_from(claimer, straight, CHUNK_POINTERS, cell),
            _ => Ok(()),
        }
    }

    // Moves the words of an object. Most objects name nothing, which one test shows.
    #[inline(always)]
    fn move_object<C: Claimer>(
        self,
        claimer: &mut C,
        straight: bool,
        cell: &mut [u64; WORDS],
    ) -> Result<(), RoomFault>
        requires { MayMove self.kind self.spaces.now.spaces (drop 4 cell.old) (C.walked claimer.old) }
        ensures { MovesFrom C.walked C.knows C.is_full self.entry.spaces.now.spaces straight 4 cell.old cell.new claimer.old claimer.new result }
    {
        if names_nothing(cell) {
            return Ok(());
        }
        self.move_from(claimer, straight, OBJECT_POINTERS, cell)
    }

    /// Moves the words of a cell from one on. What they name is claimed.
    #[inline(always)]
    pub fn move_from<C: Claimer>(
        self,
        claimer: &mut C,
        straight: bool,
        first: usize,
        cell: &mut [u64; WORDS],
    ) -> Result<(), RoomFault>
        requires inside { first ≤ 8 }
        requires may { MayMove self.kind self.spaces.now.spaces (drop first cell.old) (C.walked claimer.old) }
        ensures { MovesFrom C.walked C.knows C.is_full self.entry.spaces.now.spaces straight first cell.old cell.new claimer.old claimer.new result }
    {
        for i in first..WORDS {
            self.move_word(claimer, straight, &mut cell[i])?;
        }
        Ok(())
    }

    // Puts the new place of the cell that a word names into the word, where that cell is moved. It is claimed.
    #[inline(always)]
    #[tactic(auto, using(crate::proofs::Behind::moved_behind))]
    fn move_word<C: Claimer>(
        self,
        claimer: &mut C,
        straight: bool,
        word: &mut u64,
    ) -> Result<(), RoomFault>
        requires pointer { IsPointer self.spaces.now.spaces word.old }
        requires table { IsTableFor self.kind self.spaces.now.spaces (C.walked claimer.old) }
        ensures claims { ClaimsTargetOf C.walked C.knows C.is_full self.entry.spaces.now.spaces straight word.old claimer.old claimer.new result }
        ensures word { OnOk result (IsMovedWord C.walked C.knows self.entry.spaces.now.spaces word.old word.new claimer.old claimer.new) }
    {
        let old = *word;
        if old == 0 {
            return Ok(());
        }
        let space = place_of(old).space;
        if !self.kind.moves(space) {
            return Ok(());
        }
        let link = claimer.claim(self.spaces.target_of(old), space_for(straight, space))?;
        *word = with_rights(link, old);
        Ok(())
    }
}

// Whether the references and the link of an object are all 0.
#[inline(always)]
fn names_nothing(object: &[u64; WORDS]) -> bool
    ensures { IsTrue result → (i : ℕ) → 4 ≤ i → i < 8 → get_or object.now i 0 ≡ 0 }
{
    object[4] | object[5] | object[6] | object[7] == 0
}

// The reference with the rights in a word, to the place of a link.
#[inline(always)]
fn with_rights(link: u64, word: u64) -> u64
    requires { IsClaimLink link }
    ensures { result ≡ word_at (rights_in word) (place_in link) }
{
    link + u64::from(rights_of(word).bits())
}
