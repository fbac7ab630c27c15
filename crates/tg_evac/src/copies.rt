//! The scan of won cells. Each cell is copied, and what it names is claimed, until no cell is left.
ghost use Rattle.std.specs.Prelude.{◌≡◌, ◌↔◌, ℕ, ◌+◌, ◌<◌, ◌≤◌, ◌-◌, ◌==◌, true, false, [], IfOk, OnOk, length, slice_index_or};
ghost use Rattle.tg_space.specs.SpaceList.{IsSpace, cells_of};
ghost use Rattle.tg_space.specs.Targets.{cell_numbered, pointers_of};
ghost use Rattle.std.specs.List.{All};
ghost use Rattle.tg_word.specs.declared.TheConstants.{MOST_SPACE_CELLS};
ghost use Rattle.tg_word.specs.Word.{place_in};
ghost use Rattle.tg_evac.specs.declared.copies.TheConstants.{FAR, NEAR};
ghost use Rattle.tg_evac.specs.Claims.{win_at, won_in};
ghost use Rattle.tg_evac.specs.Copies.{HoldCells};
ghost use Rattle.tg_evac.specs.Claimers.{AddsCopy};
ghost use Rattle.tg_evac.specs.Inner.Reads.{HasReadAhead, MayAskFor};
ghost use Rattle.tg_evac.specs.Walks.{ClaimsNamedBy, IsUnderWay, MayMove, Scans, ScansAll};

use crate::both::Both;
use crate::claimer::Claimer;
use crate::new_blocks::{NewBlocks, Original};
use crate::walk::Walk;
use std::alloc::{AllocError, Global};
use tg_block::{Block, WORDS};
use tg_space::{Adoption, Kind, RoomFault, Spaces};
use tg_word::OLD;

// How many won cells are read before the first of them is scanned, where the heap is large. Memory answers for them
// side by side then, though they lie apart from one another.
const NEAR: usize = 8;

// How many cells a heap has that is large: more than a processor keeps at hand.
const FAR: u64 = 1 << 17;

/// How won cells are read.
///
/// A caller who names the reading has the walk compiled for this reading alone. If each cell is read in place, a table
/// of claims that nothing else refers to is kept in registers.
#[derive(Clone, Copy)]
pub enum Reads {
    /// Each cell is read in place.
    Each,
    /// Some before the first of them is scanned.
    Ahead,
}

impl Reads {
    /// Returns the faster way to read the cells of these spaces. Cells are read in place, unless there are too many for
    /// the caches of a processor.
    pub fn of(spaces: &Spaces) -> Self
        ensures { (result ≡ Reads.Each) ↔ (length (cells_of spaces.now.spaces) < FAR) }
    {
        if spaces.cells() < FAR {
            Reads::Each
        } else {
            Reads::Ahead
        }
    }
}

/// The copies of won cells, in the order in which those were won.
#[derive(Drop)]
pub struct Copies {
    /// How many won cells were scanned.
    pub scanned: usize,
    /// Their copies in Aged.
    pub aged: NewBlocks,
    /// Their copies in Old.
    pub old: NewBlocks,
    /// Blocks whose cells are of no more use. They are filled before new blocks are taken.
    pub spare: Vec<Block>,
}

impl Copies {
    /// No cell was scanned, and copies go to these spare blocks first. It is refused only where memory was.
    pub fn new(alloc: Global, spare: Vec<Block>) -> Result<Copies, AllocError>
        ensures scanned { IfOk result (λ copies. copies.scanned ≡ 0) }
        ensures aged { IfOk result (λ copies. copies.aged ≡ []) }
        ensures old { IfOk result (λ copies. copies.old ≡ []) }
    {
        Ok(Copies {
            scanned: 0,
            aged: NewBlocks::new(alloc)?,
            old: NewBlocks::new(alloc)?,
            spare,
        })
    }

    /// The blocks of both spaces, and the spare ones that are left. It is refused only where memory was.
    pub fn finish(self) -> Result<Adoption, AllocError>
        requires aged { length self.aged ≤ MOST_SPACE_CELLS }
        requires old { length self.old ≤ MOST_SPACE_CELLS }
        ensures aged { IfOk result (λ adoption. HoldCells self.aged adoption.aged × IsSpace adoption.aged) }
        ensures old { IfOk result (λ adoption. HoldCells self.old adoption.old × IsSpace adoption.old) }
        ensures left { IfOk result (λ adoption. adoption.left.items ≡ self.spare.items) }
    {
        Ok(Adoption {
            aged: self.aged.finish()?,
            old: self.old.finish()?,
            left: self.spare,
        })
    }

    // Puts the copy of the cell that is scanned next after the others of Old or of Aged. What its words name is
    // claimed.
    #[inline(always)]
    fn push_copy<C: Claimer>(
        &mut self,
        claimer: &mut C,
        walk: Walk<'_>,
        original: Original<'_>,
    ) -> Result<(), RoomFault>
        requires old_room { original.is_in_old ≡ true → length self.now.old < MOST_SPACE_CELLS }
        requires aged_room { original.is_in_old ≡ false → length self.now.aged < MOST_SPACE_CELLS }
        requires may { MayMove walk.kind walk.spaces.now.spaces (pointers_of original.words.now) (C.walked claimer.old) }
        ensures claims { ClaimsNamedBy C.walked C.knows C.is_full walk.entry.spaces.now.spaces original.entry.is_in_old original.entry.words.now claimer.old claimer.new result }
        ensures old { OnOk result (original.entry.is_in_old ≡ true → AddsCopy (C.walked claimer.old).kind walk.entry.spaces.now.spaces (C.knows claimer.new) original.entry.words.now self.entry.now.old self.exit.now.old) }
        ensures old_kept { original.entry.is_in_old ≡ false → self.exit.now.old ≡ self.entry.now.old }
        ensures aged { OnOk result (original.entry.is_in_old ≡ false → AddsCopy (C.walked claimer.old).kind walk.entry.spaces.now.spaces (C.knows claimer.new) original.entry.words.now self.entry.now.aged self.exit.now.aged) }
        ensures aged_kept { original.entry.is_in_old ≡ true → self.exit.now.aged ≡ self.entry.now.aged }
        ensures scanned { self.exit.now.scanned ≡ self.entry.now.scanned }
    {
        let mut both = Both {
            old: &mut self.old,
            aged: &mut self.aged,
        };
        both.one(original.is_in_old)
            .push_copy(&mut self.spare, claimer, walk, original)
    }
}

// Some won cells that were read, one after the other.
#[derive(Drop)]
struct Ahead {
    words: [[u64; WORDS]; NEAR],
    // The number of the first among the won cells.
    first: usize,
    count: usize,
}

impl Ahead {
    // None was read.
    #[inline(always)]
    fn new() -> Self
        ensures first { result.first ≡ 0 }
        ensures count { result.count ≡ 0 }
    {
        Ahead {
            words: [[0; WORDS]; NEAR],
            first: 0,
            count: 0,
        }
    }

    // Reads won cells from the k-th on, as many as there is room for, unless that one was read. Each is looked for from
    // the space of the one before it (`near`).
    #[inline(always)]
    fn read<C: Claimer>(&mut self, claimer: &C, spaces: &Spaces, k: usize, near: &mut u64)
        requires whole { (C.walked claimer.now).cells ≡ length (cells_of spaces.now.spaces) }
        requires next { k < length (C.walked claimer.now).won }
        requires before { self.old.first ≤ k }
        requires read { HasReadAhead spaces.now.spaces (C.walked claimer.now).won self.old }
        ensures read { HasReadAhead spaces.now.spaces (C.walked claimer.now).won self.new }
        ensures before { self.new.first ≤ k }
        ensures there { k < self.new.first + self.new.count }
    {
        if k - self.first < self.count {
            return;
        }
        let count = (claimer.len() - k).min(NEAR);
        for i in 0..count {
            self.words[i] = *spaces.words_near(claimer.won_cell(k + i), near);
        }
        self.first = k;
        self.count = count;
    }

    // The words of the k-th won cell, which was read.
    #[inline(always)]
    fn words(&self, k: usize) -> &[u64; WORDS]
        requires before { self.now.first ≤ k }
        requires there { k < self.now.first + self.now.count }
        requires few { self.now.count ≤ NEAR }
        ensures { result.now ≡ slice_index_or self.now.words (k - self.now.first) [] }
    {
        &self.words[k - self.first]
    }
}

impl Walk<'_> {
    /// Scans the won cells that were not, in the order in which they were won, until none is left. What a cell names
    /// whose copy is in Old goes straight to Old.
    ///
    /// It is refused as a claim is, or with `OutOfMemory` where memory for a copy was refused. What was claimed till
    /// then stays so.
    #[inline(always)]
    pub fn scan<C: Claimer>(self, claimer: &mut C, copies: &mut Copies) -> Result<(), RoomFault>
        requires { IsUnderWay C.walked C.knows self.kind self.spaces.now.spaces claimer.old copies.now.scanned copies.now.aged copies.now.old }
        ensures scans { ScansAll C.walked C.knows C.is_full self.entry.spaces.now.spaces claimer.old claimer.new copies.exit.now.aged copies.exit.now.old result }
        ensures ended { OnOk result (copies.exit.now.scanned ≡ length (C.walked claimer.new).won) }
    {
        let mut next = copies.scanned;
        let mut near = OLD;
        let mut ahead = Ahead::new();
        while next < claimer.len() {
            // The scan of a cell is here once, for both ways to read.
            let words = match self.reads {
                Reads::Each => self.spaces.words_near(claimer.won_cell(next), &mut near),
                Reads::Ahead => {
                    ahead.read(claimer, self.spaces, next, &mut near);
                    ahead.words(next)
                }
            };
            self.scan_next(claimer, copies, next, words)?;
            next += 1;
        }
        copies.scanned = next;
        Ok(())
    }

    // Scans the next won cell, the k-th, which has these words.
    #[inline(always)]
    fn scan_next<C: Claimer>(
        self,
        claimer: &mut C,
        copies: &mut Copies,
        k: usize,
        words: &[u64; WORDS],
    ) -> Result<(), RoomFault>
        requires walk { IsUnderWay C.walked C.knows self.kind self.spaces.now.spaces claimer.old k copies.now.aged copies.now.old }
        requires next { k < length (C.walked claimer.old).won }
        requires words { words.now ≡ cell_numbered self.spaces.now.spaces (win_at (C.walked claimer.old).won k).cell }
        requires room { (space : ℕ) → space < 2 → length (won_in space (C.walked claimer.old).won) ≤ MOST_SPACE_CELLS }
        ensures scans { Scans C.walked C.knows C.is_full self.entry.spaces.now.spaces claimer.old claimer.new (k + 1) copies.exit.now.aged copies.exit.now.old result }
        ensures next { copies.exit.now.scanned ≡ copies.entry.now.scanned }
    {
        let straight = is_in_old(claimer, self.kind, k);
        let original = Original {
            words,
            is_in_old: straight,
        };
        copies.push_copy(claimer, self, original)
    }
}

// Whether the copy of the k-th won cell is in Old. All copies of a full collection are, so that nothing is looked up
// there.
#[inline(always)]
fn is_in_old<C: Claimer>(claimer: &C, kind: Kind, k: usize) -> bool
    requires { MayAskFor kind k (C.walked claimer.now) }
    ensures space { result ≡ ((place_in (win_at (C.walked claimer.now).won k).word).space == 0) }
    ensures two { (place_in (win_at (C.walked claimer.now).won k).word).space < 2 }
{
    kind == Kind::Full || claimer.is_won_in_old(k)
}
