//! The collection.
ghost use Rattle.std.specs.Prelude.{◌≡◌, [], IfErr, IfOk, OnOk};
ghost use Rattle.std.specs.List.{All};
ghost use Rattle.tg_space.specs.Soundness.{AreSound, IsRootIn};
ghost use Rattle.tg_evac.specs.Claims.{IsTracedFrom};
ghost use Rattle.tg_evac.specs.Claimers.{AreCopiesIn, walked_of};
ghost use Rattle.tg_evac.specs.Collects.{CollectsRoots};
ghost use Rattle.tg_evac.specs.Room.{IsFullOfReached};
ghost use Rattle.tg_evac.specs.Walks.{MayWalk};

use crate::claims::Claims;
use crate::copies::{Copies, Reads};
use crate::notes::Made;
use crate::plan::Plan;
use crate::walk::Walk;
use std::alloc::Global;
use tg_block::Block;
use tg_space::{Copied, Kind, Moves, Numbering, RoomFault, Root, Spaces, Spare};

/// Copies what the roots reach into new blocks, with one thread. The spaces are only read.
///
/// Exactly the cells of from-space in the closure of the roots are copied. A copy is its original, but with the places
/// of what it names replaced. A full collection copies all of them to Old, whose new blocks are numbered from 0. A
/// nursery collection leaves the blocks of Old, and numbers the new blocks after them. It copies cells of Aged to Old,
/// and cells of nurseries to Aged. Cells that are first met from a remembered cell, or from a copy in Old, go straight
/// to Old. No more cells are copied than there are used cells of from-space.
///
/// The spare blocks are filled first, whatever their cells hold. A collection that gets the blocks that the last one
/// emptied takes few from the allocator. Spare blocks that aren't needed are handed over with the others. The
/// forwarding words are kept in the spare room, if it is large enough.
///
/// The refusals change nothing. The call is refused with `OutOfMemory` if memory was refused. It is refused with
/// `HeapFull` if Aged or Old would need more than `space_blocks` blocks. The roots then reach at least as many cells of
/// from-space as there is room for in Old. Cells that they don't reach take no room.
pub fn collect_one(
    alloc: Global,
    spaces: &Spaces,
    roots: &[Root],
    kind: Kind,
    spare: Spare,
) -> Result<Copied, RoomFault>
    requires { AreSound spaces.now.spaces roots.now }
    ensures { CollectsRoots RoomFault.HeapFull kind spaces.now roots.now 0 1 result }
{
    let walk = Walk {
        spaces,
        kind,
        reads: Reads::of(spaces),
    };
    match kind {
        Kind::Full => walk.collect_full(alloc, roots, spare),
        Kind::Nursery => Walk {
            kind: Kind::Nursery,
            ..walk
        }
        .collect(alloc, roots, spare),
    }
}

impl Walk<'_> {
    // A full collection. Each way to read cells is compiled apart, and from all else, so that registers are left for
    // it.
    #[inline(never)]
    fn collect_full(self, alloc: Global, roots: &[Root], spare: Spare) -> Result<Copied, RoomFault>
        requires { AreSound self.spaces.now.spaces roots.now }
        ensures { CollectsRoots RoomFault.HeapFull Kind.Full self.entry.spaces.now roots.now 0 1 result }
    {
        let full = Walk {
            kind: Kind::Full,
            ..self
        };
        match self.reads {
            Reads::Each => Walk {
                reads: Reads::Each,
                ..full
            }
            .collect(alloc, roots, spare),
            Reads::Ahead => full.collect_ahead(alloc, roots, spare),
        }
    }

    // A full collection that reads cells ahead.
    #[inline(never)]
    fn collect_ahead(self, alloc: Global, roots: &[Root], spare: Spare) -> Result<Copied, RoomFault>
        requires { AreSound self.spaces.now.spaces roots.now }
        ensures { CollectsRoots RoomFault.HeapFull Kind.Full self.entry.spaces.now roots.now 0 1 result }
    {
        Walk {
            kind: Kind::Full,
            reads: Reads::Ahead,
            ..self
        }
        .collect(alloc, roots, spare)
    }

    // The collection of a kind. It is compiled for each, so that a full one asks of no cell which kind this is, nor how
    // cells are read.
    #[inline(always)]
    #[tactic(auto, using(crate::proofs::Behind::kept_within))]
    fn collect(self, alloc: Global, roots: &[Root], spare: Spare) -> Result<Copied, RoomFault>
        requires { AreSound self.spaces.now.spaces roots.now }
        ensures { CollectsRoots RoomFault.HeapFull self.entry.kind self.entry.spaces.now roots.now 0 1 result }
    {
        let Walk { spaces, kind, .. } = self;
        let cells = spaces.cells();
        let plan = Plan::of(kind, spaces);
        let Spare { blocks, words } = spare;
        let mut claims = Claims::new(alloc, cells, plan, words)?;
        let copies = self.trace(alloc, &mut claims, roots, blocks)?;
        let Claims { forward, .. } = claims;
        let forward = forward.into_forwarding();
        let adoption = copies.finish()?;
        let numbering = Numbering::of(spaces);
        let moves = Moves {
            numbering: &numbering,
            kind,
            forward: &forward,
        };
        let made = Made { spaces, moves };
        let remembered = made.notes(alloc, roots, &adoption.old, plan.kept)?;
        Ok(Copied {
            forward,
            adoption,
            remembered,
        })
    }

    // Claims and copies all that the roots reach, and nothing else.
    #[inline(always)]
    fn trace(
        self,
        alloc: Global,
        claims: &mut Claims,
        roots: &[Root],
        spare: Vec<Block>,
    ) -> Result<Copies, RoomFault>
        requires walk { MayWalk self.kind self.spaces.now.spaces (walked_of claims.old) }
        requires roots { All (IsRootIn self.spaces.now.spaces) roots.now }
        requires none_yet { claims.old.won ≡ [] }
        ensures traced { OnOk result (IsTracedFrom claims.old.plan.kind self.entry.spaces.now.spaces roots.now claims.new) }
        ensures plan { claims.new.plan ≡ claims.old.plan }
        ensures aged { IfOk result (λ copies. AreCopiesIn 1 claims.old.plan.kind self.entry.spaces.now.spaces claims.new.won copies.aged) }
        ensures old { IfOk result (λ copies. AreCopiesIn 0 claims.old.plan.kind self.entry.spaces.now.spaces claims.new.won copies.old) }
        ensures full { IfErr result (λ fault. fault ≡ RoomFault.HeapFull → IsFullOfReached claims.old.plan.kind self.entry.spaces.now.spaces roots.now claims.new) }
    {
        let mut copies = Copies::new(alloc, spare)?;
        self.along(claims, roots, &mut copies)?;
        Ok(copies)
    }
}
