//! The walk from roots. What they name is claimed, and all that this leads to is copied.
ghost use Rattle.std.specs.Prelude.{◌≡◌, OnOk, length};
ghost use Rattle.std.specs.List.{All, Contains};
ghost use Rattle.tg_space.specs.Soundness.{IsRootIn};
ghost use Rattle.tg_space.specs.Targets.{all_root_targets, from_space};
ghost use Rattle.tg_evac.specs.Claimers.{AreScanned};
ghost use Rattle.tg_evac.specs.Along.{AreAllScanned, AreTracedFromMore, StaysTraced};
ghost use Rattle.tg_evac.specs.Walks.{MayWalk, MayWalkRoots, WalkGoesOn, WalksRoots};

use crate::claimer::Claimer;
use crate::copies::{Copies, Reads};
use tg_space::{Kind, RoomFault, Root, Spaces};

/// A walk over the cells of spaces.
#[derive(Clone, Copy)]
pub struct Walk<'a> {
    /// The spaces, which are only read.
    pub spaces: &'a Spaces,
    /// Which cells are moved.
    pub kind: Kind,
    /// How won cells are read.
    pub reads: Reads,
}

impl Walk<'_> {
    /// Claims the targets of the roots, and scans the won cells until none is left.
    ///
    /// A full collection does so for one root after the other, so that the cells that one root reaches are near each
    /// other. A nursery collection claims the targets of all roots first. A target of a remembered cell then goes to
    /// Old, because it is met from there first.
    ///
    /// The call is refused as a claim is, or with `OutOfMemory` if memory for a copy was refused. Claims that were made
    /// by then stay.
    #[inline(always)]
    pub fn along<C: Claimer>(
        self,
        claimer: &mut C,
        roots: &[Root],
        copies: &mut Copies,
    ) -> Result<(), RoomFault>
        requires walk { MayWalk self.kind self.spaces.now.spaces (C.walked claimer.old) }
        requires roots { All (IsRootIn self.spaces.now.spaces) roots.now }
        requires traced { AreTracedFromMore (C.walked claimer.old).kind self.spaces.now.spaces roots.now (C.walked claimer.old).won }
        requires scanned { AreScanned self.spaces.now.spaces (C.walked claimer.old) (C.knows claimer.old) copies.now.scanned copies.now.aged copies.now.old }
        ensures traced { StaysTraced self.entry.spaces.now.spaces roots.now (C.walked claimer.old) (C.walked claimer.new) }
        ensures goes { WalkGoesOn C.walked C.knows C.is_full claimer.old claimer.new result }
        ensures met { OnOk result (All (Contains (C.walked claimer.new).met) (all_root_targets (from_space (C.walked claimer.old).kind) self.entry.spaces.now.spaces roots.now)) }
        ensures scanned { OnOk result (AreAllScanned self.entry.spaces.now.spaces (C.walked claimer.new) (C.knows claimer.new) copies.exit.now.aged copies.exit.now.old) }
        ensures ended { OnOk result (copies.exit.now.scanned ≡ length (C.walked claimer.new).won) }
    {
        match self.kind {
            Kind::Full => self.each(claimer, roots, copies),
            Kind::Nursery => self.together(claimer, roots, copies),
        }
    }

    // The won cells are scanned before the targets of the next root are claimed.
    //
    // The scan is here once, so that this is small enough to be compiled for each kind and way to read.
    #[inline(always)]
    fn each<C: Claimer>(
        self,
        claimer: &mut C,
        roots: &[Root],
        copies: &mut Copies,
    ) -> Result<(), RoomFault>
        requires { MayWalkRoots C.walked C.knows self.kind self.spaces.now.spaces roots.now claimer.old copies.now }
        ensures { WalksRoots C.walked C.knows C.is_full self.entry.spaces.now.spaces roots.now claimer.old claimer.new copies.exit.now result }
    {
        let mut claimed = 0;
        loop {
            self.scan(claimer, copies)?;
            if claimed == roots.len() {
                return Ok(());
            }
            self.claim_root(claimer, roots[claimed])?;
            claimed += 1;
        }
    }

    // The targets of all roots are claimed before a cell is scanned.
    //
    // It is a call of its own, so that a full collection, which has none of it, keeps its table of claims in registers.
    #[inline(never)]
    fn together<C: Claimer>(
        self,
        claimer: &mut C,
        roots: &[Root],
        copies: &mut Copies,
    ) -> Result<(), RoomFault>
        requires { MayWalkRoots C.walked C.knows self.kind self.spaces.now.spaces roots.now claimer.old copies.now }
        ensures { WalksRoots C.walked C.knows C.is_full self.entry.spaces.now.spaces roots.now claimer.old claimer.new copies.exit.now result }
    {
        for root in roots {
            self.claim_root(claimer, *root)?;
        }
        self.scan(claimer, copies)
    }
}
