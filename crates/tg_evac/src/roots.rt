//! The targets of roots.
ghost use Rattle.tg_space.specs.declared.root.Root.TheVariants.{Row};
ghost use Rattle.tg_evac.specs.Claims.{is_straight as straight_from};
ghost use Rattle.tg_evac.specs.Inner.Steps.{MayClaimAt, MayClaimChunks, MayClaimKept, MayClaimRoot};
ghost use Rattle.tg_evac.specs.Walks.{ClaimsChunks, ClaimsRoot, ClaimsTargetsAt};

use crate::claimer::Claimer;
use crate::plan::{is_straight, space_for};
use crate::walk::Walk;
use tg_block::LINK;
use tg_space::{RoomFault, Root, first_pointer};
use tg_word::{Place, place_of};

impl Walk<'_> {
    /// Claims the targets of a root.
    ///
    /// It is refused as a claim is. What was claimed till then stays so.
    #[inline(always)]
    pub(crate) fn claim_root<C: Claimer>(self, claimer: &mut C, root: Root) -> Result<(), RoomFault>
        requires { MayClaimRoot self.kind self.spaces.now.spaces root (C.walked claimer.old) }
        ensures { ClaimsRoot C.walked C.knows C.is_full self.entry.spaces.now.spaces (straight_from (C.walked claimer.old).kind root) root claimer.old claimer.new result }
    {
        let straight = is_straight(self.kind, root);
        match root {
            Root::Row(object) => self.claim_row(claimer, object, straight),
            Root::Remembered(place) => self.claim_targets(claimer, place, straight),
        }
    }

    // Claims the object of a row where it is moved, and else the targets of the cells that are met outside from-space.
    #[inline(always)]
    #[tactic(auto, using(crate::proofs::Behind::moved_behind))]
    fn claim_row<C: Claimer>(
        self,
        claimer: &mut C,
        object: Place,
        straight: bool,
    ) -> Result<(), RoomFault>
        requires { MayClaimAt self.kind self.spaces.now.spaces object (C.walked claimer.old) }
        ensures { ClaimsRoot C.walked C.knows C.is_full self.entry.spaces.now.spaces straight (Row object) claimer.old claimer.new result }
    {
        if self.kind.moves(object.space) {
            claimer.claim(self.spaces.flat(object), space_for(straight, object.space))?;
            return Ok(());
        }
        self.claim_from_row(claimer, object, straight)
    }

    // Claims the targets of the cells of a row that are met outside from-space.
    #[inline(never)]
    fn claim_from_row<C: Claimer>(
        self,
        claimer: &mut C,
        object: Place,
        straight: bool,
    ) -> Result<(), RoomFault>
        requires { MayClaimKept self.kind self.spaces.now.spaces object (C.walked claimer.old) }
        ensures { ClaimsRoot C.walked C.knows C.is_full self.entry.spaces.now.spaces straight (Row object) claimer.old claimer.new result }
    {
        self.claim_targets(claimer, object, straight)?;
        self.claim_chunks(claimer, self.spaces.read(object, LINK), straight)
    }

    // Claims the targets of the chunks to which a link leads, up to one that is moved.
    fn claim_chunks<C: Claimer>(
        self,
        claimer: &mut C,
        first: u64,
        straight: bool,
    ) -> Result<(), RoomFault>
        requires { MayClaimChunks self.kind self.spaces.now.spaces first (C.walked claimer.old) }
        ensures { ClaimsChunks C.walked C.knows C.is_full self.entry.spaces.now.spaces straight first claimer.old claimer.new result }
    {
        let mut link = first;
        for _ in 0..self.spaces.cells() {
            if link == 0 {
                return Ok(());
            }
            let chunk = place_of(link);
            if self.kind.moves(chunk.space) {
                return Ok(());
            }
            self.claim_targets(claimer, chunk, straight)?;
            link = self.spaces.read(chunk, LINK);
        }
        Ok(())
    }

    // Claims the targets of the cell at a place.
    #[inline(always)]
    fn claim_targets<C: Claimer>(
        self,
        claimer: &mut C,
        place: Place,
        straight: bool,
    ) -> Result<(), RoomFault>
        requires { MayClaimAt self.kind self.spaces.now.spaces place (C.walked claimer.old) }
        ensures { ClaimsTargetsAt C.walked C.knows C.is_full self.entry.spaces.now.spaces straight place claimer.old claimer.new result }
    {
        let mut words = *self.spaces.words(place);
        let first = first_pointer(words[0]);
        self.move_from(claimer, straight, first, &mut words)
    }
}
