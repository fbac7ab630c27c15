//! What a collection is to do.
ghost use Rattle.std.specs.Prelude.{◌≡◌, ◌==◌, ◌≤◌};
ghost use Rattle.tg_word.specs.declared.TheConstants.{MOST_SPACE_BLOCKS, MOST_SPACE_CELLS};
ghost use Rattle.tg_space.specs.SpaceTable.{IsSpaceTable};
ghost use Rattle.tg_evac.specs.Claims.{IsPlanFor, is_straight as straight_from, space_for as space_of_copy};

use tg_space::{Kind, Root, Spaces};
use tg_word::{AGED, CELLS, OLD};

/// Which cells a collection moves, and what room it has for them.
#[derive(Clone, Copy)]
pub struct Plan {
    /// Which cells are moved.
    pub kind: Kind,
    /// How many blocks of Old stay where they are, in front of the new ones.
    pub kept: u64,
    /// How many cells Old and Aged may have each.
    pub room: u64,
}

impl Plan {
    /// The plan of a collection of these spaces.
    pub fn of(kind: Kind, spaces: &Spaces) -> Self
        requires { IsSpaceTable spaces.now }
        ensures plan { IsPlanFor kind spaces.now result }
        ensures kept { result.kept ≤ MOST_SPACE_BLOCKS }
        ensures room { result.room ≤ MOST_SPACE_CELLS }
    {
        let kept = match kind {
            Kind::Full => 0,
            Kind::Nursery => spaces.len(OLD),
        };
        Plan {
            kind,
            kept,
            room: CELLS * spaces.limits().space_blocks(),
        }
    }
}

/// Returns whether a cell that is met first from a root goes straight to Old. In a full collection each cell does. In a
/// nursery collection a cell does if a remembered cell names it.
pub fn is_straight(kind: Kind, root: Root) -> bool
    ensures { result ≡ straight_from kind root }
{
    match root {
        Root::Row(_) => kind == Kind::Full,
        Root::Remembered(_) => true,
    }
}

/// The space to which a cell of a space is copied, where it is met straight or not.
#[inline(always)]
pub fn space_for(straight: bool, space: u64) -> u64
    ensures { result ≡ space_of_copy straight space }
{
    if straight || space == AGED { OLD } else { AGED }
}
