//! Allocation in nurseries.
//!
//! A new cell comes from the nursery of the worker whose command needs it. The nursery hands out its cells one after
//! the other. When its last block is used up, it gets one more block of free cells:
//!
//! ```text
//!   before   [xxxx][xxxx]            `used` is 64 times the number of blocks
//!   then     [xxxx][xxxx][----]      `add_block`
//!   then     [xxxx][xxxx][x---]      `hand_out`
//! ```
//!
//! A block is the last thing that a call asks for ('Growth comes first' in docs/inside/ARCHITECTURE.md).
//!
//! So the cell is free, it wasn't handed out since the nursery was last emptied, and no other cell changes. The caller
//! is the heap's graph. The contract gives it two views of a success. They are the exact table that is left, and that a
//! fresh cell was allocated.
#![tactic(auto)]

ghost use Rattle.std.specs.Prelude.{◌≡◌, ◌<◌, ◌≤◌, ◌*◌, ◌↔◌, Err, IfOk, IsOk, OnOk, OnErr, length};
ghost use Rattle.tg_word.specs.Word.{nursery_space};
ghost use Rattle.tg_word.specs.declared.TheConstants.{CELLS, MAX_NURSERIES};
ghost use Rattle.tg_space.specs.SpaceList.{space_of};
ghost use Rattle.tg_space.specs.SpaceTable.{IsFull, IsSpaceTable, place_in_space, used_of, with_one_used};
ghost use Rattle.tg_nursery.specs.Allocation.{Allocates, HasFewerLeft, HasRoomLeft, IsUsedUp, room_made, room_made_for};

use tg_space::{RoomFault, Spaces};
use tg_word::{CELLS, Place, nursery_space};

/// Allocates a cell in the nursery with a number.
///
/// The cell is free. Nothing else changes, but the nursery may have one more block. The refusals change nothing. The
/// call is refused with `OutOfMemory` if memory for a block was refused. It is refused with `HeapFull` if every cell of
/// the nursery was handed out and the nursery may have no more blocks. This is so if it has `space_blocks`, or if all
/// spaces together have `max_blocks` or more.
pub fn allocate(spaces: &mut Spaces, nursery: u64) -> Result<Place, RoomFault>
    requires few { nursery < MAX_NURSERIES }
    requires nursery { nursery_space nursery < length spaces.old.spaces }
    ensures place { IfOk result (λ place. place ≡ place_in_space (nursery_space nursery) (used_of spaces.old (nursery_space nursery))) }
    ensures exact { OnOk result (spaces.new ≡ with_one_used (room_made spaces.old (nursery_space nursery)) (nursery_space nursery)) }
    ensures fresh { IfOk result (Allocates spaces.old spaces.new (nursery_space nursery)) }
    ensures refused { OnErr result (spaces.new ≡ spaces.old) }
    ensures full { (result ≡ Err RoomFault.HeapFull) ↔ (IsUsedUp spaces.old (nursery_space nursery) × IsFull spaces.old (nursery_space nursery)) }
{
    let space = nursery_space(nursery);
    make_room(spaces, space)?;
    Ok(spaces.hand_out(space))
}

/// Makes room for so many cells, at most 64, in the nursery with a number. `Spaces::hand_out` then gives them one by
/// one.
///
/// The nursery gets one more block if it has fewer cells left. Nothing else changes. The refusals change nothing. The
/// call is refused with `OutOfMemory` if memory for a block was refused. It is refused with `HeapFull` if a block is
/// needed and the nursery may have no more. This is so if it has `space_blocks`, or if all spaces together have
/// `max_blocks` or more.
pub fn reserve(spaces: &mut Spaces, nursery: u64, cells: u64) -> Result<(), RoomFault>
    requires few { nursery < MAX_NURSERIES }
    requires few_cells { cells ≤ CELLS }
    requires nursery { nursery_space nursery < length spaces.old.spaces }
    ensures exact { OnOk result (spaces.new ≡ room_made_for spaces.old (nursery_space nursery) cells) }
    ensures table { OnOk result (IsSpaceTable spaces.new) }
    ensures room { OnOk result (HasRoomLeft spaces.new (nursery_space nursery) cells) }
    ensures had_room { HasRoomLeft spaces.old (nursery_space nursery) cells → IsOk result }
    ensures refused { OnErr result (spaces.new ≡ spaces.old) }
    ensures full { (result ≡ Err RoomFault.HeapFull) ↔ (HasFewerLeft spaces.old (nursery_space nursery) cells × IsFull spaces.old (nursery_space nursery)) }
{
    let space = nursery_space(nursery);
    if spaces.used(space) + cells <= CELLS * spaces.len(space) {
        return Ok(());
    }
    spaces.add_block(space)
}

// Adds a block where every cell of the nursery was handed out.
fn make_room(spaces: &mut Spaces, space: u64) -> Result<(), RoomFault>
    requires { space < length spaces.old.spaces }
    ensures made { OnOk result (spaces.new ≡ room_made spaces.old space) }
    ensures counted { space < length spaces.old.used }
    ensures room { OnOk result (used_of spaces.new space < CELLS * length (space_of spaces.new.spaces space)) }
    ensures refused { OnErr result (spaces.new ≡ spaces.old) }
    ensures full { (result ≡ Err RoomFault.HeapFull) ↔ (IsUsedUp spaces.old space × IsFull spaces.old space) }
{
    if spaces.used(space) < CELLS * spaces.len(space) {
        return Ok(());
    }
    spaces.add_block(space)
}
