//! A store that goes on from a snapshot.
ghost use Rattle.std.specs.Prelude.{◌≡◌, ◌≤◌, IfErr, IfOk};
ghost use Rattle.tg_model.specs.declared.opening.TheConstants.{MAX_LASTING_VERTICES};
ghost use Rattle.tg_space.specs.SpaceTable.{limits_of};
ghost use Rattle.tg_c.specs.Calls.{AreMet, IsFirstUnmet};
ghost use Rattle.tg_c.specs.Again.{IsReopenedStore, IsRefusedAgain, demands_again};

use crate::forms::LimitsIn;
use crate::law_store::LawStore;
use crate::refusal::CallRefusal;
use std::alloc::{AllocError, Global};
use tg_model::{Law, Numbers, Opening, Value};
use tg_resume::ByLaw;
use tg_snapshot::Snapshot;
use tg_store::{Limits, Store};

/// The store that goes on from the snapshot, whose payloads are made by the four laws. All checks come before memory is
/// asked for. The first is `max_vertices`, which must be the snapshot's. Then come the limits of blocks, and last
/// whether the snapshot has an active subject. The first fault is returned. If there is none, only memory and room can
/// be refused.
pub fn reopen(
    alloc: Global,
    snapshot: &Snapshot,
    limits: &LimitsIn,
) -> Result<LawStore, CallRefusal>
    ensures reopened { IfOk result (λ opened. IsReopenedStore snapshot.now limits.now opened.store) }
    ensures refused { IfErr result (IsRefusedAgain snapshot.now limits.now) }
{
    let blocks = check_again(snapshot, limits)?;
    let opening = stand_in(alloc, snapshot.picture().limit())?;
    let mut maker = ByLaw { alloc };
    let store = Store::reopen(alloc, opening, snapshot, blocks, &mut maker)?;
    Ok(LawStore { store })
}

// Checks the arguments in the order of `reopen`, and takes no memory. Returns the limits of the heap, or the first
// fault.
fn check_again(snapshot: &Snapshot, limits: &LimitsIn) -> Result<Limits, CallRefusal>
    ensures met { IfOk result (λ blocks. AreMet (demands_again snapshot.now limits.now)
        × (blocks ≡ limits_of limits.now.max_blocks limits.now.max_space_blocks)) }
    ensures refused { IfErr result (IsFirstUnmet (demands_again snapshot.now limits.now)) }
{
    let picture = snapshot.picture();
    if limits.max_vertices != picture.limit() {
        return Err(CallRefusal::BadLimits);
    }
    let blocks = Limits::large(limits.max_blocks, limits.max_space_blocks)?;
    if picture.subjects().is_empty() {
        return Err(CallRefusal::BadWorkers);
    }
    Ok(blocks)
}

// An opening in which at most so many vertices may be made. A snapshot doesn't have the first opening, so this opening
// is in its place. C reads nothing of it, so it has one worker that stores 0.
fn stand_in(alloc: Global, limit: u64) -> Result<Opening, AllocError>
    requires limit { (1 ≤ limit) × (limit ≤ MAX_LASTING_VERTICES) }
    ensures limit { IfOk result (λ opening. opening.limit ≡ limit) }
{
    let mut values = Vec::new(alloc);
    values.push(Value {
        law: Law::Cell,
        state: Numbers::one(0),
    })?;
    Ok(Opening::lasting(1, Vec::new(alloc), values, limit).unwrap())
}
