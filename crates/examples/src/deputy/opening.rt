//! The subjects and edges with which the story begins.

use crate::opening::{cells_of_three, grant, limits, opening_of_three};
use std::alloc::Global;
use tg_model::{Edge, Opening};
use tg_payload::CellPayload;
use tg_store::{Store, StoreFault};

// The subjects are the deputy, which is 0, the client, and the deputy's hand. The hand has only the rights that are
// granted to it.
const CLIENT: u64 = 1;

/// The name of the deputy's hand.
pub const HAND: u64 = 2;

/// The opening. It has three subjects that store cells, and one edge, by which the client may grant to the hand.
pub fn opening(alloc: Global) -> Result<Opening, StoreFault> {
    let edge = Edge {
        from: CLIENT,
        to: HAND,
        label: grant(),
    };
    opening_of_three(alloc, vec![in alloc; edge]?)
}

/// A store with this opening.
pub fn open_store(alloc: Global) -> Result<Store<CellPayload>, StoreFault> {
    let limits = limits()?;
    let drafts = cells_of_three(alloc)?;
    let opening = opening(alloc)?;
    Ok(Store::open(alloc, opening, limits, drafts)?)
}
