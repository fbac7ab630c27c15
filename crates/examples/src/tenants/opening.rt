//! The subjects with which the story begins.
ghost use Rattle.std.specs.Prelude.{◌≡◌, ◌+◌, ◌≤◌, IfOk};
ghost use Rattle.tg_store.specs.Store.{graph_of_store};

use crate::opening::{cell, limits};
use std::alloc::Global;
use tg_model::Opening;
use tg_payload::{CellPayload, Draft, values_of};
use tg_store::{Store, StoreFault};

// The drafts of the two tenants. Each is a cell with 0.
fn cells(alloc: Global) -> Result<Vec<Draft<CellPayload>>, StoreFault> {
    Ok(vec![in alloc; cell(alloc, 0)?, cell(alloc, 0)?]?)
}

// The opening, with two tenants that store these cells. Two more vertices may be made.
fn opening_of(alloc: Global, drafts: &[Draft<CellPayload>]) -> Result<Opening, StoreFault>
    ensures { IfOk result (λ opening. (opening.workers ≡ 2) × (opening.limit ≡ 4)) }
{
    let values = values_of(alloc, drafts)?;
    Ok(Opening::new(2, Vec::new(alloc), values, 4)?)
}

/// A store of two tenants, in which two more vertices may be made.
pub fn open_store(alloc: Global) -> Result<Store<CellPayload>, StoreFault>
    ensures { IfOk result (λ store. (graph_of_store store).made + 2 ≤ (graph_of_store store).limit) }
{
    let limits = limits()?;
    let drafts = cells(alloc)?;
    let opening = opening_of(alloc, &drafts)?;
    Ok(Store::open(alloc, opening, limits, drafts)?)
}
