//! Stores and what they are opened with.

use std::alloc::Global;
use tg_model::{Command, Edge, Opening};
use tg_payload::{CellPayload, Draft, Payload, values_of};
use tg_store::{CreateFault, CreateRefused, Limits, Store};

/// A draft of a cell with 0.
pub(crate) fn cell(alloc: Global) -> Option<Draft<CellPayload>> {
    Draft::new(alloc, CellPayload::new(0)).ok()
}

/// Drafts of so many cells with 0.
pub(crate) fn cells(alloc: Global, count: u64) -> Option<Vec<Draft<CellPayload>>> {
    let mut cells = Vec::new(alloc);
    for _ in 0..count {
        cells.push(cell(alloc)?).ok()?;
    }
    Some(cells)
}

/// Whether a store answers a command of a worker. The reply is passed over.
pub(crate) fn is_answered<P: Payload>(store: &mut Store<P>, worker: u64, command: Command) -> bool {
    match store.apply(worker, command) {
        Ok(reply) => {
            drop(reply);
            true
        }
        Err(_) => false,
    }
}

/// Why a vertex isn't made. The draft is dropped.
pub(crate) fn reason_of<P: Payload>(refused: CreateRefused<P>) -> CreateFault {
    let why = refused.why;
    drop(refused);
    why
}

/// An opening of workers with these drafts, and no edge, in which so many vertices may be made.
pub(crate) fn opening_of<P: Payload>(
    alloc: Global,
    drafts: &[Draft<P>],
    most: u64,
) -> Option<Opening> {
    opening_with(alloc, drafts, Vec::new(alloc), most)
}

/// An opening of workers with these drafts and these edges, in which so many vertices may be made.
pub(crate) fn opening_with<P: Payload>(
    alloc: Global,
    drafts: &[Draft<P>],
    edges: Vec<Edge>,
    most: u64,
) -> Option<Opening> {
    let values = values_of(alloc, drafts).ok()?;
    Opening::new(drafts.len() as u64, edges, values, most).ok()
}

/// A store of workers with these drafts, and no edge, in which so many vertices may be made.
pub(crate) fn open<P: Payload>(
    alloc: Global,
    drafts: Vec<Draft<P>>,
    limits: Limits,
    most: u64,
) -> Option<Store<P>> {
    let opening = opening_of(alloc, &drafts, most)?;
    Store::open(alloc, opening, limits, drafts).ok()
}
