//! Stores of payloads by law.
use crate::opened::opening_with;
use std::alloc::Global;
use tg_model::{Edge, Making, Opening};
use tg_payload::{Draft, LawPayload};
use tg_rights::{Label, Right, Rights};
use tg_store::{Limits, Store};

// So many vertices may be made in each store.
const MOST: u64 = 1000;

/// The rights to read, to write and to append.
pub(crate) fn all_on_values() -> Label {
    let rights = Rights::of(Right::R)
        .union(Rights::of(Right::W))
        .union(Rights::of(Right::A));
    Label::new(rights).unwrap()
}

// The drafts of two workers, who store cells with 0.
fn two_drafts(alloc: Global) -> Option<Vec<Draft<LawPayload>>> {
    let mut drafts = Vec::new(alloc);
    for _ in 0..2 {
        let draft = Draft::new(alloc, LawPayload::cell(0)).ok()?;
        drafts.push(draft).ok()?;
    }
    Some(drafts)
}

// An opening of two workers with these drafts, and with an edge `tg` between them.
fn opening_of(alloc: Global, drafts: &[Draft<LawPayload>]) -> Option<Opening> {
    let label = Label::new(Rights::of(Right::T).union(Rights::of(Right::G)))?;
    let edge = Edge {
        from: 0,
        to: 1,
        label,
    };
    let edges = Vec::from_array(alloc, [edge]).ok()?;
    opening_with(alloc, drafts, edges, MOST)
}

/// The opening of these stores.
pub(crate) fn opening(alloc: Global) -> Option<Opening> {
    opening_of(alloc, &two_drafts(alloc)?)
}

/// A store of two workers. A space may have so many blocks.
pub(crate) fn open(alloc: Global, blocks: u64) -> Option<Store<LawPayload>> {
    let limits = Limits::new(blocks, blocks).ok()?;
    let drafts = two_drafts(alloc)?;
    let opening = opening_of(alloc, &drafts)?;
    Store::open(alloc, opening, limits, drafts).ok()
}

/// The name of a vertex that a worker makes, which gets all rights on values over it.
pub(crate) fn make(
    alloc: Global,
    store: &mut Store<LawPayload>,
    worker: u64,
    kind: Making,
    payload: LawPayload,
) -> Option<u64> {
    let draft = Draft::new(alloc, payload).ok()?;
    store.make(worker, kind, all_on_values(), draft).ok()
}
