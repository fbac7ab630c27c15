//! A store of two workers, and what its sessions do.
ghost use Rattle.std.specs.Prelude.{◌≡◌, ◌+◌, ◌≤◌, IfSome};
ghost use Rattle.tg_store.specs.Store.{graph_of_store};

use crate::opened::{cell, cells};
use std::alloc::Global;
use std::sync::Wait;
use tg_model::{Command, Opening};
use tg_payload::{CellPayload, Draft, values_of};
use tg_rights::{Label, Right, Rights};
use tg_shared::{Round, Session, SharedStore};
use tg_store::{Limits, Store};

// An opening of two workers with these drafts. Five vertices may be made.
fn opening_of(alloc: Global, drafts: &[Draft<CellPayload>]) -> Option<Opening>
    ensures { IfSome result (λ opening. (opening.workers ≡ 2) × (opening.limit ≡ 5)) }
{
    let values = values_of(alloc, drafts).ok()?;
    Opening::new(2, Vec::new(alloc), values, 5).ok()
}

/// A store of two workers, who store cells with 0. Three more vertices may be made.
pub(crate) fn open_store(alloc: Global) -> Option<Store<CellPayload>>
    ensures { IfSome result (λ store. (graph_of_store store).made + 3 ≤ (graph_of_store store).limit) }
{
    let limits = Limits::new(64, 16).ok()?;
    let drafts = cells(alloc, 2)?;
    let opening = opening_of(alloc, &drafts)?;
    Store::open(alloc, opening, limits, drafts).ok()
}

/// How many vertices a store has, and how many nursery collections and full collections it has made.
pub(crate) type Counted = [u64; 3];

/// What is counted of a store. A collection that nobody asked for shows here.
pub(crate) fn counted(store: &Store<CellPayload>) -> Counted {
    let census = store.census();
    let collections = census.collections;
    [census.vertices, collections.nursery, collections.full]
}

/// The rights to read and to write.
pub(crate) fn read_and_write() -> Label {
    Label::new(Rights::of(Right::R).union(Rights::of(Right::W))).unwrap()
}

/// Lets the session make a vertex, which it may read and write. Whether it does.
pub(crate) fn makes<L: Round, R: Wait>(
    rt: &R,
    alloc: Global,
    store: &SharedStore<L, CellPayload>,
    session: &mut Session<L>,
) -> bool {
    match cell(alloc) {
        Some(draft) => session.create(rt, store, read_and_write(), draft).is_ok(),
        None => false,
    }
}

/// Lets the session spawn one, over which it has the same rights.
pub(crate) fn spawned_by<L: Round, R: Wait>(
    rt: &R,
    alloc: Global,
    store: &SharedStore<L, CellPayload>,
    session: &mut Session<L>,
) -> Option<Session<L>> {
    match cell(alloc) {
        Some(draft) => session.spawn(rt, store, read_and_write(), draft).ok(),
        None => None,
    }
}

/// Whether a command of the session is answered. The answer is passed over.
pub(crate) fn is_answered<L: Round, R: Wait>(
    rt: &R,
    store: &SharedStore<L, CellPayload>,
    session: &mut Session<L>,
    command: Command,
) -> bool {
    session.call(rt, store, command).is_ok()
}
