//! Helpers of a store's collections, who meet at a gate.
ghost use Rattle.tg_store.specs.Collecting.{AreHelpers};

use crate::meet::{MANY_TURNS, Meet};
use crate::opened::{self, cells};
use std::alloc::Global;
use std::sync::Wait;
use std::thread::Threads;
use tg_helpers::collect_with;
use tg_payload::CellPayload;
use tg_store::{Kind, Limits, Store};

// A store of 20 workers, each with a cell.
fn open(alloc: Global) -> Option<Store<CellPayload>> {
    let limits = Limits::new(100, 100).ok()?;
    opened::open(alloc, cells(alloc, 20)?, limits, 20)
}

// Collects such a store by so many helpers who meet. How often they passed the gate, where all met and the store has
// all vertices still.
fn passes_of<R: Threads + Wait + Sync>(
    rt: &R,
    alloc: Global,
    kind: Kind,
    helpers: u32,
) -> Option<u64>
    requires { AreHelpers helpers }
{
    let gate = Meet::of(alloc, helpers, MANY_TURNS).ok()?;
    let mut store = open(alloc)?;
    let collected = collect_with(rt, alloc, &mut store, kind, helpers, &gate);
    store.let_go();
    (matches!(collected, Ok(20)) && !gate.is_missed()).then_some(gate.passes())
}

// The rows of 20 workers are three chunks of roots. The gate is passed for each, and once more by each helper.
#[test]
fn helpers_of_a_store_at_one_gate(rt: HostRuntime) {
    let alloc = rt.alloc();
    let passes = [
        passes_of(&rt, alloc, Kind::Nursery, 1),
        passes_of(&rt, alloc, Kind::Nursery, 2),
        passes_of(&rt, alloc, Kind::Nursery, 8),
        passes_of(&rt, alloc, Kind::Full, 1),
        passes_of(&rt, alloc, Kind::Full, 2),
        passes_of(&rt, alloc, Kind::Full, 8),
    ];
    let wanted = [Some(4), Some(5), Some(11), Some(4), Some(5), Some(11)];
    assert!(rt; passes == wanted);
}
