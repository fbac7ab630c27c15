//! The store after a history.
ghost use Rattle.std.specs.Prelude.{◌≡◌, [], Err, IfErr, IfOk};
ghost use Rattle.tg_entries.specs.declared.kept.HistoryStart.{HistoryStart};
ghost use Rattle.tg_space.specs.SpaceTable.{BlockLimits};
ghost use Rattle.tg_revive.specs.Reviving.{HasNoSubject, IsRevived, IsReviveFault};

use crate::begin::begin;
use crate::fault::ReviveFault;
use std::alloc::Global;
use tg_entries::History;
use tg_journal::Entry;
use tg_payload::Payload;
use tg_resume::{Maker, replay_all};
use tg_store::{Limits, Store};

/// Opens a store from a history, and does the deed of each entry again. The replies are compared.
///
/// `Ok` has a store that goes on from the history. The history is then legal, and the store represents the graph after
/// it. Its journal holds exactly the history's entries, and begins at the place of the first one. A store of an opening
/// has this opening. A snapshot doesn't have the first opening, so a store of a snapshot has an opening of one worker
/// with the snapshot's limit of vertices. The heap has the limits that are given. If the heap is full for a deed, a
/// full collection is made, and the deed is tried once more. Memory grows with the entries. A host that keeps them
/// elsewhere has the store [forget](Store::forget) them.
///
/// The refusals, in the order in which they are looked for. After each of them nothing of the store is kept:
///
/// - `NoSubject`, exactly if the history begins at a snapshot without an active subject.
/// - `NotBegun`, if there is no room for what is there before the first entry. The reason `HeapFull` is given for an
///   opening only if it has more workers than the limits allow blocks.
/// - `BadEntry`, with the first place in the whole history whose entry isn't legal.
/// - `NoRoom`, with the place of the entry for which there is no room. All entries before it are legal. The reason is
///   `HeapFull` in two cases only. Either the heap is still full for the deed after a full collection, or there is no
///   room for that collection. Otherwise the reason is `OutOfMemory`.
pub fn store_after<P: Payload, M: Maker<P>>(
    alloc: Global,
    history: History,
    limits: Limits,
    maker: &mut M,
) -> Result<Store<P>, ReviveFault>
    ensures revived { IfOk result (IsRevived history.start history.entries.items limits) }
    ensures refused { IfErr result (IsReviveFault history.start history.entries.items limits) }
    ensures no_subject { HasNoSubject history.start → result ≡ Err ReviveFault.NoSubject }
{
    let History { start, entries } = history;
    match begin(alloc, start, limits, maker) {
        Ok(store) => go_on(alloc, store, entries.as_slice(), maker),
        Err(fault) => Err(fault),
    }
}

// The store after these entries too. They come first in its journal.
fn go_on<P: Payload, M: Maker<P>>(
    alloc: Global,
    store: Store<P>,
    entries: &[Entry],
    maker: &mut M,
) -> Result<Store<P>, ReviveFault>
    ensures revived { (start : HistoryStart) (limits : BlockLimits) → IsRevived start [] limits store → IfOk result (IsRevived start entries.now limits) }
    ensures refused { (start : HistoryStart) (limits : BlockLimits) → IsRevived start [] limits store → IfErr result (IsReviveFault start entries.now limits) }
{
    // This call shows that the entries before the history are legal.
    let _ = store.journal();
    let mut store = store;
    match replay_all(alloc, &mut store, maker, entries) {
        Ok(()) => Ok(store),
        Err(halted) => {
            store.let_go();
            Err(ReviveFault::from(halted))
        }
    }
}
