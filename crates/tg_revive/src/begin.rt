//! The store at the beginning of a history.
ghost use Rattle.std.specs.Prelude.{◌≡◌, ◌≤◌, [], Err, IfErr, IfOk, List};
ghost use Rattle.std.specs.List.{All};
ghost use Rattle.tg_model.specs.declared.opening.TheConstants.{MAX_LASTING_VERTICES};
ghost use Rattle.tg_model.specs.Opened.{ValueFits};
ghost use Rattle.tg_journal.specs.declared.entry.Entry.{Entry};
ghost use Rattle.tg_entries.specs.declared.kept.HistoryStart.TheVariants.{Opened, Shown};
ghost use Rattle.tg_revive.specs.Reviving.{HasNoSubject, IsRevived, IsReviveFault};

use crate::fault::ReviveFault;
use std::alloc::{AllocError, Global};
use tg_entries::HistoryStart;
use tg_model::{Law, Numbers, Opening, Value};
use tg_payload::{Draft, Payload};
use tg_resume::Maker;
use tg_snapshot::Snapshot;
use tg_space::RoomFault;
use tg_store::{Limits, OpenFault, ReopenFault, Store};

/// The store before the first entry of a history that begins here.
pub(crate) fn begin<P: Payload, M: Maker<P>>(
    alloc: Global,
    start: HistoryStart,
    limits: Limits,
    maker: &mut M,
) -> Result<Store<P>, ReviveFault>
    ensures begun { IfOk result (IsRevived start [] limits) }
    ensures refused { IfErr result (λ fault. (es : List Entry) → IsReviveFault start es limits fault) }
    ensures no_subject { HasNoSubject start → result ≡ Err ReviveFault.NoSubject }
{
    match start {
        HistoryStart::Opened(opening) => open(alloc, opening, limits, maker),
        HistoryStart::Shown(snapshot) => reopen(alloc, &snapshot, limits, maker),
    }
}

// The store of an opening.
fn open<P: Payload, M: Maker<P>>(
    alloc: Global,
    opening: Opening,
    limits: Limits,
    maker: &mut M,
) -> Result<Store<P>, ReviveFault>
    ensures opened { IfOk result (IsRevived (Opened opening) [] limits) }
    ensures refused { IfErr result (λ fault. (es : List Entry) → IsReviveFault (Opened opening) es limits fault) }
{
    // This call shows that the values fit.
    let _ = opening.workers();
    let drafts = drafts_of(alloc, maker, opening.values())?;
    match Store::open(alloc, opening, limits, drafts) {
        Ok(store) => Ok(store),
        Err(refused) => match refused.why {
            OpenFault::HeapFull => Err(ReviveFault::NotBegun {
                why: RoomFault::HeapFull,
            }),
            OpenFault::OutOfMemory => Err(ReviveFault::NotBegun {
                why: RoomFault::OutOfMemory,
            }),
            // The drafts have the opening's values.
            OpenFault::PayloadMismatch { .. } => unreachable!(),
        },
    }
}

// The drafts of workers that store these values.
fn drafts_of<P: Payload, M: Maker<P>>(
    alloc: Global,
    maker: &mut M,
    values: &[Value],
) -> Result<Vec<Draft<P>>, AllocError>
    requires { All ValueFits values.now }
    ensures { IfOk result (λ drafts. drafts.items ≡ values.now) }
{
    let mut drafts = Vec::with_capacity(alloc, values.len())?;
    for value in values {
        let name = drafts.len() as u64;
        let draft = draft_of(alloc, maker, name, value)?;
        drafts.push(draft)?;
    }
    Ok(drafts)
}

// The draft of a worker that stores this value.
fn draft_of<P: Payload, M: Maker<P>>(
    alloc: Global,
    maker: &mut M,
    name: u64,
    value: &Value,
) -> Result<Draft<P>, AllocError>
    requires { ValueFits value.now }
    ensures { IfOk result (λ draft. draft ≡ value.now) }
{
    let payload = maker.make(Some(name), value.law, value.state.as_slice())?;
    match Draft::new(alloc, payload) {
        Ok(draft) => Ok(draft),
        Err(_) => Err(AllocError),
    }
}

// The store of a snapshot.
fn reopen<P: Payload, M: Maker<P>>(
    alloc: Global,
    snapshot: &Snapshot,
    limits: Limits,
    maker: &mut M,
) -> Result<Store<P>, ReviveFault>
    ensures reopened { IfOk result (IsRevived (Shown snapshot.now) [] limits) }
    ensures refused { IfErr result (λ fault. (es : List Entry) → IsReviveFault (Shown snapshot.now) es limits fault) }
    ensures no_subject { HasNoSubject (Shown snapshot.now) → result ≡ Err ReviveFault.NoSubject }
{
    let picture = snapshot.picture();
    if picture.subjects().is_empty() {
        return Err(ReviveFault::NoSubject);
    }
    let opening = stand_in(alloc, picture.limit())?;
    match Store::reopen(alloc, opening, snapshot, limits, maker) {
        Ok(store) => Ok(store),
        Err(refused) => match refused.why {
            ReopenFault::HeapFull => Err(ReviveFault::NotBegun {
                why: RoomFault::HeapFull,
            }),
            ReopenFault::OutOfMemory => Err(ReviveFault::NotBegun {
                why: RoomFault::OutOfMemory,
            }),
            // There is a subject.
            ReopenFault::NoSubject => unreachable!(),
            // The limit is the snapshot's.
            ReopenFault::LimitDiffers => unreachable!(),
        },
    }
}

// An opening of one worker, in which at most so many vertices may be made. A snapshot doesn't have the first opening,
// so this opening is in its place.
fn stand_in(alloc: Global, limit: u64) -> Result<Opening, AllocError>
    requires limit { (1 ≤ limit) × (limit ≤ MAX_LASTING_VERTICES) }
    ensures limit { IfOk result (λ opening. opening.limit ≡ limit) }
{
    let mut values = Vec::new(alloc);
    values.push(Value {
        law: Law::Cell,
        state: Numbers::one(0),
    })?;
    Ok(Opening::lasting(1, Vec::new(alloc), values, limit).unwrap())
}
