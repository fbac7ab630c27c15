//! The snapshot of a store, and the refusals of a store that is opened again, which hand the opening back.
//!
//! A library for C has the snapshots of auditors alone, and makes the opening itself. What a store answers that was
//! opened again is a test in Python (`FromSnapshot` in `bindings/python/tests/test_going_on.py`).
use crate::by_law::{all_on_values, make, open, opening};
use crate::opened::{cells, is_answered, opening_of};
use std::alloc::Global;
use tg_model::{Command, Law, Making, Opening};
use tg_payload::LawPayload;
use tg_resume::ByLaw;
use tg_rights::{Label, Right, Rights};
use tg_saved::snapshot_bytes;
use tg_snapshot::Snapshot;
use tg_store::{Kind, Limits, ReopenFault, ReopenRefused, Store};

// The most blocks of a store and of one of its spaces.
const BLOCKS: u64 = 64;

// Why a store isn't opened, and how many workers the opening has that is handed back.
type Refusal = Option<(ReopenFault, u64)>;

// What is seen of a store that was used: whether its snapshot has the text, and that of a store which is opened again
// from it and makes two vertices. Then why no store is opened with another limit of vertices, and once nobody acts any
// more.
type SnapshotSeen = ([bool; 2], [Refusal; 2]);

// The snapshot of a used store has what the subjects reach. Vertex 4 isn't reached. Vertex 6 retired, and worker 1
// reaches it.
fn text_of_used() -> &'static [u8] {
    b"kovshenul picture 1
made 8 1000 12
worker 0
worker 1
worker 5
vertex 0 c0
vertex 1 c0
vertex 2 l3:5,6,7
vertex 3 s42
vertex 5 c0
vertex 6 c0
vertex 7 c9
edge 0 1 tg
edge 0 2 rwa
edge 0 3 rwa
edge 1 2 r
edge 1 5 rwa
edge 1 6 rwa
edge 5 7 rwa
picture 14
"
}

// The same once worker 1 made an object, and worker 5 a subject.
fn text_of_reopened() -> &'static [u8] {
    b"kovshenul picture 1
made 10 1000 14
worker 0
worker 1
worker 5
worker 9
vertex 0 c0
vertex 1 c0
vertex 2 l3:5,6,7
vertex 3 s42
vertex 5 c0
vertex 6 c0
vertex 7 c9
vertex 8 c0
vertex 9 c0
edge 0 1 tg
edge 0 2 rwa
edge 0 3 rwa
edge 1 2 r
edge 1 5 rwa
edge 1 6 rwa
edge 1 8 rwa
edge 5 7 rwa
edge 5 9 rwa
picture 18
"
}

// Worker 0 makes a log, a sum and a cell. Worker 1 makes two subjects, and the first of these makes a cell.
fn make_all(alloc: Global, store: &mut Store<LawPayload>) -> Option<[Option<u64>; 6]> {
    let log = LawPayload::of(alloc, Law::Log(3), &[5, 6]).ok()?;
    Some([
        make(alloc, store, 0, Making::Object, log),
        make(alloc, store, 0, Making::Object, LawPayload::sum(40)),
        make(alloc, store, 0, Making::Object, LawPayload::cell(1)),
        make(alloc, store, 1, Making::Subject, LawPayload::cell(0)),
        make(alloc, store, 1, Making::Subject, LawPayload::cell(0)),
        make(alloc, store, 5, Making::Object, LawPayload::cell(0)),
    ])
}

// Worker 0 gives its cell up, writes to the other objects, and lets worker 1 read the log. The second subject retires.
fn steps() -> [(u64, Command); 6] {
    let give_up = Command::Remove {
        rights: all_on_values(),
        target: 4,
    };
    let grant = Command::Grant {
        rights: Label::new(Rights::of(Right::R)).unwrap(),
        via: 1,
        target: 2,
    };
    let append = Command::Append {
        target: 2,
        value: 7,
    };
    let add = Command::Write {
        target: 3,
        value: 2,
    };
    let write = Command::Write {
        target: 7,
        value: 9,
    };
    [
        (0, give_up),
        (0, grant),
        (0, append),
        (0, add),
        (5, write),
        (6, Command::Retire),
    ]
}

// Lets workers of the store do all this, and collects the store if a kind is given. Whether all of it is done.
fn is_used(alloc: Global, store: &mut Store<LawPayload>, collects: Option<Kind>) -> bool {
    let mut is_done = make_all(alloc, store).is_some();
    for (worker, command) in steps() {
        is_done &= is_answered(store, worker, command);
    }
    if let Some(kind) = collects {
        is_done &= store.collect(kind).is_ok();
    }
    is_done
}

// Whether a snapshot has this text.
fn is_text(alloc: Global, snapshot: &Snapshot, wanted: &[u8]) -> bool {
    match snapshot_bytes(alloc, snapshot) {
        Ok(text) => text.as_slice() == wanted,
        Err(_) => false,
    }
}

// Whether the snapshot of a store has the text, once two more vertices were made.
fn has_text_of_reopened(alloc: Global, store: &mut Store<LawPayload>) -> bool {
    let object = make(alloc, store, 1, Making::Object, LawPayload::cell(0));
    let subject = make(alloc, store, 5, Making::Subject, LawPayload::cell(0));
    match store.snapshot(alloc) {
        Ok(snapshot) => {
            let has_text = is_text(alloc, &snapshot, text_of_reopened());
            drop(snapshot);
            (object, subject, has_text) == (Some(8), Some(9), true)
        }
        Err(_) => false,
    }
}

// Opens a store again from a snapshot with an opening. Whether its snapshot has the text, or why it is refused.
fn reopen(
    alloc: Global,
    opening: Opening,
    snapshot: &Snapshot,
) -> Option<Result<bool, (ReopenFault, u64)>> {
    let limits = Limits::new(BLOCKS, BLOCKS).ok()?;
    match Store::<LawPayload>::reopen(alloc, opening, snapshot, limits, &mut ByLaw { alloc }) {
        Ok(mut store) => {
            let has_text = has_text_of_reopened(alloc, &mut store);
            store.let_go();
            Some(Ok(has_text))
        }
        Err(ReopenRefused { opening, why }) => {
            let workers = opening.workers();
            drop(opening);
            Some(Err((why, workers)))
        }
    }
}

// Whether the snapshots of a store and of one that is opened again from it have the texts.
fn have_texts(alloc: Global, snapshot: &Snapshot) -> Option<[bool; 2]> {
    let again = reopen(alloc, opening(alloc)?, snapshot)?;
    Some([is_text(alloc, snapshot, text_of_used()), again == Ok(true)])
}

// The refusal of an opening with another limit of vertices, which has three workers.
fn refusal_of_limit(alloc: Global, snapshot: &Snapshot) -> Refusal {
    let other = opening_of(alloc, &cells(alloc, 3)?, 999)?;
    reopen(alloc, other, snapshot)?.err()
}

// Whether all workers of the store retire.
fn do_all_retire(store: &mut Store<LawPayload>) -> bool {
    let mut is_done = true;
    for worker in [0, 1, 5] {
        is_done &= is_answered(store, worker, Command::Retire);
    }
    is_done
}

// The refusal of a snapshot, with the opening of its store.
fn refusal_of(alloc: Global, snapshot: &Snapshot) -> Refusal {
    reopen(alloc, opening(alloc)?, snapshot)?.err()
}

// The refusal of the snapshot of a store in which nobody acts any more.
fn refusal_of_nobody(alloc: Global, store: &mut Store<LawPayload>) -> Refusal {
    if !do_all_retire(store) {
        return None;
    }
    let snapshot = store.snapshot(alloc).ok()?;
    let refusal = refusal_of(alloc, &snapshot);
    drop(snapshot);
    refusal
}

// What is seen of the snapshot of a used store.
fn seen_of_used(alloc: Global, store: &Store<LawPayload>) -> Option<([bool; 2], Refusal)> {
    let snapshot = store.snapshot(alloc).ok()?;
    let texts = have_texts(alloc, &snapshot);
    let of_limit = refusal_of_limit(alloc, &snapshot);
    drop(snapshot);
    Some((texts?, of_limit))
}

fn seen_of(
    alloc: Global,
    store: &mut Store<LawPayload>,
    collects: Option<Kind>,
) -> Option<SnapshotSeen> {
    if !is_used(alloc, store, collects) {
        return None;
    }
    let (texts, of_limit) = seen_of_used(alloc, store)?;
    Some((texts, [of_limit, refusal_of_nobody(alloc, store)]))
}

// What is seen of a store that was used, and was collected then if a kind is given.
fn seen(alloc: Global, collects: Option<Kind>) -> Option<SnapshotSeen> {
    let mut store = open(alloc, BLOCKS)?;
    let seen = seen_of(alloc, &mut store, collects);
    store.let_go();
    seen
}

// Whether the texts are right.
fn texts(alloc: Global, collects: Option<Kind>) -> Option<[bool; 2]> {
    Some(seen(alloc, collects)?.0)
}

#[test]
fn a_snapshot_is_the_same_whatever_was_collected(rt: HostRuntime) {
    let alloc = rt.alloc();
    let all = [
        texts(alloc, None),
        texts(alloc, Some(Kind::Nursery)),
        texts(alloc, Some(Kind::Full)),
    ];
    assert!(rt; all == [Some([true, true]); 3]);
}

fn refusals(alloc: Global) -> Option<[Refusal; 2]> {
    Some(seen(alloc, None)?.1)
}

// Each refusal hands back the opening that was handed in.
#[test]
fn a_snapshot_without_a_place_to_go_on(rt: HostRuntime) {
    let wanted = [
        Some((ReopenFault::LimitDiffers, 3)),
        Some((ReopenFault::NoSubject, 2)),
    ];
    assert!(rt; refusals(rt.alloc()) == Some(wanted));
}
