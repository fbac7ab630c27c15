//! Payloads of a host's own, which the host's maker makes by name. The entries are resumed in two parts.
use super::whole;
use crate::opened::{self, is_answered, reason_of};
use crate::tagged::{Tagged, draft, drafts};
use std::alloc::{AllocError, Global};
use tg_model::{Command, Law, MAX_WORKERS};
use tg_payload::CellPayload;
use tg_resume::{Maker, Part, resume};
use tg_rights::{Label, Right, Rights};
use tg_store::{CreateFault, Limits, Store};

// Tags each cell with the name of its vertex, and counts how often it is asked.
#[derive(Drop)]
struct Tagging {
    asked: u64,
}

impl Maker<Tagged> for Tagging {
    fn make(&mut self, name: Option<u64>, law: Law, state: &[u64]) -> Result<Tagged, AllocError> {
        if law != Law::Cell {
            return Err(AllocError);
        }
        self.asked = self.asked.saturating_add(1);
        Ok(Tagged {
            cell: CellPayload::new(state[0]),
            tag: name.unwrap_or(0),
        })
    }
}

// A store of as many workers as there may be. One more vertex may be made.
fn open(alloc: Global) -> Option<Store<Tagged>> {
    let limits = Limits::new(99, 99).ok()?;
    opened::open(
        alloc,
        drafts(alloc, 0, MAX_WORKERS)?,
        limits,
        MAX_WORKERS + 1,
    )
}

fn read() -> Label {
    Label::new(Rights::of(Right::R)).unwrap()
}

// Why a worker can't spawn.
fn spawn_refused(alloc: Global, store: &mut Store<Tagged>) -> Option<CreateFault> {
    match store.spawn(0, read(), draft(alloc, 0)?) {
        Ok(_) => None,
        Err(refused) => Some(reason_of(refused)),
    }
}

// Why a worker can't create.
fn create_refused(alloc: Global, store: &mut Store<Tagged>) -> Option<CreateFault> {
    match store.create(1, read(), draft(alloc, 0)?) {
        Ok(_) => None,
        Err(refused) => Some(reason_of(refused)),
    }
}

// What is seen of a store that was resumed: how many entries it has of a refused spawn and of a refused create, and how
// many collections it made of the nurseries and in full.
type ResumedSeen = [u64; 4];

// Whether a list was answered in the first store, why the spawn and two creates were refused there, and how often the
// maker of the second store was asked. Then the tag of the vertex that was made, and what else is seen of that store.
type HostSeen = (
    bool,
    [Option<CreateFault>; 3],
    u64,
    (Option<u64>, ResumedSeen),
);

// A store that is resumed from the first entry of a part, which it then forgets, and from the rest.
fn gone_on(alloc: Global, tagging: &mut Tagging, part: Part) -> Option<Store<Tagged>> {
    let rest = part.rest(1)?;
    let first = Part {
        from: 0,
        entries: part.entries.get(..1)?,
    };
    let mut store = whole(resume(alloc, open(alloc)?, tagging, first))?;
    let upto = store.journal().len();
    store.forget(upto);
    whole(resume(alloc, store, tagging, rest))
}

// The tag that worker 1 is lent of the vertex that was made.
fn tag_of(store: &Store<Tagged>) -> Option<u64> {
    match store.payload(1, MAX_WORKERS) {
        Some(payload) => Some(payload.tag),
        None => None,
    }
}

fn resumed_seen(store: &Store<Tagged>) -> ResumedSeen {
    let census = store.census();
    let (refusals, collections) = (census.refusals, census.collections);
    [
        refusals.workers_full,
        refusals.vertices_full,
        collections.nursery,
        collections.full,
    ]
}

// What is seen of a store that is resumed from a part.
fn seen_of(alloc: Global, tagging: &mut Tagging, part: Part) -> Option<(Option<u64>, ResumedSeen)> {
    let store = gone_on(alloc, tagging, part)?;
    let seen = (tag_of(&store), resumed_seen(&store));
    store.let_go();
    Some(seen)
}

// Lets workers of the store list, spawn and create, and resumes another from its journal.
fn seen_again(alloc: Global, store: &mut Store<Tagged>) -> Option<HostSeen> {
    let is_listed = is_answered(store, 0, Command::List);
    let refused = [
        spawn_refused(alloc, store),
        create_refused(alloc, store),
        create_refused(alloc, store),
    ];
    let mut tagging = Tagging { asked: 0 };
    let seen = seen_of(alloc, &mut tagging, Part::of(store.journal()))?;
    Some((is_listed, refused, tagging.asked, seen))
}

fn seen(alloc: Global) -> Option<HostSeen> {
    let mut store = open(alloc)?;
    let seen = seen_again(alloc, &mut store);
    store.let_go();
    seen
}

// The maker is asked for the payload of each entry that makes a vertex, also if it made none. There is room, so the
// store collects nothing.
#[test]
fn a_maker_is_asked_once_for_each_and_refusals_are_entries(rt: HostRuntime) {
    let refused = [
        Some(CreateFault::WorkersFull),
        None,
        Some(CreateFault::VerticesFull),
    ];
    let wanted = (true, refused, 3, (Some(MAX_WORKERS), [1, 1, 0, 0]));
    assert!(rt; seen(rt.alloc()) == Some(wanted));
}
