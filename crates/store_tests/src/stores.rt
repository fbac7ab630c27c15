//! A store with payloads of its user's own. It shows what the store lends of them, and why it is full.

use crate::opened::{self, is_answered, reason_of};
use crate::tagged::{Tagged, draft, drafts};
use std::alloc::Global;
use tg_model::Command;
use tg_payload::Payload;
use tg_rights::Label;
use tg_store::{CreateFault, Kind, Limits, RoomFault, Store};

// A store of two workers, in whose heap a space has at most one block.
fn open(alloc: Global) -> Option<Store<Tagged>> {
    let limits = Limits::new(4, 1).ok()?;
    opened::open(alloc, drafts(alloc, 10, 2)?, limits, 100)
}

// Lets worker 0 make a vertex with the tag 12. Why it is refused, where it is.
fn why_not_made(alloc: Global, store: &mut Store<Tagged>) -> Option<CreateFault> {
    let label = Label::read_text(b"rw")?;
    let draft = draft(alloc, 12)?;
    match store.create(0, label, draft) {
        Ok(_) => None,
        Err(refused) => Some(reason_of(refused)),
    }
}

// The tag of the vertex and its number, added up, where they are lent to worker 0, and else 0.
fn lent(store: &Store<Tagged>, name: u64) -> u64 {
    match store.payload(0, name) {
        Some(payload) => payload.tag.wrapping_add(payload.at(0)),
        None => 0,
    }
}

// Makes vertex 2, writes 5 to it, and collects. Whether all of it is done.
fn makes_and_writes(alloc: Global, store: &mut Store<Tagged>) -> bool {
    let write = Command::Write {
        target: 2,
        value: 5,
    };
    why_not_made(alloc, store).is_none()
        && is_answered(store, 0, write)
        && store.collect(Kind::Full).is_ok()
}

// Whether that is done, and what worker 0 is then lent of the vertex and of itself, which it may not read.
fn seen_of_lent(alloc: Global) -> Option<(bool, [u64; 2])> {
    let mut store = open(alloc)?;
    let is_done = makes_and_writes(alloc, &mut store);
    let seen = [lent(&store, 2), lent(&store, 0)];
    store.let_go();
    Some((is_done, seen))
}

#[test]
fn lent_to_who_may_read(rt: HostRuntime) {
    assert!(rt; seen_of_lent(rt.alloc()) == Some((true, [17, 0])));
}

// Makes vertices until one is refused. Why it is.
fn why_full(alloc: Global, store: &mut Store<Tagged>) -> Option<CreateFault> {
    for _ in 0..100 {
        let why = why_not_made(alloc, store);
        if why.is_some() {
            return why;
        }
    }
    None
}

// That, and why a full collection is refused then, and one of the nurseries.
fn seen_of_full(alloc: Global) -> Option<(Option<CreateFault>, [Option<RoomFault>; 2])> {
    let mut store = open(alloc)?;
    let why = why_full(alloc, &mut store);
    let full = store.collect(Kind::Full).err();
    let nursery = store.collect(Kind::Nursery).err();
    store.let_go();
    Some((why, [full, nursery]))
}

// The cells of two workers, and what one of them makes until its block is full, have no room in one block of old cells.
#[test]
fn one_block_a_space(rt: HostRuntime) {
    let full = Some(RoomFault::HeapFull);
    assert!(rt; seen_of_full(rt.alloc()) == Some((Some(CreateFault::HeapFull), [full, full])));
}
