//! The story, from sharing the store out to the last write.
ghost use Rattle.std.specs.Prelude.{◌≡◌, ◌+◌, ◌≤◌};
ghost use Rattle.tg_store.specs.Store.{graph_of_store};
ghost use Rattle.tg_shared.specs.Sessions.{MayShare};
ghost use Rattle.tg_shares.specs.Shares.{MayShareOut};

use super::opening::open_store;
use crate::fault::StoryFault;
use crate::opening::{cell, read_and_write};
use std::io;
use std::marker::Brand;
use std::sync::Wait;
use std::sync::ledger::Ledger;
use tg_model::Command;
use tg_payload::CellPayload;
use tg_shared::{Blanks, Round, Session};
use tg_shares::{Client, MeteredStore, Portion, Purse, PurseBlanks, SharedOut};
use tg_store::{Store, StoreFault};

// What both tenants may make together.
const WHOLE: Portion = Portion {
    vertices: 2,
    entries: 7,
};

// What the tenant may make that then lacks an entry.
const SHORT: Portion = Portion {
    vertices: 1,
    entries: 3,
};

// What the other tenant may make.
const AMPLE: Portion = Portion {
    vertices: 1,
    entries: 4,
};

/// Opens a store, shares out what may be made, and lets both tenants work. Each result is printed.
pub fn run_story<R: Wait + Print + AllocGlobal>(rt: &R) -> Result<(), StoryFault> {
    share_out(rt, open_store(rt.alloc())?)
}

// Shares out all that may still be made.
fn share_out<R: Wait + Print + AllocGlobal>(
    rt: &R,
    store: Store<CellPayload>,
) -> Result<(), StoryFault>
    requires { (graph_of_store store).made + 2 ≤ (graph_of_store store).limit }
{
    match Blanks::new(rt.alloc(), store.opening().max_vertices() + 1) {
        Ok(blanks) => share::<Brand, Brand, Brand, R>(rt, blanks, PurseBlanks::new(WHOLE), store),
        Err(fault) => {
            store.let_go();
            Err(StoryFault::from(fault))
        }
    }
}

fn share<L: Round, V: Ledger, E: Ledger, R: Wait + Print + AllocGlobal>(
    rt: &R,
    blanks: Blanks,
    parts: PurseBlanks,
    store: Store<CellPayload>,
) -> Result<(), StoryFault>
    requires shareable { MayShare L.name L.parts L.keeper L.start blanks store }
    requires shares { MayShareOut V.name V.parts E.name E.parts parts WHOLE store }
{
    match MeteredStore::<L, V, E, CellPayload>::new(rt.alloc(), blanks, parts, WHOLE, store) {
        Ok(shared) => work_in_turn(rt, shared),
        Err(store) => {
            store.let_go();
            Err(StoryFault::Store(StoreFault::OutOfMemory))
        }
    }
}

// Lets one tenant work with too short a share, and then the other tenant. The store is let go.
fn work_in_turn<L: Round, V: Ledger, E: Ledger, R: Wait + Print + AllocGlobal>(
    rt: &R,
    shared: SharedOut<L, V, E, CellPayload>,
) -> Result<(), StoryFault> {
    let SharedOut {
        store,
        mut sessions,
        mut purse,
        keeper,
    } = shared;
    let short = work_with(rt, &store, &mut sessions, &mut purse, SHORT);
    let ample = work_with(rt, &store, &mut sessions, &mut purse, AMPLE);
    drop(keeper);
    drop(purse);
    drop(sessions);
    drop(store);
    short.and(ample)
}

// Lets the next tenant work, with this share.
fn work_with<L: Round, V: Ledger, E: Ledger, R: Wait + Print + AllocGlobal>(
    rt: &R,
    store: &MeteredStore<L, V, E, CellPayload>,
    sessions: &mut Vec<Session<L>>,
    purse: &mut Purse<V, E>,
    share: Portion,
) -> Result<(), StoryFault> {
    match tenant_of(sessions, purse, share) {
        Some(mut tenant) => work(rt, store, &mut tenant),
        None => Err(StoryFault::NoSession),
    }
}

// The next tenant, with the last of these sessions and this share of the purse.
fn tenant_of<L: Round, V: Ledger, E: Ledger>(
    sessions: &mut Vec<Session<L>>,
    purse: &mut Purse<V, E>,
    share: Portion,
) -> Option<Client<L, V, E>> {
    match purse.split_off(share) {
        Ok(purse) => sessions.pop().map(|session| Client { session, purse }),
        Err(_) => None,
    }
}

// Makes a document and writes to it three times.
fn work<L: Round, V: Ledger, E: Ledger, R: Wait + Print + AllocGlobal>(
    rt: &R,
    store: &MeteredStore<L, V, E, CellPayload>,
    tenant: &mut Client<L, V, E>,
) -> Result<(), StoryFault> {
    let worker = tenant.session.worker();
    let document = make(rt, store, tenant)?;
    println!(rt; "tenant {worker} makes document {document}")?;
    for number in 1..4 {
        tell_write(rt, number, write(rt, store, tenant, document, number))?;
    }
    Ok(())
}

// Prints the outcome of a write.
fn tell_write<R: Print>(rt: &R, number: u64, outcome: Result<(), StoryFault>) -> io::Result<()> {
    match outcome {
        Ok(()) => println!(rt; "it writes {number}"),
        Err(fault) => println!(rt; "it doesn't write {number}: {fault}"),
    }
}

// Makes a document, if the purse can pay for a vertex and an entry. Returns its name.
fn make<L: Round, V: Ledger, E: Ledger, R: Wait + AllocGlobal>(
    rt: &R,
    store: &MeteredStore<L, V, E, CellPayload>,
    tenant: &mut Client<L, V, E>,
) -> Result<u64, StoryFault> {
    tenant
        .purse
        .may_make(tenant.session.worker(), Portion::none())?;
    let draft = cell(rt.alloc(), 0)?;
    match tenant.create(rt, store, read_and_write(), draft) {
        Ok(name) => Ok(name),
        Err(refused) => Err(StoryFault::Store(StoreFault::from(refused))),
    }
}

// Writes a number to the document, if the purse can pay for an entry.
fn write<L: Round, V: Ledger, E: Ledger, R: Wait>(
    rt: &R,
    store: &MeteredStore<L, V, E, CellPayload>,
    tenant: &mut Client<L, V, E>,
    target: u64,
    value: u64,
) -> Result<(), StoryFault> {
    tenant.purse.may_enter(tenant.session.worker())?;
    let command = Command::Write { target, value };
    match tenant.call(rt, store, command) {
        Ok(()) => Ok(()),
        Err(fault) => Err(StoryFault::Store(StoreFault::from(fault))),
    }
}
