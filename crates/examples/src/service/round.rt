//! The story, from sharing the store to the audit.
ghost use Rattle.std.specs.Prelude.{◌≡◌, true};
ghost use Rattle.tg_shared.specs.Sessions.{MayShare};

use super::client::{DocumentPlace, Leave, welcome, welcome_and_lose, work, work_and_leave, zero};
use crate::fault::StoryFault;
use crate::opening::{label, limits};
use crate::sessions::reply_to;
use crate::tell::tell_audit;
use std::alloc::Global;
use std::io;
use std::marker::Brand;
use std::sync::Wait;
use std::thread::{Threads, join};
use tg_journal::audit;
use tg_model::{Command, Opening, Reply};
use tg_payload::{Draft, Payload, SumPayload, values_of};
use tg_rights::Label;
use tg_shared::{Blanks, Keeper, Round, Session, Shared, SharedStore, reclaim};
use tg_store::{Kind, Store, StoreFault};

/// Opens a store, shares it, serves in it on threads, takes it back and audits its journal. Each result is printed.
pub fn run_story<R: Threads + Wait + Sync + Print + AllocGlobal>(rt: &R) -> Result<(), StoryFault> {
    let store = open_store(rt.alloc())?;
    match Blanks::new(rt.alloc(), store.opening().max_vertices() + 1) {
        Ok(blanks) => share::<Brand, R>(rt, blanks, store),
        Err(fault) => {
            store.let_go();
            Err(StoryFault::from(fault))
        }
    }
}

// A store with the service alone, in which at most 12 vertices may ever be made.
fn open_store(alloc: Global) -> Result<Store<SumPayload>, StoreFault> {
    let limits = limits()?;
    let drafts = vec![in alloc; zero(alloc)?]?;
    let opening = opening_of(alloc, &drafts)?;
    Ok(Store::open(alloc, opening, limits, drafts)?)
}

fn opening_of(alloc: Global, drafts: &[Draft<SumPayload>]) -> Result<Opening, StoreFault> {
    let values = values_of(alloc, drafts)?;
    Ok(Opening::new(1, Vec::new(alloc), values, 12)?)
}

// Shares the store, and serves.
fn share<L: Round + Send + Sync, R: Threads + Wait + Sync + Print + AllocGlobal>(
    rt: &R,
    blanks: Blanks,
    store: Store<SumPayload>,
) -> Result<(), StoryFault>
    requires shareable { MayShare L.name L.parts L.keeper L.start blanks store }
    requires may_end { L.start.may_end ≡ true }
{
    match SharedStore::<L, SumPayload>::new(rt.alloc(), blanks, store) {
        Ok(shared) => serve_and_audit(rt, shared),
        Err(refused) => Err(StoryFault::from(refused)),
    }
}

// Serves, takes the store back with all sessions but that of the client that hangs, and audits the journal.
fn serve_and_audit<L: Round + Send + Sync, R: Threads + Wait + Sync + Print + AllocGlobal>(
    rt: &R,
    shared: Shared<L, SumPayload>,
) -> Result<(), StoryFault>
    requires may_end { L.start.may_end ≡ true }
{
    let Shared {
        store,
        mut sessions,
        mut keeper,
    } = shared;
    let served = serve(rt, &store, &mut keeper, &mut sessions);
    let entries = reclaim_and_audit(rt.alloc(), store, sessions);
    tell_audit(rt, served.and(entries)?)
}

// Takes the store back with the sessions that there are, and audits its journal. Returns how many entries the journal
// has.
fn reclaim_and_audit<L: Round>(
    alloc: Global,
    store: SharedStore<L, SumPayload>,
    sessions: Vec<Session<L>>,
) -> Result<u64, StoryFault> {
    match reclaim(store, sessions) {
        Ok(store) => {
            let entries = audited(alloc, &store);
            store.let_go();
            Ok(entries?)
        }
        Err(refused) => Err(StoryFault::from(refused)),
    }
}

fn audited(alloc: Global, store: &Store<SumPayload>) -> Result<u64, StoreFault> {
    audit(alloc, store.opening(), store.journal().entries())?;
    Ok(store.journal().len())
}

// Lets the service, which has the only session, serve. In the end the clients' sessions and its own are in the list.
fn serve<L: Round + Send + Sync, R: Threads + Wait + Sync + Print + AllocGlobal>(
    rt: &R,
    store: &SharedStore<L, SumPayload>,
    keeper: &mut Keeper<L>,
    sessions: &mut Vec<Session<L>>,
) -> Result<(), StoryFault>
    requires may_end { L.start.may_end ≡ true }
{
    let mut service = sessions.pop().ok_or(StoryFault::NoSession)?;
    let served = serve_clients(rt, store, keeper, &mut service, sessions);
    sessions.push(service)?;
    served
}

// Lets three clients come and work, of which one leaves, and a fourth that hangs. Prints the result.
fn serve_clients<L: Round + Send + Sync, R: Threads + Wait + Sync + Print + AllocGlobal>(
    rt: &R,
    store: &SharedStore<L, SumPayload>,
    keeper: &mut Keeper<L>,
    service: &mut Session<L>,
    clients: &mut Vec<Session<L>>,
) -> Result<(), StoryFault>
    requires may_end { L.start.may_end ≡ true }
{
    let rights = label("rwg")?;
    let documents = welcome_three(rt, store, service, clients, rights)?;
    let hung = welcome_and_lose(rt, store, service, clients, rights)?;
    let left = work_at_once(rt, store, clients, documents, rights)?;
    tell_leave(rt, left)?;
    tell_all(rt, store, keeper, service, documents, hung)
}

// Prints the number of each document, and ends the client that hangs.
fn tell_all<L: Round, P: Payload, R: Wait + Print>(
    rt: &R,
    store: &SharedStore<L, P>,
    keeper: &mut Keeper<L>,
    service: &mut Session<L>,
    documents: [u64; 3],
    hung: DocumentPlace,
) -> Result<(), StoryFault>
    requires may_end { L.start.may_end ≡ true }
{
    for document in &documents {
        tell_document(rt, store, service, *document)?;
    }
    end_if_silent(rt, store, keeper, service, hung)
}

fn welcome_three<L: Round, R: Wait + AllocGlobal>(
    rt: &R,
    store: &SharedStore<L, SumPayload>,
    service: &mut Session<L>,
    clients: &mut Vec<Session<L>>,
    rights: Label,
) -> Result<[u64; 3], StoreFault> {
    let first = welcome(rt, store, service, clients, rights)?;
    let leaving = welcome(rt, store, service, clients, rights)?;
    let last = welcome(rt, store, service, clients, rights)?;
    Ok([first.document, leaving.document, last.document])
}

fn work_at_once<L: Round + Send + Sync, R: Threads + Wait + Sync + AllocGlobal>(
    rt: &R,
    store: &SharedStore<L, SumPayload>,
    clients: &mut [Session<L>],
    documents: [u64; 3],
    rights: Label,
) -> Result<Leave, StoryFault> {
    match clients {
        [first, leaving, last] => {
            Ok(work_on_threads(rt, store, first, leaving, last, documents, rights)?)
        }
        _ => Err(StoryFault::NoSession),
    }
}

// Each client on a thread of its own.
fn work_on_threads<L: Round + Send + Sync, R: Threads + Wait + Sync + AllocGlobal>(
    rt: &R,
    store: &SharedStore<L, SumPayload>,
    first: &mut Session<L>,
    leaving: &mut Session<L>,
    last: &mut Session<L>,
    documents: [u64; 3],
    rights: Label,
) -> Result<Leave, StoreFault> {
    let [of_first, of_leaving, of_last] = documents;
    let (left, (by_first, by_last)) = join(
        rt,
        move || work_and_leave(rt, store, leaving, of_leaving, rights),
        move || join(
            rt,
            move || work(rt, store, first, of_first),
            move || work(rt, store, last, of_last),
        ),
    );
    by_first.and(by_last).and(left)
}

fn tell_leave<R: Print>(rt: &R, left: Leave) -> io::Result<()> {
    let Leave {
        before,
        given_up,
        after,
        refused,
    } = left;
    println!(rt;
        "{before} vertices before a client leaves\nit gives up {given_up} edges\n{after} vertices after it"
    )?;
    match refused {
        Some(fault) => println!(rt; "its next line is refused: {fault}"),
        None => Ok(()),
    }
}

fn tell_document<L: Round, P: Payload, R: Wait + Print>(
    rt: &R,
    store: &SharedStore<L, P>,
    service: &mut Session<L>,
    document: u64,
) -> Result<(), StoryFault> {
    if let Some(number) = said(rt, store, service, document)? {
        println!(rt; "document {document} says [{number}]")?;
    }
    Ok(())
}

// Ends the client if it hangs. A client hangs if its document still stores 0 when the others are done.
fn end_if_silent<L: Round, P: Payload, R: Wait + Print>(
    rt: &R,
    store: &SharedStore<L, P>,
    keeper: &mut Keeper<L>,
    service: &mut Session<L>,
    place: DocumentPlace,
) -> Result<(), StoryFault>
    requires may_end { L.start.may_end ≡ true }
{
    match said(rt, store, service, place.document)? {
        Some(0) => end_and_tell(rt, store, keeper, service, place.client),
        _ => Ok(()),
    }
}

fn end_and_tell<L: Round, P: Payload, R: Wait + Print>(
    rt: &R,
    store: &SharedStore<L, P>,
    keeper: &mut Keeper<L>,
    service: &mut Session<L>,
    client: u64,
) -> Result<(), StoryFault>
    requires may_end { L.start.may_end ≡ true }
{
    let (given_up, left) = end(rt, store, keeper, service, client)?;
    println!(rt; "client {client} hangs, and is ended: it gives up {given_up} edges")?;
    println!(rt; "{left} vertices after it")?;
    Ok(())
}

// Ends the client, and collects. Returns how many edges it gave up, and how many vertices are left.
fn end<L: Round, P: Payload, R: Wait>(
    rt: &R,
    store: &SharedStore<L, P>,
    keeper: &mut Keeper<L>,
    service: &mut Session<L>,
    client: u64,
) -> Result<(u64, u64), StoreFault>
    requires may_end { L.start.may_end ≡ true }
{
    let given_up = keeper.end(rt, store, client)?;
    let left = service.collect(rt, store, Kind::Full)?;
    Ok((given_up, left))
}

// The number that a document stores.
fn said<L: Round, P: Payload, R: Wait>(
    rt: &R,
    store: &SharedStore<L, P>,
    service: &mut Session<L>,
    target: u64,
) -> Result<Option<u64>, StoreFault> {
    match reply_to(rt, store, service, Command::Read { target }) {
        Ok(Reply::Values(values)) => Ok(values.as_slice().first().copied()),
        Ok(_) => Ok(None),
        Err(fault) => Err(fault),
    }
}
