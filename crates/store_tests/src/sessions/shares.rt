//! A store of two workers whose three vertices are shared out. One worker uses up its share, and the other still has
//! its own. A leave is paid for.
ghost use Rattle.std.specs.Prelude.{◌≡◌, ◌+◌, ◌≤◌};
ghost use Rattle.tg_store.specs.Store.{graph_of_store};
ghost use Rattle.tg_shared.specs.Sessions.{MayShare};
ghost use Rattle.tg_shares.specs.Shares.{MayShareOut};

use super::opened::{Counted, counted, open_store, read_and_write};
use crate::opened::cell;
use std::alloc::Global;
use std::marker::Brand;
use std::sync::Wait;
use std::sync::ledger::Ledger;
use tg_payload::CellPayload;
use tg_shared::{Blanks, Round, Session};
use tg_shares::{Client, Lack, MeteredStore, Portion, Purse, PurseBlanks, SharedOut};
use tg_store::Store;

// All that is shared out.
const WHOLE: Portion = Portion {
    vertices: 3,
    entries: 6,
};

// The share of the second client. The first client has the rest.
const SECOND: Portion = Portion {
    vertices: 1,
    entries: 3,
};

// What the first client lacks for its leave.
const TWO_ENTRIES: Portion = Portion {
    vertices: 0,
    entries: 2,
};

// What is seen of the two clients. The first is whether each of them makes its vertices, and the second what the first
// client then lacks for another. The next is how many edges it gives up by a leave that it can't pay for, and by a
// leave that it can pay for. The last is the entries that its purse has.
type ClientsSeen = ([bool; 3], Option<Lack>, [Option<u64>; 2], u64);

// What is seen of the clients, how many entries the closed store has, and what else is counted of it.
type ShareSeen = (ClientsSeen, u64, Counted);

// Lets a client make a vertex, if it can pay for it.
fn makes<L: Round, V: Ledger, E: Ledger, R: Wait>(
    rt: &R,
    alloc: Global,
    store: &MeteredStore<L, V, E, CellPayload>,
    client: &mut Client<L, V, E>,
) -> bool {
    if client.purse.may_make(0, Portion::none()).is_err() {
        return false;
    }
    match cell(alloc) {
        Some(draft) => client.create(rt, store, read_and_write(), draft).is_ok(),
        None => false,
    }
}

// What a client lacks to make a vertex.
fn lacks<L: Round, V: Ledger, E: Ledger>(client: &Client<L, V, E>) -> Option<Lack> {
    match client.purse.may_make(0, Portion::none()) {
        Ok(()) => None,
        Err(fault) => Some(fault.lacks),
    }
}

// Lets the first leave with what it has, and then with what the second one gives it.
fn leaves<L: Round, V: Ledger, E: Ledger, R: Wait>(
    rt: &R,
    store: &MeteredStore<L, V, E, CellPayload>,
    first: &mut Client<L, V, E>,
    second: &mut Client<L, V, E>,
) -> [Option<u64>; 2] {
    let before = first.leave(rt, store).ok();
    if let Ok(more) = second.purse.split_off(TWO_ENTRIES) {
        first.purse.merge(more);
    }
    [before, first.leave(rt, store).ok()]
}

fn see<L: Round, V: Ledger, E: Ledger, R: Wait>(
    rt: &R,
    alloc: Global,
    store: &MeteredStore<L, V, E, CellPayload>,
    first: &mut Client<L, V, E>,
    second: &mut Client<L, V, E>,
) -> ClientsSeen {
    let once = makes(rt, alloc, store, first);
    let twice = makes(rt, alloc, store, first);
    let lacks = lacks(first);
    let other = makes(rt, alloc, store, second);
    let left = leaves(rt, store, first, second);
    ([once, twice, other], lacks, left, first.purse.entries())
}

// The client with the last of the sessions, and this purse.
fn client_of<L: Round, V: Ledger, E: Ledger>(
    sessions: &mut Vec<Session<L>>,
    purse: Purse<V, E>,
) -> Option<Client<L, V, E>> {
    match sessions.pop() {
        Some(session) => Some(Client { session, purse }),
        None => None,
    }
}

// The second client, which has its share of the purse.
fn second_of<L: Round, V: Ledger, E: Ledger>(
    sessions: &mut Vec<Session<L>>,
    purse: &mut Purse<V, E>,
) -> Option<Client<L, V, E>> {
    match purse.split_off(SECOND) {
        Ok(share) => client_of(sessions, share),
        Err(_) => None,
    }
}

fn seen_of<L: Round, V: Ledger, E: Ledger, R: Wait>(
    rt: &R,
    alloc: Global,
    shared: SharedOut<L, V, E, CellPayload>,
) -> Option<ShareSeen> {
    let SharedOut {
        store,
        sessions,
        purse,
        keeper,
    } = shared;
    drop(keeper);
    let mut purse = purse;
    let mut sessions = sessions;
    let second = second_of(&mut sessions, &mut purse);
    let first = client_of(&mut sessions, purse);
    drop(sessions);
    match first.zip(second) {
        Some((first, second)) => seen_of_two(rt, alloc, store, first, second),
        None => None,
    }
}

// What is seen of the two, and of the store that is closed with both.
fn seen_of_two<L: Round, V: Ledger, E: Ledger, R: Wait>(
    rt: &R,
    alloc: Global,
    store: MeteredStore<L, V, E, CellPayload>,
    mut first: Client<L, V, E>,
    mut second: Client<L, V, E>,
) -> Option<ShareSeen> {
    let seen = see(rt, alloc, &store, &mut first, &mut second);
    let mut sessions = Vec::new(alloc);
    add(&mut sessions, first);
    add(&mut sessions, second);
    match store.into_locked().close(sessions).ok() {
        Some(store) => Some(with_counts(seen, store)),
        None => None,
    }
}

// Puts a client's session after the others. The close is refused without it.
fn add<L: Round, V: Ledger, E: Ledger>(sessions: &mut Vec<Session<L>>, client: Client<L, V, E>) {
    let Client { session, purse } = client;
    drop(purse);
    let _added = sessions.push(session);
}

// Adds the counts of the closed store to what was seen.
fn with_counts(seen: ClientsSeen, store: Store<CellPayload>) -> ShareSeen {
    let entries = store.journal().len();
    let counted = counted(&store);
    store.let_go();
    (seen, entries, counted)
}

fn share<L: Round, V: Ledger, E: Ledger, R: Wait>(
    rt: &R,
    alloc: Global,
    blanks: Blanks,
    parts: PurseBlanks,
    store: Store<CellPayload>,
) -> Option<ShareSeen>
    requires shareable { MayShare L.name L.parts L.keeper L.start blanks store }
    requires shares { MayShareOut V.name V.parts E.name E.parts parts WHOLE store }
{
    match MeteredStore::<L, V, E, CellPayload>::new(alloc, blanks, parts, WHOLE, store) {
        Ok(shared) => seen_of(rt, alloc, shared),
        Err(store) => {
            store.let_go();
            None
        }
    }
}

// Shares out all that may still be made.
fn share_out<R: Wait>(rt: &R, alloc: Global, store: Store<CellPayload>) -> Option<ShareSeen>
    requires { (graph_of_store store).made + 3 ≤ (graph_of_store store).limit }
{
    let Ok(blanks) = Blanks::new(alloc, store.opening().max_vertices() + 1) else {
        store.let_go();
        return None;
    };
    share::<Brand, Brand, Brand, R>(rt, alloc, blanks, PurseBlanks::new(WHOLE), store)
}

fn story<R: Wait>(rt: &R, alloc: Global) -> Option<ShareSeen> {
    match open_store(alloc) {
        Some(store) => share_out(rt, alloc, store),
        None => None,
    }
}

// A client that has used up its share is refused by it, and the other client makes what its own share has. A leave that
// can't be paid for is refused. A leave that can be paid for costs an entry for each edge, and one more. Nobody
// collects.
#[test]
fn shares_hold_and_are_paid_from(rt: HostRuntime) {
    let clients = ([true; 3], Some(Lack::Vertices), [None, Some(2)], 0);
    let wanted = (clients, 6, [5, 0, 0]);
    assert!(rt; story(&rt, rt.alloc()) == Some(wanted));
}
