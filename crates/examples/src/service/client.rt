//! A client, from its spawn to its last line.

use crate::sessions::{make, reply_to};
use std::alloc::Global;
use std::sync::Wait;
use tg_model::Command;
use tg_payload::{Draft, Payload, SumPayload};
use tg_rights::Label;
use tg_shared::{Round, Session, SharedStore};
use tg_store::{ApplyFault, Kind, StoreFault};

/// The numbers that a client sees as it leaves. They are how many vertices a full collection counts before and after,
/// and how many edges it gave up. The last field is why its next line is refused.
#[derive(Clone, Copy)]
pub struct Leave {
    pub before: u64,
    pub given_up: u64,
    pub after: u64,
    pub refused: Option<ApplyFault>,
}

/// The names of a client and of its document.
#[derive(Clone, Copy)]
pub struct DocumentPlace {
    pub client: u64,
    pub document: u64,
}

/// A draft of a sum that begins with 0. Each vertex of the story stores such a sum.
pub fn zero(alloc: Global) -> Result<Draft<SumPayload>, StoreFault> {
    Ok(Draft::new(alloc, SumPayload::new(0))?)
}

// Makes a vertex that stores 0. Returns its name.
fn make_zero<L: Round, R: Wait + AllocGlobal>(
    rt: &R,
    store: &SharedStore<L, SumPayload>,
    session: &mut Session<L>,
    rights: Label,
) -> Result<u64, StoreFault> {
    make(rt, store, session, rights, zero(rt.alloc())?)
}

// Lets the session's subject command. The reply is ignored.
fn command<L: Round, P: Payload, R: Wait>(
    rt: &R,
    store: &SharedStore<L, P>,
    session: &mut Session<L>,
    command: Command,
) -> Result<(), StoreFault> {
    let _reply = reply_to(rt, store, session, command)?;
    Ok(())
}

/// Makes a document and spawns a client, with these rights over both, and adds its session to the sessions of the other
/// clients. Hands the rights over the document on to the client.
pub fn welcome<L: Round, R: Wait + AllocGlobal>(
    rt: &R,
    store: &SharedStore<L, SumPayload>,
    service: &mut Session<L>,
    clients: &mut Vec<Session<L>>,
    rights: Label,
) -> Result<DocumentPlace, StoreFault> {
    let document = make_zero(rt, store, service, rights)?;
    let client = spawn(rt, store, service, clients, rights)?;
    let grant = Command::Grant {
        via: client,
        target: document,
        rights,
    };
    command(rt, store, service, grant)?;
    Ok(DocumentPlace { client, document })
}

// Spawns a client over which the service has these rights. Returns its name.
fn spawn<L: Round, R: Wait + AllocGlobal>(
    rt: &R,
    store: &SharedStore<L, SumPayload>,
    service: &mut Session<L>,
    clients: &mut Vec<Session<L>>,
    rights: Label,
) -> Result<u64, StoreFault> {
    let session = service.spawn(rt, store, rights, zero(rt.alloc())?)?;
    let name = session.worker();
    clients.push(session)?;
    Ok(name)
}

/// Welcomes a client that makes a note and then hangs. Its session never comes back.
pub fn welcome_and_lose<L: Round, R: Wait + AllocGlobal>(
    rt: &R,
    store: &SharedStore<L, SumPayload>,
    service: &mut Session<L>,
    clients: &mut Vec<Session<L>>,
    rights: Label,
) -> Result<DocumentPlace, StoreFault> {
    let place = welcome(rt, store, service, clients, rights)?;
    if let Some(hung) = clients.last_mut() {
        make_zero(rt, store, hung, rights)?;
    }
    drop(clients.pop());
    Ok(place)
}

/// Adds 1 to the document, twenty times.
pub fn work<L: Round, P: Payload, R: Wait>(
    rt: &R,
    store: &SharedStore<L, P>,
    client: &mut Session<L>,
    document: u64,
) -> Result<(), StoreFault> {
    let target = document;
    for _ in 0..20 {
        command(rt, store, client, Command::Write { target, value: 1 })?;
    }
    Ok(())
}

/// Works, makes two notes over which the client alone has these rights, and leaves.
pub fn work_and_leave<L: Round, R: Wait + AllocGlobal>(
    rt: &R,
    store: &SharedStore<L, SumPayload>,
    client: &mut Session<L>,
    document: u64,
    rights: Label,
) -> Result<Leave, StoreFault> {
    work(rt, store, client, document)?;
    for _ in 0..2 {
        make_zero(rt, store, client, rights)?;
    }
    take_leave(rt, store, client)
}

fn take_leave<L: Round, P: Payload, R: Wait>(
    rt: &R,
    store: &SharedStore<L, P>,
    session: &mut Session<L>,
) -> Result<Leave, StoreFault> {
    let before = session.collect(rt, store, Kind::Full)?;
    let given_up = session.leave(rt, store)?;
    let refused = session.call(rt, store, Command::List).err();
    let after = session.collect(rt, store, Kind::Full)?;
    Ok(Leave {
        before,
        given_up,
        after,
        refused,
    })
}
