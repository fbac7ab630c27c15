//! One entry whose deed is done again.
ghost use Rattle.std.specs.Prelude.{◌≡◌, IfOk, IfErr};
ghost use Rattle.tg_model.specs.Graph.{IsSubject};
ghost use Rattle.tg_model.specs.Law.{Fits};
ghost use Rattle.tg_model.specs.Making.{deed_making};
ghost use Rattle.tg_store.specs.Store.{graph_of_store};
ghost use Rattle.tg_resume.specs.Inner.Replaying.{Does, Replays, Tries};

use std::alloc::{AllocError, Global};
use tg_graph::VertexRefused;
use tg_journal::Entry;
use tg_model::{Command, Deed, Law, Making, Numbers, Reply};
use tg_payload::{Draft, Payload};
use tg_rebuild::Maker;
use tg_rights::Label;
use tg_store::{ApplyFault, CreateFault, CreateRefused, Kind, RoomFault, Store};

/// Does the deed of an entry again, and returns whether the entry is legal on the graph of the store. The store then
/// has the entry after the others. After an entry that isn't legal the store is of no use. Nothing of the entry is
/// believed before it is checked. The maker sees only a state that fits its law.
pub(crate) fn replay<P: Payload, M: Maker<P>>(
    alloc: Global,
    store: &mut Store<P>,
    maker: &mut M,
    entry: &Entry,
) -> Result<bool, RoomFault>
    ensures { Replays entry.now store.old store.new result }
{
    if !store.is_subject(entry.worker) || !entry.deed.fits() {
        return Ok(false);
    }
    let reply = match &entry.deed {
        Deed::Plain(command) => apply(store, entry.worker, command)?,
        Deed::Create { label, law, state } => {
            let draft = draft_of(alloc, maker, &entry.reply, *law, state)?;
            make(store, entry.worker, Making::Object, *label, draft)?
        }
        Deed::Spawn { label, law, state } => {
            let draft = draft_of(alloc, maker, &entry.reply, *law, state)?;
            make(store, entry.worker, Making::Subject, *label, draft)?
        }
    };
    // This call shows that the store's own entry is legal.
    let _ = store.journal();
    Ok(entry.reply.same(&reply))
}

// The draft of a vertex for an entry with this reply.
fn draft_of<P: Payload, M: Maker<P>>(
    alloc: Global,
    maker: &mut M,
    reply: &Reply,
    law: Law,
    state: &Numbers,
) -> Result<Draft<P>, AllocError>
    requires { Fits law state.now }
    ensures { IfOk result (λ draft. draft ≡ record { law = law; state = state.now }) }
{
    let name = match reply {
        Reply::Name(name) => Some(*name),
        _ => None,
    };
    let payload = maker.make(name, law, state.as_slice())?;
    match Draft::new(alloc, payload) {
        Ok(draft) => Ok(draft),
        Err(_) => Err(AllocError),
    }
}

// Takes a command of a subject, after a full collection if the heap is full for it.
fn apply<P: Payload>(
    store: &mut Store<P>,
    worker: u64,
    command: &Command,
) -> Result<Reply, RoomFault>
    requires { IsSubject (graph_of_store store.old) worker }
    ensures { Does worker (Deed.Plain command.now) store.old store.new result }
{
    match try_command(store, worker, *command) {
        Ok(reply) => return Ok(reply),
        Err(RoomFault::OutOfMemory) => return Err(RoomFault::OutOfMemory),
        Err(RoomFault::HeapFull) => {}
    }
    store.collect(Kind::Full)?;
    try_command(store, worker, *command)
}

// Takes a command of a subject.
fn try_command<P: Payload>(
    store: &mut Store<P>,
    worker: u64,
    command: Command,
) -> Result<Reply, RoomFault>
    requires { IsSubject (graph_of_store store.old) worker }
    ensures { Tries (λ why. why) worker (Deed.Plain command) store.old store.new result }
{
    match store.apply(worker, command) {
        Ok(reply) => Ok(reply),
        Err(ApplyFault::OutOfMemory) => Err(RoomFault::OutOfMemory),
        Err(ApplyFault::HeapFull) => Err(RoomFault::HeapFull),
        Err(ApplyFault::NoSuchWorker) => unreachable!(),
    }
}

// Makes a vertex for a subject, after a full collection if the heap is full for it. The draft is the same.
fn make<P: Payload>(
    store: &mut Store<P>,
    worker: u64,
    kind: Making,
    label: Label,
    draft: Draft<P>,
) -> Result<Reply, RoomFault>
    requires { IsSubject (graph_of_store store.old) worker }
    ensures { Does worker (deed_making kind label draft) store.old store.new result }
{
    match try_making(store, worker, kind, label, draft) {
        Ok(reply) => Ok(reply),
        Err(
            VertexRefused {
                draft,
                why: RoomFault::HeapFull,
            },
        ) => {
            store.collect(Kind::Full)?;
            match try_making(store, worker, kind, label, draft) {
                Ok(reply) => Ok(reply),
                Err(refused) => Err(refused.why),
            }
        }
        Err(refused) => Err(refused.why),
    }
}

// Makes a vertex for a subject. That too many vertices were made, or too many subjects are active, is a reply.
fn try_making<P: Payload>(
    store: &mut Store<P>,
    worker: u64,
    kind: Making,
    label: Label,
    draft: Draft<P>,
) -> Result<Reply, VertexRefused<P>>
    requires { IsSubject (graph_of_store store.old) worker }
    ensures tried { Tries (λ refused. refused.why) worker (deed_making kind label draft) store.old store.new result }
    ensures handed_back { IfErr result (λ refused. refused.draft ≡ draft) }
{
    match store.make(worker, kind, label, draft) {
        Ok(name) => Ok(Reply::Name(name)),
        Err(CreateRefused { draft, why }) => match why {
            CreateFault::VerticesFull => Ok(Reply::VerticesFull),
            CreateFault::WorkersFull => Ok(Reply::WorkersFull),
            CreateFault::OutOfMemory => Err(VertexRefused {
                draft,
                why: RoomFault::OutOfMemory,
            }),
            CreateFault::HeapFull => Err(VertexRefused {
                draft,
                why: RoomFault::HeapFull,
            }),
            CreateFault::NoSuchWorker => unreachable!(),
        },
    }
}
