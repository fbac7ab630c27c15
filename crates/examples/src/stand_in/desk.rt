//! A desk, with an owner's thing, and a stand-in for the thing.
//!
//! No rule takes a right from its holder. So an owner that needs to take back never hands the thing itself out. The
//! owner makes a second vertex, the stand-in, and hands out the right to read the stand-in. It fills the stand-in with
//! the number of the thing. To take back, the owner stops to fill it. The stand-in stays as it was left, and shows
//! nothing of later changes of the thing.
ghost use Rattle.std.specs.Prelude.{◌≡◌, ◌≢◌, ℕ, Bool, IfOk, OnOk, OnErr, IsTrue};
ghost use Rattle.std.specs.List.{All};
ghost use Rattle.tg_rights.specs.RightSet.{only};
ghost use Rattle.tg_rights.specs.declared.Right.{Right as RightOf};
ghost use Rattle.tg_model.specs.Graph.{ProtectionGraph};
ghost use Rattle.tg_model.specs.Rules.{answer_of, step};
ghost use Rattle.tg_model.specs.declared.command.Command.TheVariants.{Read};
ghost use Rattle.tg_model.specs.declared.command.Deed.TheVariants.{Plain};
ghost use Rattle.tg_store.specs.Store.{IsFaithful, graph_of_store};
ghost use Rattle.examples.specs.Alone.{IsAlone, IsUntaken, TellsOnlyValue};
ghost use Rattle.examples.specs.Desk.{DeskIsKept, StandsNow, graph_of_desk, shown_at};

use super::fault::DeskFault;
use std::alloc::Global;
use std::marker::Model;
use tg_model::{Command, Edge, Opening, Reply};
use tg_payload::{Draft, Payload};
use tg_rights::{Label, Right, Rights};
use tg_store::{Limits, Store, StoreFault};

/// The worker whose thing it is, the first of each opening. All others are clients.
pub const OWNER: u64 = 0;

/// A store in which an owner has a thing and a stand-in for it. Three facts are proved of every desk, whatever its
/// clients ask for (`DeskIsKept`). Only the owner holds any right over the thing. Only the owner holds a right to
/// change the stand-in. Nobody may take from the owner.
#[derive(Drop)]
pub struct Desk<P: Payload> {
    store: Store<P>,
    thing: u64,
    stand_in: u64,
}

impl<P: Payload> Model for Desk<P> {
    ghost use Rattle.examples.specs.Desk.{DeskState, DeskIsKept};

    ghost Value = { DeskState };

    ghost view = { λ d. record { store = d.store; thing = d.thing; stand_in = d.stand_in } };

    ghost invariant = { λ d. DeskIsKept (record { store = d.store; thing = d.thing; stand_in = d.stand_in }) };
}

impl<P: Payload> Desk<P> {
    /// Opens a store, in which the owner makes the thing and the stand-in. The owner has the rights of the label over
    /// both. `NotAlone` is returned if an edge of the opening leads to the owner. Then come the refusals of the store.
    pub fn open(
        alloc: Global,
        opening: Opening,
        limits: Limits,
        drafts: Vec<Draft<P>>,
        rights: Label,
        thing: Draft<P>,
        stand_in: Draft<P>,
    ) -> Result<Desk<P>, DeskFault> {
        if !none_leads_to_owner(opening.edges()) {
            return Err(DeskFault::NotAlone);
        }
        Ok(furnished(alloc, opening, limits, drafts, rights, thing, stand_in)?)
    }

    /// The store. This call shows what every desk keeps (`kept`).
    pub fn store(&self) -> &Store<P>
        ensures same { result.now ≡ self.now.store }
        ensures kept { DeskIsKept self.now }
    {
        &self.store
    }

    /// The name of the thing.
    pub fn thing(&self) -> u64
        ensures { result ≡ self.now.thing }
    {
        self.thing
    }

    /// The name of the stand-in.
    pub fn stand_in(&self) -> u64
        ensures { result ≡ self.now.stand_in }
    {
        self.stand_in
    }

    /// Asks the store for a command of a client. Whatever the command is, the stand-in stays as the owner left it. A
    /// client that reads the stand-in gets its number, or is denied. The owner is refused with `IsOwner`. All other
    /// refusals are the store's.
    pub fn ask(&mut self, client: u64, command: Command) -> Result<Reply, DeskFault>
        ensures reply { IfOk result (λ reply. reply ≡ answer_of (graph_of_desk self.old) client (Plain command)) }
        ensures step { OnOk result (StandsNow (step (graph_of_desk self.old) client (Plain command)) self.old self.new) }
        ensures refused { OnErr result (StandsNow (graph_of_desk self.old) self.old self.new) }
        ensures left { shown_at self.new ≡ shown_at self.old }
        ensures told { IfOk result (λ reply. command ≡ Read self.old.stand_in → TellsOnlyValue (shown_at self.old) reply) }
    {
        if client == OWNER {
            return Err(DeskFault::IsOwner);
        }
        Ok(answered(&mut self.store, client, command)?)
    }

    /// The owner hands the right to read the stand-in on to a client, over whom it needs the right to grant. Returns
    /// the store's reply.
    pub fn hand_out(&mut self, client: u64) -> Result<Reply, DeskFault>
        ensures left { shown_at self.new ≡ shown_at self.old }
    {
        let grant = Command::Grant {
            via: client,
            target: self.stand_in,
            rights: read_right(),
        };
        Ok(answered(&mut self.store, OWNER, grant)?)
    }

    /// The owner fills the stand-in with the first number of the thing. Returns the store's reply to the write.
    /// `NoNumber` is returned if the thing stores no number.
    pub fn fill(&mut self) -> Result<Reply, DeskFault> {
        let read = Command::Read { target: self.thing };
        let said = answered(&mut self.store, OWNER, read)?;
        let Some(number) = first_number(&said) else {
            return Err(DeskFault::NoNumber);
        };
        self.put(number)
    }

    /// The owner writes a number to the stand-in. Returns the store's reply.
    pub fn put(&mut self, value: u64) -> Result<Reply, DeskFault> {
        let write = Command::Write {
            target: self.stand_in,
            value,
        };
        Ok(answered(&mut self.store, OWNER, write)?)
    }

    /// Lets the desk go, with its store.
    pub fn let_go(self) {
        let Desk { store, .. } = self;
        store.let_go();
    }

    /// The owner writes a number to the thing. Returns the store's reply.
    pub fn change(&mut self, value: u64) -> Result<Reply, DeskFault>
        ensures left { shown_at self.new ≡ shown_at self.old }
    {
        let write = Command::Write {
            target: self.thing,
            value,
        };
        Ok(answered(&mut self.store, OWNER, write)?)
    }
}

// Whether no edge leads to the owner.
fn none_leads_to_owner(edges: &[Edge]) -> bool
    ensures { IsTrue result → All (λ e. e.to ≢ OWNER) edges.now }
{
    edges.iter().all(|edge| edge.to != OWNER)
}

// A store in which the owner has made a thing and a stand-in for it.
fn furnished<P: Payload>(
    alloc: Global,
    opening: Opening,
    limits: Limits,
    drafts: Vec<Draft<P>>,
    rights: Label,
    thing: Draft<P>,
    stand_in: Draft<P>,
) -> Result<Desk<P>, StoreFault>
    requires untaken { All (λ e. e.to ≢ OWNER) opening.edges }
{
    match opened(alloc, opening, limits, drafts) {
        Ok(store) => desk_of(store, rights, thing, stand_in),
        Err(fault) => Err(fault),
    }
}

// The desk of a store in which the owner makes both.
fn desk_of<P: Payload>(
    mut store: Store<P>,
    rights: Label,
    thing: Draft<P>,
    stand_in: Draft<P>,
) -> Result<Desk<P>, StoreFault>
    requires untaken { IsUntaken OWNER (graph_of_store store) }
{
    match furnish(&mut store, rights, thing, stand_in) {
        Ok(names) => Ok(Desk {
            store,
            thing: names.0,
            stand_in: names.1,
        }),
        Err(fault) => {
            store.let_go();
            Err(fault)
        }
    }
}

// A store of this opening. Nobody may take from its owner.
fn opened<P: Payload>(
    alloc: Global,
    opening: Opening,
    limits: Limits,
    drafts: Vec<Draft<P>>,
) -> Result<Store<P>, StoreFault>
    requires untaken { All (λ e. e.to ≢ OWNER) opening.edges }
    ensures { IfOk result (λ store. IsUntaken OWNER (graph_of_store store)) }
{
    let _ = opening.workers();
    let store = Store::open(alloc, opening, limits, drafts)?;
    Ok(store)
}

// Has the owner make the thing and the stand-in. Returns their names.
fn furnish<P: Payload>(
    store: &mut Store<P>,
    rights: Label,
    thing: Draft<P>,
    stand_in: Draft<P>,
) -> Result<(u64, u64), StoreFault>
    requires untaken { IsUntaken OWNER (graph_of_store store.old) }
    ensures { IfOk result (λ names. DeskIsKept (record { store = store.new; thing = names.0; stand_in = names.1 })) }
{
    match made(store, rights, thing) {
        Ok(thing) => match made(store, rights, stand_in) {
            Ok(stand_in) => Ok((thing, stand_in)),
            Err(fault) => Err(fault),
        },
        Err(fault) => {
            drop(stand_in);
            Err(fault)
        }
    }
}

// The name of a vertex that the owner has made, which is its own alone.
fn made<P: Payload>(store: &mut Store<P>, rights: Label, draft: Draft<P>) -> Result<u64, StoreFault>
    requires untaken { IsUntaken OWNER (graph_of_store store.old) }
    ensures made { IfOk result (λ name. (which : RightOf → Bool) → IsAlone which OWNER name (graph_of_store store.new)) }
    ensures next { IfOk result (λ name. name ≡ (graph_of_store store.old).made) }
    ensures kept { OnOk result ((which : RightOf → Bool) (y : ℕ) → IsAlone which OWNER y (graph_of_store store.old) → IsAlone which OWNER y (graph_of_store store.new)) }
{
    // This call shows that the store is faithful.
    let _ = store.journal();
    Ok(store.create(OWNER, rights, draft)?)
}

// The reply to a command of a worker.
fn answered<P: Payload>(
    store: &mut Store<P>,
    worker: u64,
    command: Command,
) -> Result<Reply, StoreFault>
    ensures reply { IfOk result (λ reply. reply ≡ answer_of (graph_of_store store.old) worker (Plain command)) }
    ensures step { OnOk result (graph_of_store store.new ≡ step (graph_of_store store.old) worker (Plain command)) }
    ensures refused { OnErr result (graph_of_store store.new ≡ graph_of_store store.old) }
{
    Ok(store.apply(worker, command)?)
}

/// The right to read, as a label.
pub fn read_right() -> Label
    ensures { result ≡ only RightOf.R }
{
    Label::new(Rights::of(Right::R)).unwrap()
}

// The first number of a reply.
fn first_number(reply: &Reply) -> Option<u64> {
    match reply {
        Reply::Values(values) => values.as_slice().first().copied(),
        _ => None,
    }
}
