//! What is in the lock, and what each call does to it.
ghost use Rattle.std.specs.Prelude.{◌≡◌, ◌≢◌, ◌<◌, ◌≤◌, ◌+◌, Err, IfOk, IfErr, length, true};
ghost use Rattle.tg_shares.specs.Shares.{IsCovered};
ghost use Rattle.tg_shares.specs.Tills.{ArePaid};

use crate::client::Client;
use crate::fault::{Lack, LeaveFault, ShareFault};
use crate::purse::{Portion, Purse, PurseBlanks, Till};
use std::alloc::Global;
use std::sync::ledger::Ledger;
use tg_journal::Journal;
use tg_model::Command;
use tg_payload::{Draft, Payload};
use tg_rights::Label;
use tg_shared::{Blanks, Keeper, Locked, Round, Session};
use tg_store::{ApplyFault, CreateFault, CreateRefused, Kind, RoomFault, Store};

/// The locked value of a store with shares. It has the locked store, and the till, into which the purses pay. All
/// vertices that are left in purses may still be made (`covered`). Each entry that was made since is the keeper's or
/// was paid for (`paid`). Each call is one call of [`Locked`], with its contract, and is paid for. It never leaves this
/// crate, so nobody reaches the locked store by another call.
#[derive(Drop)]
pub(crate) struct Metered<L: Round, V: Ledger, E: Ledger, P: Payload> {
    pub(crate) locked: Locked<L, P>,
    pub(crate) till: Till<L, V, E>,
    ghost covered: { IsCovered till.left.vertices locked.store },
    ghost paid: { ArePaid till locked },
}

/// The start of a shared store with shares. It has a session for each active subject, by rising name, the one keeper,
/// and the purse that has all shares.
#[derive(Drop)]
pub(crate) struct OpenedStore<L: Round, V: Ledger, E: Ledger, P: Payload> {
    pub(crate) metered: Metered<L, V, E, P>,
    pub(crate) sessions: Vec<Session<L>>,
    pub(crate) keeper: Keeper<L>,
    pub(crate) purse: Purse<V, E>,
}

impl<L: Round, V: Ledger, E: Ledger, P: Payload> Metered<L, V, E, P> {
    ghost use Rattle.tg_model.specs.declared.command.Deed.TheVariants.{Create, Spawn};
    ghost use Rattle.tg_model.specs.Graph.{ProtectionGraph};
    ghost use Rattle.tg_store.specs.Held.{IsHeldOver};
    ghost use Rattle.tg_store.specs.Made.{MayRefuse};
    ghost use Rattle.tg_store.specs.Room.{LacksRoomToCollect};
    ghost use Rattle.tg_store.specs.Store.{StandsFor};
    ghost use Rattle.tg_passes.specs.Passes.{Sees};
    ghost use Rattle.tg_shared.specs.Serving.{Collects, EndsWorker, HasNoted, HasNotedEnd, IsLookedAt, IsMadeAndNoted, IsSpawnedAndNoted, KeepsNumbers, KeepsRound, NotesRefusal, ServesCommand};
    ghost use Rattle.tg_shared.specs.Sessions.{AreFresh, HoldsWhenFree, MayNote, MayShare, keeper_knowledge, knowledge};
    ghost use Rattle.tg_shares.specs.Shares.{CanPayForVertex, LeavesPaying, MayShareOut, PaysFor, PaysForSpawn, one_entry, one_vertex};

    /// Shares a store as [`Locked::open`] does, and hands out a purse with so many vertices and entries. From then on
    /// clients pay for all vertices and entries out of this purse. The first blanks are the blanks of the round. The
    /// other blanks have as many parts as the purse has vertices and entries, and so many vertices may still be made.
    /// All are spent. Fails only when out of memory, and hands the store back.
    pub(crate) fn open(
        alloc: Global,
        blanks: Blanks,
        parts: PurseBlanks,
        whole: Portion,
        store: Store<P>,
    ) -> Result<OpenedStore<L, V, E, P>, Store<P>>
        requires shareable { MayShare L.name L.parts L.keeper L.start blanks store }
        requires shares { MayShareOut V.name V.parts E.name E.parts parts whole store }
        ensures store { IfOk result (λ opened. opened.metered.locked.store ≡ store) }
        ensures sessions { (g : ProtectionGraph) → StandsFor store g → IfOk result (λ opened. AreFresh g.subjects opened.sessions.items) }
        ensures purse { IfOk result (λ opened. opened.purse ≡ whole) }
        ensures handed_back { IfErr result (λ refused. refused ≡ store) }
    {
        match Locked::open(alloc, blanks, store) {
            Ok((locked, sessions, keeper)) => {
                let (till, purse) = Till::open(parts, whole);
                Ok(OpenedStore {
                    metered: Metered { locked, till },
                    sessions,
                    keeper,
                    purse,
                })
            }
            Err(store) => Err(store),
        }
    }

    /// The locked store, without the shares, for a caller that ends the round. Takes no memory.
    pub(crate) fn into_locked(self) -> Locked<L, P>
        ensures same { result ≡ self.locked }
        ensures held { HoldsWhenFree L.start result }
        ensures within { length result.store.entries ≤ length L.start.entries + result.entered + E.parts }
    {
        let Metered { locked, till } = self;
        // They show what holds of all that is in a lock.
        let _ = locked.store();
        till.tell();
        locked
    }

    /// The store. The clauses of this call are true whenever the lock is free.
    pub(crate) fn store(&self) -> &Store<P>
        ensures same { result.now ≡ self.now.locked.store }
        ensures held { HoldsWhenFree L.start self.now.locked }
    {
        self.locked.store()
    }

    /// The session looks at all entries since the start, by one call of [`Locked::look`], and has then seen them. All
    /// else stays as it is.
    pub(crate) fn look(&mut self, client: &mut Client<L, V, E>)
        ensures looks { IsLookedAt L.start self.old.locked self.new.locked (knowledge client.old.session) }
        ensures session { client.new.session ≡ record client.old.session { seen = self.old.locked.signed } }
        ensures same_purse { client.new.purse ≡ client.old.purse }
    {
        self.locked.look(&mut client.session);
    }

    /// The keeper looks at all entries since the start, by one call of [`Locked::tell`], and has then seen them. All
    /// else stays as it is.
    pub(crate) fn tell(&mut self, keeper: &mut Keeper<L>)
        ensures looks { IsLookedAt L.start self.old.locked self.new.locked (keeper_knowledge keeper.old) }
        ensures keeper { keeper.new ≡ record keeper.old { seen = self.old.locked.signed } }
    {
        self.locked.tell(keeper);
    }

    /// Takes a command of the session's subject, by one call of [`Locked::apply`]. An entry is paid for, or nothing if
    /// the command is refused.
    pub(crate) fn apply(
        &mut self,
        client: &mut Client<L, V, E>,
        command: Command,
    ) -> Result<(), ApplyFault>
        requires room { 0 < client.old.session.spare }
        requires share { 0 < client.old.purse.entries }
        ensures served { ServesCommand command self.old.locked.store self.new.locked.store client.old.session client.new.session result }
        ensures paid { PaysFor one_entry client.old.purse client.new.purse result }
        ensures kept { KeepsRound self.old.locked self.new.locked }
        ensures signed { HasNoted self.old.locked self.new.locked client.old.session client.new.session }
    {
        match self.locked.apply(&mut client.session, command) {
            Ok(()) => {
                client.purse.pay_entries(1, &mut self.till);
                Ok(())
            }
            Err(why) => Err(why),
        }
    }

    /// Makes a vertex of the session's subject, by one call of [`Locked::create`]. It is never answered that no more
    /// vertices may be made, whatever was done before, by whomever. A vertex is paid for, or nothing if the call is
    /// refused.
    pub(crate) fn create(
        &mut self,
        client: &mut Client<L, V, E>,
        label: Label,
        draft: Draft<P>,
    ) -> Result<u64, CreateRefused<P>>
        requires notable { MayNote client.old.session draft.state }
        requires share { CanPayForVertex client.old.purse }
        ensures served { IfOk result (IsMadeAndNoted (Create label draft.law draft.state) label draft self.old.locked.store self.new.locked.store client.old.session client.new.session) }
        ensures refusals { MayRefuse (Create label draft.law draft.state) client.old.session.worker draft self.old.locked.store self.new.locked.store result }
        ensures never_full { IfErr result (λ refused. refused.why ≢ CreateFault.VerticesFull) }
        ensures no_workers_full { IfErr result (λ refused. refused.why ≢ CreateFault.WorkersFull) }
        ensures noted { NotesRefusal (Create label draft.law draft.state) self.old.locked.store self.new.locked.store client.old.session client.new.session result }
        ensures paid { PaysFor one_vertex client.old.purse client.new.purse result }
        ensures numbers { KeepsNumbers self.old.locked self.new.locked }
        ensures signed { HasNoted self.old.locked self.new.locked client.old.session client.new.session }
    {
        // This call shows that what is in the purse is left.
        client.purse.tell(&mut self.till);
        match self.locked.create(&mut client.session, label, draft) {
            Ok(name) => {
                client.purse.pay_vertex(&mut self.till);
                Ok(name)
            }
            Err(refused) => Err(refused),
        }
    }

    /// Makes a subject with its session, by one call of [`Locked::spawn`]. It never reports that no more vertices may
    /// be made, whatever anybody did before. A new subject costs a vertex and an entry. A refusal because too many
    /// subjects are active costs an entry, because it has one. Any other refusal costs nothing. The new session's share
    /// is the part that its maker then splits off.
    pub(crate) fn spawn(
        &mut self,
        client: &mut Client<L, V, E>,
        label: Label,
        draft: Draft<P>,
    ) -> Result<Session<L>, CreateRefused<P>>
        requires notable { MayNote client.old.session draft.state }
        requires share { CanPayForVertex client.old.purse }
        ensures served { IfOk result (IsSpawnedAndNoted label draft self.old.locked.store self.new.locked.store client.old.session client.new.session) }
        ensures refusals { MayRefuse (Spawn label draft.law draft.state) client.old.session.worker draft self.old.locked.store self.new.locked.store result }
        ensures never_full { IfErr result (λ refused. refused.why ≢ CreateFault.VerticesFull) }
        ensures noted { NotesRefusal (Spawn label draft.law draft.state) self.old.locked.store self.new.locked.store client.old.session client.new.session result }
        ensures paid { PaysForSpawn client.old.purse client.new.purse result }
        ensures signed { HasNoted self.old.locked self.new.locked client.old.session client.new.session }
        ensures fresh_seen { IfOk result (λ fresh. fresh.seen ≡ self.new.locked.signed) }
    {
        // This call shows that what is in the purse is left.
        client.purse.tell(&mut self.till);
        match self.locked.spawn(&mut client.session, label, draft) {
            Ok(fresh) => {
                client.purse.pay_vertex(&mut self.till);
                Ok(fresh)
            }
            Err(refused) => {
                client.purse.pay_refused_spawn(refused.why, &mut self.till);
                Err(refused)
            }
        }
    }

    /// The session's worker leaves, by one call of [`Locked::leave`]. An entry is paid for each edge that it gives up,
    /// and one for its retire. The row may grow until the lock is taken, so the purse is looked at here.
    ///
    /// If it is refused, nothing is changed and nothing is paid. `Store` with `NoSuchWorker` is returned exactly if the
    /// session's subject is active no more. `Share` is returned only if the purse has too few entries. The only other
    /// refusal is `OutOfMemory`.
    pub(crate) fn leave(&mut self, client: &mut Client<L, V, E>) -> Result<u64, LeaveFault>
        ensures leaves { LeavesPaying self.old.locked.store self.new.locked.store client.old.session client.new.session client.old.purse client.new.purse result }
        ensures signed { HasNoted self.old.locked self.new.locked client.old.session client.new.session }
    {
        let worker = client.session.worker();
        let edges = match self.locked.store().row(worker) {
            Ok(row) => row.as_slice().len() as u64,
            Err(why) => return Err(LeaveFault::Store(why)),
        };
        if client.purse.entries() <= edges {
            let lacks = Lack::Entries;
            return Err(LeaveFault::Share(ShareFault { worker, lacks }));
        }
        match self.locked.leave(&mut client.session) {
            Ok(count) => {
                client.purse.pay_entries(count + 1, &mut self.till);
                Ok(count)
            }
            Err(why) => Err(LeaveFault::Store(why)),
        }
    }

    /// The rights that the session's subject holds over a vertex, by one call of [`Locked::label`]. Nothing is paid
    /// for.
    pub(crate) fn label(&self, client: &Client<L, V, E>, target: u64) -> Option<Label>
        ensures held { (g : ProtectionGraph) → StandsFor self.now.locked.store g → IsHeldOver g client.now.session.worker target result }
    {
        self.locked.label(&client.session, target)
    }

    /// Collects the heap, by one call of [`Locked::collect`]. Nothing is paid for.
    pub(crate) fn collect(&mut self, kind: Kind) -> Result<u64, RoomFault>
        ensures collected { Collects kind 0 self.old.locked self.new.locked result }
        ensures full { result ≡ Err RoomFault.HeapFull → LacksRoomToCollect kind 1 self.old.locked.store.heap }
    {
        self.locked.collect(kind)
    }

    /// Hands out the entries that the store holds, by one call of [`Locked::take_journal`]. Nothing is paid for.
    pub(crate) fn take_journal(&mut self, keeper: &mut Keeper<L>) -> Journal
        requires in_parts { L.start.in_parts ≡ true }
        ensures joined { result.start ≡ keeper.old.next }
        ensures next { keeper.new ≡ record keeper.old { next = length result.entries } }
        ensures entries { result.entries ≡ self.old.locked.store.entries }
        ensures start { result.start ≡ self.old.locked.store.handed }
    {
        self.locked.take_journal(keeper)
    }

    /// Ends a worker, by one call of [`Locked::end`]. Nothing is paid for.
    pub(crate) fn end(&mut self, keeper: &mut Keeper<L>, worker: u64) -> Result<u64, ApplyFault>
        requires may_end { L.start.may_end ≡ true }
        ensures ended { EndsWorker worker self.old.locked.store self.new.locked.store result }
        ensures sees { Sees self.old.locked.signed (keeper_knowledge keeper.old) }
        ensures signed { HasNotedEnd self.old.locked self.new.locked keeper.old keeper.new }
    {
        self.locked.end(keeper, worker)
    }
}
