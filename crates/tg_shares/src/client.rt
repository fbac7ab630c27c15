//! Who has a session and pays for its calls.
ghost use Rattle.std.specs.Prelude.{◌≡◌, ◌≢◌, ◌<◌, ◌+◌, Err, IfErr, IfOk, IsErrAnd, OnErr, OnOk, true, false};
ghost use Rattle.tg_model.specs.declared.command.Deed.TheVariants.{Create, Plain, Spawn};
ghost use Rattle.tg_model.specs.declared.reply.Reply.TheVariants.{Name, WorkersFull};
ghost use Rattle.tg_store.specs.Room.{LacksRoomToCollect};
ghost use Rattle.tg_shared.specs.Sessions.{AtSeen, HasLeftAtSeen, HasLooked, IsAnswered, IsFresh, IsHeldAtSeen, IsNobodyAtSeen, LeavesAtSeen, MayRefuseAtSeen, OnlyLooked, RefusesCall};
ghost use Rattle.tg_shares.specs.declared.fault.ShareFault.{ShareFault as ShareFaultOf};
ghost use Rattle.tg_shares.specs.Shares.{CanPayForVertex, IsAnsweredSomehow, LacksToLeaveAtSeen, Pays, PaysFor, PaysForSpawn, entries_alone, one_entry, one_vertex};

use crate::fault::LeaveFault;
use crate::purse::Purse;
use crate::store::MeteredStore;
use std::sync::Wait;
use std::sync::ledger::Ledger;
use tg_model::Command;
use tg_payload::{Draft, Payload};
use tg_rights::Label;
use tg_shared::{Round, Session};
use tg_store::{ApplyFault, CreateFault, CreateRefused, Kind, RoomFault};

/// A session with the purse that pays for its calls. Its holder reaches the store only by the calls below, because a
/// session alone needs a store without shares.
#[derive(Drop)]
pub struct Client<L: Round, V: Ledger, E: Ledger> {
    pub session: Session<L>,
    pub purse: Purse<V, E>,
}

impl<L: Round, V: Ledger, E: Ledger> Client<L, V, E> {
    /// Takes a command of the session's subject, under the lock. A served or denied command adds exactly one receipt,
    /// the last of the session's, which has the reply of the rules. The purse pays one entry for it. A refused command
    /// adds no receipt and costs nothing.
    ///
    /// The purse needs an entry, and [`Purse::may_enter`] is the test. The refusals are the refusals of
    /// [`Session::call`](tg_shared::Session::call).
    pub fn call<P: Payload, R: Wait>(
        &mut self,
        rt: &R,
        store: &MeteredStore<L, V, E, P>,
        command: Command,
    ) -> Result<(), ApplyFault>
        requires share { 0 < self.old.purse.entries }
        ensures receipt { OnOk result (IsAnsweredSomehow L.start self.old.session self.new.session (Plain command)) }
        ensures refused { IfErr result (RefusesCall L.start command self.old.session self.new.session) }
        ensures paid { PaysFor one_entry self.old.purse self.new.purse result }
        ensures retired { self.old.session.retired ≡ true → IsErrAnd result (λ why. why ≡ ApplyFault.NoSuchWorker) }
    {
        if self.session.retired() {
            return Err(ApplyFault::NoSuchWorker);
        }
        self.session.make_room(&[])?;
        let mut metered = store.metered.lock(rt);
        // It shows what holds of the store, all of whose entries the session has then seen.
        metered.look(self);
        let answered = metered.apply(self, command);
        // It shows that the new entry is legal.
        let _ = metered.store();
        answered
    }

    /// Makes a vertex of the session's subject, under the lock. A new name has added exactly one receipt, and the purse
    /// pays one vertex and one entry for it. Whatever other clients made, this call never reports that no more vertices
    /// may be made. A refused call adds no receipt, costs nothing, and hands the draft back.
    ///
    /// The purse needs a vertex and an entry, and [`Purse::may_make`] is the test. The refusals are the refusals of
    /// [`Session::create`](tg_shared::Session::create) without `VerticesFull`.
    pub fn create<P: Payload, R: Wait>(
        &mut self,
        rt: &R,
        store: &MeteredStore<L, V, E, P>,
        label: Label,
        draft: Draft<P>,
    ) -> Result<u64, CreateRefused<P>>
        requires share { CanPayForVertex self.old.purse }
        ensures receipt { IfOk result (λ name. IsAnswered L.start self.old.session self.new.session (Create label draft.law draft.state) (Name name)) }
        ensures refusals { MayRefuseAtSeen L.start (Create label draft.law draft.state) draft self.old.session self.new.session result }
        ensures never_full { IfErr result (λ refused. refused.why ≢ CreateFault.VerticesFull) }
        ensures no_workers_full { IfErr result (λ refused. refused.why ≢ CreateFault.WorkersFull) }
        ensures refused { OnErr result (HasLooked self.old.session self.new.session) }
        ensures paid { PaysFor one_vertex self.old.purse self.new.purse result }
        ensures retired { self.old.session.retired ≡ true → IsErrAnd result (λ refused. refused.why ≡ CreateFault.NoSuchWorker) }
    {
        if let Err(why) = self.session.make_ready(draft.value().state.as_slice()) {
            return Err(CreateRefused { draft, why });
        }
        let mut metered = store.metered.lock(rt);
        // It shows what holds of the store, all of whose entries the session has then seen.
        metered.look(self);
        let created = metered.create(self, label, draft);
        // It shows what holds of the store that is left.
        let _ = metered.store();
        created
    }

    /// Makes a subject, under the lock, and returns its session, which has no receipt. The new session's purse is what
    /// its maker splits off from its own ([`Purse::split_off`]).
    ///
    /// A new name has added exactly one receipt, and the purse pays one vertex and one entry for it. Whatever other
    /// clients made, this call never reports that no more vertices may be made. `WorkersFull` has added one receipt,
    /// and the purse pays one entry for it. A call that is refused otherwise adds no receipt and costs nothing. A
    /// refused draft is handed back.
    ///
    /// The purse needs a vertex and an entry, and [`Purse::may_make`] is the test. The refusals are the refusals of
    /// [`Session::spawn`](tg_shared::Session::spawn) without `VerticesFull`.
    pub fn spawn<P: Payload, R: Wait>(
        &mut self,
        rt: &R,
        store: &MeteredStore<L, V, E, P>,
        label: Label,
        draft: Draft<P>,
    ) -> Result<Session<L>, CreateRefused<P>>
        requires share { CanPayForVertex self.old.purse }
        ensures receipt { IfOk result (λ fresh. IsAnswered L.start self.old.session self.new.session (Spawn label draft.law draft.state) (Name fresh.worker)) }
        ensures fresh { IfOk result IsFresh }
        ensures fresh_seen { IfOk result (λ fresh. fresh.seen ≡ self.new.session.seen) }
        ensures refusals { MayRefuseAtSeen L.start (Spawn label draft.law draft.state) draft self.old.session self.new.session result }
        ensures never_full { IfErr result (λ refused. refused.why ≢ CreateFault.VerticesFull) }
        ensures workers_full { IfErr result (λ refused. refused.why ≡ CreateFault.WorkersFull → IsAnswered L.start self.old.session self.new.session (Spawn label draft.law draft.state) WorkersFull) }
        ensures refused { IfErr result (λ refused. refused.why ≢ CreateFault.WorkersFull → HasLooked self.old.session self.new.session) }
        ensures paid { PaysForSpawn self.old.purse self.new.purse result }
        ensures retired { self.old.session.retired ≡ true → IsErrAnd result (λ refused. refused.why ≡ CreateFault.NoSuchWorker) }
    {
        if let Err(why) = self.session.make_ready(draft.value().state.as_slice()) {
            return Err(CreateRefused { draft, why });
        }
        let mut metered = store.metered.lock(rt);
        // It shows what holds of the store, all of whose entries the session has then seen.
        metered.look(self);
        let spawned = metered.spawn(self, label, draft);
        // It shows what holds of the store that is left.
        let _ = metered.store();
        spawned
    }

    /// The session's worker leaves, under the lock. It gives up each edge that it has, by rising name, and retires.
    /// Returns how many edges it gave up. The purse pays an entry for each edge and one for the retire, and exactly
    /// these receipts are added.
    ///
    /// A refused leave adds no receipt, costs nothing, and the worker holds what it held. `Share` is reported only if
    /// the purse has fewer entries than the worker has edges and one more. Then the keeper can end the worker
    /// ([`MeteredStore::end`](crate::MeteredStore::end)), which nobody pays for. `Store` reports that there is no
    /// such worker, or that memory ran out.
    pub fn leave<P: Payload, R: Wait>(
        &mut self,
        rt: &R,
        store: &MeteredStore<L, V, E, P>,
    ) -> Result<u64, LeaveFault>
        ensures left { IfOk result (HasLeftAtSeen L.start self.old.session self.new.session) }
        ensures paid { IfOk result (λ count. Pays (entries_alone (count + 1)) self.old.purse self.new.purse) }
        ensures refused { OnErr result (HasLooked self.old.session self.new.session × (self.new.purse ≡ self.old.purse)) }
        ensures lacks { IfErr result (λ why. (fault : ShareFaultOf) → why ≡ LeaveFault.Share fault → LacksToLeaveAtSeen L.start self.new.session self.old.purse fault) }
        ensures no_such_worker { IfErr result (λ why. why ≡ LeaveFault.Store ApplyFault.NoSuchWorker → IsNobodyAtSeen L.start self.new.session.seen self.old.session.worker) }
        ensures never_full { result ≢ Err (LeaveFault.Store ApplyFault.HeapFull) }
        ensures retired { self.old.session.retired ≡ true → IsErrAnd result (λ why. why ≡ LeaveFault.Store ApplyFault.NoSuchWorker) }
    {
        if self.session.retired() {
            return Err(LeaveFault::Store(ApplyFault::NoSuchWorker));
        }
        let mut metered = store.metered.lock(rt);
        // It shows what holds of the store, all of whose entries the session has then seen.
        metered.look(self);
        let left = metered.leave(self);
        // It shows that the new entries are legal.
        let _ = metered.store();
        left
    }

    /// The rights that the session's subject holds over a vertex, under the lock. It is the label of the graph after
    /// exactly the entries since the start that the session has then seen. It makes no entry and no receipt, and costs
    /// nothing.
    pub fn label<P: Payload, R: Wait>(
        &mut self,
        rt: &R,
        store: &MeteredStore<L, V, E, P>,
        target: u64,
    ) -> Option<Label>
        ensures held { IsHeldAtSeen L.start self.new.session.seen self.old.session.worker target result }
        ensures looked { OnlyLooked self.old.session self.new.session }
        ensures purse { self.new.purse ≡ self.old.purse }
    {
        let mut metered = store.metered.lock(rt);
        // It shows what holds of the store, all of whose entries the session has then seen.
        metered.look(self);
        metered.label(self, target)
    }

    /// Collects the heap of the store, under the lock, and returns how many vertices it then has. It is the number of a
    /// store with exactly the entries that the session has then seen. It makes no entry and no receipt, and costs
    /// nothing.
    pub fn collect<P: Payload, R: Wait>(
        &mut self,
        rt: &R,
        store: &MeteredStore<L, V, E, P>,
        kind: Kind,
    ) -> Result<u64, RoomFault>
        ensures number { IfOk result (LeavesAtSeen L.start self.new.session.seen kind) }
        ensures full { IfErr result (λ why. why ≡ RoomFault.HeapFull → AtSeen L.start self.new.session.seen (λ s. LacksRoomToCollect kind 1 s.heap)) }
        ensures looked { OnlyLooked self.old.session self.new.session }
        ensures purse { self.new.purse ≡ self.old.purse }
    {
        let mut metered = store.metered.lock(rt);
        // It shows what holds of the store, all of whose entries the session has then seen.
        metered.look(self);
        let left = metered.collect(kind);
        // It shows what holds of the store that is left.
        let _ = metered.store();
        left
    }
}
