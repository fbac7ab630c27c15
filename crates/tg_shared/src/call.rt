//! The calls of a session, each under the lock.
ghost use Rattle.std.specs.Prelude.{◌≡◌, ◌≢◌, ◌⊎◌, Err, IfOk, IfErr, IsErrAnd, OnErr, OnOk, true, ⊤};
ghost use Rattle.tg_model.specs.declared.command.Deed.TheVariants.{Create, Spawn};
ghost use Rattle.tg_model.specs.declared.reply.Reply.TheVariants.{Name, WorkersFull};
ghost use Rattle.tg_passes.specs.declared.signed.Maker.TheVariants as maker;
ghost use Rattle.tg_passes.specs.Passes.{entries_by};
ghost use Rattle.tg_store.specs.Room.{LacksRoomToCollect};
ghost use Rattle.tg_shared.specs.Sessions.{AnswersCall, AtSeen, HasLeftAtSeen, HasLooked, IsAnswered, IsFresh, IsHeldAtSeen, IsNobodyAtSeen, KeepsReceipts, LeavesAtSeen, MayNote, MayRefuseAtSeen, OnlyLooked};

use crate::round::Round;
use crate::session::Session;
use crate::shared::SharedStore;
use std::sync::Wait;
use tg_model::{Command, Reply};
use tg_payload::{Draft, Payload};
use tg_rights::Label;
use tg_store::{ApplyFault, CreateFault, CreateRefused, Kind, RoomFault};

impl<L: Round> Session<L> {
    ghost use Rattle.std.specs.Borrow.{sem};
    ghost use mathlib.Core.Option.{none};
    ghost use denote.Follow.{follows_so};
    ghost use Rattle.tg_shared.specs.contracts.session.Session.{the_row};

    /// Asks the shared store for a command of the session's subject, by one call of
    /// [`Locked::apply`](crate::Locked::apply) under the lock. Returns the reply, lent from the receipt. Exactly one
    /// receipt was added, with this command and this reply. Its entry came next after the entries since the start that
    /// the session has then seen. It was legal there, so the reply is the rules' on the graph after these entries.
    ///
    /// A refused call keeps the receipts. Its reason is one of a store with exactly the entries that the session has
    /// then seen (`AtSeen`). There was no such worker, or the command was allowed and a cell was lacking. Memory may
    /// run out at any call. After a retire that the session entered itself, the call always reports that there is no
    /// such worker, and takes no lock.
    ///
    /// A session knows who made each entry that it has seen. These entries begin with the entries that it had seen
    /// before. The session's own entries among them are exactly the entries that its calls made.
    /// [`close`](crate::close) compares what each session has seen with the journal. So a worker that entered no
    /// retire, and that the keeper didn't end, is never reported missing
    /// ([`a_session_without_a_retire_is_a_subject`](crate::laws::a_session_without_a_retire_is_a_subject)).
    pub fn call<P: Payload, R: Wait>(
        &mut self,
        rt: &R,
        store: &SharedStore<L, P>,
        command: Command,
    ) -> Result<&Reply, ApplyFault>
        ensures* receipt { let row = the_row L.row (record { start = L.start; keeper = L.keeper }) L.Ledger in
            sem 𝓛 (follows_so row row self.entry.ghost_name none (λ _ _. ⊤) (λ after. AnswersCall result (λ reply. reply.now) L.start command self.old after)) }
        ensures retired { self.old.retired ≡ true → IsErrAnd result (λ why. why ≡ ApplyFault.NoSuchWorker) }
    {
        if self.retired() {
            return Err(ApplyFault::NoSuchWorker);
        }
        self.make_room(&[])?;
        let mut locked = store.lock(rt);
        // It shows what holds of the store, all of whose entries the session has then seen.
        locked.look(self);
        locked.apply(self, command)?;
        // It shows that the new entry is legal.
        let _ = locked.store();
        Ok(self.last_reply())
    }

    /// Makes a vertex of the session's subject, by one call of [`Locked::create`](crate::Locked::create) under the
    /// lock. A name, and `VerticesFull`, have added exactly one receipt, with this create and that answer. Its entry
    /// came next after the entries since the start that the session has then seen, and was legal there. A call that is
    /// refused otherwise keeps the receipts. Unless memory ran out, its reason is one of a store with exactly the
    /// entries that the session has then seen. [`call`](Session::call) says what the session knows of these entries. A
    /// refused draft is handed back.
    pub fn create<P: Payload, R: Wait>(
        &mut self,
        rt: &R,
        store: &SharedStore<L, P>,
        label: Label,
        draft: Draft<P>,
    ) -> Result<u64, CreateRefused<P>>
        ensures receipt { IfOk result (λ name. IsAnswered L.start self.old self.new (Create label draft.law draft.state) (Name name)) }
        ensures refusals { MayRefuseAtSeen L.start (Create label draft.law draft.state) draft self.old self.new result }
        ensures refused { IfErr result (λ refused. refused.why ≢ CreateFault.VerticesFull → HasLooked self.old self.new) }
        ensures no_workers_full { IfErr result (λ refused. refused.why ≢ CreateFault.WorkersFull) }
        ensures retired { self.old.retired ≡ true → IsErrAnd result (λ refused. refused.why ≡ CreateFault.NoSuchWorker) }
    {
        if let Err(why) = self.make_ready(draft.value().state.as_slice()) {
            return Err(CreateRefused { draft, why });
        }
        let mut locked = store.lock(rt);
        // It shows what holds of the store, all of whose entries the session has then seen.
        locked.look(self);
        let created = locked.create(self, label, draft);
        // It shows what holds of the store that is left.
        let _ = locked.store();
        created
    }

    /// Makes a subject, by one call of [`Locked::spawn`](crate::Locked::spawn) under the lock, and returns its session,
    /// which has no receipt. The session that asks then has exactly one more, with this spawn and the new name. Its
    /// entry came next after the entries since the start that the session has then seen, and was legal there. The new
    /// session goes to [`close`](crate::close) with the others. A round ends only with all sessions, so the caller
    /// keeps it.
    ///
    /// `VerticesFull` and `WorkersFull` have added a receipt with that answer. A call that is refused otherwise keeps
    /// the receipts. Unless memory ran out, its reason is one of a store with exactly the entries that the session has
    /// then seen. [`call`](Session::call) says what the session knows of these entries. The new session has seen what
    /// the session that asks has seen then (`fresh_seen`). A refused draft is handed back.
    pub fn spawn<P: Payload, R: Wait>(
        &mut self,
        rt: &R,
        store: &SharedStore<L, P>,
        label: Label,
        draft: Draft<P>,
    ) -> Result<Session<L>, CreateRefused<P>>
        ensures receipt { IfOk result (λ fresh. IsAnswered L.start self.old self.new (Spawn label draft.law draft.state) (Name fresh.worker)) }
        ensures fresh { IfOk result IsFresh }
        ensures fresh_seen { IfOk result (λ fresh. fresh.seen ≡ self.new.seen) }
        ensures refusals { MayRefuseAtSeen L.start (Spawn label draft.law draft.state) draft self.old self.new result }
        ensures workers_full { IfErr result (λ refused. refused.why ≡ CreateFault.WorkersFull → IsAnswered L.start self.old self.new (Spawn label draft.law draft.state) WorkersFull) }
        ensures refused { IfErr result (λ refused. refused.why ≢ CreateFault.VerticesFull → refused.why ≢ CreateFault.WorkersFull → HasLooked self.old self.new) }
        ensures retired { self.old.retired ≡ true → IsErrAnd result (λ refused. refused.why ≡ CreateFault.NoSuchWorker) }
    {
        if let Err(why) = self.make_ready(draft.value().state.as_slice()) {
            return Err(CreateRefused { draft, why });
        }
        let mut locked = store.lock(rt);
        // It shows what holds of the store, all of whose entries the session has then seen.
        locked.look(self);
        let spawned = locked.spawn(self, label, draft);
        // It shows what holds of the store that is left.
        let _ = locked.store();
        spawned
    }

    /// Makes room for the receipt of a vertex that is to store this state, as [`create`](Session::create) and
    /// [`spawn`](Session::spawn) do before they take the lock. The receipts stay.
    ///
    /// A session that entered its own retire is refused with `NoSuchWorker`, and otherwise the only refusal is
    /// `OutOfMemory`.
    pub fn make_ready(&mut self, state: &[u64]) -> Result<(), CreateFault>
        ensures notable { OnOk result (MayNote self.new state.now) }
        ensures receipts { KeepsReceipts self.old self.new }
        ensures retired { self.old.retired ≡ true → result ≡ Err CreateFault.NoSuchWorker }
        ensures why { IfErr result (λ why. (why ≡ CreateFault.NoSuchWorker × IsNobodyAtSeen L.start self.old.seen self.old.worker) ⊎ (why ≡ CreateFault.OutOfMemory)) }
        ensures own { entries_by (maker.Session self.old.worker) self.old.seen ≡ self.old.made }
    {
        if self.retired() {
            return Err(CreateFault::NoSuchWorker);
        }
        if self.make_room(state).is_err() {
            return Err(CreateFault::OutOfMemory);
        }
        Ok(())
    }

    /// The session's worker leaves, by one call of [`Locked::leave`](crate::Locked::leave) under the lock. It gives up
    /// each edge that it has, by rising name, and retires. Returns how many edges these were. Exactly the receipts of
    /// its removes and of its retire were added. They came next after the entries since the start that the session has
    /// then seen, and were legal there. From then on each call of the session reports that there is no such worker. Its
    /// receipts are taken, or closed with, as before.
    ///
    /// A refused leave keeps the receipts, and the worker holds what it held. There was no such worker in a store with
    /// exactly the entries that the session has then seen, or memory ran out. [`call`](Session::call) says what the
    /// session knows of these entries. A leave is done as a whole, or is refused before its first entry.
    pub fn leave<P: Payload, R: Wait>(
        &mut self,
        rt: &R,
        store: &SharedStore<L, P>,
    ) -> Result<u64, ApplyFault>
        ensures left { IfOk result (HasLeftAtSeen L.start self.old self.new) }
        ensures gone { OnOk result (self.new.retired ≡ true) }
        ensures refused { OnErr result (HasLooked self.old self.new) }
        ensures no_such_worker { IfErr result (λ why. why ≡ ApplyFault.NoSuchWorker → IsNobodyAtSeen L.start self.new.seen self.old.worker) }
        ensures never_full { result ≢ Err ApplyFault.HeapFull }
        ensures retired { self.old.retired ≡ true → IsErrAnd result (λ why. why ≡ ApplyFault.NoSuchWorker) }
    {
        if self.retired() {
            return Err(ApplyFault::NoSuchWorker);
        }
        let mut locked = store.lock(rt);
        // It shows what holds of the store, all of whose entries the session has then seen.
        locked.look(self);
        let left = locked.leave(self);
        // It shows that the new entries are legal.
        let _ = locked.store();
        left
    }

    /// The rights that the session's subject holds over a vertex, by one call of
    /// [`Locked::label`](crate::Locked::label) under the lock. It is the label of the graph after exactly the entries
    /// since the start that the session has then seen. It makes no entry and no receipt. [`close`](crate::close)
    /// compares these entries with the journal, so the label is of the journal up to there
    /// ([`an_answer_is_of_the_closed_journal`](crate::laws::an_answer_is_of_the_closed_journal)).
    pub fn label<P: Payload, R: Wait>(
        &mut self,
        rt: &R,
        store: &SharedStore<L, P>,
        target: u64,
    ) -> Option<Label>
        ensures held { IsHeldAtSeen L.start self.new.seen self.old.worker target result }
        ensures looked { OnlyLooked self.old self.new }
    {
        let mut locked = store.lock(rt);
        // It shows what holds of the store, all of whose entries the session has then seen.
        locked.look(self);
        locked.label(self, target)
    }

    /// Collects the heap of the shared store, by one call of [`Locked::collect`](crate::Locked::collect) under the
    /// lock. Returns how many vertices the heap then has. The number is right for some store with exactly the entries
    /// that the session has then seen, as this collection left it. After a full collection it is the number of vertices
    /// that can be reached in the graph after these entries. The call makes no entry and no receipt.
    pub fn collect<P: Payload, R: Wait>(
        &mut self,
        rt: &R,
        store: &SharedStore<L, P>,
        kind: Kind,
    ) -> Result<u64, RoomFault>
        ensures number { IfOk result (LeavesAtSeen L.start self.new.seen kind) }
        ensures full { IfErr result (λ why. why ≡ RoomFault.HeapFull → AtSeen L.start self.new.seen (λ s.
            LacksRoomToCollect kind 1 s.heap)) }
        ensures looked { OnlyLooked self.old self.new }
    {
        let mut locked = store.lock(rt);
        // It shows what holds of the store, all of whose entries the session has then seen.
        locked.look(self);
        let left = locked.collect(kind);
        // It shows what holds of the store that is left.
        let _ = locked.store();
        left
    }
}
