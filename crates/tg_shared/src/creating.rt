//! Batches of creates. Such a batch makes several vertices of a session's subject, under one lock of the store.
ghost use Rattle.std.specs.Prelude.{◌≡◌, ◌≢◌, ◌↔◌, ◌⊎◌, ◌+◌, ◌<◌, ◌≤◌, [], ◌∷◌, Err, Ok, IfErr, IfOk, OnErr, OnOk, true, length};
ghost use Rattle.tg_passes.specs.declared.signed.Maker.TheVariants as maker;
ghost use Rattle.tg_passes.specs.Passes.{entries_by};
ghost use Rattle.tg_store.specs.Store.{graph_of_store};
ghost use Rattle.tg_shared.specs.Batch.{AddsInLock};
ghost use Rattle.tg_shared.specs.Creating.{IsCreateRefused, MakesAll, MakesInLock, StopsCreates, StopsMaking, creating, refusing};
ghost use Rattle.tg_shared.specs.Serving.{KeepsNumbers};
ghost use Rattle.tg_shared.specs.Sessions.{IsNobodyAtSeen, KeepsReceipts};

use crate::locked::Locked;
use crate::round::Round;
use crate::session::Session;
use crate::shared::SharedStore;
use std::sync::Wait;
use tg_payload::{Draft, Payload};
use tg_rights::Label;
use tg_store::{CreateFault, CreateRefused, MOST_BATCH};
use thiserror::Error;

/// Why a batch of creates was not done to its end.
#[derive(Clone, Copy, PartialEq, Eq, Debug, Error)]
pub enum CreatesFault {
    /// The batch has more than [`MOST_BATCH`] drafts. No vertex was made.
    #[error("a batch has at most 1024 drafts: put the others into further batches")]
    TooLong,
    /// A create was refused. `done` is how many vertices were made before it, and so the place of its draft in the
    /// batch, counted from 0. The creates after it were not asked for.
    #[error("draft {done} of the batch: {why}")]
    Stopped { done: u64, why: CreateFault },
}

impl<L: Round, P: Payload> Locked<L, P> {
    /// Makes a vertex of the session's subject for each draft, one after the other, each by one call of the store. Adds
    /// a receipt of each, and takes the drafts from the list. Stops at the first create that is refused, and at nothing
    /// else. The draft of that create and the drafts after it are left in the list, in their order. `VerticesFull` has
    /// added an entry and a receipt, too. The copy of a state, which its receipt needs, is made before the vertex.
    pub fn create_all(
        &mut self,
        session: &mut Session<L>,
        label: Label,
        drafts: &mut Vec<Draft<P>>,
    ) -> Result<u64, CreatesFault>
        ensures done { IfOk result (λ count. count ≡ length drafts.old.items) }
        ensures used { OnOk result (drafts.new.items ≡ []) }
        ensures made { OnOk result (MakesInLock label drafts.old.items self.old self.new session.old session.new) }
        ensures stopped { IfErr result (StopsMaking label drafts.old.items drafts.new.items self.old self.new session.old session.new) }
        ensures numbers { KeepsNumbers self.old self.new }
    {
        let mut done = 0;
        // The next draft is then the last of the list.
        drafts.reverse();
        while let Some(draft) = drafts.pop() {
            if let Err(refused) = self.create_next(session, label, draft) {
                let CreateRefused { draft, why } = refused;
                drafts.push_reserved(draft);
                drafts.reverse();
                return Err(CreatesFault::Stopped { done, why });
            }
            done += 1;
        }
        Ok(done)
    }

    // Makes the next vertex of a batch, after a copy of its state was made for the receipt. A vertex that is made, and
    // `VerticesFull`, have an entry and a receipt. Any other refusal leaves the entries and the receipts as they were.
    fn create_next(
        &mut self,
        session: &mut Session<L>,
        label: Label,
        draft: Draft<P>,
    ) -> Result<u64, CreateRefused<P>>
        ensures made { IfOk result (λ name. AddsInLock (creating session.old.worker label (draft ∷ []) name) self.old self.new session.old session.new) }
        ensures name { IfOk result (λ name. name ≡ (graph_of_store self.old.store).made) }
        ensures next { OnOk result ((graph_of_store self.new.store).made ≡ (graph_of_store self.old.store).made + 1) }
        ensures refused { IfErr result (λ refused. AddsInLock (refusing session.old.worker label draft refused.why) self.old self.new session.old session.new) }
        ensures reason { IfErr result (λ refused. IsCreateRefused session.old.worker label draft self.new.store refused.why) }
        ensures handed_back { IfErr result (λ refused. refused.draft ≡ draft) }
        ensures numbers { KeepsNumbers self.old self.new }
    {
        if session.make_room(draft.value().state.as_slice()).is_err() {
            let why = CreateFault::OutOfMemory;
            return Err(CreateRefused { draft, why });
        }
        let made = self.create(session, label, draft);
        // It shows that the new entry is legal.
        let _ = self.store();
        made
    }
}

impl<L: Round> Session<L> {
    /// Makes a vertex of the session's subject for each draft, one after the other, with the same rights over each. It
    /// makes each as [`create`](Session::create) does, in one taking of the lock. Returns how many they are, and takes
    /// the drafts from the list. Each vertex has an entry and a receipt of its own, in the order of the drafts. Their
    /// places follow one another, without an entry of another session between them. The names are in the last receipts,
    /// and follow one another too. While the batch is done, no other session is served.
    ///
    /// Refusals, in the order in which they are looked for:
    ///
    /// - `TooLong`, exactly if there are more than [`MOST_BATCH`] drafts. The session and the list are then as they
    ///   were.
    /// - `Stopped`, at the first create that is refused. The vertices before it are made, and have their entries and
    ///   receipts. `VerticesFull` has an entry and a receipt, too. The draft of the refused create and all drafts after
    ///   it are left in the list, in their order, and nothing was asked for the drafts after it. The reason is as
    ///   [`create`](Session::create) has it.
    ///
    /// Room for all receipts is made before the lock is taken. The copy of a state, which its receipt needs, is made
    /// under the lock, before the vertex. A list without drafts changes nothing, and takes no lock.
    pub fn create_all<P: Payload, R: Wait>(
        &mut self,
        rt: &R,
        store: &SharedStore<L, P>,
        label: Label,
        drafts: &mut Vec<Draft<P>>,
    ) -> Result<u64, CreatesFault>
        ensures done { IfOk result (λ count. count ≡ length drafts.old.items) }
        ensures used { OnOk result (drafts.new.items ≡ []) }
        ensures made { OnOk result (0 < length drafts.old.items → MakesAll L.start label drafts.old.items self.old self.new) }
        ensures stopped { IfErr result (StopsCreates L.start label drafts.old.items drafts.new.items self.old self.new) }
        ensures too_long { (result ≡ Err CreatesFault.TooLong) ↔ (MOST_BATCH < length drafts.old.items) }
        ensures empty { drafts.old.items ≡ [] → (result ≡ Ok 0) × (self.new ≡ self.old) }
        ensures retired { self.old.retired ≡ true → 0 < length drafts.old.items → length drafts.old.items ≤ MOST_BATCH →
            result ≡ Err (CreatesFault.Stopped 0 CreateFault.NoSuchWorker) }
    {
        if drafts.len() > MOST_BATCH {
            return Err(CreatesFault::TooLong);
        }
        if drafts.is_empty() {
            return Ok(0);
        }
        if let Err(why) = self.make_ready_to_create(drafts.len()) {
            return Err(CreatesFault::Stopped { done: 0, why });
        }
        let mut locked = store.lock(rt);
        // It shows what holds of the store, all of whose entries the session has then seen.
        locked.look(self);
        let made = locked.create_all(self, label, drafts);
        // It shows what holds of the store that is left.
        let _ = locked.store();
        made
    }

    /// Makes room for the receipts of so many vertices, as [`create_all`](Session::create_all) does before it takes the
    /// lock. The receipts stay. A session that entered its own retire is refused with `NoSuchWorker`, and otherwise the
    /// only refusal is `OutOfMemory`.
    pub fn make_ready_to_create(&mut self, more: usize) -> Result<(), CreateFault>
        ensures receipts { KeepsReceipts self.old self.new }
        ensures retired { self.old.retired ≡ true → result ≡ Err CreateFault.NoSuchWorker }
        ensures why { IfErr result (λ why. (why ≡ CreateFault.NoSuchWorker × IsNobodyAtSeen L.start self.old.seen self.old.worker) ⊎ (why ≡ CreateFault.OutOfMemory)) }
        ensures own { entries_by (maker.Session self.old.worker) self.old.seen ≡ self.old.made }
    {
        if self.retired() {
            return Err(CreateFault::NoSuchWorker);
        }
        if self.make_room_for(more).is_err() {
            return Err(CreateFault::OutOfMemory);
        }
        Ok(())
    }
}
