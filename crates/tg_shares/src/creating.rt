//! Batches of creates of a client. Such a batch makes several vertices, under one lock of the store, for which the
//! client's purse pays.
ghost use Rattle.std.specs.Prelude.{◌≡◌, ◌≢◌, ◌↔◌, ◌+◌, ◌<◌, ◌≤◌, ◌∷◌, ◌++◌, [], Err, Ok, IfErr, IfOk, OnOk, ℕ, length, reverse, true, vec_capacity, vec_len};
ghost use Rattle.tg_store.specs.Store.{graph_of_store};
ghost use Rattle.tg_shared.specs.Batch.{AddsInLock};
ghost use Rattle.tg_shared.specs.Creating.{IsCreateRefused, MakesAll, MakesInLock, creating, refusing};
ghost use Rattle.tg_shares.specs.Creating.{StopsMakingPaid, StopsPaidCreates, vertices_done};
ghost use Rattle.tg_shares.specs.Shares.{CanPayForVertex, Pays, PaysFor, one_vertex, vertices_with_entries};

use crate::client::Client;
use crate::fault::PaidCreatesFault;
use crate::metered::Metered;
use crate::purse::Portion;
use crate::store::MeteredStore;
use std::sync::Wait;
use std::sync::ledger::Ledger;
use tg_payload::{Draft, Payload};
use tg_rights::Label;
use tg_shared::{CreatesFault, Round};
use tg_store::{CreateFault, CreateRefused, MOST_BATCH};

impl<L: Round, V: Ledger, E: Ledger, P: Payload> Metered<L, V, E, P> {
    /// Makes a vertex of the session's subject for each draft, one after the other, each as
    /// [`create`](Metered::create) does. Adds a receipt of each, and takes the drafts from the list. The purse pays a
    /// vertex and an entry for each. Stops at the first create that is refused, or that the purse can't pay for, and at
    /// nothing else. The draft of that create and the drafts after it are left in the list, in their order.
    pub(crate) fn create_all(
        &mut self,
        client: &mut Client<L, V, E>,
        label: Label,
        drafts: &mut Vec<Draft<P>>,
    ) -> Result<u64, PaidCreatesFault>
        ensures done { IfOk result (λ count. count ≡ length drafts.old.items) }
        ensures used { OnOk result (drafts.new.items ≡ []) }
        ensures made { OnOk result (MakesInLock label drafts.old.items self.old.locked self.new.locked client.old.session client.new.session) }
        ensures stopped { IfErr result (StopsMakingPaid label drafts.old.items drafts.new.items self.old.locked self.new.locked client.old.session client.new.session client.new.purse) }
        ensures never_full { (done : ℕ) → result ≢ Err (PaidCreatesFault.Store (CreatesFault.Stopped done CreateFault.VerticesFull)) }
        ensures paid { Pays (vertices_with_entries (vertices_done result)) client.old.purse client.new.purse }
    {
        let mut done = 0;
        // The next draft is then the last of the list.
        drafts.reverse();
        while let Some(draft) = drafts.pop() {
            let worker = client.session.worker();
            if let Err(why) = client.purse.may_make(worker, Portion::none()) {
                put_back(drafts, draft);
                return Err(PaidCreatesFault::Share { done, why });
            }
            if let Err(refused) = self.create_next(client, label, draft) {
                let CreateRefused { draft, why } = refused;
                put_back(drafts, draft);
                return Err(PaidCreatesFault::Store(CreatesFault::Stopped { done, why }));
            }
            done += 1;
        }
        Ok(done)
    }

    // Makes the next vertex of a batch, after a copy of its state was made for the receipt. A vertex that is made has
    // an entry and a receipt, and is paid for. A refusal leaves the entries, the receipts and the purse as they were.
    fn create_next(
        &mut self,
        client: &mut Client<L, V, E>,
        label: Label,
        draft: Draft<P>,
    ) -> Result<u64, CreateRefused<P>>
        requires share { CanPayForVertex client.old.purse }
        ensures made { IfOk result (λ name. AddsInLock (creating client.old.session.worker label (draft ∷ []) name) self.old.locked self.new.locked client.old.session client.new.session) }
        ensures name { IfOk result (λ name. name ≡ (graph_of_store self.old.locked.store).made) }
        ensures next { OnOk result ((graph_of_store self.new.locked.store).made ≡ (graph_of_store self.old.locked.store).made + 1) }
        ensures refused { IfErr result (λ refused. AddsInLock (refusing client.old.session.worker label draft refused.why) self.old.locked self.new.locked client.old.session client.new.session) }
        ensures reason { IfErr result (λ refused. IsCreateRefused client.old.session.worker label draft self.new.locked.store refused.why) }
        ensures never_full { IfErr result (λ refused. refused.why ≢ CreateFault.VerticesFull) }
        ensures handed_back { IfErr result (λ refused. refused.draft ≡ draft) }
        ensures paid { PaysFor one_vertex client.old.purse client.new.purse result }
    {
        if client
            .session
            .make_room(draft.value().state.as_slice())
            .is_err()
        {
            let why = CreateFault::OutOfMemory;
            return Err(CreateRefused { draft, why });
        }
        let made = self.create(client, label, draft);
        // It shows that the new entry is legal.
        let _ = self.store();
        made
    }
}

// Puts the draft back that was the last of a list, and turns the list around.
fn put_back<P: Payload>(drafts: &mut Vec<Draft<P>>, draft: Draft<P>)
    requires { vec_len drafts.old < vec_capacity drafts.old }
    ensures { drafts.new.items ≡ reverse (drafts.old.items ++ draft ∷ []) }
{
    drafts.push_reserved(draft);
    drafts.reverse();
}

impl<L: Round, V: Ledger, E: Ledger> Client<L, V, E> {
    /// Makes a vertex of the session's subject for each draft, one after the other, with the same rights over each. It
    /// makes each as [`create`](Client::create) does, in one taking of the lock. Returns how many they are, and takes
    /// the drafts from the list. It is [`Session::create_all`](tg_shared::Session::create_all), and the purse pays a
    /// vertex and an entry for each vertex that is made. Each of these vertices has an entry and a receipt of its own,
    /// at places that follow one another. The names are in the last receipts, and follow one another too.
    ///
    /// Refusals, in the order in which they are looked for:
    ///
    /// - `Store` with `TooLong`, exactly if there are more than [`MOST_BATCH`] drafts. The client and the list are then
    ///   as they were.
    /// - `Share`, at the first draft for which the purse has no vertex or no entry left.
    /// - `Store` with `Stopped`, at the first create that is refused. The reason is as [`create`](Client::create) has
    ///   it, so it is never `VerticesFull`.
    ///
    /// After `Share` and `Stopped` the vertices before that draft are made and paid for. That draft and all drafts
    /// after it are left in the list, in their order. They cost nothing.
    ///
    /// Room for all receipts is made before the lock is taken. The copy of a state, which its receipt needs, is made
    /// under the lock, before the vertex. A list without drafts changes nothing, and takes no lock.
    pub fn create_all<P: Payload, R: Wait>(
        &mut self,
        rt: &R,
        store: &MeteredStore<L, V, E, P>,
        label: Label,
        drafts: &mut Vec<Draft<P>>,
    ) -> Result<u64, PaidCreatesFault>
        ensures done { IfOk result (λ count. count ≡ length drafts.old.items) }
        ensures used { OnOk result (drafts.new.items ≡ []) }
        ensures made { OnOk result (0 < length drafts.old.items → MakesAll L.start label drafts.old.items self.old.session self.new.session) }
        ensures stopped { IfErr result (StopsPaidCreates L.start label drafts.old.items drafts.new.items self.old.session self.new.session self.new.purse) }
        ensures never_full { (done : ℕ) → result ≢ Err (PaidCreatesFault.Store (CreatesFault.Stopped done CreateFault.VerticesFull)) }
        ensures paid { Pays (vertices_with_entries (vertices_done result)) self.old.purse self.new.purse }
        ensures too_long { (result ≡ Err (PaidCreatesFault.Store CreatesFault.TooLong)) ↔ (MOST_BATCH < length drafts.old.items) }
        ensures empty { drafts.old.items ≡ [] → (result ≡ Ok 0) × (self.new ≡ self.old) }
        ensures retired { self.old.session.retired ≡ true → 0 < length drafts.old.items → length drafts.old.items ≤ MOST_BATCH →
            result ≡ Err (PaidCreatesFault.Store (CreatesFault.Stopped 0 CreateFault.NoSuchWorker)) }
    {
        if drafts.len() > MOST_BATCH {
            return Err(PaidCreatesFault::Store(CreatesFault::TooLong));
        }
        if drafts.is_empty() {
            return Ok(0);
        }
        if let Err(why) = self.session.make_ready_to_create(drafts.len()) {
            let stopped = CreatesFault::Stopped { done: 0, why };
            return Err(PaidCreatesFault::Store(stopped));
        }
        let mut metered = store.metered.lock(rt);
        // It shows what holds of the store, all of whose entries the session has then seen.
        metered.look(self);
        let made = metered.create_all(self, label, drafts);
        // It shows what holds of the store that is left.
        let _ = metered.store();
        made
    }
}
