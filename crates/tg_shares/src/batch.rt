//! Batches of a client. A batch is several commands, under one lock of the store, for which the client's purse pays.
ghost use Rattle.std.specs.Prelude.{◌≡◌, ◌↔◌, ◌<◌, ◌≤◌, [], Err, Ok, IfErr, IfOk, OnOk, true, length};
ghost use Rattle.tg_shared.specs.Batch.{AnswersAll, ServesAll};
ghost use Rattle.tg_shares.specs.Batch.{StopsPaidCalls, StopsPaying, commands_done, paid_answer};
ghost use Rattle.tg_shares.specs.Shares.{Pays, entries_alone};

use crate::client::Client;
use crate::fault::{Lack, PaidCallsFault, ShareFault};
use crate::metered::Metered;
use crate::store::MeteredStore;
use std::sync::Wait;
use std::sync::ledger::Ledger;
use tg_model::Command;
use tg_payload::Payload;
use tg_shared::Round;
use tg_store::{ApplyFault, BatchFault, MOST_BATCH};

impl<L: Round, V: Ledger, E: Ledger, P: Payload> Metered<L, V, E, P> {
    /// Takes as many commands of the session's subject as its purse can pay for, by one call of
    /// [`Locked::apply_all`](tg_shared::Locked::apply_all). The purse pays an entry for each command that is taken. A
    /// batch stops at the first command that is refused, or that the purse can't pay for, and at nothing else. There
    /// has to be room for all receipts.
    pub(crate) fn apply_all(
        &mut self,
        client: &mut Client<L, V, E>,
        commands: &[Command],
    ) -> Result<u64, PaidCallsFault>
        requires room { length commands.now ≤ client.old.session.spare }
        ensures done { IfOk result (λ count. count ≡ length commands.now) }
        ensures served { OnOk result (ServesAll commands.now self.old.locked self.new.locked client.old.session client.new.session) }
        ensures stopped { IfErr result (StopsPaying commands.now self.old.locked self.new.locked client.old.session client.new.session client.new.purse) }
        ensures paid { Pays (entries_alone (commands_done result)) client.old.purse client.new.purse }
    {
        let worker = client.session.worker();
        let asked = commands.len() as u64;
        let most = client.purse.entries().min(asked);
        let answer = self
            .locked
            .apply_all(&mut client.session, &commands[..most as usize]);
        let paid = paid_answer(answer, asked, worker);
        client
            .purse
            .pay_entries(commands_done(&paid), &mut self.till);
        paid
    }
}

// The answer to a batch of so many commands. The session's batch of those that the purse can pay for was answered so.
fn paid_answer(
    answer: Result<u64, BatchFault>,
    asked: u64,
    worker: u64,
) -> Result<u64, PaidCallsFault>
    ensures { result ≡ paid_answer answer asked worker }
{
    match answer {
        Ok(done) if done < asked => {
            let lacks = Lack::Entries;
            let why = ShareFault { worker, lacks };
            Err(PaidCallsFault::Share { done, why })
        }
        Ok(done) => Ok(done),
        Err(fault) => Err(PaidCallsFault::Store(fault)),
    }
}

// How many commands a batch did, to its end or before it stopped.
fn commands_done(answer: &Result<u64, PaidCallsFault>) -> u64
    ensures { result ≡ commands_done answer.now }
{
    match answer {
        Ok(done) => *done,
        Err(PaidCallsFault::Share { done, why: _ }) => *done,
        Err(PaidCallsFault::Store(BatchFault::Stopped { done, why: _ })) => *done,
        Err(PaidCallsFault::Store(BatchFault::TooLong)) => 0,
    }
}

impl<L: Round, V: Ledger, E: Ledger> Client<L, V, E> {
    /// Asks for the commands one after the other, each as [`call`](Client::call) does, in one taking of the lock.
    /// Returns how many they were. It is [`Session::call_all`](tg_shared::Session::call_all), and the purse pays an
    /// entry for each command that is done. Each of these commands has an entry and a receipt of its own, at places
    /// that follow one another. A denial is a reply, and the next command is asked for after it.
    ///
    /// Refusals, in the order in which they are looked for:
    ///
    /// - `Store` with `TooLong`, exactly if there are more than [`MOST_BATCH`] commands. The client is then as it was.
    /// - `Store` with `Stopped`, at the first command that is refused. The commands before it are done and paid for.
    ///   That command and all after it change nothing and cost nothing. The reason is as [`call`](Client::call) has it.
    /// - `Share`, at the first command for which the purse has no entry left. The commands before it are done and paid
    ///   for. That command and all after it were not asked for.
    ///
    /// Room for all receipts is made before the lock is taken. A batch without commands changes nothing, and takes no
    /// lock.
    pub fn call_all<P: Payload, R: Wait>(
        &mut self,
        rt: &R,
        store: &MeteredStore<L, V, E, P>,
        commands: &[Command],
    ) -> Result<u64, PaidCallsFault>
        ensures done { IfOk result (λ count. count ≡ length commands.now) }
        ensures receipts { OnOk result (0 < length commands.now → AnswersAll L.start commands.now self.old.session self.new.session) }
        ensures stopped { IfErr result (StopsPaidCalls L.start commands.now self.old.session self.new.session self.new.purse) }
        ensures paid { Pays (entries_alone (commands_done result)) self.old.purse self.new.purse }
        ensures too_long { (result ≡ Err (PaidCallsFault.Store BatchFault.TooLong)) ↔ (MOST_BATCH < length commands.now) }
        ensures empty { commands.now ≡ [] → (result ≡ Ok 0) × (self.new ≡ self.old) }
        ensures retired { self.old.session.retired ≡ true → 0 < length commands.now → length commands.now ≤ MOST_BATCH →
            result ≡ Err (PaidCallsFault.Store (BatchFault.Stopped 0 ApplyFault.NoSuchWorker)) }
    {
        if commands.len() > MOST_BATCH {
            return Err(PaidCallsFault::Store(BatchFault::TooLong));
        }
        if commands.is_empty() {
            return Ok(0);
        }
        if let Err(why) = self.session.make_ready_for(commands.len()) {
            let stopped = BatchFault::Stopped { done: 0, why };
            return Err(PaidCallsFault::Store(stopped));
        }
        let mut metered = store.metered.lock(rt);
        // It shows what holds of the store, all of whose entries the session has then seen.
        metered.look(self);
        let answered = metered.apply_all(self, commands);
        // It shows what holds of the store that is left.
        let _ = metered.store();
        answered
    }
}
