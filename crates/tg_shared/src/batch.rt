//! Batches. A batch is several commands of a session, under one lock of the store.
ghost use Rattle.std.specs.Prelude.{◌≡◌, ◌↔◌, ◌⊎◌, ◌<◌, ◌≤◌, [], Err, Ok, IfErr, IfOk, OnOk, true, length};
ghost use Rattle.tg_passes.specs.declared.signed.Maker.TheVariants as maker;
ghost use Rattle.tg_passes.specs.Passes.{entries_by};
ghost use Rattle.tg_shared.specs.Batch.{AnswersAll, ServesAll, StopsCalls, StopsServing};
ghost use Rattle.tg_shared.specs.Serving.{KeepsNumbers};
ghost use Rattle.tg_shared.specs.Sessions.{IsNobodyAtSeen, KeepsReceipts};

use crate::locked::Locked;
use crate::round::Round;
use crate::session::Session;
use crate::shared::SharedStore;
use std::sync::Wait;
use tg_model::Command;
use tg_payload::Payload;
use tg_store::{ApplyFault, BatchFault, MOST_BATCH};

impl<L: Round, P: Payload> Locked<L, P> {
    /// Takes the commands of the session's subject one after the other, each by one call of the store, and adds a
    /// receipt of each. Stops at the first command that is refused, and at nothing else. There has to be room for all
    /// receipts.
    pub fn apply_all(
        &mut self,
        session: &mut Session<L>,
        commands: &[Command],
    ) -> Result<u64, BatchFault>
        requires room { length commands.now ≤ session.old.spare }
        ensures done { IfOk result (λ count. count ≡ length commands.now) }
        ensures served { OnOk result (ServesAll commands.now self.old self.new session.old session.new) }
        ensures stopped { IfErr result (StopsServing commands.now self.old self.new session.old session.new) }
        ensures numbers { KeepsNumbers self.old self.new }
    {
        for (done, command) in commands.iter().enumerate() {
            if let Err(why) = self.apply(session, *command) {
                let done = done as u64;
                return Err(BatchFault::Stopped { done, why });
            }
            // It shows that the entries so far are legal.
            let _ = self.store();
        }
        Ok(commands.len() as u64)
    }
}

impl<L: Round> Session<L> {
    /// Asks for the commands one after the other, each as [`call`](Session::call) does, in one taking of the lock.
    /// Returns how many they were. Each command has an entry and a receipt of its own, in the order of the commands.
    /// Their places follow one another, without an entry of another session between them. The replies are in the last
    /// receipts. A denial is a reply, and the next command is asked for after it. While the batch is done, no other
    /// session is served.
    ///
    /// Refusals, in the order in which they are looked for:
    ///
    /// - `TooLong`, exactly if there are more than [`MOST_BATCH`] commands. The session is then as it was.
    /// - `Stopped`, at the first command that is refused. The commands before it are done, and have their entries and
    ///   receipts. That command and all after it change nothing. The reason is one of [`call`](Session::call). After a
    ///   retire of its own, also a retire in the same batch, the session has no such worker.
    ///
    /// Room for all receipts is made before the lock is taken. A batch without commands changes nothing, and takes no
    /// lock.
    pub fn call_all<P: Payload, R: Wait>(
        &mut self,
        rt: &R,
        store: &SharedStore<L, P>,
        commands: &[Command],
    ) -> Result<u64, BatchFault>
        ensures done { IfOk result (λ count. count ≡ length commands.now) }
        ensures receipts { OnOk result (0 < length commands.now → AnswersAll L.start commands.now self.old self.new) }
        ensures stopped { IfErr result (StopsCalls L.start commands.now self.old self.new) }
        ensures too_long { (result ≡ Err BatchFault.TooLong) ↔ (MOST_BATCH < length commands.now) }
        ensures empty { commands.now ≡ [] → (result ≡ Ok 0) × (self.new ≡ self.old) }
        ensures retired { self.old.retired ≡ true → 0 < length commands.now → length commands.now ≤ MOST_BATCH →
            result ≡ Err (BatchFault.Stopped 0 ApplyFault.NoSuchWorker) }
    {
        if commands.len() > MOST_BATCH {
            return Err(BatchFault::TooLong);
        }
        if commands.is_empty() {
            return Ok(0);
        }
        if let Err(why) = self.make_ready_for(commands.len()) {
            return Err(BatchFault::Stopped { done: 0, why });
        }
        let mut locked = store.lock(rt);
        // It shows what holds of the store, all of whose entries the session has then seen.
        locked.look(self);
        let answered = locked.apply_all(self, commands);
        // It shows what holds of the store that is left.
        let _ = locked.store();
        answered
    }

    /// Makes room for so many receipts, as [`call_all`](Session::call_all) does before it takes the lock. The receipts
    /// stay. A session that entered its own retire is refused with `NoSuchWorker`, and otherwise the only refusal is
    /// `OutOfMemory`.
    pub fn make_ready_for(&mut self, more: usize) -> Result<(), ApplyFault>
        ensures room { OnOk result (more ≤ self.new.spare) }
        ensures receipts { KeepsReceipts self.old self.new }
        ensures retired { self.old.retired ≡ true → result ≡ Err ApplyFault.NoSuchWorker }
        ensures why { IfErr result (λ why. (why ≡ ApplyFault.NoSuchWorker × IsNobodyAtSeen L.start self.old.seen self.old.worker) ⊎ (why ≡ ApplyFault.OutOfMemory)) }
        ensures own { entries_by (maker.Session self.old.worker) self.old.seen ≡ self.old.made }
    {
        if self.retired() {
            return Err(ApplyFault::NoSuchWorker);
        }
        if self.make_room_for(more).is_err() {
            return Err(ApplyFault::OutOfMemory);
        }
        Ok(())
    }
}
