//! Batches. A batch is several commands of a worker in one call.
ghost use Rattle.std.specs.Prelude.{◌≡◌, ◌↔◌, ◌<◌, [], Err, IfErr, IfOk, length};
ghost use Rattle.tg_store.specs.Batch.{Applies, StopsBatch};

use crate::fault::ApplyFault;
use crate::store::Store;
use tg_model::Command;
use tg_payload::Payload;
use thiserror::Error;

/// The most commands that one batch may have.
pub const MOST_BATCH: usize = 1_024;

/// Why a batch was not done to its end.
#[derive(Clone, Copy, PartialEq, Eq, Debug, Error)]
pub enum BatchFault {
    /// The batch has more than [`MOST_BATCH`] commands. None of them was done.
    #[error("a batch has at most 1024 commands: put the others into further batches")]
    TooLong,
    /// A command was refused. `done` is how many commands before it were done, and so its place in the batch, counted
    /// from 0. The commands after it were not asked for.
    #[error("command {done} of the batch: {why}")]
    Stopped { done: u64, why: ApplyFault },
}

impl<P: Payload> Store<P> {
    /// Takes the commands of a worker one after the other, each as [`apply`](Store::apply) does, and returns how many
    /// there were. Each command has an entry of its own in the journal. The entries are at places that follow one
    /// another, in the order of the commands. A reply is found in its entry, among the last entries of
    /// [`journal`](Store::journal). A denial is a reply, and the batch goes on after it.
    ///
    /// The refusals, in the order in which they are looked for:
    ///
    /// - `TooLong`, exactly if there are more than [`MOST_BATCH`] commands. The store is then as it was.
    /// - `Stopped`, at the first command that is refused. The commands before it are done, and have their entries. That
    ///   command and all commands after it change nothing. The reason is as [`apply`](Store::apply) has it.
    ///
    /// A command is refused with `NoSuchWorker` exactly if no worker has the name at that point. It is refused with
    /// `HeapFull` only if it is allowed and a cell is missing. The only other reason is `OutOfMemory`. A batch without
    /// commands changes nothing.
    pub fn apply_all(&mut self, worker: u64, commands: &[Command]) -> Result<u64, BatchFault>
        ensures done { IfOk result (λ count. count ≡ length commands.now) }
        ensures applied { IfOk result (λ _. Applies worker commands.now self.old self.new) }
        ensures stopped { IfErr result (StopsBatch worker commands.now self.old self.new) }
        ensures too_long { (result ≡ Err BatchFault.TooLong) ↔ (MOST_BATCH < length commands.now) }
        ensures empty { commands.now ≡ [] → self.new ≡ self.old }
    {
        if commands.len() > MOST_BATCH {
            return Err(BatchFault::TooLong);
        }
        for (done, command) in commands.iter().enumerate() {
            if let Err(why) = self.apply(worker, *command) {
                let done = done as u64;
                return Err(BatchFault::Stopped { done, why });
            }
            // This call shows that the entries so far are legal.
            let _ = self.journal();
        }
        Ok(commands.len() as u64)
    }
}
