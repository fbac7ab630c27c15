//! How a worker leaves a store.
ghost use Rattle.std.specs.Prelude.{◌≡◌, ◌≢◌, ◌↔◌, Err, IfOk, OnErr, OnOk, length};
ghost use Rattle.tg_model.specs.Graph.{ProtectionGraph, IsSubject, listing_of};
ghost use Rattle.tg_store.specs.Leaving.{HasLeft};
ghost use Rattle.tg_store.specs.Store.{IsUnchanged, StandsFor};

use crate::fault::ApplyFault;
use crate::leaving::leave_heap;
use crate::store::Store;
use tg_model::EdgeList;
use tg_payload::Payload;

impl<P: Payload> Store<P> {
    /// Returns the edges of a worker on the graph, by rising name. The call changes nothing and makes no entry, so the
    /// journal has no record of it. It is refused with `NoSuchWorker` exactly if no worker has the name. The only other
    /// refusal is `OutOfMemory`, for 16 bytes an edge.
    pub fn row(&self, worker: u64) -> Result<EdgeList, ApplyFault>
        ensures edges { (g : ProtectionGraph) → StandsFor self.now g → IfOk result (λ edges. edges ≡ listing_of g.label g.made worker) }
        ensures no_such_worker { (g : ProtectionGraph) → StandsFor self.now g → (result ≡ Err ApplyFault.NoSuchWorker) ↔ (¬ IsSubject g worker) }
        ensures never_full { result ≢ Err ApplyFault.HeapFull }
    {
        let Some(subject) = self.heap.subject(worker) else {
            return Err(ApplyFault::NoSuchWorker);
        };
        let row = self.heap.row(subject.place)?;
        Ok(row)
    }

    /// Has a worker leave. It gives up each edge that it has, by rising name, and retires. The answer is the number of
    /// these edges. Each remove and the retire is an entry, as if the worker had asked for it. A vertex that only this
    /// worker reached is then reached by nobody, and a full collection frees it. Whoever has an edge to the worker gets
    /// nothing of what it held.
    ///
    /// Room for all entries is made first, with 80 bytes for each edge, and 16 bytes for its listing. The call is
    /// refused with `NoSuchWorker` exactly if no worker has the name. The only other refusal is `OutOfMemory`. After a
    /// refusal the store is as it was, with no entry. Nothing is refused half way.
    pub fn leave(&mut self, worker: u64) -> Result<u64, ApplyFault>
        ensures left { OnOk result (HasLeft worker self.old self.new) }
        ensures count { (g : ProtectionGraph) → StandsFor self.old g → IfOk result (λ count. count ≡ length (listing_of g.label g.made worker)) }
        ensures no_such_worker { (g : ProtectionGraph) → StandsFor self.old g → (result ≡ Err ApplyFault.NoSuchWorker) ↔ (¬ IsSubject g worker) }
        ensures never_full { result ≢ Err ApplyFault.HeapFull }
        ensures refused { OnErr result (IsUnchanged self.old self.new) }
    {
        let Some(subject) = self.heap.subject(worker) else {
            return Err(ApplyFault::NoSuchWorker);
        };
        let row = self.heap.row(subject.place)?;
        let count = row.as_slice().len();
        self.journal.reserve_many(count + 1)?;
        leave_heap(&mut self.heap, &mut self.journal, subject, &row);
        Ok(count as u64)
    }
}
