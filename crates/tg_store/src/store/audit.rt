//! How a store's own journal is audited.
ghost use Rattle.std.specs.Prelude.{◌≡◌, ◌↔◌, ◌⊎◌, ◌<◌, Err, IfErr, IfOk, IsSome, length};

use crate::fault::StoreAuditFault;
use crate::store::Store;
use std::alloc::Global;
use tg_journal::{Audited, audit};
use tg_payload::Payload;

impl<P: Payload> Store<P> {
    /// Replays the store's own journal on the plain graph, from the store's opening on, and returns how many entries it
    /// has. `NotWhole` is returned exactly if entries were handed out or given up, or if the store was opened again
    /// from a snapshot. An [`Auditor`](tg_journal::Auditor) replays a journal in parts, and goes on from a snapshot.
    /// The only other refusal is that memory ran out, for the graph of what is live and for its rows. The journal of a
    /// store is always a legal history.
    pub fn audit(&self, alloc: Global) -> Result<Audited, StoreAuditFault>
        ensures count { IfOk result (λ audited. audited.entries ≡ length self.now.entries) }
        ensures not_whole { (result ≡ Err StoreAuditFault.NotWhole) ↔ ((0 < self.now.handed) ⊎ IsSome self.now.opening.shown) }
        ensures fault { IfErr result (λ why. (why ≡ StoreAuditFault.NotWhole) ⊎ (why ≡ StoreAuditFault.OutOfMemory)) }
    {
        let journal = self.journal();
        if 0 < journal.start() || self.opening.is_again() {
            return Err(StoreAuditFault::NotWhole);
        }
        Ok(audit(alloc, self.opening(), journal.entries())?)
    }
}
