//! How rights over a vertex are withdrawn.
ghost use Rattle.std.specs.Prelude.{IfOk, OnErr};
ghost use Rattle.tg_store.specs.Store.{IsUnchanged};
ghost use Rattle.tg_store.specs.Withdrawing.{IsWithdrawn};

use crate::store::Store;
use crate::store::withdrawal::{Withdrawal, enter_removals};
use std::alloc::AllocError;
use tg_payload::Payload;
use tg_rights::Label;

impl<P: Payload> Store<P> {
    /// Withdraws rights over a target. Each active subject with a name outside of `keep` removes what it holds of the
    /// rights over the target. A subject that holds none of them has no entry. Each remove is an entry, as if the
    /// subject had asked for it, and the entries come by rising name. Afterwards no active subject outside of `keep`
    /// holds any of the rights over the target. All other labels are as they were.
    ///
    /// The answer has the names of those who still hold some of the rights afterwards, by rising name. They are among
    /// `keep`, or objects, or subjects that retired. Only vertices that the active subjects then reach are listed.
    /// Suppose that the answer is empty and the target was made. Then no vertex that is reached ever holds one of the
    /// rights over the target again, by the law
    /// [`withdrawn_rights_never_come_back`](crate::laws::withdrawn_rights_never_come_back). If the answer has names, a
    /// subject may take a right back from a vertex that is listed.
    ///
    /// A name in `keep` that isn't an active subject's is ignored. A target that was never made has no edge, so
    /// nothing is removed, and the answer is empty. The call is refused only if memory runs out. Then the store is as
    /// it was, with no entry. All memory is taken before anything changes. The call walks once over each row that is
    /// reached afterwards. It takes memory in proportion to the vertices that are reached, and to the longest of their
    /// rows.
    pub fn withdraw(
        &mut self,
        target: u64,
        rights: Label,
        keep: &[u64],
    ) -> Result<Vec<u64>, AllocError>
        ensures withdrawn { IfOk result (λ left. IsWithdrawn target rights keep.now self.old self.new left.items) }
        ensures refused { OnErr result (IsUnchanged self.old self.new) }
    {
        let withdrawal = Withdrawal::new(self.alloc, &self.heap, target, rights, keep)?;
        let left = withdrawal.holders_after(self.alloc, &self.heap, self.made)?;
        let removals = withdrawal.removals(self.alloc, &self.heap)?;
        let count = removals.as_slice().len();
        self.journal.reserve_many(count)?;
        enter_removals(
            &mut self.heap,
            &mut self.journal,
            target,
            removals.as_slice(),
        );
        Ok(left)
    }
}
