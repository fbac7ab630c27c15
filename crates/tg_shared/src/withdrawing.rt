//! Rights over a vertex that the keeper withdraws, in one taking of the lock.
ghost use Rattle.std.specs.Prelude.{◌≡◌, ◌+◌, true, IfOk, OnErr, OnOk, length};
ghost use Rattle.tg_passes.specs.Passes.{Sees};
ghost use Rattle.tg_store.specs.Store.{IsUnchanged};
ghost use Rattle.tg_store.specs.Withdrawing.{IsWithdrawn};
ghost use Rattle.tg_shared.specs.Serving.{HasNotedEnd, entries_more};
ghost use Rattle.tg_shared.specs.Sessions.{KeeperLooked, keeper_knowledge};
ghost use Rattle.tg_shared.specs.Withdrawing.{HasWithdrawn};

use crate::keeper::Keeper;
use crate::locked::{Locked, entries_from};
use crate::round::Round;
use crate::shared::SharedStore;
use std::alloc::AllocError;
use std::sync::Wait;
use tg_payload::Payload;
use tg_rights::Label;

impl<L: Round, P: Payload> Locked<L, P> {
    /// Withdraws rights over a target, by one call of the store. Each active subject with a name outside of `keep`
    /// removes what it holds of the rights over the target. Returns the names of those who still hold some of the
    /// rights afterwards, by rising name. Each remove is noted as the keeper's, and no session has a receipt of it.
    /// Whether the call is refused or not, the keeper has then seen all entries.
    ///
    /// The call is refused only if memory runs out. The locked value is then as it was. A withdrawal is done as a
    /// whole, or is refused before its first entry.
    pub fn withdraw(
        &mut self,
        keeper: &mut Keeper<L>,
        target: u64,
        rights: Label,
        keep: &[u64],
    ) -> Result<Vec<u64>, AllocError>
        requires may_end { L.start.may_end ≡ true }
        ensures withdrawn { IfOk result (λ left. IsWithdrawn target rights keep.now self.old.store self.new.store left.items) }
        ensures unchanged { OnErr result (IsUnchanged self.old.store self.new.store) }
        ensures sees { Sees self.old.signed (keeper_knowledge keeper.old) }
        ensures signed { HasNotedEnd self.old self.new keeper.old keeper.new }
        ensures entered { OnOk result (self.new.entered ≡ self.old.entered + length (entries_more self.old self.new)) }
        ensures none_entered { OnErr result (self.new.entered ≡ self.old.entered) }
        ensures sessions { self.new.sessions ≡ self.old.sessions }
    {
        self.register.roll.look(&mut keeper.pass);
        let at = self.store.journal().len();
        let left = self.store.withdraw(target, rights, keep)?;
        let entries = self.store.journal().len() - at;
        self.register.book.add(&mut self.rest, entries);
        // It shows that so many entries were made, so their number is one.
        self.register.book.audit(&mut self.rest);
        keeper.note_all(
            &mut self.register.roll,
            entries_from(self.store.journal(), at),
        );
        self.entered += entries;
        Ok(left)
    }
}

impl<L: Round> Keeper<L> {
    /// Withdraws rights over a target as [`Store::withdraw`](tg_store::Store::withdraw) does, by one call of
    /// [`Locked::withdraw`](crate::Locked::withdraw) under the lock. Each active subject with a name outside of `keep`
    /// removes the rights over the target that it holds, whatever its session does. Returns the names of the vertices
    /// that still hold some of the rights then, by rising name. They are vertices that the active subjects then reach.
    ///
    /// The removes came next after all entries that the keeper had seen then, and were legal there. They are exactly
    /// the entries that the keeper made more (`withdrawn`). No session has a receipt of them, and
    /// [`close_with`](crate::close_with) compares them with the journal. Nobody stops being a subject
    /// ([`a_withdrawal_ends_nobody`](crate::laws::a_withdrawal_ends_nobody)). Suppose that nobody is returned, and that
    /// the target was made. Then no vertex that is reached ever holds one of the rights over the target again
    /// ([`withdrawn_rights_stay_away`](crate::laws::withdrawn_rights_stay_away)). Otherwise a subject may take a right
    /// back from a vertex that is returned.
    ///
    /// The keeper makes entries of other workers, as [`end`](Keeper::end) does. So the store has to be shared so that
    /// its keeper may end workers. The call is refused only if memory runs out. The keeper has then made no entry, so
    /// every right is as it was (`refused`). A withdrawal is done as a whole, or is refused before its first entry.
    pub fn withdraw<P: Payload, R: Wait>(
        &mut self,
        rt: &R,
        store: &SharedStore<L, P>,
        target: u64,
        rights: Label,
        keep: &[u64],
    ) -> Result<Vec<u64>, AllocError>
        requires may_end { L.start.may_end ≡ true }
        ensures withdrawn { IfOk result (λ left. HasWithdrawn L.start target rights keep.now self.old self.new left.items) }
        ensures refused { OnErr result (KeeperLooked self.old self.new × (self.new.next ≡ self.old.next)) }
    {
        let mut locked = store.lock(rt);
        // It shows what holds of the store.
        let _ = locked.store();
        let left = locked.withdraw(self, target, rights, keep);
        // It shows what holds of the store that is left.
        let _ = locked.store();
        left
    }
}
