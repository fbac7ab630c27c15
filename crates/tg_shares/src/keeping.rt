//! Rights that the keeper of a store with shares withdraws, and users whom it parks and unparks.
ghost use Rattle.std.specs.Prelude.{◌≡◌, ◌+◌, true, IfErr, IfOk, OnErr, OnOk, length};
ghost use Rattle.tg_store.specs.Store.{IsUnchanged};
ghost use Rattle.tg_store.specs.Withdrawing.{IsWithdrawn};
ghost use Rattle.tg_passes.specs.Passes.{Sees};
ghost use Rattle.tg_shared.specs.Parking.{HasParked, HasUnparked, IsInUseAtSeen, LacksWorkerAtSeen, ParksUser, UnparksUser, count_of_park, count_of_unpark};
ghost use Rattle.tg_shared.specs.Serving.{HasNotedEnd};
ghost use Rattle.tg_shared.specs.Sessions.{KeeperLooked, keeper_knowledge};
ghost use Rattle.tg_shared.specs.Withdrawing.{HasWithdrawn};
ghost use Rattle.tg_shares.specs.Keeping.{MakesNoVertex};

use crate::metered::Metered;
use crate::store::MeteredStore;
use std::alloc::AllocError;
use std::sync::Wait;
use std::sync::ledger::Ledger;
use tg_payload::Payload;
use tg_rights::Label;
use tg_shared::{Keeper, Round};
use tg_store::{ParkFault, Parked, Parking};

impl<L: Round, V: Ledger, E: Ledger, P: Payload> Metered<L, V, E, P> {
    /// Withdraws rights over a target, by one call of [`Locked::withdraw`](tg_shared::Locked::withdraw). Nothing is
    /// paid for.
    pub(crate) fn withdraw(
        &mut self,
        keeper: &mut Keeper<L>,
        target: u64,
        rights: Label,
        keep: &[u64],
    ) -> Result<Vec<u64>, AllocError>
        requires may_end { L.start.may_end ≡ true }
        ensures withdrawn { IfOk result (λ left. IsWithdrawn target rights keep.now self.old.locked.store self.new.locked.store left.items) }
        ensures unchanged { OnErr result (IsUnchanged self.old.locked.store self.new.locked.store) }
        ensures sees { Sees self.old.locked.signed (keeper_knowledge keeper.old) }
        ensures signed { HasNotedEnd self.old.locked self.new.locked keeper.old keeper.new }
    {
        self.locked.withdraw(keeper, target, rights, keep)
    }

    /// Parks a user, by one call of [`Locked::park`](tg_shared::Locked::park). Nothing is paid for.
    pub(crate) fn park(
        &mut self,
        keeper: &mut Keeper<L>,
        parking: Parking,
    ) -> Result<Parked, ParkFault>
        requires may_end { L.start.may_end ≡ true }
        ensures answered { ParksUser parking self.old.locked.store self.new.locked.store result }
        ensures sees { Sees self.old.locked.signed (keeper_knowledge keeper.old) }
        ensures signed { HasNotedEnd self.old.locked self.new.locked keeper.old keeper.new }
    {
        self.locked.park(keeper, parking)
    }

    /// Unparks a user, by one call of [`Locked::unpark`](tg_shared::Locked::unpark). Nothing is paid for.
    pub(crate) fn unpark(
        &mut self,
        keeper: &mut Keeper<L>,
        parking: Parking,
    ) -> Result<Parked, ParkFault>
        requires may_end { L.start.may_end ≡ true }
        ensures answered { UnparksUser parking self.old.locked.store self.new.locked.store result }
        ensures sees { Sees self.old.locked.signed (keeper_knowledge keeper.old) }
        ensures signed { HasNotedEnd self.old.locked self.new.locked keeper.old keeper.new }
    {
        self.locked.unpark(keeper, parking)
    }
}

impl<L: Round, V: Ledger, E: Ledger, P: Payload> MeteredStore<L, V, E, P> {
    /// Withdraws rights over a target, as [`Keeper::withdraw`] does in a store without shares. Each active subject with
    /// a name outside of `keep` removes the rights over the target that it holds. Returns the names of the vertices
    /// that still hold some of the rights then, by rising name. No purse pays for these entries. The store has to be
    /// shared so that its keeper may end workers.
    ///
    /// The keeper has made exactly the removes (`withdrawn`). The call is refused only if memory runs out. The keeper
    /// has then made no entry, so every right is as it was (`refused`).
    pub fn withdraw<R: Wait>(
        &self,
        rt: &R,
        keeper: &mut Keeper<L>,
        target: u64,
        rights: Label,
        keep: &[u64],
    ) -> Result<Vec<u64>, AllocError>
        requires may_end { L.start.may_end ≡ true }
        ensures withdrawn { IfOk result (λ left. HasWithdrawn L.start target rights keep.now keeper.old keeper.new left.items) }
        ensures refused { OnErr result (KeeperLooked keeper.old keeper.new × (keeper.new.next ≡ keeper.old.next)) }
    {
        let mut metered = self.metered.lock(rt);
        // It shows what holds of the store.
        let _ = metered.store();
        let left = metered.withdraw(keeper, target, rights, keep);
        // It shows what holds of the store that is left.
        let _ = metered.store();
        left
    }

    /// Parks a user, as [`Keeper::park`] does in a store without shares. What the user holds goes into an account, and
    /// the user leaves. Returns how many edges the user had, or the denial of the host's grant. No purse pays for these
    /// entries. The host makes the account first, as a client, and its purse pays for the account
    /// ([`Client::create`](crate::Client::create)). So a parking makes no vertex (`no_vertex`). The store has to be
    /// shared so that its keeper may end workers.
    ///
    /// The keeper has made exactly the entries of the parking (`parked`). If the call is refused, the keeper has made
    /// no entry, so every right and every subject is as it was (`refused`). `NoSuchWorker` and `InUse` are refusals of
    /// a store with exactly the entries that the keeper has then seen. What is left in the user's purse stays there.
    pub fn park<R: Wait>(
        &self,
        rt: &R,
        keeper: &mut Keeper<L>,
        parking: Parking,
    ) -> Result<Parked, ParkFault>
        requires may_end { L.start.may_end ≡ true }
        ensures parked { IfOk result (HasParked L.start parking keeper.old keeper.new) }
        ensures entered { IfOk result (λ answer. length keeper.new.made ≡ length keeper.old.made + count_of_park answer) }
        ensures no_vertex { OnOk result (MakesNoVertex L.start keeper.old keeper.new) }
        ensures refused { OnErr result (KeeperLooked keeper.old keeper.new × (keeper.new.next ≡ keeper.old.next)) }
        ensures no_such_worker { IfErr result (λ why. why ≡ ParkFault.NoSuchWorker → LacksWorkerAtSeen L.start keeper.new.seen parking) }
        ensures in_use { IfErr result (λ why. why ≡ ParkFault.InUse → IsInUseAtSeen L.start keeper.new.seen parking.user parking.account) }
    {
        let mut metered = self.metered.lock(rt);
        // It shows what holds of the store.
        let _ = metered.store();
        let parked = metered.park(keeper, parking);
        // It shows what holds of the store that is left.
        let _ = metered.store();
        parked
    }

    /// Unparks a user, as [`Keeper::unpark`] does in a store without shares. A new user takes out what an account
    /// holds, and the host gives up what it holds over the account. Returns how many edges the account has, or the
    /// denial of the host's grant. No purse pays for these entries. The host spawns the new user first, as a client,
    /// and its purse pays for the new user ([`Client::spawn`](crate::Client::spawn)). So an unparking makes no vertex
    /// (`no_vertex`). The store has to be shared so that its keeper may end workers.
    ///
    /// The keeper has made exactly the entries of the unparking (`unparked`). If the call is refused, the keeper has
    /// made no entry, so every right is as it was (`refused`). `NoSuchWorker` and `InUse` are refusals of a store with
    /// exactly the entries that the keeper has then seen.
    pub fn unpark<R: Wait>(
        &self,
        rt: &R,
        keeper: &mut Keeper<L>,
        parking: Parking,
    ) -> Result<Parked, ParkFault>
        requires may_end { L.start.may_end ≡ true }
        ensures unparked { IfOk result (HasUnparked L.start parking keeper.old keeper.new) }
        ensures entered { IfOk result (λ answer. length keeper.new.made ≡ length keeper.old.made + count_of_unpark answer) }
        ensures no_vertex { OnOk result (MakesNoVertex L.start keeper.old keeper.new) }
        ensures refused { OnErr result (KeeperLooked keeper.old keeper.new × (keeper.new.next ≡ keeper.old.next)) }
        ensures no_such_worker { IfErr result (λ why. why ≡ ParkFault.NoSuchWorker → LacksWorkerAtSeen L.start keeper.new.seen parking) }
        ensures in_use { IfErr result (λ why. why ≡ ParkFault.InUse → IsInUseAtSeen L.start keeper.new.seen parking.account parking.user) }
    {
        let mut metered = self.metered.lock(rt);
        // It shows what holds of the store.
        let _ = metered.store();
        let unparked = metered.unpark(keeper, parking);
        // It shows what holds of the store that is left.
        let _ = metered.store();
        unparked
    }
}
