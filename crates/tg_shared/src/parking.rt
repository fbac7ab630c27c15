//! Users whom the keeper parks and unparks, in one taking of the lock.
ghost use Rattle.std.specs.Prelude.{◌≡◌, ◌+◌, true, IfErr, IfOk, OnErr, OnOk, length};
ghost use Rattle.tg_passes.specs.Passes.{Sees};
ghost use Rattle.tg_shared.specs.Parking.{HasParked, HasUnparked, IsInUseAtSeen, LacksWorkerAtSeen, ParksUser, UnparksUser, count_of_park, count_of_unpark};
ghost use Rattle.tg_shared.specs.Serving.{HasNotedEnd, entries_more};
ghost use Rattle.tg_shared.specs.Sessions.{KeeperLooked, keeper_knowledge};

use crate::keeper::Keeper;
use crate::locked::Locked;
use crate::round::Round;
use crate::shared::SharedStore;
use std::sync::Wait;
use tg_payload::Payload;
use tg_store::{ParkFault, Parked, Parking};

impl<L: Round, P: Payload> Locked<L, P> {
    /// Parks a user, by one call of the store. What the user holds goes into an account, and the user leaves. Each
    /// entry is noted as the keeper's, and no session has a receipt of it. From then on the user's own session receives
    /// that there is no such worker. Whether the call is refused or not, the keeper has then seen all entries.
    ///
    /// A refused call makes no entry, and keeps all labels, values and subjects. A denied one has the host's grant as
    /// its only entry. A parking is done as a whole, or is refused before its first entry.
    pub fn park(&mut self, keeper: &mut Keeper<L>, parking: Parking) -> Result<Parked, ParkFault>
        requires may_end { L.start.may_end ≡ true }
        ensures answered { ParksUser parking self.old.store self.new.store result }
        ensures sees { Sees self.old.signed (keeper_knowledge keeper.old) }
        ensures signed { HasNotedEnd self.old self.new keeper.old keeper.new }
        ensures entered { OnOk result (self.new.entered ≡ self.old.entered + length (entries_more self.old self.new)) }
        ensures none_entered { OnErr result (self.new.entered ≡ self.old.entered) }
        ensures sessions { self.new.sessions ≡ self.old.sessions }
    {
        self.register.roll.look(&mut keeper.pass);
        let at = self.store.journal().len();
        let parked = self.store.park(parking)?;
        let journal = self.store.journal();
        self.entered += keeper.note_from(&mut self.register, &mut self.rest, journal, at);
        Ok(parked)
    }

    /// Unparks a user, by one call of the store. A new user takes out what an account holds, and the account is left.
    /// The session of the new user exists already, because it came from the spawn of the user. Each entry is noted as
    /// the keeper's, and no session has a receipt of it. Whether the call is refused or not, the keeper has then seen
    /// all entries.
    ///
    /// A refused call makes no entry, and keeps all labels, values and subjects. A denied one has the host's grant as
    /// its only entry. An unparking is done as a whole, or is refused before its first entry.
    pub fn unpark(&mut self, keeper: &mut Keeper<L>, parking: Parking) -> Result<Parked, ParkFault>
        requires may_end { L.start.may_end ≡ true }
        ensures answered { UnparksUser parking self.old.store self.new.store result }
        ensures sees { Sees self.old.signed (keeper_knowledge keeper.old) }
        ensures signed { HasNotedEnd self.old self.new keeper.old keeper.new }
        ensures entered { OnOk result (self.new.entered ≡ self.old.entered + length (entries_more self.old self.new)) }
        ensures none_entered { OnErr result (self.new.entered ≡ self.old.entered) }
        ensures sessions { self.new.sessions ≡ self.old.sessions }
    {
        self.register.roll.look(&mut keeper.pass);
        let at = self.store.journal().len();
        let unparked = self.store.unpark(parking)?;
        let journal = self.store.journal();
        self.entered += keeper.note_from(&mut self.register, &mut self.rest, journal, at);
        Ok(unparked)
    }
}

impl<L: Round> Keeper<L> {
    /// Parks a user as [`Store::park`](tg_store::Store::park) does, by one call of
    /// [`Locked::park`](crate::Locked::park) under the lock. What the user holds goes into an account, and the user
    /// leaves, whatever its session does. Returns how many edges the user had, or the denial of the host's grant.
    ///
    /// The entries came next after all entries that the keeper had seen then, and were legal there. They are exactly
    /// the entries that the keeper made more (`parked`). There are two for each edge of the user, and three more, or
    /// the one entry of a denied grant (`entered`). No session has a receipt of them, and
    /// [`close_with`](crate::close_with) compares them with the journal. The user stops being a subject, and nobody
    /// else does ([`a_parking_ends_only_the_user`](crate::laws::a_parking_ends_only_the_user)). It is never a subject
    /// again ([`who_was_parked_stays_away`](crate::laws::who_was_parked_stays_away)). So each later call of its session
    /// reports that there is no such worker. The session's receipts stay right, and it is closed with as before.
    ///
    /// The host makes the account first, by its own session, and holds grant over the user and over the account.
    ///
    /// The keeper makes entries of the host and of the user, as [`end`](Keeper::end) makes entries of another worker.
    /// So the store has to be shared so that its keeper may end workers. If the call is refused, the keeper has made no
    /// entry, so every right and every subject is as it was (`refused`). `NoSuchWorker` and `InUse` are refusals of a
    /// store with exactly the entries that the keeper has then seen.
    pub fn park<P: Payload, R: Wait>(
        &mut self,
        rt: &R,
        store: &SharedStore<L, P>,
        parking: Parking,
    ) -> Result<Parked, ParkFault>
        requires may_end { L.start.may_end ≡ true }
        ensures parked { IfOk result (HasParked L.start parking self.old self.new) }
        ensures entered { IfOk result (λ answer. length self.new.made ≡ length self.old.made + count_of_park answer) }
        ensures refused { OnErr result (KeeperLooked self.old self.new × (self.new.next ≡ self.old.next)) }
        ensures no_such_worker { IfErr result (λ why. why ≡ ParkFault.NoSuchWorker → LacksWorkerAtSeen L.start self.new.seen parking) }
        ensures in_use { IfErr result (λ why. why ≡ ParkFault.InUse → IsInUseAtSeen L.start self.new.seen parking.user parking.account) }
    {
        let mut locked = store.lock(rt);
        // It shows what holds of the store.
        let _ = locked.store();
        let parked = locked.park(self, parking);
        // It shows what holds of the store that is left.
        let _ = locked.store();
        parked
    }

    /// Unparks a user as [`Store::unpark`](tg_store::Store::unpark) does, by one call of
    /// [`Locked::unpark`](crate::Locked::unpark) under the lock. A new user takes out what an account holds, and the
    /// host gives up what it holds over the account. Returns how many edges the account has, or the denial of the
    /// host's grant.
    ///
    /// The host spawns the new user first, by its own session ([`Session::spawn`](crate::Session::spawn)), which hands
    /// out the session of the new user. The host hands the session to its client after the unparking. So the client
    /// finds all edges, or has no session.
    ///
    /// The entries came next after all entries that the keeper had seen then, and were legal there. They are exactly
    /// the entries that the keeper made more (`unparked`). There is one for each edge of the account, and three more,
    /// or the one entry of a denied grant (`entered`). No session has a receipt of them, and
    /// [`close_with`](crate::close_with) compares them with the journal. Nobody stops being a subject
    /// ([`an_unparking_ends_nobody`](crate::laws::an_unparking_ends_nobody)).
    ///
    /// The store has to be shared as for [`park`](Keeper::park). If the call is refused, the keeper has made no entry,
    /// so every right is as it was (`refused`). `NoSuchWorker` and `InUse` are refusals of a store with exactly the
    /// entries that the keeper has then seen.
    pub fn unpark<P: Payload, R: Wait>(
        &mut self,
        rt: &R,
        store: &SharedStore<L, P>,
        parking: Parking,
    ) -> Result<Parked, ParkFault>
        requires may_end { L.start.may_end ≡ true }
        ensures unparked { IfOk result (HasUnparked L.start parking self.old self.new) }
        ensures entered { IfOk result (λ answer. length self.new.made ≡ length self.old.made + count_of_unpark answer) }
        ensures refused { OnErr result (KeeperLooked self.old self.new × (self.new.next ≡ self.old.next)) }
        ensures no_such_worker { IfErr result (λ why. why ≡ ParkFault.NoSuchWorker → LacksWorkerAtSeen L.start self.new.seen parking) }
        ensures in_use { IfErr result (λ why. why ≡ ParkFault.InUse → IsInUseAtSeen L.start self.new.seen parking.account parking.user) }
    {
        let mut locked = store.lock(rt);
        // It shows what holds of the store.
        let _ = locked.store();
        let unparked = locked.unpark(self, parking);
        // It shows what holds of the store that is left.
        let _ = locked.store();
        unparked
    }
}
