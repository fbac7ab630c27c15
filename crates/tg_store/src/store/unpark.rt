//! How a user of a store is unparked.
ghost use Rattle.std.specs.Prelude.{◌≡◌, ◌↔◌, Err, IfOk, OnErr};
ghost use Rattle.tg_model.specs.Graph.{ProtectionGraph, IsSubject};
ghost use Rattle.tg_store.specs.Parking.{IsInUse, KeepsGraph};
ghost use Rattle.tg_store.specs.Unparking.{ComesOfUnparking};
ghost use Rattle.tg_store.specs.Store.{StandsFor};

use crate::parking::{ParkFault, Parked, Parking, find_sides};
use crate::store::Store;
use crate::unparking::unpark_on;
use tg_payload::Payload;

impl<P: Payload> Store<P> {
    /// Unparks a user. A new user takes out what an account holds ([`park`](Store::park)), and the account is left. All
    /// of this is done, or none of it. Afterwards the user holds exactly what the account holds, and the host holds
    /// nothing over the account. All other labels are as they were. The account still holds what it held. If nobody but
    /// the host had a right over the account, then no edge leads to it, and the next full collection frees it.
    ///
    /// The host holds grant over the user, and take over the account. The user is a subject that holds nothing yet,
    /// such as one that the host has just made with [`spawn`](Store::spawn). A right that the account holds over the
    /// host is taken out as all others.
    ///
    /// Each command has an entry of its own, as if its worker had asked for it. The host grants the user take over the
    /// account. The user takes each edge of the account, by rising name, and removes its take. Then the host removes
    /// all that it holds over the account. So there is an entry for each edge of the account, and three more.
    ///
    /// The host's grant is decided first. It is denied if two of the three vertices are the same. It is also denied if
    /// the host lacks grant over the user or take over the account. After an unparking the host holds no right over the
    /// account, so a second one is denied. A denied unparking has this grant as its only entry, and changes nothing
    /// else.
    ///
    /// The refusals follow. After each there is no entry, and all labels, values and subjects are as they were:
    ///
    /// - `NoSuchWorker`, exactly if the host or the user is no worker.
    /// - `InUse`, only if the user holds some right already, or the account holds a right over the user. The rules let
    ///   nobody take a right over itself, so spawn another user.
    /// - `OutOfMemory`, if memory runs out. The room for all entries is made first, with 80 bytes for each edge, and 16
    ///   bytes for its listing.
    /// - `HeapFull`, if an edge of the user needs a cell, and the nursery of the user has none left and gets no more
    ///   blocks. The edges that the user got before are taken back.
    ///
    /// The rules are those of the take-grant model (Lipton and Snyder 1977).
    pub fn unpark(&mut self, parking: Parking) -> Result<Parked, ParkFault>
        ensures comes { IfOk result (ComesOfUnparking parking self.old self.new) }
        ensures no_such_worker { (g : ProtectionGraph) → StandsFor self.old g → (result ≡ Err ParkFault.NoSuchWorker) ↔ (¬ (IsSubject g parking.host × IsSubject g parking.user)) }
        ensures in_use { (g : ProtectionGraph) → StandsFor self.old g → result ≡ Err ParkFault.InUse → IsInUse g.label parking.account parking.user }
        ensures refused { OnErr result (KeepsGraph self.old self.new) }
    {
        let Some(sides) = find_sides(&self.heap, &parking) else {
            return Err(ParkFault::NoSuchWorker);
        };
        let parked = unpark_on(&mut self.heap, &mut self.journal, &sides)?;
        Ok(parked)
    }
}
