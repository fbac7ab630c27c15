//! How a worker of a store is parked.
ghost use Rattle.std.specs.Prelude.{◌≡◌, ◌↔◌, Err, IfOk, OnErr};
ghost use Rattle.tg_model.specs.Graph.{ProtectionGraph, IsSubject};
ghost use Rattle.tg_store.specs.Parking.{ComesOfParking, IsInUse, KeepsGraph};
ghost use Rattle.tg_store.specs.Store.{StandsFor};

use crate::parking::{ParkFault, Parked, Parking, find_sides, park_on};
use crate::store::Store;
use tg_payload::Payload;

impl<P: Payload> Store<P> {
    /// Parks a user. What the user holds goes into an account, and the user leaves. All of this is done, or none of it.
    /// Afterwards the account holds exactly what the user held. The user holds nothing and is no subject any more. All
    /// other labels are as they were. Edges to the user stay as they are, and what the user stored is lost with its
    /// vertex.
    ///
    /// The account is a vertex that holds nothing, such as an object that the host has just made with
    /// [`create`](Store::create). The host holds grant over the user and over the account. It needs take over the
    /// account too if a new user is to take everything out later, by [`unpark`](Store::unpark). Whoever else holds take
    /// over the account can take what it holds, so the host alone should have rights over it.
    ///
    /// Each command has an entry of its own, as if its worker had asked for it. The host grants the user grant over the
    /// account. The user grants the account each of its edges, by rising name, and removes its grant. Then the user
    /// removes each of its edges and retires, as [`leave`](Store::leave) has it. So there are two entries for each edge
    /// of the user, and three more.
    ///
    /// The host's grant is decided first. It is denied if two of the three vertices are the same, or if the host lacks
    /// grant over the user or over the account. A denied parking has this grant as its only entry, and changes nothing
    /// else.
    ///
    /// The refusals follow. After each there is no entry, and all labels, values and subjects are as they were:
    ///
    /// - `NoSuchWorker`, exactly if the host or the user is no worker.
    /// - `InUse`, only if the account holds some right already, or the user holds a right over the account.
    /// - `OutOfMemory`, if memory runs out. The room for all entries is made first, with 160 bytes for
    ///   each edge, and 16 bytes for its listing.
    /// - `HeapFull`, if an edge of the account needs a cell, and the nursery of the user has none left and gets no more
    ///   blocks. The edges that were put into the account before are taken back.
    ///
    /// The rules are those of the take-grant model (Lipton and Snyder 1977).
    pub fn park(&mut self, parking: Parking) -> Result<Parked, ParkFault>
        ensures comes { IfOk result (ComesOfParking parking self.old self.new) }
        ensures no_such_worker { (g : ProtectionGraph) → StandsFor self.old g → (result ≡ Err ParkFault.NoSuchWorker) ↔ (¬ (IsSubject g parking.host × IsSubject g parking.user)) }
        ensures in_use { (g : ProtectionGraph) → StandsFor self.old g → result ≡ Err ParkFault.InUse → IsInUse g.label parking.user parking.account }
        ensures refused { OnErr result (KeepsGraph self.old self.new) }
    {
        let Some(sides) = find_sides(&self.heap, &parking) else {
            return Err(ParkFault::NoSuchWorker);
        };
        let parked = park_on(&mut self.heap, &mut self.journal, &sides)?;
        Ok(parked)
    }
}
