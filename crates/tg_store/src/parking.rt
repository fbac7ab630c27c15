//! How what a subject holds is put into an account, on the heap and in the journal.
ghost use Rattle.std.specs.Prelude.{◌≡◌, ◌≢◌, ◌≤◌, ◌+◌, ◌++◌, ◌↔◌, Err, IfOk, IfSome, IsSome, None, OnErr, false, length, map};
ghost use Rattle.tg_rights.specs.RightSet.{is_none_held, only};
ghost use Rattle.tg_model.specs.Graph.{HasEdge};
ghost use Rattle.tg_model.specs.Rules.{denial_of};
ghost use Rattle.tg_rows.specs.Rows.{IsVertexAt};
ghost use Rattle.tg_graph.specs.Heap.{IsActive, content_of};
ghost use Rattle.tg_rules.specs.Verdict.{HasSubject};
ghost use Rattle.tg_store.specs.Parking.{IsInUse, filling, key_of, putting};
ghost use Rattle.tg_store.specs.Inner.Parking.{IsRowOf, KeepsContent, ParksOnHeap, ParksSomeRow, parking_of};

use crate::answer::deny;
use crate::handing::done_by;
use crate::leaving::{leave_heap, removal};
use crate::pouring::{Pouring, Site, is_unused, pour};
use crate::tallied::TalliedJournal;
use std::alloc::AllocError;
use tg_graph::Heap;
use tg_model::{Command, Denial, EdgeList};
use tg_payload::Payload;
use tg_rights::{Label, Right, Rights};
use tg_rules::find_parties;
use tg_space::RoomFault;
use tg_subjects::Subject;
use tg_word::Place;
use thiserror::Error;

/// A user whom a host parks by [`Store::park`](crate::Store::park), or unparks by
/// [`Store::unpark`](crate::Store::unpark). A park puts what the user holds into an account, and the user leaves. An
/// unpark lets a new user take out what the account holds. The host and the user are active subjects. The one that gets
/// the edges, the account or the new user, holds nothing yet.
#[derive(Clone, Copy, PartialEq, Eq, Debug)]
pub struct Parking {
    /// The worker who holds grant over the user. It holds grant over the account to park, and take to unpark.
    pub host: u64,
    /// The worker who leaves, or the new worker who takes the edges out.
    pub user: u64,
    /// The vertex that is to hold what the user holds, or that holds what the user is to get.
    pub account: u64,
}

/// The answer to a parking or an unparking that isn't refused.
#[derive(Clone, Copy, PartialEq, Eq, Debug)]
pub enum Parked {
    /// After a park the account holds what the user held, and the user has left. After an unpark the user holds what
    /// the account holds. `edges` is the number of edges that were put in or taken out.
    Done { edges: u64 },
    /// The host's grant over the account to the user is denied, for this reason. Its entry is the only one, and nothing
    /// else changed.
    Denied(Denial),
}

/// Why a user was not parked or unparked. The store then represents the same graph, with no entry.
#[derive(Clone, Copy, PartialEq, Eq, Debug, Error)]
pub enum ParkFault {
    /// The host or the user is no worker.
    #[error("no such worker")]
    NoSuchWorker,
    /// To park: the account holds some right already, or the user holds a right over it. To unpark: the user holds some
    /// right already, or the account holds a right over it.
    #[error("in use: park into a new object, over which only the host has rights, and unpark for a new subject")]
    InUse,
    /// There was no memory for the entries, the listing of the edges, or a block.
    #[error("out of memory")]
    OutOfMemory,
    /// The nursery of the user has no cell left for a reference that is added, and gets no more blocks.
    #[error("heap full")]
    HeapFull,
}

impl From<AllocError> for ParkFault {
    ghost use Rattle.std.specs.Prelude.{◌≡◌};
    ghost use Rattle.tg_store.specs.declared.parking.ParkFault.TheVariants.{OutOfMemory};

    ghost from_gives = { λ _ e. e ≡ OutOfMemory };

    fn from(_error: AllocError) -> ParkFault {
        ParkFault::OutOfMemory
    }
}

impl From<RoomFault> for ParkFault {
    ghost use Rattle.std.specs.Prelude.{◌≡◌};
    ghost use Rattle.tg_store.specs.Parking.{park_fault_of};

    ghost from_gives = { λ fault e. e ≡ park_fault_of fault };

    fn from(fault: RoomFault) -> ParkFault {
        match fault {
            RoomFault::OutOfMemory => ParkFault::OutOfMemory,
            RoomFault::HeapFull => ParkFault::HeapFull,
        }
    }
}

impl Parking {
    // The grant with which a parking begins.
    fn key(&self) -> Command
        ensures { result ≡ key_of self.now }
    {
        Command::Grant {
            rights: grant_alone(),
            via: self.user,
            target: self.account,
        }
    }

    // The grant that puts an edge of the user into the account.
    fn put(&self, target: u64, rights: Label) -> Command
        ensures { result ≡ Command.Grant rights self.now.account target }
    {
        Command::Grant {
            rights,
            via: self.account,
            target,
        }
    }
}

// The label with grant alone.
fn grant_alone() -> Label
    ensures { result ≡ only Right.G }
{
    match Label::new(Rights::of(Right::G)) {
        Some(label) => label,
        None => unreachable!(),
    }
}

/// The two subjects of a parking that were looked up, and the name of the account.
#[derive(Clone, Copy)]
pub(crate) struct Sides {
    pub(crate) host: Subject,
    pub(crate) user: Subject,
    pub(crate) account: u64,
}

impl Sides {
    /// The parking by names.
    pub(crate) fn parking(&self) -> Parking
        ensures { result ≡ parking_of self.now }
    {
        Parking {
            host: self.host.name,
            user: self.user.name,
            account: self.account,
        }
    }
}

/// Looks up the two subjects of a parking. There is no answer if one of them isn't active.
pub(crate) fn find_sides<P: Payload>(heap: &Heap<P>, parking: &Parking) -> Option<Sides>
    ensures host { IfSome result (λ sides. HasSubject heap.now sides.host) }
    ensures user { IfSome result (λ sides. HasSubject heap.now sides.user) }
    ensures named { IfSome result (λ sides. parking_of sides ≡ parking.now) }
    ensures active { IsSome result ↔ (IsActive heap.now parking.now.host × IsActive heap.now parking.now.user) }
{
    let host = heap.subject(parking.host)?;
    let user = heap.subject(parking.user)?;
    Some(Sides {
        host,
        user,
        account: parking.account,
    })
}

/// Parks a user. It lists the edges of the user, and makes room for all entries. Then it decides the host's grant on
/// the heap as it is. If the grant is served, it gives the account the edges of the user, and the user leaves. Where it
/// is refused, the heap has the same content, and the journal has the same entries.
pub(crate) fn park_on<P: Payload>(
    heap: &mut Heap<P>,
    journal: &mut TalliedJournal,
    sides: &Sides,
) -> Result<Parked, ParkFault>
    requires host { HasSubject heap.old sides.now.host }
    requires user { HasSubject heap.old sides.now.user }
    ensures comes { IfOk result (ParksSomeRow sides.now heap.old heap.new journal.old journal.new) }
    ensures start { journal.new.start ≡ journal.old.start }
    ensures refused { OnErr result (KeepsContent heap.old heap.new journal.old journal.new) }
    ensures worker { result ≢ Err ParkFault.NoSuchWorker }
    ensures in_use { result ≡ Err ParkFault.InUse → IsInUse (content_of heap.old).label sides.now.user.name sides.now.account }
{
    let row = heap.row(sides.user.place)?;
    let count = row.as_slice().len();
    journal.reserve_many(count + count + 3)?;
    decide_parking(heap, journal, sides, &row)
}

// Decides the host's grant, and parks the user if it is served. There is room for all entries.
fn decide_parking<P: Payload>(
    heap: &mut Heap<P>,
    journal: &mut TalliedJournal,
    sides: &Sides,
    row: &EdgeList,
) -> Result<Parked, ParkFault>
    requires host { HasSubject heap.old sides.now.host }
    requires user { HasSubject heap.old sides.now.user }
    requires row { IsRowOf (content_of heap.old) sides.now.user.name row.now }
    requires room { length row.now + length row.now + 3 ≤ journal.old.spare }
    ensures comes { IfOk result (ParksOnHeap sides.now row.now heap.old heap.new journal.old journal.new) }
    ensures start { journal.new.start ≡ journal.old.start }
    ensures refused { OnErr result (KeepsContent heap.old heap.new journal.old journal.new) }
    ensures worker { result ≢ Err ParkFault.NoSuchWorker }
    ensures in_use { result ≡ Err ParkFault.InUse → IsInUse (content_of heap.old).label sides.now.user.name sides.now.account }
{
    let parking = sides.parking();
    let key = parking.key();
    match find_parties(heap, sides.host, &key) {
        Ok(_) => serve_parking(heap, journal, sides, row),
        Err(denial) => {
            deny(journal, sides.host, &key, &denial);
            Ok(Parked::Denied(denial))
        }
    }
}

// Parks a user where the host's grant is served.
fn serve_parking<P: Payload>(
    heap: &mut Heap<P>,
    journal: &mut TalliedJournal,
    sides: &Sides,
    row: &EdgeList,
) -> Result<Parked, ParkFault>
    requires host { HasSubject heap.old sides.now.host }
    requires user { HasSubject heap.old sides.now.user }
    requires row { IsRowOf (content_of heap.old) sides.now.user.name row.now }
    requires room { length row.now + length row.now + 3 ≤ journal.old.spare }
    requires served { denial_of (content_of heap.old).label (content_of heap.old).value sides.now.host.name (key_of (parking_of sides.now)) ≡ None }
    ensures comes { IfOk result (ParksOnHeap sides.now row.now heap.old heap.new journal.old journal.new) }
    ensures start { journal.new.start ≡ journal.old.start }
    ensures refused { OnErr result (KeepsContent heap.old heap.new journal.old journal.new) }
    ensures worker { result ≢ Err ParkFault.NoSuchWorker }
    ensures in_use { result ≡ Err ParkFault.InUse → IsInUse (content_of heap.old).label sides.now.user.name sides.now.account }
{
    let account = find_account(heap, sides);
    let pouring = Pouring {
        worker: sides.user,
        from: Site {
            name: sides.user.name,
            place: sides.user.place,
        },
        to: Site {
            name: sides.account,
            place: account.place,
        },
    };
    let unused = is_unused(heap, &pouring)?;
    if !unused {
        return Err(ParkFault::InUse);
    }
    pour(heap, &pouring, row.as_slice())?;
    enter_filling(journal, &sides.parking(), row.as_slice());
    leave_heap(heap, journal, sides.user, row);
    let edges = row.as_slice().len() as u64;
    Ok(Parked::Done { edges })
}

/// The account, to which the host has an edge.
#[derive(Clone, Copy)]
pub(crate) struct Account {
    pub(crate) place: Place,
    // What the host holds over it.
    pub(crate) held: Label,
}

/// Looks up the account, to which the host has an edge.
pub(crate) fn find_account<P: Payload>(heap: &Heap<P>, sides: &Sides) -> Account
    requires host { HasSubject heap.now sides.now.host }
    requires edge { HasEdge (content_of heap.now).label sides.now.host.name sides.now.account }
    ensures place { IsVertexAt heap.now.table.spaces sides.now.account result.place }
    ensures held { result.held ≡ (content_of heap.now).label sides.now.host.name sides.now.account }
{
    match heap.find_edge(sides.host.place, sides.account) {
        Some(found) => Account {
            place: found.place,
            held: label_of(found.rights),
        },
        None => unreachable!(),
    }
}

// The label of rights, of which there is at least one.
fn label_of(rights: Rights) -> Label
    requires { is_none_held rights ≡ false }
    ensures { result ≡ rights }
{
    match Label::new(rights) {
        Some(label) => label,
        None => unreachable!(),
    }
}

// Enters the commands by which an account gets the edges of a row.
fn enter_filling(journal: &mut TalliedJournal, parking: &Parking, row: &[(u64, Label)])
    requires room { length row.now + 2 ≤ journal.old.spare }
    ensures entries { journal.new.entries ≡ journal.old.entries ++ filling parking.now row.now }
    ensures start { journal.new.start ≡ journal.old.start }
    ensures spare { journal.new.spare + length row.now + 2 ≡ journal.old.spare }
{
    journal.push(done_by(parking.host, parking.key()));
    enter_puts(journal, parking, row);
    journal.push(removal(parking.user, parking.account, grant_alone()));
}

// Enters the grants that put the edges of a row into an account.
fn enter_puts(journal: &mut TalliedJournal, parking: &Parking, row: &[(u64, Label)])
    requires room { length row.now ≤ journal.old.spare }
    ensures entries { journal.new.entries ≡ journal.old.entries ++ map (putting parking.now) row.now }
    ensures start { journal.new.start ≡ journal.old.start }
    ensures spare { journal.new.spare + length row.now ≡ journal.old.spare }
{
    for edge in row {
        journal.push(done_by(parking.user, parking.put(edge.0, edge.1)));
    }
}
