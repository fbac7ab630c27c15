//! How what an account holds is taken out by a new user, on the heap and in the journal.
ghost use Rattle.std.specs.Prelude.{◌≡◌, ◌≢◌, ◌≤◌, ◌+◌, ◌++◌, Err, IfOk, None, OnErr, length, map};
ghost use Rattle.tg_rights.specs.RightSet.{only};
ghost use Rattle.tg_rights.specs.declared.Right.{Right};
ghost use Rattle.tg_model.specs.Rules.{denial_of};
ghost use Rattle.tg_rows.specs.Rows.{IsVertexAt};
ghost use Rattle.tg_graph.specs.Heap.{content_of};
ghost use Rattle.tg_rules.specs.Verdict.{HasSubject};
ghost use Rattle.tg_store.specs.Parking.{IsInUse};
ghost use Rattle.tg_store.specs.Unparking.{take_key_of, taking, taking_all};
ghost use Rattle.tg_store.specs.Inner.Parking.{IsRowOf, KeepsContent, parking_of};
ghost use Rattle.tg_store.specs.Inner.Unparking.{UnparksOnHeap};

use crate::answer::deny;
use crate::handing::done_by;
use crate::leaving::removal;
use crate::parking::{Account, ParkFault, Parked, Parking, Sides, find_account};
use crate::pouring::{Pouring, Site, is_unused, pour};
use crate::tallied::TalliedJournal;
use tg_graph::Heap;
use tg_model::{Command, EdgeList};
use tg_payload::Payload;
use tg_rights::{Label, Right, Rights};
use tg_rules::find_parties;

impl Parking {
    // The grant with which an unparking begins.
    fn take_key(&self) -> Command
        ensures { result ≡ take_key_of self.now }
    {
        Command::Grant {
            rights: take_alone(),
            via: self.user,
            target: self.account,
        }
    }

    // The take of an edge of the account.
    fn take(&self, target: u64, rights: Label) -> Command
        ensures { result ≡ Command.Take rights self.now.account target }
    {
        Command::Take {
            rights,
            via: self.account,
            target,
        }
    }
}

// The label with take alone.
fn take_alone() -> Label
    ensures { result ≡ only Right.T }
{
    match Label::new(Rights::of(Right::T)) {
        Some(label) => label,
        None => unreachable!(),
    }
}

/// Unparks a user. It decides the host's grant on the heap as it is. If the grant is served, it makes room for all
/// entries. Then it gives the user the edges of the account, and takes from the host what the host holds over the
/// account. After a refusal the heap has the same content, and the journal has the same entries.
pub(crate) fn unpark_on<P: Payload>(
    heap: &mut Heap<P>,
    journal: &mut TalliedJournal,
    sides: &Sides,
) -> Result<Parked, ParkFault>
    requires host { HasSubject heap.old sides.now.host }
    requires user { HasSubject heap.old sides.now.user }
    ensures comes { IfOk result (UnparksOnHeap sides.now heap.old heap.new journal.old.entries journal.new.entries) }
    ensures start { journal.new.start ≡ journal.old.start }
    ensures refused { OnErr result (KeepsContent heap.old heap.new journal.old journal.new) }
    ensures worker { result ≢ Err ParkFault.NoSuchWorker }
    ensures in_use { result ≡ Err ParkFault.InUse → IsInUse (content_of heap.old).label sides.now.account sides.now.user.name }
{
    journal.reserve()?;
    let parking = sides.parking();
    let key = parking.take_key();
    match find_parties(heap, sides.host, &key) {
        Ok(_) => serve_unparking(heap, journal, sides),
        Err(denial) => {
            deny(journal, sides.host, &key, &denial);
            Ok(Parked::Denied(denial))
        }
    }
}

// Unparks a user where the host's grant is served. It lists the edges of the account, and makes room for all entries.
fn serve_unparking<P: Payload>(
    heap: &mut Heap<P>,
    journal: &mut TalliedJournal,
    sides: &Sides,
) -> Result<Parked, ParkFault>
    requires host { HasSubject heap.old sides.now.host }
    requires user { HasSubject heap.old sides.now.user }
    requires served { denial_of (content_of heap.old).label (content_of heap.old).value sides.now.host.name (take_key_of (parking_of sides.now)) ≡ None }
    ensures comes { IfOk result (UnparksOnHeap sides.now heap.old heap.new journal.old.entries journal.new.entries) }
    ensures start { journal.new.start ≡ journal.old.start }
    ensures refused { OnErr result (KeepsContent heap.old heap.new journal.old journal.new) }
    ensures worker { result ≢ Err ParkFault.NoSuchWorker }
    ensures in_use { result ≡ Err ParkFault.InUse → IsInUse (content_of heap.old).label sides.now.account sides.now.user.name }
{
    let account = find_account(heap, sides);
    let row = heap.row(account.place)?;
    journal.reserve_many(row.as_slice().len() + 3)?;
    take_out(heap, journal, sides, account, &row)
}

// Gives the user the edges of the account. There is room for all entries.
fn take_out<P: Payload>(
    heap: &mut Heap<P>,
    journal: &mut TalliedJournal,
    sides: &Sides,
    account: Account,
    row: &EdgeList,
) -> Result<Parked, ParkFault>
    requires host { HasSubject heap.old sides.now.host }
    requires user { HasSubject heap.old sides.now.user }
    requires account { IsVertexAt heap.old.table.spaces sides.now.account account.place }
    requires held { account.held ≡ (content_of heap.old).label sides.now.host.name sides.now.account }
    requires row { IsRowOf (content_of heap.old) sides.now.account row.now }
    requires room { length row.now + 3 ≤ journal.old.spare }
    requires served { denial_of (content_of heap.old).label (content_of heap.old).value sides.now.host.name (take_key_of (parking_of sides.now)) ≡ None }
    ensures comes { IfOk result (UnparksOnHeap sides.now heap.old heap.new journal.old.entries journal.new.entries) }
    ensures start { journal.new.start ≡ journal.old.start }
    ensures refused { OnErr result (KeepsContent heap.old heap.new journal.old journal.new) }
    ensures worker { result ≢ Err ParkFault.NoSuchWorker }
    ensures in_use { result ≡ Err ParkFault.InUse → IsInUse (content_of heap.old).label sides.now.account sides.now.user.name }
{
    let pouring = Pouring {
        worker: sides.user,
        from: Site {
            name: sides.account,
            place: account.place,
        },
        to: Site {
            name: sides.user.name,
            place: sides.user.place,
        },
    };
    let unused = is_unused(heap, &pouring)?;
    if !unused {
        return Err(ParkFault::InUse);
    }
    pour(heap, &pouring, row.as_slice())?;
    heap.drop_rights(sides.host.place, sides.account, account.held);
    enter_taking(journal, &sides.parking(), row.as_slice(), account.held);
    let edges = row.as_slice().len() as u64;
    Ok(Parked::Done { edges })
}

// Enters the commands by which a user gets the edges of a row, and the account is left.
fn enter_taking(journal: &mut TalliedJournal, parking: &Parking, row: &[(u64, Label)], held: Label)
    requires room { length row.now + 3 ≤ journal.old.spare }
    ensures entries { journal.new.entries ≡ journal.old.entries ++ taking_all parking.now row.now held }
    ensures start { journal.new.start ≡ journal.old.start }
{
    journal.push(done_by(parking.host, parking.take_key()));
    enter_takes(journal, parking, row);
    journal.push(removal(parking.user, parking.account, take_alone()));
    journal.push(removal(parking.host, parking.account, held));
}

// Enters the takes of the edges of a row out of an account.
fn enter_takes(journal: &mut TalliedJournal, parking: &Parking, row: &[(u64, Label)])
    requires room { length row.now ≤ journal.old.spare }
    ensures entries { journal.new.entries ≡ journal.old.entries ++ map (taking parking.now) row.now }
    ensures start { journal.new.start ≡ journal.old.start }
    ensures spare { journal.new.spare + length row.now ≡ journal.old.spare }
{
    for edge in row {
        journal.push(done_by(parking.user, parking.take(edge.0, edge.1)));
    }
}
