//! How a host parks a user from C, and unparks it.
ghost use Rattle.tg_c.specs.Parking.{Parks, TellsParked, Unparks, park_room, parking_in as parking_told};

use std::alloc::Global;
use tg_c::forms::{DenialOut, ParkingIn};
use tg_c::parking::{park, parking_in, tell_parked, unpark};
use tg_c::place::StorePlace;

/// What the user holds goes into the account, and the user leaves. The host grants the user grant over the account. The
/// user grants the account each of its edges, by rising name, removes its grant, and leaves as by `tg_leave`. This is
/// done completely, with an entry for each command, or left undone. The number of edges of the user goes to `edges`. If
/// the host's grant is denied, its entry is the only entry.
#[unsafe(no_mangle)]
pub extern "C" fn tg_park(
    alloc: Global,
    store: &mut StorePlace,
    parking: &ParkingIn,
    edges: &mut u64,
    denial: &mut DenialOut,
) -> u32
    ensures parked { Parks store.old store.new (parking_told parking.now) (TellsParked result
        (park_room edges.old denial.old) (park_room edges.new denial.new)) }
{
    tell_parked(park(alloc, store, parking_in(parking)), edges, denial)
}

/// A new user takes out what an account holds. The host grants the user take over the account. The user takes each edge
/// of the account, by rising name, and removes its take. Then the host removes all that it holds over the account. This
/// is done completely, with an entry for each command, or left undone. The number of edges of the account goes to
/// `edges`. If the host's grant is denied, its entry is the only entry.
#[unsafe(no_mangle)]
pub extern "C" fn tg_unpark(
    alloc: Global,
    store: &mut StorePlace,
    parking: &ParkingIn,
    edges: &mut u64,
    denial: &mut DenialOut,
) -> u32
    ensures unparked { Unparks store.old store.new (parking_told parking.now) (TellsParked result
        (park_room edges.old denial.old) (park_room edges.new denial.new)) }
{
    tell_parked(unpark(alloc, store, parking_in(parking)), edges, denial)
}
