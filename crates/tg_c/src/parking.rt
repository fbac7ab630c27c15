//! How a host parks a user from C, and unparks it.
ghost use Rattle.std.specs.Prelude.{◌≡◌};
ghost use Rattle.tg_c.specs.Parking.{Parks, TellsParked, Unparks, park_room, parking_in as parking_told};

use crate::forms::{DenialOut, ParkingIn, denial_out};
use crate::held::Holder;
use crate::place::StorePlace;
use crate::refusal::CallRefusal;
use crate::tell::{DENIED, DONE};
use std::alloc::Global;
use tg_store::{Parked, Parking};

/// The parking or the unparking that C asks for.
pub fn parking_in(form: &ParkingIn) -> Parking
    ensures { result ≡ parking_told form.now }
{
    Parking {
        host: form.host,
        user: form.user,
        account: form.account,
    }
}

/// A host parks a user of the store in the place.
pub fn park(alloc: Global, place: &mut StorePlace, parking: Parking) -> Result<Parked, CallRefusal>
    ensures { Parks place.old place.new parking (λ told. result ≡ told) }
{
    let Some(mut opened) = place.take(alloc) else {
        return Err(CallRefusal::NotOpen);
    };
    let parked = opened.store.park(parking);
    place.put(opened);
    Ok(parked?)
}

/// A host unparks a user of the store in the place.
pub fn unpark(
    alloc: Global,
    place: &mut StorePlace,
    parking: Parking,
) -> Result<Parked, CallRefusal>
    ensures { Unparks place.old place.new parking (λ told. result ≡ told) }
{
    let Some(mut opened) = place.take(alloc) else {
        return Err(CallRefusal::NotOpen);
    };
    let unparked = opened.store.unpark(parking);
    place.put(opened);
    Ok(unparked?)
}

/// Reports how many edges a parked user had, or an unparked user got, or why the host's grant was denied. Returns the
/// status.
pub fn tell_parked(
    answer: Result<Parked, CallRefusal>,
    edges: &mut u64,
    denial: &mut DenialOut,
) -> u32
    ensures { TellsParked result (park_room edges.old denial.old) (park_room edges.new denial.new) answer }
{
    match &answer {
        Ok(Parked::Done { edges: count }) => {
            *edges = *count;
            DONE
        }
        Ok(Parked::Denied(why)) => {
            *denial = denial_out(why);
            DENIED
        }
        Err(refusal) => refusal.status(),
    }
}
