//! How a worker leaves from C, who holds a right over a vertex, and who has an edge to it.
ghost use Rattle.std.specs.Prelude.{◌≡◌};
ghost use Rattle.tg_c.specs.Calls.{IsShown};
ghost use Rattle.tg_c.specs.Ending.{AreEdgesShown, AsksEdgesTo, AsksHolders, Leaves};

use crate::forms::EdgeOut;
use crate::held::Holder;
use crate::place::StorePlace;
use crate::refusal::CallRefusal;
use crate::tell::{put_edges, put_numbers};
use std::alloc::Global;
use tg_rights::Right;

/// A worker of the store in the place leaves. Returns how many edges it gave up.
pub fn leave(alloc: Global, place: &mut StorePlace, worker: u64) -> Result<u64, CallRefusal>
    ensures { Leaves place.old place.new worker (λ told. result ≡ told) }
{
    let Some(mut opened) = place.take(alloc) else {
        return Err(CallRefusal::NotOpen);
    };
    let count = opened.store.leave(worker);
    place.put(opened);
    Ok(count?)
}

/// Lists which vertices hold the right of a bit over a vertex, as many names as there is room for. Returns how many
/// there are. `BadRights` is returned exactly if the bit is no right's.
pub fn who_holds(
    alloc: Global,
    place: &mut StorePlace,
    right: u64,
    name: u64,
    into: &mut [u64],
) -> Result<u64, CallRefusal>
    ensures { AsksHolders place.old place.new right name (IsShown into.old into.new result) }
{
    let Some(right) = Right::of_bit(right) else {
        return Err(CallRefusal::BadRights);
    };
    let Some(opened) = place.take(alloc) else {
        return Err(CallRefusal::NotOpen);
    };
    let holders = opened.store.who_holds(alloc, right, name);
    place.put(opened);
    let holders = holders?;
    let names = holders.as_slice();
    put_numbers(names, into);
    Ok(names.len() as u64)
}

/// Lists the edges to a vertex, each with the name of the vertex from which it leads, as many as there is room for.
/// Returns how many there are.
pub fn edges_to(
    alloc: Global,
    place: &mut StorePlace,
    name: u64,
    into: &mut [EdgeOut],
) -> Result<u64, CallRefusal>
    ensures { AsksEdgesTo place.old place.new name (AreEdgesShown into.old into.new result) }
{
    let Some(opened) = place.take(alloc) else {
        return Err(CallRefusal::NotOpen);
    };
    let found = opened.store.edges_to(alloc, name);
    place.put(opened);
    let found = found?;
    let edges = found.as_slice();
    put_edges(edges, into);
    Ok(edges.len() as u64)
}
