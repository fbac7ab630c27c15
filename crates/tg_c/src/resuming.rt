//! A store in its place that goes on from entries. C hands the entries in one after the other.
ghost use Rattle.std.specs.Prelude.{◌≡◌};
ghost use Rattle.tg_c.specs.Inner.Reading.{entry_read};
ghost use Rattle.tg_c.specs.Resumed.{GoesOnIn, is_kept as is_kept_after};

use crate::forms::EdgeOut;
use crate::held::Holder;
use crate::place::StorePlace;
use crate::records::RecordOut;
use crate::refusal::{CallRefusal, ResumeFault};
use std::alloc::Global;

/// The store in the place goes on from an entry. After `BadEntry` the place is closed.
pub fn go_on(
    alloc: Global,
    place: &mut StorePlace,
    at: u64,
    written: &RecordOut,
    numbers: &[u64],
    edges: &[EdgeOut],
) -> Result<(), CallRefusal>
    ensures { GoesOnIn at (entry_read written.now numbers.now edges.now) place.old place.new (λ told. result ≡ told) }
{
    let Some(mut opened) = place.take(alloc) else {
        return Err(CallRefusal::NotOpen);
    };
    let resumed = opened.resume(alloc, at, written, numbers, edges);
    if !is_kept(&resumed) {
        drop(opened);
        return Err(CallRefusal::BadEntry);
    }
    place.put(opened);
    Ok(resumed?)
}

// Whether the store is kept.
fn is_kept(resumed: &Result<(), ResumeFault>) -> bool
    ensures { result ≡ is_kept_after resumed.now }
{
    match resumed {
        Err(ResumeFault::BadEntry) => false,
        _ => true,
    }
}
