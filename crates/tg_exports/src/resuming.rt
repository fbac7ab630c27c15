//! A store in its place that goes on from entries. C hands the entries in one after the other.
ghost use Rattle.tg_c.specs.Resumed.{HandsIn};
ghost use Rattle.tg_c.specs.Statuses.{TellsOnly};

use std::alloc::Global;
use tg_c::entered::is_told;
use tg_c::forms::EdgeOut;
use tg_c::place::StorePlace;
use tg_c::records::RecordOut;
use tg_c::refusal::CallRefusal;
use tg_c::resuming::go_on;
use tg_c::tell::tell_only;

/// Applies the deed of an entry at place `at` again, and compares the reply. The entry is handed in as `tg_entry` wrote
/// it. `BadValues` is returned exactly if no entry is written so. `BadPlace` is returned exactly if `at` isn't the
/// place of the next entry. After `BadEntry` the place is closed, and no memory of the store is kept. If there is no
/// room for the entry, the store has all entries before it. The store goes on if this entry is handed in again.
#[unsafe(no_mangle)]
pub extern "C" fn tg_resume(
    alloc: Global,
    store: &mut StorePlace,
    at: u64,
    written: &RecordOut,
    numbers: &[u64],
    edges: &[EdgeOut],
) -> u32
    ensures { HandsIn written.now numbers.now edges.now at store.old store.new (TellsOnly result) }
{
    if !is_told(alloc, written, numbers, edges) {
        return CallRefusal::BadValues.status();
    }
    tell_only(go_on(alloc, store, at, written, numbers, edges))
}
