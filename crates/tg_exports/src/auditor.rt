//! The functions that C calls on an auditor.
ghost use Rattle.std.specs.Prelude.{◌≡◌, false, true};
ghost use Rattle.tg_c.specs.Audits.{AsksPlace, Feeds, ForgetsAudited, OpensAudit, Sweeps};
ghost use Rattle.tg_c.specs.Statuses.{TellsNumber, TellsOnly, status_of};

use std::alloc::Global;
use tg_c::auditor::calls;
use tg_c::auditor::place::AuditorPlace;
use tg_c::forms::{EdgeIn, LimitsIn, ValueIn};
use tg_c::held::Holder;
use tg_c::place::StorePlace;
use tg_c::refusal::CallRefusal;
use tg_c::tell::{DONE, tell_number, tell_only};

/// Opens an auditor in the place, of a store that is opened by the same arguments. `AlreadyOpen` is returned exactly if
/// the place is open. Then comes the first fault of the arguments, as `tg_open` returns it. If the arguments have no
/// fault, only memory can be refused. A refused place is as it was.
#[unsafe(no_mangle)]
pub extern "C" fn tg_auditor_open(
    alloc: Global,
    auditor: &mut AuditorPlace,
    workers: &[ValueIn],
    edges: &[EdgeIn],
    limits: &LimitsIn,
) -> u32
    ensures { OpensAudit auditor.old auditor.new workers.now edges.now limits.now result }
{
    if auditor.is_open {
        return CallRefusal::AlreadyOpen.status();
    }
    match calls::open(alloc, workers, edges, limits) {
        Ok(opened) => {
            auditor.put(opened);
            DONE
        }
        Err(refusal) => refusal.status(),
    }
}

/// Replays the entries that the store holds from the auditor's place on. The number of all entries that passed by then
/// goes to `passed`. `BadPlace` is returned exactly if the auditor's place isn't held. Entries from this place on were
/// given up, or fewer entries were made. If an entry is bad, or memory runs out at it, the auditor's place is that of
/// the entry.
#[unsafe(no_mangle)]
pub extern "C" fn tg_auditor_feed(
    alloc: Global,
    auditor: &mut AuditorPlace,
    store: &mut StorePlace,
    passed: &mut u64,
) -> u32
    ensures { Feeds auditor.old auditor.new store.old store.new (TellsNumber result passed.old passed.new) }
{
    tell_number(calls::feed(alloc, auditor, store), passed)
}

/// The auditor's place goes to `at`. It is the number of entries that passed, and the place of the next entry.
#[unsafe(no_mangle)]
pub extern "C" fn tg_auditor_at(alloc: Global, auditor: &mut AuditorPlace, at: &mut u64) -> u32
    ensures { AsksPlace auditor.old auditor.new (TellsNumber result at.old at.new) }
{
    tell_number(calls::at(alloc, auditor), at)
}

/// Gives up the store's entries before this place, as `tg_forget` does, if the auditor has come as far. `NotAudited` is
/// answered exactly if the auditor is open and hasn't.
#[unsafe(no_mangle)]
pub extern "C" fn tg_auditor_forget(
    alloc: Global,
    auditor: &mut AuditorPlace,
    store: &mut StorePlace,
    upto: u64,
) -> u32
    ensures { ForgetsAudited auditor.old auditor.new store.old store.new upto (TellsOnly result) }
{
    tell_only(calls::forget_audited(alloc, auditor, store, upto))
}

/// Forgets the vertices that no worker reaches any more in the graph that the auditor has come to. No later entry can
/// depend on them. The auditor's place is as it was. Only lack of memory is refused.
#[unsafe(no_mangle)]
pub extern "C" fn tg_auditor_sweep(alloc: Global, auditor: &mut AuditorPlace) -> u32
    ensures { Sweeps auditor.old auditor.new (TellsOnly result) }
{
    tell_only(calls::sweep(alloc, auditor))
}

/// Gives back all memory of the auditor. The place is closed then, whether it was open or not.
#[unsafe(no_mangle)]
pub extern "C" fn tg_auditor_close(alloc: Global, auditor: &mut AuditorPlace) -> u32
    ensures closed { auditor.new.is_open ≡ false }
    ensures done { auditor.old.is_open ≡ true → result ≡ 0 }
    ensures not_open { auditor.old.is_open ≡ false → result ≡ status_of CallRefusal.NotOpen }
{
    match auditor.take(alloc) {
        Some(_opened) => DONE,
        None => CallRefusal::NotOpen.status(),
    }
}
