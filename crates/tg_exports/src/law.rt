//! Which law a vertex stores numbers by.
ghost use Rattle.tg_c.specs.Laws.{AsksLawOf, AsksLawTo, TellsLaw};

use std::alloc::Global;
use tg_c::forms::LawOut;
use tg_c::law::{law_for_host, law_for_worker, tell_law};
use tg_c::place::StorePlace;

/// The law of what the target stores goes to `out`, if the worker holds r, w or a over the target. If the worker holds
/// none of these rights, `out` reports no law. The journal gets no entry. Takes no memory.
#[unsafe(no_mangle)]
pub extern "C" fn tg_law(
    alloc: Global,
    store: &mut StorePlace,
    worker: u64,
    target: u64,
    out: &mut LawOut,
) -> u32
    ensures { AsksLawTo store.old store.new worker target (TellsLaw result out.old out.new) }
{
    tell_law(law_for_worker(alloc, store, worker, target), out)
}

/// The law of what the vertex with a name stores goes to `out`, whoever has rights over it. It is for the host. If the
/// workers don't reach the vertex, or the name was never made, `out` reports no law. The journal gets no entry.
#[unsafe(no_mangle)]
pub extern "C" fn tg_law_of(
    alloc: Global,
    store: &mut StorePlace,
    name: u64,
    out: &mut LawOut,
) -> u32
    ensures { AsksLawOf store.old store.new name (TellsLaw result out.old out.new) }
{
    tell_law(law_for_host(alloc, store, name), out)
}
