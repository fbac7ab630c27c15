//! How a worker leaves from C, who holds a right over a vertex, and who has an edge to it.
ghost use Rattle.tg_c.specs.Ending.{AsksEdgesTo, AsksHolders, Leaves};
ghost use Rattle.tg_c.specs.Statuses.{TellsEdges, TellsNames, TellsNumber, list_out, names_out};

use std::alloc::Global;
use tg_c::ending::{edges_to, leave, who_holds};
use tg_c::forms::EdgeOut;
use tg_c::place::StorePlace;
use tg_c::tell::tell_number;

/// The worker gives up each of its edges, by rising name, and retires. The journal has an entry for each remove and for
/// the retire. The number of these edges goes to `count`.
#[unsafe(no_mangle)]
pub extern "C" fn tg_leave(
    alloc: Global,
    store: &mut StorePlace,
    worker: u64,
    count: &mut u64,
) -> u32
    ensures { Leaves store.old store.new worker (TellsNumber result count.old count.new) }
{
    tell_number(leave(alloc, store, worker), count)
}

/// Lists which vertices hold the right of this bit over the vertex with a name, among all vertices that the workers
/// reach. The first names go to `names`, by rising name, as many as there is room for. Their number goes to `count`.
/// The journal gets no entry.
#[unsafe(no_mangle)]
pub extern "C" fn tg_who_holds(
    alloc: Global,
    store: &mut StorePlace,
    right: u64,
    name: u64,
    names: &mut [u64],
    count: &mut u64,
) -> u32
    ensures { AsksHolders store.old store.new right name (TellsNames result
        (names_out count.old names.old)
        (names_out count.new names.new)) }
{
    tell_number(who_holds(alloc, store, right, name, names), count)
}

/// Lists the edges to the vertex with a name, of all vertices that the workers reach. The first edges go to `edges`, by
/// rising name of the vertex from which each leads, as many as there is room for. Each has this name and its rights.
/// Their number goes to `count`. The journal gets no entry.
#[unsafe(no_mangle)]
pub extern "C" fn tg_edges_to(
    alloc: Global,
    store: &mut StorePlace,
    name: u64,
    edges: &mut [EdgeOut],
    count: &mut u64,
) -> u32
    ensures { AsksEdgesTo store.old store.new name (TellsEdges result
        (list_out count.old edges.old)
        (list_out count.new edges.new)) }
{
    tell_number(edges_to(alloc, store, name, edges), count)
}
