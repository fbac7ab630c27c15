//! Helpers that meet at a gate, and heaps that are full.
ghost use Rattle.std.specs.Prelude.{◌≤◌};

use super::sound::are_sound;
use super::{CELLS, Content, heap_of, refusal_by, rows_of, same_at_a_seat};
use std::alloc::Global;
use std::sync::Wait;
use std::sync::atomic::{AtomicU64, Ordering};
use std::thread;
use std::thread::Threads;
use tg_parallel::{Gate, HelpersFault, NoGate};
use tg_space::{Kind, Root, Spaces};

// A heap to collect: what is in it, how many blocks each space may have, and how many first cells have their rows as
// roots.
#[derive(Clone, Copy)]
struct TriedHeap {
    content: Content,
    space_blocks: u64,
    rows: u64,
}

// Why a full collection of a sound heap by so many helpers, who pass the gate, is refused, where it is. One by a seat
// is as one by one thread.
fn refusal_of<R: Threads + Wait + Sync, G: Gate>(
    rt: &R,
    alloc: Global,
    spaces: &Spaces,
    roots: &[Root],
    helpers: u32,
    gate: &G,
) -> Option<Option<HelpersFault>>
    requires { (1 ≤ helpers) × (helpers ≤ 8) }
{
    if !are_sound(spaces, roots) || !same_at_a_seat(alloc, spaces, roots, Kind::Full) {
        return None;
    }
    let kind = Kind::Full;
    Some(refusal_by(rt, alloc, spaces, roots, kind, helpers, gate))
}

// The refusal of a collection of this heap by so many helpers, or none.
fn refusal<R: Threads + Wait + Sync, G: Gate>(
    rt: &R,
    alloc: Global,
    heap: TriedHeap,
    helpers: u32,
    gate: &G,
) -> Option<Option<HelpersFault>>
    requires { (1 ≤ helpers) × (helpers ≤ 8) }
{
    let roots = rows_of(alloc, heap.content, heap.rows)?;
    let spaces = heap_of(alloc, heap.content, heap.space_blocks)?;
    let refusal = refusal_of(rt, alloc, &spaces, &roots, helpers, gate);
    drop(spaces);
    refusal
}

// A gate at which each of so many helpers waits at its first pass for all others, for so many turns, until one was
// missed. A helper that comes a second time lets the others go first, so that one of two has claimed a chunk before all
// are gone.
#[derive(Drop)]
struct HelpersMeet {
    // How often each helper has passed.
    passes: Vec<AtomicU64>,
    missed: AtomicU64,
}

impl HelpersMeet {
    fn of(alloc: Global, helpers: u32) -> Option<HelpersMeet> {
        let mut passes = Vec::new(alloc);
        for _ in 0..helpers {
            passes.push(AtomicU64::new(0)).ok()?;
        }
        Some(HelpersMeet {
            passes,
            missed: AtomicU64::new(0),
        })
    }

    fn have_all_come(&self) -> bool {
        let mut have_come = true;
        for passes in &self.passes {
            have_come &= passes.load(Ordering::SeqCst) > 0;
        }
        have_come
    }

    fn is_missed(&self) -> bool {
        self.missed.load(Ordering::SeqCst) > 0
    }

    fn passes(&self) -> u64 {
        let mut all = 0u64;
        for passes in &self.passes {
            all = all.wrapping_add(passes.load(Ordering::SeqCst));
        }
        all
    }
}

impl Gate for HelpersMeet {
    fn pass(&self, helper: u32) {
        if let Some(passes) = self.passes.get(helper as usize) {
            if passes.fetch_add(1, Ordering::SeqCst) == 1 {
                give_way();
            }
        }
        for _ in 0..100_000_000u64 {
            if self.have_all_come() || self.is_missed() {
                return;
            }
            thread::yield_now();
        }
        self.missed.store(1, Ordering::SeqCst);
    }
}

// Lets other threads go first.
fn give_way() {
    for _ in 0..20_000u64 {
        thread::yield_now();
    }
}

// What helpers who met at a gate left: how often they passed it, whether one missed another, and why they were refused,
// where they were.
type Met = (u64, bool, Option<HelpersFault>);

// A full collection of the heap by so many helpers who meet.
fn met_on<R: Threads + Wait + Sync>(
    rt: &R,
    alloc: Global,
    heap: TriedHeap,
    helpers: u32,
) -> Option<Met>
    requires { (1 ≤ helpers) × (helpers ≤ 8) }
{
    let gate = HelpersMeet::of(alloc, helpers)?;
    let refusal = refusal(rt, alloc, heap, helpers, &gate)?;
    Some((gate.passes(), gate.is_missed(), refusal))
}

// What helpers who meet leave of all linked cells, by one, two, three and eight.
fn met_on_linked<R: Threads + Wait + Sync>(rt: &R, alloc: Global) -> [Option<Met>; 4] {
    let heap = TriedHeap {
        content: Content::Linked,
        space_blocks: 16,
        rows: CELLS,
    };
    [
        met_on(rt, alloc, heap, 1),
        met_on(rt, alloc, heap, 2),
        met_on(rt, alloc, heap, 3),
        met_on(rt, alloc, heap, 8),
    ]
}

// All helpers met, passed the gate so often, and were served.
fn served_with(passes: u64) -> Option<Met> {
    Some((passes, false, None))
}

// Each object is named by several, which the helpers copy side by side. The gate is passed for each of twelve chunks of
// roots, and once more by each helper.
#[test]
fn helpers_at_one_gate(rt: HostRuntime) {
    let wanted = [
        served_with(13),
        served_with(14),
        served_with(15),
        served_with(20),
    ];
    assert!(rt; met_on_linked(&rt, rt.alloc()) == wanted);
}

// Whether two helpers are refused in a heap that needs a block for each helper and may have one, if their passes are
// right.
fn is_one_refused<R: Threads + Wait + Sync>(rt: &R, alloc: Global) -> Option<bool> {
    let heap = TriedHeap {
        content: Content::Alone,
        space_blocks: 1,
        rows: 64,
    };
    let (passes, _, refusal) = met_on(rt, alloc, heap, 2)?;
    match (refusal, passes) {
        (Some(HelpersFault::HeapFull), 9) => Some(true),
        (None, 10) => Some(false),
        _ => None,
    }
}

// Whether one of twenty such collections is refused, where all are as they should be.
fn is_one_of_twenty_refused<R: Threads + Wait + Sync>(rt: &R, alloc: Global) -> Option<bool> {
    let mut refused = 0u64;
    for _ in 0..20 {
        refused = refused.wrapping_add(u64::from(is_one_refused(rt, alloc)?));
    }
    Some(refused > 0)
}

// Each of two helpers needs a block, of which there may be one. Where one helper is refused for that, the other claims
// all chunks that are left, and passes the gate once more at its end. Only where one helper is too late to claim a
// chunk, neither is refused.
#[test]
fn a_refused_helper_stops_no_other(rt: HostRuntime) {
    assert!(rt; is_one_of_twenty_refused(&rt, rt.alloc()) == Some(true));
}

// Why a collection by so many helpers is refused where all cells live, and Old may have a block less than they need.
fn refusal_of_full<R: Threads + Wait + Sync>(
    rt: &R,
    alloc: Global,
    helpers: u32,
) -> Option<Option<HelpersFault>>
    requires { (1 ≤ helpers) × (helpers ≤ 8) }
{
    let heap = TriedHeap {
        content: Content::Alone,
        space_blocks: 2,
        rows: CELLS,
    };
    refusal(rt, alloc, heap, helpers, &NoGate)
}

#[test]
fn a_full_heap_is_refused(rt: HostRuntime) {
    let refusals = [
        refusal_of_full(&rt, rt.alloc(), 1),
        refusal_of_full(&rt, rt.alloc(), 4),
    ];
    assert!(rt; refusals == [Some(Some(HelpersFault::HeapFull)); 2]);
}
