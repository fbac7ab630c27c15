//! The arguments of an opening from C. They are checked here, and made into the values that a store takes.
ghost use Rattle.std.specs.Prelude.{◌≡◌, IfOk, IfErr, MatchResult, length, map};
ghost use Rattle.tg_space.specs.SpaceTable.{limits_of};
ghost use Rattle.tg_c.specs.Calls.{AreMet, IsAskedFor, IsFirstUnmet, IsMemoryOr, IsRefusedFor, demands_of};
ghost use Rattle.tg_c.specs.Forms.{AreValues, HaveLabels, JoinWorkers, edge_in, value_in};

use crate::forms::{EdgeIn, LimitsIn, ValueIn, label_of};
use crate::refusal::CallRefusal;
use std::alloc::Global;
use tg_model::{Edge, MAX_LASTING_VERTICES, MAX_WORKERS, Opening};
use tg_payload::{Draft, LawPayload, values_of};
use tg_store::Limits;

/// The values of an opening whose arguments were checked.
#[derive(Drop)]
pub struct Asked {
    /// The opening.
    pub opening: Opening,
    /// The limits of the heap.
    pub blocks: Limits,
    /// A draft for each worker, of the state that it is to store.
    pub drafts: Vec<Draft<LawPayload>>,
}

/// Makes an opening, limits and drafts of the arguments from C. All checks come before memory is asked for, in this
/// order:
///
/// 1. the workers' values,
/// 2. the edges' rights,
/// 3. the number of workers,
/// 4. `max_vertices`,
/// 5. the edges' ends,
/// 6. the limits of blocks,
/// 7. the blocks for the workers.
///
/// The first fault is returned. If there is none, only memory can be refused.
pub fn asked_for(
    alloc: Global,
    workers: &[ValueIn],
    edges: &[EdgeIn],
    limits: &LimitsIn,
) -> Result<Asked, CallRefusal>
    ensures asked { IfOk result (IsAskedFor workers.now edges.now limits.now) }
    ensures refused { IfErr result (IsRefusedFor workers.now edges.now limits.now) }
{
    let blocks = check_opening(alloc, workers, edges, limits)?;
    let drafts = drafts_in(alloc, workers)?;
    let values = values_of(alloc, drafts.as_slice())?;
    let edges = edges_in(alloc, edges)?;
    let opening = Opening::lasting(workers.len() as u64, edges, values, limits.max_vertices)?;
    Ok(Asked {
        opening,
        blocks,
        drafts,
    })
}

// Checks the arguments of an opening in the order of `asked_for`, and takes no memory. Returns the limits of the heap,
// or the first fault.
fn check_opening(
    alloc: Global,
    workers: &[ValueIn],
    edges: &[EdgeIn],
    limits: &LimitsIn,
) -> Result<Limits, CallRefusal>
    ensures met { IfOk result (λ blocks. AreMet (demands_of workers.now edges.now limits.now)
        × (blocks ≡ limits_of limits.now.max_blocks limits.now.max_space_blocks)) }
    ensures refused { IfErr result (IsFirstUnmet (demands_of workers.now edges.now limits.now)) }
{
    let count = workers.len() as u64;
    check_values(alloc, workers)?;
    check_rights(edges)?;
    if count < 1 || MAX_WORKERS < count {
        return Err(CallRefusal::BadWorkers);
    }
    let max_vertices = limits.max_vertices;
    if max_vertices < 1 || MAX_LASTING_VERTICES < max_vertices || max_vertices < count {
        return Err(CallRefusal::BadLimits);
    }
    check_ends(count, edges)?;
    let blocks = Limits::large(limits.max_blocks, limits.max_space_blocks)?;
    if limits.max_blocks < count {
        return Err(CallRefusal::HeapFull);
    }
    Ok(blocks)
}

// Whether each worker's value fits its law.
fn check_values(alloc: Global, workers: &[ValueIn]) -> Result<(), CallRefusal>
    ensures { MatchResult result (λ _. AreValues workers.now) (λ why. (¬ AreValues workers.now) × (why ≡ CallRefusal.BadLaw)) }
{
    for worker in workers {
        worker.payload(alloc)?;
    }
    Ok(())
}

/// Whether the bits of each edge are rights.
pub fn check_rights(edges: &[EdgeIn]) -> Result<(), CallRefusal>
    ensures { MatchResult result (λ _. HaveLabels edges.now) (λ why. (¬ HaveLabels edges.now) × (why ≡ CallRefusal.BadRights)) }
{
    for edge in edges {
        label_of(edge.rights)?;
    }
    Ok(())
}

// Whether each edge joins two different workers below `workers`.
fn check_ends(workers: u64, edges: &[EdgeIn]) -> Result<(), CallRefusal>
    ensures { MatchResult result (λ _. JoinWorkers workers edges.now) (λ why. (¬ JoinWorkers workers edges.now) × (why ≡ CallRefusal.BadEdge)) }
{
    for edge in edges {
        if edge.from == edge.to || workers <= edge.from || workers <= edge.to {
            return Err(CallRefusal::BadEdge);
        }
    }
    Ok(())
}

// A draft for each worker, of the state that it is to store.
fn drafts_in(alloc: Global, workers: &[ValueIn]) -> Result<Vec<Draft<LawPayload>>, CallRefusal>
    ensures drafts { IfOk result (λ drafts. AreValues workers.now × (drafts.items ≡ map value_in workers.now)) }
    ensures refused { IfErr result (IsMemoryOr CallRefusal.BadLaw (¬ AreValues workers.now)) }
{
    let mut drafts = Vec::new(alloc);
    for worker in workers {
        drafts.push(Draft::new(alloc, worker.payload(alloc)?)?)?;
    }
    Ok(drafts)
}

/// The edges, with the labels of their rights.
pub fn edges_in(alloc: Global, edges: &[EdgeIn]) -> Result<Vec<Edge>, CallRefusal>
    ensures edges { IfOk result (λ list. HaveLabels edges.now × (list.items ≡ map edge_in edges.now)) }
    ensures refused { IfErr result (IsMemoryOr CallRefusal.BadRights (¬ HaveLabels edges.now)) }
{
    let mut list = Vec::new(alloc);
    for edge in edges {
        let label = label_of(edge.rights)?;
        list.push(Edge {
            from: edge.from,
            to: edge.to,
            label,
        })?;
    }
    Ok(list)
}
