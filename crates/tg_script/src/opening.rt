//! The opening of a run. It has the edge lines of its script, and the store that they make.
ghost use Rattle.std.specs.Prelude.{◌≡◌, ℕ, List, Some, IfOk};
ghost use Rattle.std.specs.List.{All};
ghost use Rattle.tg_model.specs.Opened.{JoinsWorkers};
ghost use Rattle.tg_script.specs.Opening.{OpensStore, plan_by};
ghost use Rattle.tg_script.specs.Script.{MayStart};
ghost use Rattle.tg_script.specs.Inner.Beginning.{AsksForEdges, IsFront, ReadsEdges};

use crate::run_script::Settings;
use crate::script::Script;
use std::alloc::Global;
use tg_model::{Edge, MAX_VERTICES, Opening};
use tg_payload::{Draft, Payload, values_of};
use tg_store::{OpenFault, Store};
use tg_text::{Line, ScriptFault, Sink, Source};

/// The edges at the beginning of a script, the first line after them, and the rest of the script.
#[derive(Drop)]
pub(crate) struct Front {
    pub(crate) edges: Vec<Edge>,
    pub(crate) first: Option<Line>,
    pub(crate) script: Script,
}

/// Reads the edge lines at the beginning of a script for so many workers, and the first line after them if there is
/// one.
pub(crate) fn read_edges<S: Source, K: Sink>(
    alloc: Global,
    source: &mut S,
    sink: &mut K,
    workers: u64,
) -> Result<Front, ScriptFault>
    ensures front { IfOk result (IsFront workers) }
    ensures bytes { (bytes : List ℕ) → S.left source.old ≡ Some bytes → (rest : List ℕ) × (S.left source.new ≡ Some rest) × ReadsEdges workers bytes result rest }
    ensures reading { AsksForEdges S.asked S.failures K.failures K.taken source.old source.new sink.old sink.new result }
{
    let mut script = Script::new(workers);
    let mut edges = Vec::new(alloc);
    while let Some(line) = script.next(source, sink)? {
        let Line::Edge(edge) = line else {
            return Ok(Front {
                edges,
                first: Some(line),
                script,
            });
        };
        if edges.push(edge).is_err() {
            return Err(ScriptFault::OutOfMemory);
        }
    }
    Ok(Front {
        edges,
        first: None,
        script,
    })
}

/// Opens the store by the settings, with the edges between the workers and their payloads. The call is refused if a
/// number of vertices is out of its range. It is also refused if memory runs out, or if the heap may have fewer blocks
/// than there are workers.
pub fn open_store<P: Payload>(
    alloc: Global,
    settings: &Settings,
    edges: Vec<Edge>,
    drafts: Vec<Draft<P>>,
) -> Result<Store<P>, ScriptFault>
    requires startable { MayStart settings.now drafts.items }
    requires edges { All (JoinsWorkers settings.now.workers) edges.items }
    ensures opened { OpensStore (plan_by settings.now edges.items drafts.items) settings.now.limits.max_blocks result }
    ensures limits { IfOk result (λ store. store.heap.table.limits ≡ settings.now.limits) }
{
    let Settings {
        workers,
        max_vertices,
        limits,
        ..
    } = *settings;
    if max_vertices < 1 || MAX_VERTICES < max_vertices || max_vertices < workers {
        return Err(ScriptFault::BadLimits);
    }
    let Ok(values) = values_of(alloc, drafts.as_slice()) else {
        return Err(ScriptFault::OutOfMemory);
    };
    // Workers, limits, edges and values are as asked.
    let Ok(opening) = Opening::new(workers, edges, values, max_vertices) else {
        unreachable!()
    };
    match Store::open(alloc, opening, limits, drafts) {
        Ok(store) => Ok(store),
        Err(refused) => match refused.why {
            OpenFault::HeapFull => Err(ScriptFault::HeapFull),
            OpenFault::OutOfMemory => Err(ScriptFault::OutOfMemory),
            // The drafts have the values that were copied from them.
            OpenFault::PayloadMismatch { .. } => unreachable!(),
        },
    }
}
