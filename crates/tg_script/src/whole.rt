//! A script that is read to its end before any line is run.
ghost use Rattle.std.specs.Prelude.{◌≡◌, ◌+◌, ℕ, ◌≤◌, List, Some, IfOk};
ghost use Rattle.std.specs.List.{All};
ghost use Rattle.tg_model.specs.Opened.{JoinsWorkers};
ghost use Rattle.tg_script.specs.Lines.{IsOfKeeping, OnlyReads};
ghost use Rattle.tg_script.specs.Opening.{IsCommand};
ghost use Rattle.tg_script.specs.Whole.{ReadsWhole};

use crate::opening::{Front, read_edges};
use std::alloc::Global;
use tg_model::Edge;
use tg_text::{Line, ScriptFault, Sink, Source};

/// The lines of a script, with the edges at its beginning and all lines after them.
#[derive(Debug, Drop)]
pub struct WholeScript {
    pub edges: Vec<Edge>,
    pub lines: Vec<Line>,
}

/// Reads a whole script for so many workers, or up to its first fault. `OutOfMemory` is returned if memory runs out for
/// a line. `ReadFailed` and `WriteFailed` are returned exactly if the source or the sink failed. The source is asked
/// for at most 1,048,577 bytes. Bytes in the sink are finished before the source is asked for a byte that it doesn't
/// hold.
pub fn read_script<S: Source, K: Sink>(
    alloc: Global,
    source: &mut S,
    sink: &mut K,
    workers: u64,
) -> Result<WholeScript, ScriptFault>
    ensures edges { IfOk result (λ whole. All (JoinsWorkers workers) whole.edges.items) }
    ensures commands { IfOk result (λ whole. All IsCommand whole.lines.items) }
    ensures bytes { (bytes : List ℕ) → S.left source.old ≡ Some bytes → (left : List ℕ) × (S.left source.new ≡ Some left) × ReadsWhole workers bytes result left }
    ensures reading { OnlyReads IsOfKeeping S.failures K.failures K.taken source.old source.new sink.old sink.new result }
    ensures asked { S.asked source.new ≤ S.asked source.old + 1048577 }
{
    let Front {
        edges,
        first,
        mut script,
    } = read_edges(alloc, source, sink, workers)?;
    let mut lines = Vec::new(alloc);
    let mut next = first;
    while let Some(line) = next {
        if lines.push(line).is_err() {
            return Err(ScriptFault::OutOfMemory);
        }
        next = script.next(source, sink)?;
    }
    Ok(WholeScript { edges, lines })
}
