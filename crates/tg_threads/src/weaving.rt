//! The results of the lines of a script, put together in its order.
ghost use Rattle.std.specs.Prelude.{◌≡◌, ◌<◌, ℕ, None, Some, IfOk, length, map, slice_index};
ghost use Rattle.std.specs.List.{filter, range_with_len};
ghost use Rattle.tg_threads.specs.Shares.{IsInScriptOrder, TakesNext, all_sessions, is_run_by, runner_of};

use crate::task::{Told, runner};
use crate::work::Finished;
use std::alloc::{AllocError, Global};
use tg_text::{Line, Refusal};

/// The result of each line of the script, in its order. The results come from the sessions, which are in the order of
/// their workers' names. Each session brings one result for each line that it was given. A line that no session runs is
/// refused, because it names no worker. Fails only when out of memory.
pub fn in_script_order<S: Drop>(
    alloc: Global,
    names: &[u64],
    lines: &[Line],
    finished: &[Finished<S>],
) -> Result<Vec<Told>, AllocError>
    requires some { 0 < length names.now }
    requires each { length finished.now ≡ length names.now }
    requires whole { map (λ f. length f.told.items) finished.now ≡
        map (λ k. length (filter (is_run_by names.now k) lines.now)) (range_with_len 0 (length names.now)) }
    ensures { IfOk result (λ told. IsInScriptOrder names.now lines.now (map (λ f. f.told.items) finished.now) told.items) }
{
    let mut seen = vec![in alloc; 0usize; finished.len()]?;
    let mut told = Vec::with_capacity(alloc, lines.len())?;
    for line in lines {
        told.push(next_told(names, finished, &mut seen, line))?;
    }
    Ok(told)
}

// The result of the line, where so many results of each thread were seen before.
fn next_told<S: Drop>(
    names: &[u64],
    finished: &[Finished<S>],
    seen: &mut Vec<usize>,
    line: &Line,
) -> Told
    requires some { 0 < length names.now }
    requires each { length finished.now ≡ length names.now }
    requires places { length seen.old.items ≡ length names.now }
    requires more { (k : ℕ) → runner_of names.now line.now ≡ Some k → slice_index seen.old.items k < slice_index (map (λ f. length f.told.items) finished.now) k }
    ensures nobodys { runner_of names.now line.now ≡ None → (result ≡ Told.Refused Refusal.Worker) × (seen.new.items ≡ seen.old.items) }
    ensures own { TakesNext names.now line.now (map (λ f. f.told.items) finished.now) seen.old.items seen.new.items result }
{
    let Some(thread) = runner(names, line) else {
        return Told::Refused(Refusal::Worker);
    };
    let thread = thread as usize;
    let at = seen[thread];
    let told = finished[thread].told[at];
    seen[thread] = at + 1;
    told
}

/// The sessions of the workers, whose lines were run. After each session come the sessions of the subjects that its
/// lines made. Fails only when out of memory, and the sessions are then lost.
pub fn sessions_of<S: Drop>(alloc: Global, finished: Vec<Finished<S>>) -> Result<Vec<S>, AllocError>
    ensures { IfOk result (λ sessions. sessions.items ≡ all_sessions finished.items) }
{
    let mut sessions = Vec::with_capacity(alloc, finished.len())?;
    for one in finished {
        let Finished {
            session,
            mut spawned,
            told: _,
        } = one;
        sessions.push(session)?;
        sessions.append(&mut spawned)?;
    }
    Ok(sessions)
}
