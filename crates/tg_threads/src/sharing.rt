//! The lines of a script, shared out among the workers' sessions.
ghost use Rattle.std.specs.Prelude.{◌≡◌, ◌<◌, ◌++◌, ◌∷◌, [], IfOk, OnOk, length, map};
ghost use Rattle.std.specs.List.{All};
ghost use Rattle.std.specs.Vec.Iter.{into_iter_items};
ghost use Rattle.tg_threads.specs.Boxes.{box_of, boxed, boxed_of, stock_behind};
ghost use Rattle.tg_threads.specs.Shares.{all_shares, lines_in};

use crate::task::{Task, runner};
use crate::work::Work;
use std::alloc::{AllocError, Global};
use std::vec::IntoIter;
use tg_payload::{Draft, Payload};
use tg_text::Line;

/// Gives each session the lines that it has to run, in script order. Each create line and each spawn line gets its
/// payload of the stock, by its place among these lines. There is a session for each worker, in the order of their
/// names. The payload of a line that names no worker is dropped. Fails only if memory runs out, and then drops all that
/// was handed in.
pub fn share_out<S: Drop, P: Payload>(
    alloc: Global,
    names: &[u64],
    sessions: Vec<S>,
    stock: Vec<Draft<P>>,
    lines: &[Line],
) -> Result<Vec<Work<S, P>>, AllocError>
    requires some { 0 < length names.now }
    requires each { length sessions.items ≡ length names.now }
    ensures sessions { IfOk result (λ works. map (λ w. w.session) works.items ≡ sessions.items) }
    ensures lines { IfOk result (λ works. map lines_in works.items ≡ all_shares names.now (boxed stock.items lines.now)) }
{
    let tasks = box_lines(alloc, stock, lines)?;
    let works = works_of(alloc, sessions)?;
    deal(names, works, tasks)
}

// Each line with its payload.
fn box_lines<P: Payload>(
    alloc: Global,
    stock: Vec<Draft<P>>,
    lines: &[Line],
) -> Result<Vec<Task<P>>, AllocError>
    ensures { IfOk result (λ tasks. map boxed_of tasks.items ≡ boxed stock.items lines.now) }
{
    let mut left = stock.into_iter();
    let mut tasks = Vec::with_capacity(alloc, lines.len())?;
    for line in lines {
        let draft = take_box(&mut left, line);
        tasks.push(Task { line: *line, draft })?;
    }
    Ok(tasks)
}

// The first payload that is left, for a line that makes a vertex.
fn take_box<P: Payload>(left: &mut IntoIter<Draft<P>>, line: &Line) -> Option<Draft<P>>
    ensures first { result ≡ box_of (into_iter_items left.old) line.now }
    ensures left { into_iter_items left.new ≡ stock_behind (into_iter_items left.old) line.now }
{
    match line {
        Line::Create { .. } | Line::Spawn { .. } => left.next(),
        _ => None,
    }
}

// Each session, with no line yet.
fn works_of<S: Drop, P: Payload>(
    alloc: Global,
    sessions: Vec<S>,
) -> Result<Vec<Work<S, P>>, AllocError>
    ensures sessions { IfOk result (λ works. map (λ w. w.session) works.items ≡ sessions.items) }
    ensures none { IfOk result (λ works. All (λ w. w.tasks.items ≡ []) works.items) }
{
    let mut works = Vec::with_capacity(alloc, sessions.len())?;
    for session in sessions {
        works.push(Work {
            session,
            tasks: Vec::new(alloc),
        })?;
    }
    Ok(works)
}

// Gives each worker the lines that its session has to run.
fn deal<S: Drop, P: Payload>(
    names: &[u64],
    mut works: Vec<Work<S, P>>,
    tasks: Vec<Task<P>>,
) -> Result<Vec<Work<S, P>>, AllocError>
    requires some { 0 < length names.now }
    requires each { length works.items ≡ length names.now }
    requires none { All (λ w. w.tasks.items ≡ []) works.items }
    ensures sessions { IfOk result (λ dealt. map (λ w. w.session) dealt.items ≡ map (λ w. w.session) works.items) }
    ensures lines { IfOk result (λ dealt. map lines_in dealt.items ≡ all_shares names.now (map boxed_of tasks.items)) }
{
    for task in tasks {
        match runner(names, &task.line) {
            Some(thread) => give(&mut works[thread as usize], task)?,
            None => drop(task),
        }
    }
    Ok(works)
}

// One line more for this worker.
fn give<S: Drop, P: Payload>(work: &mut Work<S, P>, task: Task<P>) -> Result<(), AllocError>
    ensures session { work.new.session ≡ work.old.session }
    ensures lines { OnOk result (lines_in work.new ≡ lines_in work.old ++ boxed_of task ∷ []) }
{
    work.tasks.push(task)?;
    Ok(())
}
