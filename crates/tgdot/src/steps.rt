//! The steps of a script, each as a digraph.

use crate::frame::Frame;
use crate::options::LineRange;
use crate::picture::write_shot;
use crate::shot::Shot;
use tg_plain::{PlainFault, PlainRun, PlainText, Script};

// The most lines of which the steps are drawn at once.
const MOST_LINES: u64 = 400;

// The most vertices that are drawn at once, in all steps together.
const MOST_VERTICES: u64 = 100_000;

/// Writes a digraph for each line in the range. The start, before the first line, has a digraph too. It has the number
/// of the last edge line. The start is shown if the range begins at an edge line or at line 1.
///
/// All digraphs have the same vertices and edges, in the same order. Therefore the lines are run twice. The first run
/// finds the vertices and edges. If there is no digraph, the fault names the bad line that ends the script, or says
/// that there are no such lines.
pub fn write_steps(
    text: &mut PlainText,
    range: LineRange,
    script: &Script,
) -> Result<(), PlainFault> {
    let lines = count(range, script);
    if lines > MOST_LINES {
        return Err(PlainFault::TooMany {
            most: MOST_LINES,
            what: "lines",
        });
    }
    let steps = if shows_start(range, script) {
        lines + 1
    } else {
        lines
    };
    match MOST_VERTICES.checked_div(steps) {
        Some(most) => write_framed(text, &mut Frame::new(script.alloc, most), range, script),
        None => refuse_range(range, script),
    }
}

// Why no step is drawn.
fn refuse_range(range: LineRange, script: &Script) -> Result<(), PlainFault> {
    script.whole()?;
    Err(PlainFault::NoLine {
        from: range.from,
        lines: script.count(),
    })
}

// Measures the steps, and then writes them, unless there are too many vertices.
fn write_framed(
    text: &mut PlainText,
    frame: &mut Frame,
    range: LineRange,
    script: &Script,
) -> Result<(), PlainFault> {
    run_lines(text, frame, range, script)?;
    if frame.is_over() {
        return Err(PlainFault::TooMany {
            most: MOST_VERTICES,
            what: "vertices in all steps",
        });
    }
    frame.is_whole = true;
    run_lines(text, frame, range, script)
}

// Runs the lines once, and shows them to the frame, or writes them where it is whole.
fn run_lines(
    text: &mut PlainText,
    frame: &mut Frame,
    range: LineRange,
    script: &Script,
) -> Result<(), PlainFault> {
    let mut shot = Shot::new(script.alloc, PlainRun::open(script)?);
    show_lines(text, frame, range, script, &mut shot);
    Ok(())
}

// Shows the start, and what is after each line.
fn show_lines(
    text: &mut PlainText,
    frame: &mut Frame,
    range: LineRange,
    script: &Script,
    shot: &mut Shot,
) {
    shot.open(script);
    if shows_start(range, script) {
        show(text, frame, shot);
    }
    for line in script.lines.as_slice() {
        if line.number > range.to {
            break;
        }
        shot.take(script, line);
        if range.contains(line.number) {
            show(text, frame, shot);
        }
    }
    text.is_short |= shot.is_short() || frame.is_short();
}

// Shows a step to the frame, or writes it where that is whole.
fn show(text: &mut PlainText, frame: &mut Frame, shot: &mut Shot) {
    shot.run.reach();
    if frame.is_whole {
        write_shot(text, frame, shot);
    } else {
        frame.widen(shot);
    }
}

// Whether the graph before the first line is shown. It is shown if the range begins at an edge line, or at line 1.
fn shows_start(range: LineRange, script: &Script) -> bool {
    range.from <= (script.edges.len() as u64).max(1)
}

// How many lines that are no edge lines are in the range.
fn count(range: LineRange, script: &Script) -> u64 {
    let first = (script.edges.len() as u64)
        .saturating_add(1)
        .max(range.from);
    let last = script.count().min(range.to);
    if first > last {
        0
    } else {
        (last - first).saturating_add(1)
    }
}
