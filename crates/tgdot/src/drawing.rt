//! The picture of the last graph, as a text for `dot`.

use crate::past::PastRun;
use crate::picture::write_ends;
use crate::run::ScriptRun;
use std::alloc::{AllocError, Global};
use tg_entries::History;
use tg_plain::{PlainFault, PlainRun, PlainText, Script};
use tg_rights::Rights;
use tg_text::Line;

// How a vertex is drawn.
#[derive(Clone, Copy)]
struct Standing {
    // Whether it is an active subject.
    is_subject: bool,
    // Whether it is a subject, or was one until it retired.
    was_subject: bool,
    // Whether a subject reaches it.
    is_reached: bool,
}

/// Writes the graph that a script leaves as a digraph, with its vertices by rising name, and then its edges. Vertices
/// that a collection would free are there too. If the script has a fault, nothing is drawn.
pub fn write_last(text: &mut PlainText, script: &Script) -> Result<(), PlainFault> {
    script.whole()?;
    let mut run = ScriptRun::new(script.alloc, PlainRun::open(script)?);
    write_run(text, script, &mut run);
    Ok(())
}

/// Writes the graph that a history leaves as [`write_last`] does. It shows the vertices of its opening or snapshot, and
/// the vertices that its entries make. Fails only when out of memory.
pub fn write_past(
    text: &mut PlainText,
    alloc: Global,
    history: &History,
) -> Result<(), AllocError> {
    let run = PastRun::of(alloc, history)?;
    text.is_short |= run.is_short();
    text.add("digraph store {\n");
    write_past_vertices(text, &run);
    write_past_edges(text, &run);
    text.add("}\n");
    Ok(())
}

fn write_past_vertices(text: &mut PlainText, run: &PastRun) {
    for name in run.names.iter() {
        let standing = Standing {
            is_subject: run.is_subject(*name),
            was_subject: run.ever_subjects.contains(name),
            is_reached: run.is_reached(*name),
        };
        write_vertex(text, *name, standing);
    }
}

fn write_past_edges(text: &mut PlainText, run: &PastRun) {
    for ends in run.ends.iter() {
        write_edge(text, *ends, run.held(*ends), run.is_reached(ends.0));
    }
}

// Runs the lines that are no collection, and writes the graph that they leave.
fn write_run(text: &mut PlainText, script: &Script, run: &mut ScriptRun) {
    run.open(script);
    for line in script.lines.as_slice() {
        if !matches!(line.line, Line::Full) {
            run.take(script, &line.line);
        }
    }
    run.reach();
    text.is_short |= run.is_short();
    write_digraph(text, run);
}

// Writes the digraph.
fn write_digraph(text: &mut PlainText, run: &ScriptRun) {
    text.add("digraph store {\n");
    write_vertices(text, run);
    write_edges(text, run);
    text.add("}\n");
}

fn write_vertices(text: &mut PlainText, run: &ScriptRun) {
    for name in run.names.iter() {
        let standing = Standing {
            is_subject: run.is_subject(*name),
            was_subject: run.was_subject(*name),
            is_reached: run.is_reached(*name),
        };
        write_vertex(text, *name, standing);
    }
}

fn write_edges(text: &mut PlainText, run: &ScriptRun) {
    for ends in run.edges.iter() {
        write_edge(text, *ends, run.held(*ends), run.is_reached(ends.0));
    }
}

// Writes a vertex, which is a box or a circle.
fn write_vertex(text: &mut PlainText, name: u64, standing: Standing) {
    text.add("    ");
    text.add_number(name);
    text.add(shape_of(standing));
    text.add(colour_of(standing.is_reached));
}

// The shape of a vertex. A subject that retired has a dashed border.
fn shape_of(standing: Standing) -> &'static str {
    if standing.is_subject {
        " [shape=box "
    } else if standing.was_subject {
        " [shape=box style=dashed "
    } else {
        " [shape=circle "
    }
}

// An edge, with the letters of its rights, where it is there.
fn write_edge(text: &mut PlainText, ends: (u64, u64), held: Rights, is_reached: bool) {
    if !held.is_empty() {
        write_ends(text, ends);
        text.add_rights(held);
        text.add("\" ");
        text.add(colour_of(is_reached));
    }
}

// The colour of what is reached, and of what isn't.
fn colour_of(is_reached: bool) -> &'static str {
    if is_reached {
        "color=black fontcolor=black]\n"
    } else {
        "color=grey fontcolor=grey]\n"
    }
}
