//! The picture of a step, as a text for `dot`.

use crate::frame::{Extent, Frame};
use crate::shot::{EdgeView, Shot};
use tg_plain::PlainText;

// Sizes in hundredths of an inch. They are the width of a letter, the height of a box with two lines and with a note
// below them, and the margins around a text.
const LETTER: u64 = 12;

const HEIGHT: u64 = 60;

const NOTED_HEIGHT: u64 = 82;

const BOX_MARGIN: u64 = 20;

const CIRCLE_MARGIN: u64 = 34;

// The most edges that dot draws without lines from their labels.
const MOST_PLAIN: usize = 8;

/// Writes the step as a digraph with all that the frame has, by name. A vertex or an edge that the step doesn't have is
/// invisible.
pub fn write_shot(text: &mut PlainText, frame: &Frame, shot: &Shot) {
    write_head(text, frame, shot);
    write_kinds(text, frame.edges.len() > MOST_PLAIN);
    write_vertices(text, frame, shot);
    write_edges(text, frame, shot);
    text.add("}\n");
}

// The line and its answer above the picture.
fn write_head(text: &mut PlainText, frame: &Frame, shot: &Shot) {
    text.add("digraph step_");
    text.add_number(shot.number);
    text.add(" {\n    graph [fontname=Courier labelloc=t labeljust=l label=\"");
    write_padded(text, shot.heading.bytes.as_slice(), frame.columns);
    write_padded(text, shot.told.bytes.as_slice(), frame.columns);
    text.add("\"]\n");
}

// A line of the label above the picture.
fn write_padded(text: &mut PlainText, line: &[u8], columns: usize) {
    let first = text.len();
    text.add_bytes(line);
    text.pad(first, columns);
    text.add("\\l");
}

// Writes what holds of all vertices and of all edges. The letters of all texts are equally wide, so the columns of a
// text give its width. If there are many edges, a line leads from each label to its edge.
fn write_kinds(text: &mut PlainText, are_many: bool) {
    text.add("    node [fontname=Courier fixedsize=true]\n    edge [fontname=Courier");
    text.add(if are_many { " decorate=true]\n" } else { "]\n" });
}

fn write_vertices(text: &mut PlainText, frame: &Frame, shot: &Shot) {
    let circle = frame.circle_columns();
    for (name, room) in frame.vertices.iter() {
        text.add("    ");
        text.add_number(*name);
        write_room(text, *room, circle);
        write_vertex(text, shot, *name);
    }
}

// The text and the look of a vertex.
fn write_vertex(text: &mut PlainText, shot: &Shot, name: u64) {
    match shot.vertex(name) {
        Some(view) => {
            let look = view.look;
            text.add_number(name);
            text.add("\\n");
            shot.write_state(text, name);
            if shot.has_note(name) {
                text.add("\\n");
                shot.write_note(text, name);
            }
            look.write(text);
        }
        None => text.add("\" style=invis]\n"),
    }
}

// Writes the shape and the size of a vertex, which are the same at all steps. All circles have room for so many
// columns. A vertex with a longer text is an ellipse of the same height.
fn write_room(text: &mut PlainText, room: Extent, circle: usize) {
    if room.ever_subject {
        let height = if room.is_noted { NOTED_HEIGHT } else { HEIGHT };
        text.add(" [shape=box width=");
        write_sizes(text, width_of(room.columns, BOX_MARGIN), height);
    } else if room.columns <= circle {
        let width = width_of(circle, CIRCLE_MARGIN);
        text.add(" [shape=circle width=");
        write_sizes(text, width, width);
    } else {
        // A quarter more, since it narrows above and below the middle.
        let width = width_of(room.columns.saturating_add(room.columns / 4), CIRCLE_MARGIN);
        text.add(" [shape=ellipse width=");
        write_sizes(text, width, width_of(circle, CIRCLE_MARGIN));
    }
}

// The width of what has so many columns and this round them, in hundredths of an inch.
fn width_of(columns: usize, margin: u64) -> u64 {
    (columns as u64)
        .saturating_mul(LETTER)
        .saturating_add(margin)
}

// Writes a width and a height, and the beginning of the label after them.
fn write_sizes(text: &mut PlainText, width: u64, height: u64) {
    write_inches(text, width);
    text.add(" height=");
    write_inches(text, height);
    text.add(" label=\"");
}

// Hundredths of an inch.
fn write_inches(text: &mut PlainText, hundredths: u64) {
    text.add_number(hundredths / 100);
    text.add(".");
    text.add_number(hundredths / 10 % 10);
    text.add_number(hundredths % 10);
}

// The edges, each with a label of its own width for all steps.
fn write_edges(text: &mut PlainText, frame: &Frame, shot: &Shot) {
    for (ends, columns) in frame.edges.iter() {
        write_ends(text, *ends);
        text.add(" ");
        write_edge(text, *columns, shot.edge(*ends));
    }
}

/// Writes the front of an edge's line, as far as into its label.
pub fn write_ends(text: &mut PlainText, ends: (u64, u64)) {
    let (from, to) = ends;
    text.add("    ");
    text.add_number(from);
    text.add(" -> ");
    text.add_number(to);
    text.add(" [label=\"");
}

// The text and the look of an edge.
fn write_edge(text: &mut PlainText, columns: usize, view: Option<EdgeView>) {
    let first = text.len();
    match view {
        Some(view) => {
            let look = view.look;
            view.write(text);
            text.pad(first, columns);
            text.add(" ");
            look.write(text);
        }
        None => {
            text.pad(first, columns);
            text.add(" \" style=invis]\n");
        }
    }
}
