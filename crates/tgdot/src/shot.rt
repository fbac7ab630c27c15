//! The parts of a step that are shown.

use crate::look::{Colour, Stroke, Style};
use crate::marks::{Marks, NO_MARKS};
use crate::run::ScriptRun;
use std::alloc::Global;
use tg_model::{Law, Value};
use tg_plain::{PlainRun, PlainText, Script, ScriptLine};
use tg_rights::Rights;
use tg_text::write_line;

/// The graph of a run at a step, with the answer to its line, and the marks.
#[derive(Drop)]
pub struct Shot {
    /// The number of the line.
    pub number: u64,
    /// The number and the line.
    pub heading: PlainText,
    /// The answer to the line.
    pub told: PlainText,
    /// The marks on the parts that are highlighted.
    pub marks: Marks,
    /// The run.
    pub run: ScriptRun,
}

/// A vertex in a picture.
#[derive(Clone, Copy)]
pub struct VertexView {
    /// Whether it is a subject, or was one until it retired.
    pub ever_subject: bool,
    /// How it looks.
    pub look: Style,
}

/// An edge in a picture. Its text has the rights that are held, and the rights that are missing.
#[derive(Clone, Copy)]
pub struct EdgeView {
    held: Rights,
    missing: Rights,
    /// How it looks.
    pub look: Style,
}

impl Shot {
    /// A graph without anything to show yet.
    pub fn new(alloc: Global, plain: PlainRun) -> Shot {
        Shot {
            number: 0,
            heading: PlainText::new(alloc),
            told: PlainText::new(alloc),
            marks: NO_MARKS,
            run: ScriptRun::new(alloc, plain),
        }
    }

    /// Shows the graph before the first command. Its number is the number of the last edge line, or 0.
    pub fn open(&mut self, script: &Script) {
        self.number = script.edges.len() as u64;
        self.heading.add("start");
        self.run.open(script);
    }

    /// Whether memory ran out for a part of it.
    pub fn is_short(&self) -> bool {
        self.run.is_short() || self.heading.is_short || self.told.is_short
    }

    /// Runs a line of the script, and shows what is after it.
    pub fn take(&mut self, script: &Script, line: &ScriptLine) {
        self.head(line);
        let answer = self.run.take(script, &line.line);
        self.marks = Marks::of(&line.line, &answer);
        self.told.clear();
        self.told.add_answer(&answer);
    }

    // Puts a line and its number over the picture.
    fn head(&mut self, line: &ScriptLine) {
        self.number = line.number;
        self.heading.clear();
        self.heading.add_number(line.number);
        self.heading.add(": ");
        self.heading.is_short |= write_line(&mut self.heading, line.line).is_err();
    }

    /// The vertex of this name, if it is shown. A vertex that isn't there is shown if the marks need it.
    pub fn vertex(&self, name: u64) -> Option<VertexView> {
        if !self.run.names.contains(&name) && !self.marks.needs(name) {
            return None;
        }
        Some(VertexView {
            ever_subject: self.run.was_subject(name),
            look: self.look_of(name),
        })
    }

    /// Writes the second line of a vertex, below its name. It has the law and the state, or says that the vertex isn't
    /// there.
    pub fn write_state(&self, text: &mut PlainText, name: u64) {
        match self.run.value(name) {
            Some(value) => write_value(text, value),
            None => text.add("not there"),
        }
    }

    /// Writes the third line of a vertex, or nothing if there is nothing to note.
    pub fn write_note(&self, text: &mut PlainText, name: u64) {
        let mut space = "";
        for (holds, note) in self.notes(name) {
            if holds {
                text.add(space);
                text.add(note);
                space = " ";
            }
        }
    }

    /// Whether there is something to note.
    pub fn has_note(&self, name: u64) -> bool {
        let [(is_left, _), (is_twice, _), (is_no_log, _)] = self.notes(name);
        is_left || is_twice || is_no_log
    }

    // What may be noted of a vertex, and whether it is. The border of a subject that retired isn't dotted where no
    // subject reaches it, so a word says that.
    fn notes(&self, name: u64) -> [(bool, &'static str); 3] {
        let is_left = self.run.has_retired(name) && !self.run.is_reached(name);
        [
            (is_left, "unreached"),
            (self.marks.twice == Some(name), "twice"),
            (self.marks.no_log == Some(name), "no log"),
        ]
    }

    // How a vertex looks.
    fn look_of(&self, name: u64) -> Style {
        let named = Some(name);
        let is_bold = self.marks.named.contains(&named);
        let mut look = Style::reached(self.run.is_reached(name), is_bold);
        if self.run.has_retired(name) {
            look.stroke = Stroke::Dashed;
        }
        if self.marks.twice == named || self.marks.no_log == named {
            look.colour = Colour::Red;
        }
        look
    }

    /// The edge with these ends, if it is shown. An edge is shown if it is there, if it lacks rights, or if it has just
    /// lost its last right.
    pub fn edge(&self, ends: (u64, u64)) -> Option<EdgeView> {
        let held = self.run.held(ends);
        let missing = self.marks.missing_at(ends);
        let is_changed = self.marks.changed == Some(ends);
        let mut look = Style::reached(self.run.is_reached(ends.0), is_changed);
        if !missing.is_empty() {
            look.colour = Colour::Red;
            look.stroke = Stroke::Dashed;
        } else if held.is_empty() {
            if !is_changed {
                return None;
            }
            look.stroke = Stroke::Dotted;
        }
        Some(EdgeView {
            held,
            missing,
            look,
        })
    }
}

impl EdgeView {
    /// Writes the text of the edge.
    pub fn write(self, text: &mut PlainText) {
        text.add_rights(self.held);
        if !self.missing.is_empty() {
            text.add(if self.held.is_empty() { "no " } else { " no " });
            text.add_rights(self.missing);
        } else if self.held.is_empty() {
            text.add("none");
        }
    }
}

// Writes the law and the state, with a space before each number.
fn write_value(text: &mut PlainText, value: &Value) {
    text.add(word_of(value.law));
    for number in value.state.as_slice() {
        text.add(" ");
        text.add_number(*number);
    }
}

// The word for a law.
fn word_of(law: Law) -> &'static str {
    match law {
        Law::Cell => "cell",
        Law::Sum => "sum",
        Law::Max => "max",
        Law::Log(_) => "log",
    }
}
