//! The parts of a picture that are highlighted at a step.

use crate::run::changed_by;
use tg_model::{Arguments, Cause, Command, Reply};
use tg_rights::Rights;
use tg_text::{Answer, Line};

/// The parts of a picture that are highlighted at a step, and why.
#[derive(Clone, Copy)]
pub struct Marks {
    /// The vertices that the line names. They are the vertex that acts, and the vertices after the word.
    pub named: [Option<u64>; 3],
    /// The ends of the edge that the line added to or took from.
    pub changed: Option<(u64, u64)>,
    /// The missing rights, and the ends of the edge that lacks them, if the line was denied for rights.
    pub missing: Option<((u64, u64), Rights)>,
    /// The vertex that the line names twice, if it was denied for this reason.
    pub twice: Option<u64>,
    /// The vertex that stores no log, if the line was denied for this reason.
    pub no_log: Option<u64>,
}

/// Nothing is highlighted.
pub const NO_MARKS: Marks = Marks {
    named: [None, None, None],
    changed: None,
    missing: None,
    twice: None,
    no_log: None,
};

impl Marks {
    /// The marks after a line that was answered so.
    pub fn of(line: &Line, answer: &Answer) -> Marks {
        let mut marks = NO_MARKS;
        marks.named = named(line);
        match answer {
            Answer::Reply(Reply::Denied(denial)) => marks.add_cause(denial.cause),
            Answer::Reply(reply) => marks.changed = changed(line, reply),
            _ => (),
        }
        marks
    }

    /// The two vertices that have to be shown even if they aren't there. They are one vertex if it is named twice.
    pub fn needed(&self) -> Option<(u64, u64)> {
        match (self.missing, self.twice) {
            (Some((ends, _)), _) => Some(ends),
            (None, Some(name)) => Some((name, name)),
            (None, None) => None,
        }
    }

    /// Whether the vertex has to be shown even if it isn't there.
    pub fn needs(&self, name: u64) -> bool {
        match self.needed() {
            Some((from, to)) => name == from || name == to,
            None => false,
        }
    }

    /// The edge that has to be shown even if it isn't there.
    pub fn needed_edge(&self) -> Option<(u64, u64)> {
        match self.missing {
            Some((ends, _)) => Some(ends),
            None => self.changed,
        }
    }

    /// The rights that the edge between these lacks.
    pub fn missing_at(&self, ends: (u64, u64)) -> Rights {
        match self.missing {
            Some((at, rights)) if at == ends => rights,
            _ => Rights::empty(),
        }
    }

    // Marks why a line was denied.
    fn add_cause(&mut self, cause: Cause) {
        match cause {
            Cause::Missing { from, to, rights } => self.missing = Some(((from, to), rights)),
            Cause::NotDistinct => self.twice = twice_in(self.named),
            Cause::NotLog => self.no_log = self.named[1],
        }
    }
}

// The ends of the edge that a line changed, where it was answered so.
fn changed(line: &Line, reply: &Reply) -> Option<(u64, u64)> {
    match (*line, reply) {
        (Line::Create { worker, .. } | Line::Spawn { worker, .. }, Reply::Name(name)) => {
            Some((worker, *name))
        }
        (Line::Plain { worker, command }, Reply::Done) => changed_by(worker, &command),
        _ => None,
    }
}

// The first vertex that is in the list twice.
fn twice_in(named: [Option<u64>; 3]) -> Option<u64> {
    let [first, second, third] = named;
    if first == second || first == third {
        first
    } else if second == third {
        second
    } else {
        None
    }
}

// The vertices that a line names. They are the vertex that acts, and the vertices after the word.
fn named(line: &Line) -> [Option<u64>; 3] {
    match *line {
        Line::Plain { worker, command } => named_by(worker, command),
        Line::Create { worker, .. } | Line::Spawn { worker, .. } => [Some(worker), None, None],
        Line::Edge(_) | Line::Full | Line::Minor => [None, None, None],
    }
}

fn named_by(worker: u64, command: Command) -> [Option<u64>; 3] {
    match command.parts().1 {
        Arguments::Bare => [Some(worker), None, None],
        Arguments::Target { target }
        | Arguments::Value { target, .. }
        | Arguments::Rights { target, .. } => [Some(worker), Some(target), None],
        Arguments::Move { via, target, .. } => [Some(worker), Some(via), Some(target)],
    }
}
