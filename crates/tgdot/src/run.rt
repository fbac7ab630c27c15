//! A script, run on the plain graph.

use crate::reach::Reach;
use std::alloc::{AllocError, Global};
use std::collections::BTreeSet;
use std::mem;
use tg_model::{Command, Reply, Value};
use tg_plain::{PlainRun, Script, value_of};
use tg_rights::Rights;
use tg_text::{Answer, Line, Refusal, StockItem};

/// The run of a script. The plain graph of `tg_plain` says what the rules do. The run also keeps what each vertex
/// stores, and between which vertices there are edges. So an edge is found without a look at each pair of vertices. The
/// run remembers whether memory ran out for a part of it.
#[derive(Drop)]
pub struct ScriptRun {
    alloc: Global,
    plain: PlainRun,
    // What all vertices store that were ever made, by name.
    values: Vec<Value>,
    // The names of the vertices that are subjects, or were subjects until they retired.
    ever_subjects: BTreeSet<u64>,
    /// The names of the vertices that no collection took.
    pub names: BTreeSet<u64>,
    /// The ends of the edges. Edges from vertices that a collection freed are among them.
    pub edges: BTreeSet<(u64, u64)>,
    // What the subjects reached when this was last looked for.
    reached: Reach,
    // Whether memory ran out.
    is_short: bool,
}

impl ScriptRun {
    /// A run with a graph, before its first line.
    pub fn new(alloc: Global, plain: PlainRun) -> ScriptRun {
        ScriptRun {
            alloc,
            plain,
            values: Vec::new(alloc),
            ever_subjects: BTreeSet::new(alloc),
            names: BTreeSet::new(alloc),
            edges: BTreeSet::new(alloc),
            reached: Reach::new(alloc),
            is_short: false,
        }
    }

    /// Adds the workers of a script and their edges, with which the graph began.
    pub fn open(&mut self, script: &Script) {
        for name in 0..script.workers {
            self.add_vertex(name, true, StockItem::Cell);
        }
        for edge in script.edges.as_slice() {
            self.note_edge((edge.from, edge.to));
        }
    }

    /// Whether memory ran out.
    pub fn is_short(&self) -> bool {
        self.is_short || self.reached.is_short
    }

    /// Runs a line with the boxes of this script, and returns its answer. An edge line does nothing here, because the
    /// graph began with its edge.
    pub fn take(&mut self, script: &Script, line: &Line) -> Answer {
        match *line {
            Line::Full => self.collect(),
            _ => self.run(script, line),
        }
    }

    /// The value that the vertex of this name stores, if it was made and no collection took it.
    pub fn value(&self, name: u64) -> Option<&Value> {
        if self.names.contains(&name) {
            self.values.get(name as usize)
        } else {
            None
        }
    }

    /// Whether the vertex is an active subject.
    pub fn is_subject(&self, name: u64) -> bool {
        self.plain.graph.is_subject(name)
    }

    /// Whether a vertex that no collection took is a subject, or was one until it retired.
    pub fn was_subject(&self, name: u64) -> bool {
        self.names.contains(&name) && self.ever_subjects.contains(&name)
    }

    /// Whether a vertex that no collection took was a subject until it retired.
    pub fn has_retired(&self, name: u64) -> bool {
        self.was_subject(name) && !self.is_subject(name)
    }

    /// The rights on the edge with these ends. If there is no edge, there are no rights.
    pub fn held(&self, ends: (u64, u64)) -> Rights {
        if self.names.contains(&ends.0) && self.edges.contains(&ends) {
            self.plain.graph.label(ends.0, ends.1)
        } else {
            Rights::empty()
        }
    }

    /// Looks anew for the vertices that the subjects reach.
    pub fn reach(&mut self) {
        let graph = &self.plain.graph;
        self.reached
            .fill(graph.subjects(), graph.made(), &self.edges);
    }

    /// Whether a subject reached the vertex when this was last looked for.
    pub fn is_reached(&self, name: u64) -> bool {
        self.reached.names.contains(&name)
    }

    // Adds the vertex that was made last, which stores a new box.
    fn add_vertex(&mut self, name: u64, ever_subject: bool, kind: StockItem) {
        self.is_short |= self.names.insert(name).is_err();
        self.is_short |= self.values.push(value_of(kind)).is_err();
        if ever_subject {
            self.is_short |= self.ever_subjects.insert(name).is_err();
        }
    }

    // Notes an edge, or forgets it where its last right was given up.
    fn note_edge(&mut self, ends: (u64, u64)) {
        if self.plain.graph.label(ends.0, ends.1).is_empty() {
            self.edges.remove(&ends);
        } else {
            self.is_short |= self.edges.insert(ends).is_err();
        }
    }

    // Has the plain graph run a line, and follows it.
    fn run(&mut self, script: &Script, line: &Line) -> Answer {
        let next = script.stock.get(self.plain.taken).copied();
        let Ok(answer) = self.plain.take(script, line) else {
            self.is_short = true;
            return Answer::Refused(Refusal::Memory);
        };
        match (*line, &answer) {
            (Line::Create { worker, .. }, Answer::Reply(Reply::Name(name))) => {
                self.add_made(worker, *name, false, next)
            }
            (Line::Spawn { worker, .. }, Answer::Reply(Reply::Name(name))) => {
                self.add_made(worker, *name, true, next)
            }
            (Line::Plain { worker, command }, Answer::Reply(Reply::Done)) => {
                self.follow(worker, &command)
            }
            _ => (),
        }
        answer
    }

    // Adds the vertex that was made last, with the edge to it.
    fn add_made(&mut self, worker: u64, name: u64, as_subject: bool, kind: Option<StockItem>) {
        self.add_vertex(name, as_subject, kind.unwrap_or(StockItem::Cell));
        self.note_edge((worker, name));
    }

    // Follows a command that was served.
    fn follow(&mut self, worker: u64, command: &Command) {
        if let Some(ends) = changed_by(worker, command) {
            self.note_edge(ends);
        }
        if let Command::Write { target, value } | Command::Append { target, value } = command {
            self.store(*target, *value);
        }
    }

    // Notes a number that was written or added to a log.
    fn store(&mut self, target: u64, number: u64) {
        if let Some(value) = self.values.get_mut(target as usize) {
            self.is_short |= write_in(self.alloc, value, number).is_err();
        }
    }

    // Collects what no subject reaches.
    fn collect(&mut self) -> Answer {
        self.reach();
        mem::swap(&mut self.names, &mut self.reached.names);
        Answer::Collected(Some(self.names.len() as u64))
    }
}

/// The ends of the edge that a command adds to or takes from, if it is served.
pub fn changed_by(worker: u64, command: &Command) -> Option<(u64, u64)> {
    match *command {
        Command::Take { target, .. } | Command::Remove { target, .. } => Some((worker, target)),
        Command::Grant { via, target, .. } => Some((via, target)),
        _ => None,
    }
}

// Has a value take a number in.
fn write_in(alloc: Global, value: &mut Value, number: u64) -> Result<(), AllocError> {
    value.law.write(alloc, &mut value.state, number)
}
