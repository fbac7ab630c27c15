//! The story of the caretaker and the visitor.
//!
//! No rule takes a right from its holder. A worker gives its own right up. So the right that the caretaker hands on
//! comes back only when the visitor gives it up. After the caretaker has given up its own right, it can't hand the
//! right on again.

use crate::fault::StoryFault;
use crate::opening::{grant, limits, read_and_write};
use crate::stand_in::read_right;
use crate::tell::{tell_audit, tell_reply};
use std::alloc::Global;
use tg_model::{Command, Edge, Opening, Reply};
use tg_payload::{Draft, Payload, values_of};
use tg_rights::Label;
use tg_store::{Kind, Store, StoreFault};

// The workers. They are named 0, 1 and so on. The vertices that are made later get the next names.
const WORKERS: u64 = 2;

const CARETAKER: u64 = 0;

const VISITOR: u64 = 1;

// At most 10 vertices may ever be made, workers included.
const MOST_VERTICES: u64 = 10;

// The steps of the story.
#[derive(Clone, Copy)]
enum Move {
    HandOn,
    Read,
    Write,
    WriteAsVisitor,
    GiveBack,
    GiveUp,
    Collect,
}

// A command with the worker that asks for it, and the words that are printed.
#[derive(Clone, Copy)]
struct Request {
    worker: u64,
    words: &'static str,
    command: Command,
}

// The visitor reads the document, before and after a collection and a write of the caretaker. It gives the right back,
// and can't read the document any more. Then the caretaker gives up its own rights. After that nobody can read the
// document or hand it on, and the next collection drops it.
const STEPS: [Move; 14] = [
    Move::HandOn,
    Move::Read,
    Move::Collect,
    Move::Read,
    Move::Write,
    Move::Read,
    Move::WriteAsVisitor,
    Move::GiveBack,
    Move::Collect,
    Move::Read,
    Move::GiveUp,
    Move::HandOn,
    Move::Collect,
    Move::Read,
];

/// The numbers that the workers and the document store.
#[derive(Drop)]
pub struct Boxes<P: Payload> {
    pub caretaker: P,
    pub visitor: P,
    pub document: P,
}

/// Opens a store, takes the steps of the story in it, and audits its journal. Each step is a line on standard output.
pub fn run_story<P: Payload, R: Print + AllocGlobal>(
    rt: &R,
    boxes: Boxes<P>,
) -> Result<(), StoryFault> {
    let Boxes {
        caretaker,
        visitor,
        document,
    } = boxes;
    let mut store = open_store(rt.alloc(), caretaker, visitor)?;
    let told = match make(rt.alloc(), &mut store, document) {
        Ok(document) => tell_story(rt, &mut store, document),
        Err(fault) => Err(StoryFault::Store(fault)),
    };
    store.let_go();
    told
}

// A store with two workers. The caretaker has the right to grant over the visitor.
fn open_store<P: Payload>(alloc: Global, caretaker: P, visitor: P) -> Result<Store<P>, StoreFault> {
    let drafts = drafts_of(alloc, caretaker, visitor)?;
    let opening = opening_of(alloc, &drafts)?;
    Ok(Store::open(alloc, opening, limits()?, drafts)?)
}

// The drafts of the two workers, by rising name.
fn drafts_of<P: Payload>(
    alloc: Global,
    caretaker: P,
    visitor: P,
) -> Result<Vec<Draft<P>>, StoreFault> {
    let mut drafts = Vec::new(alloc);
    drafts.push(Draft::new(alloc, caretaker)?)?;
    drafts.push(Draft::new(alloc, visitor)?)?;
    Ok(drafts)
}

// The opening, with workers that store the numbers of the drafts, and an edge from the caretaker to the visitor.
fn opening_of<P: Payload>(alloc: Global, drafts: &[Draft<P>]) -> Result<Opening, StoreFault> {
    let values = values_of(alloc, drafts)?;
    let edge = Edge {
        from: CARETAKER,
        to: VISITOR,
        label: grant(),
    };
    let edges = vec![in alloc; edge]?;
    Ok(Opening::new(WORKERS, edges, values, MOST_VERTICES)?)
}

// Makes the document, which the caretaker may read and write. Returns its name.
fn make<P: Payload>(alloc: Global, store: &mut Store<P>, document: P) -> Result<u64, StoreFault> {
    let draft = Draft::new(alloc, document)?;
    Ok(store.create(CARETAKER, read_and_write(), draft)?)
}

// Takes the steps, one after the other, and audits the journal.
fn tell_story<P: Payload, R: Print + AllocGlobal>(
    rt: &R,
    store: &mut Store<P>,
    document: u64,
) -> Result<(), StoryFault> {
    println!(rt; "caretaker makes a document: ok, its name is {document}")?;
    for step in &STEPS {
        act(rt, store, *step, document)?;
    }
    let entries = audited(rt.alloc(), store)?;
    tell_audit(rt, entries)
}

// Takes one step. The worker of the step asks for its command, and the reply is printed.
fn act<P: Payload, R: Print>(
    rt: &R,
    store: &mut Store<P>,
    step: Move,
    document: u64,
) -> Result<(), StoryFault> {
    match step.asked(document) {
        Some(asked) => ask(rt, store, asked.worker, asked.words, asked.command),
        None => collect(rt, store),
    }
}

impl Move {
    // The request of a step. A collection has none.
    fn asked(self, document: u64) -> Option<Request> {
        let (worker, words, command) = match self {
            Move::HandOn => (CARETAKER, "caretaker hands r on", hand_on(document)),
            Move::Read => (VISITOR, "visitor reads", read(document)),
            Move::Write => (CARETAKER, "caretaker writes 2", write(document)),
            Move::WriteAsVisitor => (VISITOR, "visitor writes 2", write(document)),
            Move::GiveBack => (
                VISITOR,
                "visitor gives r back",
                give_up(document, read_right()),
            ),
            Move::GiveUp => (
                CARETAKER,
                "caretaker gives up rw",
                give_up(document, read_and_write()),
            ),
            Move::Collect => return None,
        };
        Some(Request {
            worker,
            words,
            command,
        })
    }
}

// The right to read the target is handed on to the visitor.
fn hand_on(target: u64) -> Command {
    Command::Grant {
        via: VISITOR,
        target,
        rights: read_right(),
    }
}

fn read(target: u64) -> Command {
    Command::Read { target }
}

// Writes 2.
fn write(target: u64) -> Command {
    Command::Write { target, value: 2 }
}

fn give_up(target: u64, rights: Label) -> Command {
    Command::Remove { target, rights }
}

// Asks the store for a command of the worker, and prints the reply. A denial is a reply.
fn ask<P: Payload, R: Print>(
    rt: &R,
    store: &mut Store<P>,
    worker: u64,
    words: &str,
    command: Command,
) -> Result<(), StoryFault> {
    match store.apply(worker, command) {
        Ok(reply) => tell_reply(rt, words, &reply),
        Err(fault) => Err(StoryFault::Store(StoreFault::from(fault))),
    }
}

// Collects, and prints how many vertices are left.
fn collect<P: Payload, R: Print>(rt: &R, store: &mut Store<P>) -> Result<(), StoryFault> {
    let left = store.collect(Kind::Full).map_err(StoreFault::from)?;
    println!(rt; "full collection: {left} vertices are left")?;
    Ok(())
}

// Audits the store's own journal. Returns how many entries it has.
fn audited<P: Payload>(alloc: Global, store: &Store<P>) -> Result<u64, StoreFault> {
    let audited = store.audit(alloc)?;
    Ok(audited.entries())
}
