//! The story of the owner, its client and the client's friend.

use super::desk::{Desk, OWNER, read_right};
use super::fault::DeskFault;
use super::foresight::never_after;
use super::opening::{CLIENT, FRIEND, open_desk, opening};
use crate::fault::StoryFault;
use crate::opening::{grant, read_and_write};
use crate::tell::{tell_audit, tell_reply};
use std::alloc::Global;
use tg_could::Question;
use tg_journal::audit;
use tg_model::{Command, Edge, Reply};
use tg_payload::Payload;
use tg_rights::Right;
use tg_store::StoreFault;

// The steps of the story. The owner does some of them, and the client and its friend ask for the others.
#[derive(Clone, Copy)]
enum Step {
    HandOut,
    Fill,
    Empty,
    Change(u64),
    ReadCount,
    TakeCount,
    Read,
    HandOn,
    ReadAsFriend,
}

// The client gets the right to read the stand-in, and asks for more. The owner fills the stand-in, and the client and
// its friend read it. Then the owner empties the stand-in, and stops.
const STEPS: [Step; 13] = [
    Step::HandOut,
    Step::ReadCount,
    Step::TakeCount,
    Step::Fill,
    Step::Read,
    Step::HandOn,
    Step::Change(41),
    Step::Fill,
    Step::ReadAsFriend,
    Step::Empty,
    Step::Change(42),
    Step::Read,
    Step::ReadAsFriend,
];

impl Step {
    // The words that are printed before the reply.
    fn words(self) -> &'static str {
        match self {
            Step::HandOut => "owner hands r over the stand-in out",
            Step::Fill => "owner fills the stand-in",
            Step::Empty => "owner empties the stand-in",
            Step::Change(_) => "owner changes the count",
            Step::ReadCount => "client reads the count",
            Step::TakeCount => "client takes r over the count",
            Step::Read => "client reads the stand-in",
            Step::HandOn => "client hands r on to its friend",
            Step::ReadAsFriend => "friend reads the stand-in",
        }
    }
}

/// Opens a desk, plays the story at it, and audits the journal. Each step is a line on standard output.
pub fn run_story<R: Print + AllocGlobal>(rt: &R) -> Result<(), StoryFault> {
    let alloc = rt.alloc();
    let mut desk = open_desk(alloc, grant(), read_and_write())?;
    let told = tell_story(rt, &mut desk);
    desk.let_go();
    told
}

// Takes the steps, one after the other, and audits the journal.
fn tell_story<P: Payload, R: Print + AllocGlobal>(
    rt: &R,
    desk: &mut Desk<P>,
) -> Result<(), StoryFault> {
    foretell(rt, desk)?;
    for step in &STEPS {
        act(rt, desk, *step)?;
    }
    let entries = audited(rt.alloc(), desk)?;
    tell_audit(rt, entries)
}

// Says whether the client could ever come to read the count, if the owner hands r over the stand-in out.
fn foretell<P: Payload, R: Print + AllocGlobal>(rt: &R, desk: &Desk<P>) -> Result<(), StoryFault> {
    let grant = Edge {
        from: CLIENT,
        to: desk.stand_in(),
        label: read_right(),
    };
    let question = Question {
        x: CLIENT,
        right: Right::R,
        y: desk.thing(),
    };
    let never = never_after(rt.alloc(), desk.store(), &[OWNER], &[grant], question)?;
    let chance = if never { "never" } else { "perhaps" };
    println!(rt; "could the client read the count, once it may read the stand-in: {chance}")?;
    Ok(())
}

// Takes the step, and prints the reply. A denial is a reply.
fn act<P: Payload, R: Print>(rt: &R, desk: &mut Desk<P>, step: Step) -> Result<(), StoryFault> {
    match answer(desk, step) {
        Ok(reply) => tell_reply(rt, step.words(), &reply),
        Err(fault) => Err(StoryFault::Desk(fault)),
    }
}

fn answer<P: Payload>(desk: &mut Desk<P>, step: Step) -> Result<Reply, DeskFault> {
    let count = desk.thing();
    let stand_in = desk.stand_in();
    match step {
        Step::HandOut => desk.hand_out(CLIENT),
        Step::Fill => desk.fill(),
        Step::Empty => desk.put(0),
        Step::Change(number) => desk.change(number),
        Step::ReadCount => desk.ask(CLIENT, read(count)),
        Step::TakeCount => desk.ask(CLIENT, take_from_owner(count)),
        Step::Read => desk.ask(CLIENT, read(stand_in)),
        Step::HandOn => desk.ask(CLIENT, hand_on(stand_in)),
        Step::ReadAsFriend => desk.ask(FRIEND, read(stand_in)),
    }
}

fn read(target: u64) -> Command {
    Command::Read { target }
}

// The right to read the target is taken from the owner.
fn take_from_owner(target: u64) -> Command {
    Command::Take {
        via: OWNER,
        target,
        rights: read_right(),
    }
}

// The right to read the target is handed on to the friend.
fn hand_on(target: u64) -> Command {
    Command::Grant {
        via: FRIEND,
        target,
        rights: read_right(),
    }
}

// Audits the journal as a legal history of the opening that the program makes anew. Returns how many entries it has.
fn audited<P: Payload>(alloc: Global, desk: &Desk<P>) -> Result<u64, StoreFault> {
    let kept = opening(alloc, grant())?;
    let journal = desk.store().journal();
    audit(alloc, &kept, journal.entries())?;
    Ok(journal.len())
}
