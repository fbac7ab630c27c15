//! Five stories of programs that embed the store, one after the other:
//!
//! - `caretaker`: a store, rights that are handed on and given back, collections and an audit. Read it first.
//! - `stand_in`: how to take a right back, although no rule does. The proof reaches into the program.
//! - `deputy`: a store that is shared by sessions on two threads.
//! - `service`: subjects that come and go while others work, and a subject that hangs.
//! - `tenants`: clients that pay for their commands, until one can't pay any more.
//!
//! Each story has a folder of its own. The stories share four modules. They open stores (`opening`), ask sessions for
//! commands (`sessions`), show replies (`tell`), and say why a story ends early (`fault`).
#![tactic(auto)]

mod caretaker;
mod deputy;
mod fault;
mod opening;
mod service;
mod sessions;
mod stand_in;
mod tell;
mod tenants;

use fault::StoryFault;
use std::process::ExitCode;
use std::sync::Wait;
use std::thread::Threads;

fn main(rt: HostRuntime) -> ExitCode {
    for story in &STORIES {
        if let Err(fault) = run(&rt, *story) {
            let _ = eprintln!(rt; "{}: {fault}", story.name());
            return ExitCode::FAILURE;
        }
    }
    ExitCode::SUCCESS
}

#[derive(Clone, Copy)]
enum Story {
    Caretaker,
    StandIn,
    Deputy,
    Service,
    Tenants,
}

// The stories, in their order.
const STORIES: [Story; 5] = [
    Story::Caretaker,
    Story::StandIn,
    Story::Deputy,
    Story::Service,
    Story::Tenants,
];

impl Story {
    // The name of its module.
    fn name(self) -> &'static str {
        match self {
            Story::Caretaker => "caretaker",
            Story::StandIn => "stand_in",
            Story::Deputy => "deputy",
            Story::Service => "service",
            Story::Tenants => "tenants",
        }
    }

    // What it shows.
    fn shows(self) -> &'static str {
        match self {
            Story::Caretaker => "rights are handed on, and given back",
            Story::StandIn => "an owner takes back, though no rule does",
            Story::Deputy => "who works for others uses no right of its own",
            Story::Service => "clients come, go and hang",
            Story::Tenants => "one has used up its share, and another goes on",
        }
    }
}

// Runs a story under its heading.
fn run<R: Threads + Wait + Sync + Print + AllocGlobal>(
    rt: &R,
    story: Story,
) -> Result<(), StoryFault> {
    println!(rt; "# {}: {}", story.name(), story.shows())?;
    match story {
        Story::Caretaker => caretaker::run_boxed(rt),
        Story::StandIn => stand_in::run_story(rt),
        Story::Deputy => deputy::run_story(rt),
        Story::Service => service::run_story(rt),
        Story::Tenants => tenants::run_story(rt),
    }
}
