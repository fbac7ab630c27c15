//! Answers whether x could ever come to hold a right over y, on the graph that a script or a history leaves.
//!
//! It reads the script that `tgstore` reads, with the same options `--workers`, `--vertices` and `--stock`. `tg_plain`
//! runs it on the plain graph, and `tg_could` answers about its picture. The text of a history, which begins with
//! `kovshenul `, is replayed. The program prints the text of that answer.
//!
//! `options` reads the words of the command line, `checks` reports a word that isn't valid, and `supposed` has the
//! suppositions of the words. `query` has the question. `ask` asks it and writes the answer with the texts of `text`,
//! and `stars` lists the answers to a question with a star. `answers` has the answers to all questions, and `notes` has
//! the lines about them on standard error. `refused` reports lines of the script that were denied or refused. `verdict`
//! has the exit status.
#![tactic(auto)]

ghost use Rattle.std.specs.Prelude.{◌≡◌, ◌⊎◌, IfOk};
ghost use Rattle.tgcould.specs.Verdict.{IsVerdictOnGiven};

mod answers;
mod ask;
mod checks;
mod help;
mod notes;
mod options;
mod query;
mod refused;
mod stars;
mod supposed;
mod text;
mod verdict;

use checks::{are_accepted, is_asked};
use clap::ArgMatches;
use options::COMMAND_LINE;
use std::fs::Files;
use std::process::ExitCode;
use supposed::Supposed;
use tg_plain::{PlainFault, Program, obey};
use verdict::status_of;

fn main(rt: HostRuntime) -> ExitCode {
    ExitCode::from(obey(&rt, &COMMAND_LINE, &Asking))
}

// The program.
#[derive(Clone, Copy)]
struct Asking;

impl<R: AllocGlobal + Print + Eprint + Input + Files> Program<R> for Asking {
    // The status is 2 if the words aren't accepted. If it is 0, all policies are kept. It is 3 exactly if there is a
    // policy, no line may be denied, and a line of the script was denied or refused.
    fn run(&self, rt: &R, matches: &ArgMatches) -> Result<u8, PlainFault>
        ensures { IfOk result (λ status. (status ≡ 2) ⊎ IsVerdictOnGiven R.Reader.remaining matches.now status) }
    {
        if !are_accepted(rt, matches) {
            return Ok(2);
        }
        match Supposed::read(rt, rt.alloc(), matches)? {
            Some(supposed) if is_asked(rt, matches) => status_of(rt, matches, &supposed),
            _ => Ok(2),
        }
    }
}
