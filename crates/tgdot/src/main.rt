//! Draws the graph that a script leaves, or the graph after each line, in the language of GraphViz's `dot`.
//!
//! It reads the script that `tgstore` reads, with the same options `--workers`, `--vertices` and `--stock`. It runs the
//! script on the plain graph of `tg_model`, without heap and journal. Or it reads the text of a history, and replays
//! it. Then it prints a digraph. A box is a subject, with a dashed border if it retired. A circle is an object, and an
//! arrow with its rights is an edge. A vertex that no subject reaches any more is grey, and a collection of the whole
//! heap frees it. With `--steps` it prints a digraph for each line.
//!
//! `options` reads the words of the command line. `tg_plain` reads the script and runs its lines. `run` follows them,
//! and knows which edges there are, so that only pairs of vertices with an edge are asked for. `reach` says what
//! subjects reach. `past` has the graph after a history. `drawing` writes the last graph. For the steps, `shot` says
//! what is shown at a step, `marks` what is marked and `look` how it looks. `frame` has what all steps share, `picture`
//! writes one, and `steps` writes all. They write into a `PlainText`, which is printed at once. A new line of the
//! grammar needs a place in `run`, which takes and follows it, and in `named` of `marks`.
#![tactic(auto)]

mod drawing;
mod frame;
mod look;
mod marks;
mod options;
mod past;
mod picture;
mod reach;
mod run;
mod shot;
mod steps;

use clap::ArgMatches;
use drawing::{write_last, write_past};
use options::{COMMAND_LINE, DotOptions, LineRange, options_of};
use std::alloc::Global;
use std::fs::Files;
use std::process::ExitCode;
use steps::write_steps;
use tg_entries::History;
use tg_plain::{InputText, PlainFault, PlainText, Program, Script, obey};

fn main(rt: HostRuntime) -> ExitCode {
    ExitCode::from(obey(&rt, &COMMAND_LINE, &Plotting))
}

// The program.
#[derive(Clone, Copy)]
struct Plotting;

impl<R: AllocGlobal + Print + Eprint + Input + Files> Program<R> for Plotting {
    fn run(&self, rt: &R, matches: &ArgMatches) -> Result<u8, PlainFault> {
        draw_input(rt, options_of(matches))?;
        Ok(0)
    }
}

// Draws what the script or the history leaves that is given, or the steps of the script.
fn draw_input<R: AllocGlobal + Print + Eprint + Input + Files>(
    rt: &R,
    options: DotOptions,
) -> Result<(), PlainFault> {
    if let Some(range) = options.steps {
        range.check()?;
    }
    let alloc = rt.alloc();
    match InputText::given(rt, COMMAND_LINE.name, options.plain)? {
        InputText::Lines(script) => print(rt, &mut PlainText::new(alloc), options.steps, &script),
        InputText::Entries(_) if options.steps.is_some() => Err(PlainFault::StepsOfHistory),
        InputText::Entries(history) => draw_history(rt, alloc, &history),
    }
}

// Prints the graph that a history leaves.
fn draw_history<R: Print>(rt: &R, alloc: Global, history: &History) -> Result<(), PlainFault> {
    let mut text = PlainText::new(alloc);
    write_past(&mut text, alloc, history)?;
    text.print(rt)
}

// Prints what these lines leave, or their steps. A fault in the script ends the steps.
fn print<R: Print>(
    rt: &R,
    text: &mut PlainText,
    steps: Option<LineRange>,
    script: &Script,
) -> Result<(), PlainFault> {
    write(text, steps, script)?;
    text.print(rt)?;
    script.whole()
}

// Writes what these lines leave, or their steps.
fn write(
    text: &mut PlainText,
    steps: Option<LineRange>,
    script: &Script,
) -> Result<(), PlainFault> {
    match steps {
        Some(range) => write_steps(text, range, script),
        None => write_last(text, script),
    }
}
