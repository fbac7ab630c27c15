//! The program. It reads a script from standard input, and writes a reply for each line to standard output.
//!
//! It works in this order. It reads the words of the command line (`words`), and looks at the stock and the limits
//! (`start`). Only then it makes buffers (`streams`) and boxes with drafts of them (`boxes`), and reads input
//! (`serving`). If it has to say why a line is bad, `noted` keeps the last line that was read. A strict run reports
//! lines that were denied or refused (`strict`). Collections by several helpers run on threads (`on_threads`). A fault
//! is one line on standard error and a status (`stop`). `obey` does all of it.
//!
//! A run with `--resume` goes on from the history of a file. `resuming` reads the file and makes the store, and
//! `streams_on` runs the script on it. `onward` runs it as a race. A run with `--keep` is on a store that is kept in a
//! file. `keeping` goes on from the file or begins it, and `kept_streams` runs the script.
//!
//! The definitions to believe are in `specs/`. `Words` says what the words ask for. `Ranges` and `Starts` say what is
//! refused before any input is read. `Boxes` says what boxes begin with, and `Serving` says what a run reads and
//! writes. `Faults` has the statuses, and `Strict` has the status of a strict run. `Resumed` says what a run that goes
//! on from a history reads and writes.
#![tactic(auto)]

mod boxes;
mod help;
mod host;
mod keeping;
mod kept_streams;
mod noted;
mod on_threads;
mod onward;
mod program;
mod resuming;
mod serving;
mod settings;
mod start;
mod stop;
mod streams;
mod streams_on;
mod strict;
mod words;

use host::Handles;
use program::obey;
use std::process::ExitCode;

fn main(rt: HostRuntime) -> ExitCode {
    let handles = Handles {
        rt: &rt,
        files: &rt,
    };
    ExitCode::from(obey(handles, rt.stdin(), rt.stdout()))
}
