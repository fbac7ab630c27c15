//! All that the program does, from the words of the command line to its exit status.
ghost use Rattle.std.specs.Prelude.{◌≡◌, IfOk};
ghost use Rattle.tgstore.specs.Faults.{exit_status};
ghost use Rattle.tgstore.specs.Ranges.{AreInRange};
ghost use Rattle.tgstore.specs.Resumed.{MayGoOnward};

use crate::host::{Handles, RunHost};
use crate::keeping::keep_streams;
use crate::on_threads::OnThreads;
use crate::onward::Onward;
use crate::resuming::{HistoryFault, go_on_from};
use crate::settings::Options;
use crate::start::{ResumedStart, StartFault, prepare, prepare_resumed};
use crate::stop::{Failure, Stop};
use crate::streams::serve_buffered;
use crate::streams_on::serve_on;
use crate::strict::REFUSED_LINES;
use crate::words::options;
use clap::Error;
use clap::error::ErrorKind;
use std::fs::Files;
use std::io::{Eprint, Print, Read, Write};
use std::rt::Env;
use std::sync::Wait;
use std::thread::Threads;
use std::{env, fs, io};
use tg_entries::TextFault;
use tg_payload::LawPayload;

/// Does what the words of the command line ask for. It runs the reader's script and writes the replies to the writer,
/// or prints the help. A fault is one line on standard error. A second line says why a line is bad, if this is asked
/// for. Returns the exit status.
pub fn obey<R, I, O>(handles: Handles<R>, reader: I, writer: O) -> u8
where
    R: AllocGlobal + Env + Files + Print + Eprint + Threads + Wait + Sync,
    I: Read + Drop,
    O: Write + Drop,
{
    let rt = handles.rt;
    let outcome = obey_words(handles, reader, writer);
    match &outcome {
        Ok(status) if *status == REFUSED_LINES => tell_refused(rt),
        Ok(_) => (),
        Err(failure) => tell_failure(rt, *failure),
    }
    exit_status(&outcome.map_err(|failure| failure.stop))
}

// Says why a strict run fails.
fn tell_refused<R: Eprint>(rt: &R) {
    let _ = eprintln!(rt; "tgstore: --strict: a line was denied or refused");
}

// Says why the program ended, and on a second line why a line is bad, where that was asked for.
fn tell_failure<R: Eprint>(rt: &R, failure: Failure) {
    let Failure { stop, reason } = failure;
    let _ = eprintln!(rt; "tgstore: {stop}");
    if let Some(reason) = reason {
        let _ = eprintln!(rt; "tgstore: {reason}");
    }
}

/// The exit status if all was done, or if the program ended before.
pub fn exit_status(outcome: &Result<u8, Stop>) -> u8
    ensures { result ≡ exit_status outcome.now }
{
    match outcome {
        Ok(status) => *status,
        Err(stop) => stop.status(),
    }
}

// Does what the words of the command line ask for, and answers the status.
fn obey_words<R, I, O>(handles: Handles<R>, reader: I, writer: O) -> Result<u8, Failure>
where
    R: AllocGlobal + Env + Files + Print + Eprint + Threads + Wait + Sync,
    I: Read + Drop,
    O: Write + Drop,
{
    match words_of(handles.rt) {
        Ok(words) => obey_texts(handles, reader, writer, words.as_slice()),
        Err(stop) => Err(Failure::from(stop)),
    }
}

// Does what the words ask for, which are text, and returns the status.
fn obey_texts<R, I, O>(
    handles: Handles<R>,
    reader: I,
    writer: O,
    words: &[String],
) -> Result<u8, Failure>
where
    R: AllocGlobal + Files + Print + Eprint + Threads + Wait + Sync,
    I: Read + Drop,
    O: Write + Drop,
{
    let rt = handles.rt;
    match options(rt.alloc(), words) {
        Ok(options) => match (options.keep, options.resume) {
            (Some(path), _) => keep_streams(handles, reader, writer, &options, path),
            (None, None) => serve_streams(rt, reader, writer, &options),
            (None, Some(path)) => resume_streams(rt, reader, writer, &options, path),
        },
        Err(error) => tell(rt, &error).map_err(Failure::from),
    }
}

// The words of the command line. Each has to be text.
fn words_of<R: Env + AllocGlobal>(rt: &R) -> Result<Vec<String>, Stop> {
    let words = match env::args(rt) {
        Ok(words) => words,
        Err(error) if error.kind() == io::ErrorKind::InvalidData => return Err(Stop::BadWords),
        Err(_) => return Err(Stop::Start(StartFault::OutOfMemory)),
    };
    match words.collect(rt.alloc()) {
        Ok(words) => Ok(words),
        Err(_) => Err(Stop::Start(StartFault::OutOfMemory)),
    }
}

// Writes the help, or what is wrong with the words, and answers the status. A help that couldn't be written is a fault,
// unless nobody reads it any more.
fn tell<R: Print + Eprint>(rt: &R, error: &Error) -> Result<u8, Stop> {
    if error.kind() == ErrorKind::OutOfMemory {
        return Err(Stop::Start(StartFault::OutOfMemory));
    }
    match error.print(rt) {
        Err(fault) if !error.use_stderr() && fault.kind() != io::ErrorKind::BrokenPipe => {
            Err(Stop::HelpUnwritten)
        }
        _ => Ok(error.exit_code() as u8),
    }
}

// Runs the reader's script, and writes the replies. Answers the status.
fn serve_streams<R, I, O>(rt: &R, reader: I, writer: O, options: &Options) -> Result<u8, Failure>
where
    R: AllocGlobal + Eprint + Threads + Wait + Sync,
    I: Read + Drop,
    O: Write + Drop,
    requires { AreInRange options.now.settings }
{
    let alloc = rt.alloc();
    match prepare(alloc, options) {
        Ok(start) => {
            let collector = OnThreads::new(rt, alloc);
            let host = RunHost {
                rt,
                alloc,
                collector: &collector,
            };
            match serve_buffered(&host, reader, writer, &start) {
                Ok(ended) => ended.into_outcome(),
                Err(stop) => Err(Failure::from(stop)),
            }
        }
        Err(fault) => Err(Failure::from(Stop::Start(fault))),
    }
}

// Runs the reader's script from the history of the file on, and writes what is asked for. Answers the status.
fn resume_streams<R, I, O>(
    rt: &R,
    reader: I,
    writer: O,
    options: &Options,
    path: &str,
) -> Result<u8, Failure>
where
    R: AllocGlobal + Files + Eprint + Threads + Wait + Sync,
    I: Read + Drop,
    O: Write + Drop,
{
    match prepare_resumed(rt.alloc(), options) {
        Ok(start) => match run_of(rt, &start, path) {
            Ok(from) => serve_from(rt, reader, writer, &start, from),
            Err(stop) => Err(Failure::from(stop)),
        },
        Err(fault) => Err(Failure::from(Stop::Start(fault))),
    }
}

// What a run goes on from, whose history is in the file.
fn run_of<R: AllocGlobal + Files>(
    rt: &R,
    start: &ResumedStart,
    path: &str,
) -> Result<Onward<LawPayload>, Stop>
    ensures onward { IfOk result MayGoOnward }
{
    match fs::open(rt, path) {
        Ok(file) => go_on_from(rt.alloc(), file, start),
        Err(error) => Err(Stop::Resume(HistoryFault::Text(TextFault::Stream(error)))),
    }
}

// Runs the reader's script from there on. Answers the status.
fn serve_from<R, I, O>(
    rt: &R,
    reader: I,
    writer: O,
    start: &ResumedStart,
    from: Onward<LawPayload>,
) -> Result<u8, Failure>
where
    R: AllocGlobal + Eprint + Threads + Wait + Sync,
    I: Read + Drop,
    O: Write + Drop,
    requires onward { MayGoOnward from }
{
    let alloc = rt.alloc();
    let collector = OnThreads::new(rt, alloc);
    let host = RunHost {
        rt,
        alloc,
        collector: &collector,
    };
    match serve_on(&host, reader, writer, start, from) {
        Ok(ended) => ended.into_outcome(),
        Err(stop) => Err(Failure::from(stop)),
    }
}
