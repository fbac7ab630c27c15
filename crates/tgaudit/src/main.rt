//! Audits the text of a history, which is an opening and the entries after it, as hosts of the library write them.
//!
//! It reads the text from standard input, line by line. If all entries are a legal history of the opening, it prints
//! how many there are. Else it prints the first line at fault. `tg_entries` reads the text, replays it and sums it.
//! This crate has the command line and the answers.
//!
//! With the names of kept files it reads these files, each by itself. `tg_keep` says what the lines of a kept file are.
//! `tg_found` says which text they are, and has the texts of faults. `kept` audits the bytes of a kept file, and has
//! the theorem of this crate. `files` reads a file by its name, and prints the outcome.
#![tactic(auto)]

mod files;
mod kept;
mod words;

use files::{audit_file, print_front};
use std::env;
use std::fs::File;
use std::io::{self, BufReader, ErrorKind, Write};
use std::process::ExitCode;
use tg_entries::{TextFault, audit_after, audit_text, audit_to_head, part_head_bytes, sum_of};
use tg_found::advice_on_line;
use words::{HELP, MORE, OF_A_SUM, OF_THE_END, USAGE, VERSION};

// How many bytes are read at once.
const BLOCK: usize = 65536;

fn main(rt: HostRuntime) -> ExitCode {
    match obey(&rt) {
        Ok(status) => ExitCode::from(status),
        Err(fault) => {
            let _ = eprintln!(rt; "tgaudit: {fault}");
            if let Some(advice) = advice_on(&fault) {
                let _ = eprintln!(rt; "tgaudit: {advice}");
            }
            ExitCode::from(1)
        }
    }
}

// What a line at fault has to be, if the fault doesn't say so.
fn advice_on(fault: &TextFault) -> Option<&'static str> {
    match fault {
        TextFault::Line { why, .. } => advice_on_line(why),
        TextFault::CutOff { .. } => Some(OF_THE_END),
        TextFault::NoSum | TextFault::OtherSum => Some(OF_A_SUM),
        TextFault::Stream(_) => None,
    }
}

// What the words of the command line ask for.
#[derive(Drop)]
enum Task {
    // To say how many entries the text has.
    Count,
    // To print the head of the next part.
    Snapshot,
    // To say how many entries the part has that comes after the one in this file.
    After(String),
    // To audit the kept files that the words name.
    Files,
    // To print the lines of this kept file up to a damage.
    Front(String),
    // None: the words were answered, with this exit status.
    Answered(u8),
}

// Does what the words of the command line ask for. The exit status.
fn obey(rt: &HostRuntime) -> Result<u8, TextFault> {
    match read_words(rt)? {
        Task::Count => audit(rt),
        Task::Snapshot => print_head(rt),
        Task::After(path) => audit_after_file(rt, path.as_str()),
        Task::Files => Ok(audit_files(rt)?),
        Task::Front(path) => Ok(print_front(rt, path.as_str())?),
        Task::Answered(status) => Ok(status),
    }
}

// What the words of the command line ask for. Answers those that ask for no audit.
fn read_words(rt: &HostRuntime) -> io::Result<Task> {
    let mut words = match env::args(rt) {
        Ok(words) => words,
        Err(error) if error.kind() == ErrorKind::InvalidData => {
            eprintln!(rt; "tgaudit: bad words")?;
            return Ok(Task::Answered(2));
        }
        Err(error) => return Err(error),
    };
    let Some(first) = words.nth(1) else {
        return Ok(Task::Count);
    };
    let task = match first.as_str() {
        "--snapshot" => Task::Snapshot,
        "--after" => match words.next() {
            Some(path) => Task::After(path),
            None => return Ok(Task::Answered(no_file(rt, "after")?)),
        },
        "--front" => match words.next() {
            Some(path) => Task::Front(path),
            None => return Ok(Task::Answered(no_file(rt, "front")?)),
        },
        word if word.starts_with('-') => return Ok(Task::Answered(answer(rt, word)?)),
        _ => return read_names(rt, words),
    };
    match words.next() {
        Some(word) => Ok(Task::Answered(answer(rt, word.as_str())?)),
        None => Ok(task),
    }
}

// What the words after a file's name ask for. Only names of files may come there.
fn read_names(rt: &HostRuntime, words: env::Args) -> io::Result<Task> {
    for word in words {
        if word.starts_with('-') {
            return Ok(Task::Answered(unexpected(rt, word.as_str())?));
        }
    }
    Ok(Task::Files)
}

// Prints that the option lacks the name of its file. The exit status.
fn no_file(rt: &HostRuntime, option: &str) -> io::Result<u8> {
    eprintln!(rt;
        "error: a value is required for '--{option} <FILE>' but none was supplied\n\n{MORE}"
    )?;
    Ok(2)
}

// Prints that the word isn't expected at its place. The exit status.
fn unexpected(rt: &HostRuntime, word: &str) -> io::Result<u8> {
    eprintln!(rt; "error: unexpected argument '{word}' found\n\n{USAGE}\n\n{MORE}")?;
    Ok(2)
}

// Prints the help or the version where the word asks for it, else that no other word is known. The exit status.
fn answer(rt: &HostRuntime, word: &str) -> io::Result<u8> {
    match word {
        "--help" | "-h" => print!(rt; "{HELP}")?,
        "--version" | "-V" => println!(rt; "tgaudit {VERSION}")?,
        _ => return unexpected(rt, word),
    }
    Ok(0)
}

// Audits the text on standard input, and says how many entries it has. The exit status.
fn audit(rt: &HostRuntime) -> Result<u8, TextFault> {
    let mut reader = BufReader::with_capacity(rt.alloc(), BLOCK, rt.stdin())?;
    let count = audit_text(rt.alloc(), &mut reader)?;
    println!(rt; "audit ok, {count} entries")?;
    Ok(0)
}

// Audits the text on standard input as the part that comes after the one in the file, and says how many entries it
// has. The exit status.
fn audit_after_file(rt: &HostRuntime, path: &str) -> Result<u8, TextFault> {
    let sum = sum_of(File::open(rt, path)?)?;
    let mut reader = BufReader::with_capacity(rt.alloc(), BLOCK, rt.stdin())?;
    let count = audit_after(rt.alloc(), &mut reader, &sum)?;
    println!(rt; "audit ok, {count} entries")?;
    Ok(0)
}

// Audits the text on standard input, and prints the head of the next part. The exit status.
fn print_head(rt: &HostRuntime) -> Result<u8, TextFault> {
    let head = audit_to_head(rt.alloc(), rt.stdin())?;
    let text = part_head_bytes(rt.alloc(), &head).map_err(io::Error::from)?;
    rt.stdout().write_all(text.as_slice())?;
    Ok(0)
}

// Audits the kept files that the words name, one after the other. The exit status is the greatest of theirs.
fn audit_files(rt: &HostRuntime) -> io::Result<u8> {
    let mut words = env::args(rt)?;
    let _ = words.next();
    let mut status = 0;
    for path in words {
        status = audit_file(rt, path.as_str())?.max(status);
    }
    Ok(status)
}
