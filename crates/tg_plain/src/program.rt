//! A program with a command line, from its words to its exit status.

use crate::fault::PlainFault;
use crate::options::{CommandLine, read_words};
use clap::error::ErrorKind;
use clap::{ArgMatches, Error};
use std::alloc::AllocError;
use std::rt::Env;
use std::{env, io};

/// What a program does with the options that were found in its words.
pub trait Program<R> {
    /// Does what they ask for. The exit status, or why it ended early, which [`obey`] says then.
    fn run(&self, rt: &R, matches: &ArgMatches) -> Result<u8, PlainFault>;
}

/// Has the program do what the words of its command line ask for, or prints its help, or what is wrong with the words.
/// Each word has to be text. A fault is printed, but for one of a kept file, which was printed where the file was read.
/// The exit status.
pub fn obey<R, P>(rt: &R, line: &CommandLine, program: &P) -> u8
where
    R: AllocGlobal + Env + Print + Eprint,
    P: Program<R>,
{
    match obey_words(rt, line, program) {
        Ok(status) => status,
        Err(PlainFault::Kept(_)) => 1,
        Err(fault) => {
            let _ = eprintln!(rt; "{}: {fault}", line.name);
            fault.status()
        }
    }
}

// Does what `obey` does. The fault says why there are no words, why the program ended early, or that the text of an
// error wasn't printed.
fn obey_words<R, P>(rt: &R, line: &CommandLine, program: &P) -> Result<u8, PlainFault>
where
    R: AllocGlobal + Env + Print + Eprint,
    P: Program<R>,
{
    let words = words_of(rt)?;
    match read_words(rt.alloc(), line, words.as_slice()) {
        Ok(matches) => program.run(rt, &matches),
        Err(error) if error.kind() == ErrorKind::OutOfMemory => {
            Err(PlainFault::OutOfMemory(AllocError))
        }
        Err(error) => Ok(print_error(rt, line, &error)?),
    }
}

// The words of the command line. `BadWords` is returned if a word is no text. Otherwise it fails only when out of
// memory.
fn words_of<R: AllocGlobal + Env>(rt: &R) -> Result<Vec<String>, PlainFault> {
    match env::args(rt) {
        Ok(words) => Ok(words.collect(rt.alloc())?),
        Err(error) if error.kind() == io::ErrorKind::InvalidData => Err(PlainFault::BadWords),
        Err(_) => Err(PlainFault::OutOfMemory(AllocError)),
    }
}

// Prints the text of an error, and after that of a word that no option takes the program's advice. The exit status.
fn print_error<R: Print + Eprint>(rt: &R, line: &CommandLine, error: &Error) -> io::Result<u8> {
    error.print(rt)?;
    if error.kind() == ErrorKind::UnknownArgument {
        eprintln!(rt; "{}: {}", line.name, line.advice)?;
    }
    Ok(error.exit_code() as u8)
}
