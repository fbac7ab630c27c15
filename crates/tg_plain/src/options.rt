//! The words of the command line that say what a script runs on.
ghost use Rattle.std.specs.Prelude.{◌≡◌, codes, option_map};
ghost use Rattle.clap.specs.Matches.{first_value, found_of};

use crate::given::GivenOptions;
use crate::ranges::NumberOption;
use clap::builder::ValueParser;
use clap::error::ErrorKind;
use clap::{Arg, ArgAction, ArgMatches, Command, Error};
use std::alloc::{AllocError, Global};
use std::convert::AsStr;
use tg_model::{MAX_VERTICES, MAX_WORKERS};

/// The version of all that this repository has. The file `VERSION` says the same.
const VERSION: &str = "0.4.0";

/// An option of a command line.
#[derive(Clone, Copy)]
pub struct Choice {
    /// Its name, after `--`.
    pub name: &'static str,
    /// What is done with its value.
    pub action: ArgAction,
    /// The word for its value.
    pub value: &'static str,
    /// Which values there are.
    pub parser: ValueParser<'static>,
    /// What has to be beside it.
    pub needs: &'static [&'static str],
    /// What the help says of it.
    pub help: &'static str,
}

/// How many workers there are at first.
pub const WORKERS: Choice = Choice {
    name: "workers",
    action: ArgAction::Set,
    value: "N",
    parser: ValueParser::Unsigned(1, MAX_WORKERS),
    needs: &[],
    help: "Sets how many workers there are at first, from 1 to 64 [default: 2]",
};

/// How many vertices may ever be made.
pub const VERTICES: Choice = Choice {
    name: "vertices",
    action: ArgAction::Set,
    value: "N",
    parser: ValueParser::Unsigned(1, MAX_VERTICES),
    needs: &[],
    help: "Sets how many vertices may ever be made, from 1 to 16777216 [default: 1000000]",
};

/// The boxes that creates and spawns take.
pub const STOCK: Choice = Choice {
    name: "stock",
    action: ArgAction::Set,
    value: "TEXT",
    parser: ValueParser::String,
    needs: &[],
    help: "Names the boxes that new vertices take, as --stock of tgstore does [default: none]",
};

/// A kept file, whose history is read in the place of standard input.
pub const KEPT: Choice = Choice {
    name: "kept",
    action: ArgAction::Set,
    value: "FILE",
    parser: ValueParser::String,
    needs: &[],
    help: "Reads the history of the kept file FILE, up to its last whole line [default:
standard input]",
};

/// What a script runs on, and where a program reads it.
#[derive(Clone, Copy)]
pub struct PlainOptions<'a> {
    /// How many workers there are at first, from 1 to 64.
    pub workers: u64,
    /// How many vertices may ever be made, from 1 to 2^24.
    pub max_vertices: u64,
    /// The text of the stock, as it was written, or `None` if boxes are cells without end.
    pub stock: Option<&'a str>,
    /// The name of the kept file that is read, or `None` if standard input is.
    pub kept: Option<&'a str>,
    /// What the words of the command line say of these.
    pub given: GivenOptions,
}

/// What the words say of workers and vertices, or else their defaults, of the stock, and of a kept file. If they say
/// nothing of a stock, boxes are cells without end.
pub fn read_options<'a>(matches: &ArgMatches<'a>) -> PlainOptions<'a>
    ensures stock { option_map (λ text. text.now) result.stock ≡ first_value (found_of matches.now) (codes "stock") }
    ensures kept { option_map (λ text. text.now) result.kept ≡ first_value (found_of matches.now) (codes "kept") }
{
    let given = given_options(matches);
    PlainOptions {
        workers: given.workers.unwrap_or(2),
        max_vertices: given.max_vertices.unwrap_or(1_000_000),
        stock: matches.get_str("stock"),
        kept: matches.get_str("kept"),
        given,
    }
}

// What the words say of workers, vertices and the stock.
fn given_options(matches: &ArgMatches) -> GivenOptions {
    GivenOptions {
        workers: matches.get_one("workers"),
        max_vertices: matches.get_one("vertices"),
        has_stock: matches.get_str("stock").is_some(),
    }
}

/// A command line.
#[derive(Clone, Copy)]
pub struct CommandLine {
    /// The name of the program.
    pub name: &'static str,
    /// What the program does, which is the front of its help.
    pub about: &'static str,
    /// What its help says after the options.
    pub manual: &'static str,
    /// What is said after the error of a word that no option takes. It says how the words are meant.
    pub advice: &'static str,
    /// The options.
    pub choices: &'static [Choice],
}

// Reads the words, the first of which is the program's name: the options that are found in them. An `Err` is the text
// for the user, of the help as of a fault, or lack of memory.
pub(crate) fn read_words<'a, S: AsStr>(
    alloc: Global,
    line: &CommandLine,
    words: &'a [S],
) -> Result<ArgMatches<'a>, Error> {
    match command(alloc, line) {
        Ok(mut command) => read_by(alloc, &mut command, line, words),
        Err(wanting) => Err(Error::from(wanting)),
    }
}

// Reads the words by clap's form of the command line.
fn read_by<'a, S: AsStr>(
    alloc: Global,
    command: &mut Command<'a>,
    line: &CommandLine,
    words: &'a [S],
) -> Result<ArgMatches<'a>, Error> {
    match command.try_get_matches_from_mut(words) {
        Ok(matches) => Ok(matches),
        Err(error) => Err(with_range(alloc, command, line, words, error)),
    }
}

// The error with the range of the first option whose value is no number of it, if the error is of such a value.
fn with_range<S: AsStr>(
    alloc: Global,
    command: &mut Command,
    line: &CommandLine,
    words: &[S],
    error: Error,
) -> Error {
    if error.kind() != ErrorKind::ValueValidation {
        return error;
    }
    for choice in line.choices {
        if let Some(number) = number_of(choice) {
            if let Some(text) = number.wrong_value(words) {
                return number.error(alloc, command, text);
            }
        }
    }
    error
}

// The range of an option whose value is a number.
fn number_of(choice: &Choice) -> Option<NumberOption> {
    match choice.parser {
        ValueParser::Unsigned(least, most) => Some(NumberOption {
            name: choice.name,
            least,
            most,
        }),
        _ => None,
    }
}

// The command line, as clap has it.
fn command<'a>(alloc: Global, line: &CommandLine) -> Result<Command<'a>, AllocError> {
    let mut args = Vec::new(alloc);
    add_args(&mut args, alloc, line.choices)?;
    bare_command(alloc, line).args(args)?.bin_name(line.name)
}

// The command line as clap has it, without its options and without the name in its texts.
fn bare_command<'a>(alloc: Global, line: &CommandLine) -> Command<'a> {
    Command::new(alloc, line.name)
        .version(VERSION)
        .about(line.about)
        .after_help(line.manual)
}

// Adds options, as clap has them.
fn add_args<'a>(
    args: &mut Vec<Arg<'a>>,
    alloc: Global,
    choices: &[Choice],
) -> Result<(), AllocError> {
    for choice in choices {
        add(args, arg_of(alloc, choice))?;
    }
    Ok(())
}

// Adds an item, where there was memory to make it.
fn add<T: Drop>(items: &mut Vec<T>, made: Result<T, AllocError>) -> Result<(), AllocError> {
    items.push(made?)?;
    Ok(())
}

// An option, as clap has it.
fn arg_of<'a>(alloc: Global, choice: &Choice) -> Result<Arg<'a>, AllocError> {
    named_arg(alloc, choice)
        .value_name(choice.value)
        .value_parser(choice.parser)
        .requires_all(choice.needs)
}

// An option as clap has it, without its value.
fn named_arg<'a>(alloc: Global, choice: &Choice) -> Arg<'a> {
    Arg::new(alloc, choice.name)
        .long(choice.name)
        .help(choice.help)
        .action(choice.action)
}
