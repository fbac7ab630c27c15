//! The words of the command line.
ghost use Rattle.std.specs.Prelude.{◌≡◌, ◌≤◌, [], IfOk, map, codes, option_map, unwrap_or};
ghost use Rattle.tg_space.specs.declared.limits.TheConstants.{MOST_BLOCKS};
ghost use Rattle.tg_word.specs.declared.TheConstants.{MOST_SPACE_BLOCKS};
ghost use Rattle.clap.specs.Words.{app_of, first_value, found_of, one_text};
ghost use Rattle.tgstore.specs.Ranges.{AreInRange};
ghost use Rattle.tgstore.specs.Words.{AreAsked, AreFound, AreSaid, IsArgOf, IsFlag, bare_line, command_line, number_if, number_or, number_rule, option_rule, rule_with};

use crate::help;
use crate::settings::{Asked, Options};
use clap::error::ErrorKind;
use clap::{Arg, ArgAction, ArgMatches, Command, Error};
use std::alloc::{AllocError, Global};
use std::convert::AsStr;
use tg_model::{MAX_VERTICES, MAX_WORKERS};
use tg_script::{Helpers, Limits, MOST_HELPERS, Settings};
use tg_space::MOST_BLOCKS;
use tg_word::MOST_SPACE_BLOCKS;

/// How many workers there are if the words don't say it.
pub const DEFAULT_WORKERS: u64 = 2;

/// How many helpers a collection has if the words don't say it.
pub const DEFAULT_HELPERS: u64 = 1;

/// How many vertices may ever be made if the words don't say it.
pub const DEFAULT_VERTICES: u64 = 1_000_000;

/// How many blocks the heap may have if the words don't say it.
pub const DEFAULT_BLOCKS: u64 = 4096;

/// Reads the words, the first of which is the program's name. Returns the options that they say, and the defaults of
/// all other options. `Ok` is returned only if each number is in its range. The ranges are 1 to 64 for workers, 1 to 8
/// for helpers, 1 to 2^24 for vertices, and 1 to 65,536 for blocks. An `Err` is the text for the user, which is the
/// help, the version or a fault. Or it is a lack of memory.
pub fn options<'a, S: AsStr>(alloc: Global, words: &'a [S]) -> Result<Options<'a>, Error>
    ensures said { IfOk result (AreSaid (map S.text words.entry.now)) }
    ensures in_range { IfOk result (λ o. AreInRange o.settings) }
{
    match command(alloc) {
        Ok(mut command) => options_by(alloc, &mut command, words),
        Err(wanting) => Err(Error::from(wanting)),
    }
}

// Reads the words by this command line.
fn options_by<'a, S: AsStr>(
    alloc: Global,
    command: &mut Command<'a>,
    words: &'a [S],
) -> Result<Options<'a>, Error>
    requires { app_of command.now ≡ command_line }
    ensures said { IfOk result (AreSaid (map S.text words.entry.now)) }
    ensures in_range { IfOk result (λ o. AreInRange o.settings) }
{
    let matches = command.try_get_matches_from_mut(words)?;
    match options_of(&matches) {
        Ok(options) => Ok(options),
        Err(bad) => Err(error_of(alloc, command, &matches, bad)),
    }
}

// The number of an option that is not in its range.
#[derive(Clone, Copy)]
struct BadNumber {
    name: &'static str,
    most: u64,
}

// The options that were found in the words, and the defaults of the others.
fn options_of<'a>(matches: &ArgMatches<'a>) -> Result<Options<'a>, BadNumber>
    ensures found { IfOk result (λ o. AreFound (found_of matches.now) o.settings) }
    ensures race { IfOk result (λ o. IsFlag (one_text (found_of matches.now) (codes "race")) o.race) }
    ensures entries { IfOk result (λ o. IsFlag (one_text (found_of matches.now) (codes "entries")) o.entries) }
    ensures why { IfOk result (λ o. IsFlag (one_text (found_of matches.now) (codes "why")) o.why) }
    ensures strict { IfOk result (λ o. IsFlag (one_text (found_of matches.now) (codes "strict")) o.strict) }
    ensures stock { IfOk result (λ o. o.stock.now ≡ unwrap_or (first_value (found_of matches.now) (codes "stock")) []) }
    ensures resume { IfOk result (λ o. option_map (λ s. s.now) o.resume ≡ first_value (found_of matches.now) (codes "resume")) }
    ensures keep { IfOk result (λ o. option_map (λ s. s.now) o.keep ≡ first_value (found_of matches.now) (codes "keep")) }
    ensures asked { IfOk result (λ o. AreAsked (found_of matches.now) o.asked) }
    ensures in_range { IfOk result (λ o. AreInRange o.settings) }
{
    let asked = asked_of(matches)?;
    match settings_of(matches) {
        Ok(settings) => Ok(Options {
            settings,
            race: matches.get_flag("race"),
            entries: matches.get_flag("entries"),
            why: matches.get_flag("why"),
            strict: matches.get_flag("strict"),
            stock: matches.get_str("stock").unwrap_or(""),
            resume: matches.get_str("resume"),
            keep: matches.get_str("keep"),
            asked,
        }),
        Err(bad) => Err(bad),
    }
}

// The numbers that were found in the words, and that a history has too.
fn asked_of(matches: &ArgMatches) -> Result<Asked, BadNumber>
    ensures { IfOk result (AreAsked (found_of matches.now)) }
{
    let workers = number_asked(matches, "workers", MAX_WORKERS)?;
    let max_vertices = number_asked(matches, "vertices", MAX_VERTICES)?;
    Ok(Asked {
        workers,
        max_vertices,
    })
}

// The number of an option, if the words have it.
fn number_asked(
    matches: &ArgMatches,
    name: &'static str,
    most: u64,
) -> Result<Option<u64>, BadNumber>
    ensures { IfOk result (λ n. n ≡ number_if (one_text (found_of matches.now) name.now)) }
{
    match matches.try_get_one::<u64>(name) {
        Ok(None) => Ok(None),
        Ok(Some(n)) => Ok(Some(n)),
        Err(_) => Err(BadNumber { name, most }),
    }
}

// The numbers that were found in the words, and the defaults of the others.
fn settings_of(matches: &ArgMatches) -> Result<Settings, BadNumber>
    ensures found { IfOk result (AreFound (found_of matches.now)) }
    ensures in_range { IfOk result AreInRange }
{
    let workers = number(matches, "workers", DEFAULT_WORKERS, MAX_WORKERS)?;
    let helpers = number(matches, "helpers", DEFAULT_HELPERS, u64::from(MOST_HELPERS))?;
    let max_vertices = number(matches, "vertices", DEFAULT_VERTICES, MAX_VERTICES)?;
    let blocks = number(matches, "blocks", DEFAULT_BLOCKS, MOST_BLOCKS)?;
    Ok(Settings {
        workers,
        helpers: helpers_of(helpers),
        max_vertices,
        limits: limits_of(blocks),
    })
}

// So many helpers.
fn helpers_of(number: u64) -> Helpers
    requires { (1 ≤ number) × (number ≤ 8) }
    ensures { result ≡ number }
{
    // The number is in its range.
    let Some(helpers) = Helpers::new(number as u32) else {
        unreachable!()
    };
    helpers
}

// The limits of a heap that may have so many blocks.
fn limits_of(blocks: u64) -> Limits
    requires { (1 ≤ blocks) × (blocks ≤ MOST_BLOCKS) }
    ensures blocks { result.max_blocks ≡ blocks }
    ensures space_blocks { result.space_blocks ≡ MOST_SPACE_BLOCKS }
{
    // Both numbers are in their ranges.
    let Ok(limits) = Limits::new(blocks, MOST_SPACE_BLOCKS) else {
        unreachable!()
    };
    limits
}

// The command line.
fn command<'a>(alloc: Global) -> Result<Command<'a>, AllocError>
    ensures { IfOk result (λ command. app_of command ≡ command_line) }
{
    let options = vec![in alloc;
        number_arg(alloc, "workers", help::WORKERS),
        number_arg(alloc, "helpers", help::HELPERS),
        number_arg(alloc, "vertices", help::VERTICES),
        number_arg(alloc, "blocks", help::BLOCKS),
        option_arg(alloc, "stock", "TEXT", help::STOCK),
        arg_of(alloc, "race", help::RACE, ArgAction::SetTrue),
        arg_of(alloc, "entries", help::ENTRIES, ArgAction::SetTrue),
        arg_of(alloc, "why", help::WHY, ArgAction::SetTrue),
        arg_of(alloc, "strict", help::STRICT, ArgAction::SetTrue),
        option_arg(alloc, "resume", "FILE", help::RESUME),
        option_arg(alloc, "keep", "FILE", help::KEEP),
    ]?;
    match bare_command(alloc) {
        Ok(command) => command.args(options),
        Err(wanting) => Err(wanting),
    }
}

// The command line without its options.
fn bare_command<'a>(alloc: Global) -> Result<Command<'a>, AllocError>
    ensures { IfOk result (λ command. app_of command ≡ bare_line) }
{
    match Command::new(alloc, "tgstore").bin_name("tgstore") {
        Ok(command) => Ok(
            command
                .version(help::VERSION)
                .about(help::ABOUT)
                .after_help(help::MANUAL),
        ),
        Err(wanting) => Err(wanting),
    }
}

// An option with this action.
fn arg_of<'a>(alloc: Global, name: &'a str, help: &'a str, action: ArgAction) -> Arg<'a>
    ensures arg { IsArgOf (rule_with name.entry.now action) result }
{
    Arg::new(alloc, name).long(name).help(help).action(action)
}

// An option with one value.
fn option_arg<'a>(alloc: Global, name: &'a str, value: &'a str, help: &'a str) -> Arg<'a>
    ensures arg { IsArgOf (option_rule name.entry.now) result }
{
    arg_of(alloc, name, help, ArgAction::Set).value_name(value)
}

// An option whose value is a number.
fn number_arg<'a>(alloc: Global, name: &'a str, help: &'a str) -> Arg<'a>
    ensures arg { IsArgOf (number_rule name.entry.now) result }
{
    option_arg(alloc, name, "N", help).value_parser(clap::value_parser!(u64))
}

// The number of an option, from 1 to `most`, or the default where the words don't have the option.
fn number(
    matches: &ArgMatches,
    name: &'static str,
    default: u64,
    most: u64,
) -> Result<u64, BadNumber>
    requires least { 1 ≤ default }
    requires most { default ≤ most }
    ensures in_range { IfOk result (λ n. (1 ≤ n) × (n ≤ most)) }
    ensures said { IfOk result (λ n. n ≡ number_or default (one_text (found_of matches.now) name.now)) }
{
    match matches.try_get_one::<u64>(name) {
        Ok(None) => Ok(default),
        Ok(Some(n)) if 1 <= n && n <= most => Ok(n),
        _ => Err(BadNumber { name, most }),
    }
}

// The error of a number that is not in its range, or lack of memory.
fn error_of(alloc: Global, command: &mut Command, matches: &ArgMatches, bad: BadNumber) -> Error {
    match tell_range(alloc, command, matches, bad) {
        Ok(error) => error,
        Err(wanting) => Error::from(wanting),
    }
}

// What is said of a number that is not in its range.
fn tell_range(
    alloc: Global,
    command: &mut Command,
    matches: &ArgMatches,
    bad: BadNumber,
) -> Result<Error, AllocError> {
    let BadNumber { name, most } = bad;
    let text = matches.get_str(name).unwrap_or("");
    let message = format!(in alloc;
        "invalid value '{text}' for '--{name} <N>': {text} is not in 1..={most}"
    )?;
    command.error(ErrorKind::ValueValidation, message.as_str())
}
