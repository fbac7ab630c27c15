//! The words of the command line.
ghost use Rattle.std.specs.Prelude.{◌↔◌, IsTrue};
ghost use Rattle.tgcould.specs.Verdict.{AllowsDenied, HasPolicy};

use crate::help;
use clap::builder::ValueParser;
use clap::{ArgAction, ArgMatches};
use tg_plain::{Choice, CommandLine, KEPT, STOCK, VERTICES, WORKERS};

/// Who takes no turns.
pub const SILENT: &str = "silent";

/// The edges that are asked about as if they were there.
pub const AS_IF: &str = "as-if";

/// The questions to be answered.
pub const ASK: &str = "ask";

/// The option whose questions must be answered `never`.
pub const NEVER: &str = "never";

/// Whether policies may pass though lines of the script were denied or refused.
pub const ALLOW_DENIED: &str = "allow-denied";

// The options. They say what a script runs on, who is trusted, which edges are supposed, what is asked, and what is
// allowed.
const CHOICES: &[Choice] = &[
    WORKERS,
    VERTICES,
    BOXES,
    KEPT,
    Choice {
        name: SILENT,
        action: ArgAction::Append,
        value: "NAME",
        parser: ValueParser::String,
        needs: &[],
        help: help::SILENT,
    },
    Choice {
        name: AS_IF,
        action: ArgAction::Append,
        value: "'X Y RIGHTS'",
        parser: ValueParser::String,
        needs: &[],
        help: help::AS_IF,
    },
    Choice {
        name: ASK,
        action: ArgAction::Append,
        value: "QUESTION",
        parser: ValueParser::String,
        needs: &[],
        help: help::ASK,
    },
    Choice {
        name: NEVER,
        action: ArgAction::Append,
        value: "QUESTION",
        parser: ValueParser::String,
        needs: &[],
        help: help::NEVER,
    },
    Choice {
        name: ALLOW_DENIED,
        action: ArgAction::SetTrue,
        value: "",
        parser: ValueParser::Bool,
        needs: &[],
        help: help::ALLOW_DENIED,
    },
];

// The boxes. Without them there are cells without end.
const BOXES: Choice = Choice {
    help: help::STOCK,
    ..STOCK
};

/// The command line.
pub const COMMAND_LINE: CommandLine = CommandLine {
    name: "tgcould",
    about: help::ABOUT,
    manual: help::MANUAL,
    advice: help::ADVICE,
    choices: CHOICES,
};

/// How many questions are asked.
pub fn questions_in(matches: &ArgMatches) -> usize {
    let asked = matches.get_strs(ASK).unwrap_or(&[]);
    let never = matches.get_strs(NEVER).unwrap_or(&[]);
    asked.len().saturating_add(never.len())
}

/// Whether something must never come about.
pub fn has_policy(matches: &ArgMatches) -> bool
    ensures { IsTrue result ↔ HasPolicy matches.now }
{
    let never = matches.get_strs(NEVER).unwrap_or(&[]);
    !never.is_empty()
}

/// Whether policies may pass though lines of the script were denied or refused.
pub fn allows_denied(matches: &ArgMatches) -> bool
    ensures { IsTrue result ↔ AllowsDenied matches.now }
{
    match matches.get_str(ALLOW_DENIED) {
        Some(word) => word == "true",
        None => false,
    }
}
