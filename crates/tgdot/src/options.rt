//! The words of the command line.

use clap::builder::ValueParser;
use clap::{ArgAction, ArgMatches};
use tg_plain::{
    Choice, CommandLine, KEPT, PlainFault, PlainOptions, STOCK, VERTICES, WORKERS, read_options,
};

const ABOUT: &str = "Draws the graph that a script leaves, for GraphViz's dot

Reads a script of tgstore from standard input, runs it, and writes a digraph to standard output. Or it reads the text of a
history, as tgstore --entries writes it, and draws the graph after the last entry. With --kept it reads the history of a
kept file, up to its last whole line. FILE is only read, and a store may use it meanwhile. The history decides --workers and
--vertices, and --stock and --steps aren't accepted with it. A subject is a box, with a dashed border if it retired. An
object is a circle, or an ellipse if its text is long. Each edge is an arrow with its rights. A vertex that no subject
reaches is grey.

With --steps it writes a digraph before the first command, and one after each command. All of them name the same vertices
and edges, and hide what isn't there. So dot puts a vertex at one place in all of them. A vertex shows its law and its
state. The vertices that the line names are bold, and so is the edge that it changed. If the line was denied, the edge that
lacks the rights is red and dashed. A vertex that should store a log is red. No line is refused for room or memory.";

const MANUAL: &str = "Exit status:
  0  the digraphs were written
  1  the run stopped, and standard error says where and why
  2  the words of the command line were not accepted

Example:
  printf '0 create rw\\n0 list\\n' | tgdot --workers 1 --stock c | dot -Tsvg > graph.svg";

const ADVICE: &str =
    "a script comes from standard input and a kept file by --kept FILE, and dot has options of its own, as in tgdot < script.txt | dot -Tsvg";

// The number of a line, as an option has it.
const LINE: ValueParser<'static> = ValueParser::Unsigned(1, i64::MAX as u64);

const STEPS: &str =
    "Draws the graph after each line, of at most 400 lines, and before the first. All
of them together have at most 100000 vertices";

const FROM: &str =
    "Sets the first line that --steps shows, from 1 to the number of --to [default: 1]";

const TO: &str = "Sets the last line that --steps shows [default: the last line of the script]";

// The options. They are two numbers, a text and a flag. The numbers of two lines go with the flag.
const CHOICES: &[Choice] = &[
    WORKERS,
    VERTICES,
    STOCK,
    KEPT,
    Choice {
        name: "steps",
        action: ArgAction::SetTrue,
        value: "",
        parser: ValueParser::Bool,
        needs: &[],
        help: STEPS,
    },
    Choice {
        name: "from",
        action: ArgAction::Set,
        value: "N",
        parser: LINE,
        needs: &["steps"],
        help: FROM,
    },
    Choice {
        name: "to",
        action: ArgAction::Set,
        value: "N",
        parser: LINE,
        needs: &["steps"],
        help: TO,
    },
];

/// The command line.
pub const COMMAND_LINE: CommandLine = CommandLine {
    name: "tgdot",
    about: ABOUT,
    manual: MANUAL,
    advice: ADVICE,
    choices: CHOICES,
};

/// The requests of the words.
#[derive(Clone, Copy)]
pub struct DotOptions<'a> {
    /// The options of the plain graph on which the script runs.
    pub plain: PlainOptions<'a>,
    /// The lines whose steps are drawn, or `None` if only the last graph is.
    pub steps: Option<LineRange>,
}

/// Lines of a script, by their numbers.
#[derive(Clone, Copy)]
pub struct LineRange {
    /// The first line.
    pub from: u64,
    /// The last line.
    pub to: u64,
}

impl LineRange {
    /// Whether the line is in the range.
    pub fn contains(self, line: u64) -> bool {
        self.from <= line && line <= self.to
    }

    /// A fault if there is no such line, whatever the script.
    pub fn check(self) -> Result<(), PlainFault> {
        let LineRange { from, to } = self;
        if from > to {
            return Err(PlainFault::BadRange { from, to });
        }
        Ok(())
    }
}

/// The options that were found in the words, and the defaults of the others. Without a stock there are no boxes, as
/// `tgstore` has it.
pub fn options_of<'a>(matches: &ArgMatches<'a>) -> DotOptions<'a> {
    let plain = read_options(matches);
    DotOptions {
        plain: PlainOptions {
            stock: Some(plain.stock.unwrap_or("")),
            ..plain
        },
        steps: steps_of(matches),
    }
}

// The lines whose steps are asked for, if steps are.
fn steps_of(matches: &ArgMatches) -> Option<LineRange> {
    if !matches.get_flag("steps") {
        return None;
    }
    Some(LineRange {
        from: matches.get_one("from").unwrap_or(1),
        to: matches.get_one("to").unwrap_or(u64::MAX),
    })
}
