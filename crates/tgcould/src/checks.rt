//! Whether the words of the command line fit their options. The first that doesn't is named on standard error.
ghost use Rattle.std.specs.Prelude.{IsTrue};
ghost use Rattle.std.specs.List.{All};
ghost use Rattle.tg_could.specs.Reached.{JoinsMade};

use crate::options::{ASK, NEVER, questions_in};
use crate::query::read_question;
use crate::supposed::Supposed;
use clap::ArgMatches;
use tg_model::Edge;

/// Whether all values of the two options for questions are questions.
pub fn are_accepted<R: Eprint>(rt: &R, matches: &ArgMatches) -> bool {
    are_questions(rt, matches, ASK) && are_questions(rt, matches, NEVER)
}

// Whether all are questions.
fn are_questions<R: Eprint>(rt: &R, matches: &ArgMatches, option: &str) -> bool {
    for text in matches.get_strs(option).unwrap_or(&[]) {
        if let Err(reason) = read_question(text) {
            refuse(rt, option, text, reason);
            return false;
        }
    }
    true
}

/// Says why a value is none of its option's.
pub fn refuse<R: Eprint>(rt: &R, option: &str, text: &str, reason: &str) {
    let _ = eprintln!(rt; "tgcould: --{option} '{text}': {reason}");
}

/// Whether there is a question.
pub fn is_asked<R: Eprint>(rt: &R, matches: &ArgMatches) -> bool {
    if questions_in(matches) > 0 {
        return true;
    }
    let _ = eprintln!(rt; "tgcould: no question: --ask or --never wants one, as --ask '3 r 7'");
    false
}

/// Whether the script made who is to be silent, and both ends of each edge. It made so many vertices.
pub fn are_made<R: Eprint>(rt: &R, made: u64, supposed: &Supposed) -> bool
    ensures { IsTrue result → All (JoinsMade made) supposed.now.edges.items }
{
    are_names_made(rt, made, supposed.silent.as_slice())
        && are_ends_made(rt, made, supposed.edges.as_slice())
}

// Whether the script made all vertices with these names.
fn are_names_made<R: Eprint>(rt: &R, made: u64, names: &[u64]) -> bool {
    for name in names {
        if *name >= made {
            refuse_name(rt, *name);
            return false;
        }
    }
    true
}

// Whether the script made both ends of each edge.
fn are_ends_made<R: Eprint>(rt: &R, made: u64, edges: &[Edge]) -> bool
    ensures { IsTrue result → All (JoinsMade made) edges.now }
{
    for edge in edges {
        if edge.from >= made || edge.to >= made {
            refuse_end(rt, *edge);
            return false;
        }
    }
    true
}

// Says that the script doesn't make who is to be silent.
fn refuse_name<R: Eprint>(rt: &R, name: u64) {
    let _ = eprintln!(rt; "tgcould: --silent {name}: the script makes no vertex {name}");
}

// Says that the script doesn't make the greater end of an edge.
fn refuse_end<R: Eprint>(rt: &R, edge: Edge) {
    let Edge { from, to, label } = edge;
    let name = from.max(to);
    let _ = eprintln!(rt;
        "tgcould: --as-if '{from} {to} {label}': the script makes no vertex {name}"
    );
}
