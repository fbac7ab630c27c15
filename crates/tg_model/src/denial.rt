//! Why commands are denied, for any form of a graph that knows its labels and its logs.
ghost use Rattle.std.specs.Prelude.{◌≡◌, ◌==◌};
ghost use Rattle.std.specs.Option.{option_or};
ghost use Rattle.tg_model.specs.Rules.{unless_distinct, unless_held, unless_log, denial_of};

use crate::command::Command;
use crate::reply::{Cause, Denial, Rule};
use tg_rights::{Label, Right, Rights};

/// A graph in some form, as far as a denial looks at it. It has the rights of one vertex over another, and which vertex
/// stores a log.
pub trait Labelled {
    ghost use Rattle.std.specs.Prelude.{◌≡◌, ℕ, Option};
    ghost use Rattle.tg_rights.specs.RightSet.{RightSet};
    ghost use Rattle.tg_model.specs.declared.value.Value.{Value};
    ghost use Rattle.tg_model.specs.Rules.{stores_log};

    ghost label: { Self → ℕ → ℕ → RightSet };

    ghost value: { Self → ℕ → Option Value };

    /// The rights of one vertex over another.
    fn rights_over(&self, from: u64, to: u64) -> Rights
        ensures { result ≡ label self.now from to };

    /// Whether a vertex was made and stores a log.
    fn has_log(&self, name: u64) -> bool
        ensures { result ≡ stores_log (value self.now name) };
}

/// Why a command of a worker is denied on a graph, or `None` where it is served. Takes no memory.
pub fn denial_on<G: Labelled>(graph: &G, worker: u64, command: &Command) -> Option<Denial>
    ensures { result ≡ denial_of (G.label graph.now) (G.value graph.now) worker command.now }
{
    match *command {
        Command::Take {
            via,
            target,
            rights,
        } => unless_taken(graph, worker, via, target, rights),
        Command::Grant {
            via,
            target,
            rights,
        } => unless_granted(graph, worker, via, target, rights),
        Command::Remove { target, rights } => {
            unless_used(graph, Rule::Remove, worker, target, rights.rights())
        }
        Command::Read { target } => {
            unless_used(graph, Rule::Read, worker, target, Rights::of(Right::R))
        }
        Command::Write { target, .. } => {
            unless_used(graph, Rule::Write, worker, target, Rights::of(Right::W))
        }
        Command::Append { target, .. } => {
            let held = first_of(
                unless_held(graph, Rule::Append, worker, target, Rights::of(Right::A)),
                unless_log(graph, Rule::Append, target),
            );
            first_of(unless_distinct(Rule::Append, worker == target), held)
        }
        Command::Inspect { target } => {
            unless_used(graph, Rule::Inspect, worker, target, Rights::of(Right::L))
        }
        Command::List | Command::Retire => None,
    }
}

// Why a take is denied.
fn unless_taken<G: Labelled>(
    graph: &G,
    worker: u64,
    via: u64,
    target: u64,
    rights: Label,
) -> Option<Denial>
    ensures { result ≡ denial_of (G.label graph.now) (G.value graph.now) worker (Command.Take rights via target) }
{
    let same = worker == via || via == target || worker == target;
    let held = first_of(
        unless_held(graph, Rule::Take, worker, via, Rights::of(Right::T)),
        unless_held(graph, Rule::Take, via, target, rights.rights()),
    );
    first_of(unless_distinct(Rule::Take, same), held)
}

// Why a grant is denied.
fn unless_granted<G: Labelled>(
    graph: &G,
    worker: u64,
    via: u64,
    target: u64,
    rights: Label,
) -> Option<Denial>
    ensures { result ≡ denial_of (G.label graph.now) (G.value graph.now) worker (Command.Grant rights via target) }
{
    let same = worker == via || via == target || worker == target;
    let held = first_of(
        unless_held(graph, Rule::Grant, worker, via, Rights::of(Right::G)),
        unless_held(graph, Rule::Grant, worker, target, rights.rights()),
    );
    first_of(unless_distinct(Rule::Grant, same), held)
}

// Why a command is denied that needs only rights of the worker over its target.
fn unless_used<G: Labelled>(
    graph: &G,
    rule: Rule,
    worker: u64,
    target: u64,
    rights: Rights,
) -> Option<Denial>
    ensures { result ≡ option_or (unless_distinct rule (worker == target)) (unless_held (G.label graph.now) rule worker target rights) }
{
    first_of(
        unless_distinct(rule, worker == target),
        unless_held(graph, rule, worker, target, rights),
    )
}

// The denial of a command that needs a log, if the target stores no log.
fn unless_log<G: Labelled>(graph: &G, rule: Rule, target: u64) -> Option<Denial>
    ensures { result ≡ unless_log rule (G.value graph.now target) }
{
    if graph.has_log(target) {
        return None;
    }
    Some(Denial {
        rule,
        cause: Cause::NotLog,
    })
}

// A denial where rights are missing.
fn unless_held<G: Labelled>(
    graph: &G,
    rule: Rule,
    from: u64,
    to: u64,
    rights: Rights,
) -> Option<Denial>
    ensures { result ≡ unless_held (G.label graph.now) rule from to rights }
{
    let label = graph.rights_over(from, to);
    if label.contains(rights) {
        return None;
    }
    Some(Denial {
        rule,
        cause: Cause::Missing {
            from,
            to,
            rights: rights.minus(label),
        },
    })
}

// A denial where two vertices that must differ are one.
fn unless_distinct(rule: Rule, same: bool) -> Option<Denial>
    ensures { result ≡ unless_distinct rule same }
{
    if same {
        return Some(Denial {
            rule,
            cause: Cause::NotDistinct,
        });
    }
    None
}

// The first of two denials.
fn first_of(first: Option<Denial>, later: Option<Denial>) -> Option<Denial>
    ensures { result ≡ option_or first later }
{
    match first {
        Some(denial) => Some(denial),
        None => later,
    }
}
