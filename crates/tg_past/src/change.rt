//! What an entry changes of the labels of a graph.
ghost use Rattle.std.specs.Prelude.{◌≡◌};
ghost use Rattle.tg_past.specs.Inner.{change_in, change_by, change_of_making, served_by};

use tg_journal::Entry;
use tg_model::{Command, Deed, Edge, Reply};
use tg_rights::Label;

/// What an entry of a legal history changes of the labels.
#[derive(Clone, Copy)]
pub(crate) enum Change {
    /// The rights of this edge are added to those between its ends.
    Adds(Edge),
    /// They are taken away from those between its ends.
    Loses(Edge),
    /// No label changes.
    Nothing,
}

/// What the entry changes. Its reply says whether its deed was served.
pub(crate) fn change_of(entry: &Entry) -> Change
    ensures { result ≡ change_in entry.now }
{
    match &entry.deed {
        Deed::Create { label, .. } | Deed::Spawn { label, .. } => {
            making_change(entry.worker, *label, &entry.reply)
        }
        Deed::Plain(command) => command_change(entry.worker, command, &entry.reply),
    }
}

// What a worker changes who asked for a vertex, and was answered this.
fn making_change(worker: u64, label: Label, reply: &Reply) -> Change
    ensures { result ≡ change_of_making worker label reply.now }
{
    match reply {
        Reply::Name(name) => Change::Adds(Edge {
            from: worker,
            to: *name,
            label,
        }),
        _ => Change::Nothing,
    }
}

// What a worker's command changes that was answered this.
fn command_change(worker: u64, command: &Command, reply: &Reply) -> Change
    ensures { result ≡ change_by worker command.now reply.now }
{
    match reply {
        Reply::Done => served_change(worker, command),
        _ => Change::Nothing,
    }
}

// What a worker's command changes that is served.
fn served_change(worker: u64, command: &Command) -> Change
    ensures { result ≡ served_by worker command.now }
{
    let (from, to, label) = match *command {
        Command::Take { rights, target, .. } => (worker, target, rights),
        Command::Grant {
            rights,
            via,
            target,
        } => (via, target, rights),
        Command::Remove { rights, target } => {
            return Change::Loses(Edge {
                from: worker,
                to: target,
                label: rights,
            });
        }
        _ => return Change::Nothing,
    };
    Change::Adds(Edge { from, to, label })
}
