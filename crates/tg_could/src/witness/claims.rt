//! What turns need, and what they give, by the names of vertices.
use std::alloc::Global;
use tg_model::{Command, Deed, Law, Numbers};
use tg_rights::{Right, Rights};

/// Rights of one vertex over another.
#[derive(Clone, Copy, Drop)]
pub(crate) struct EdgeClaim {
    pub(crate) from: u64,
    pub(crate) to: u64,
    pub(crate) rights: Rights,
}

/// What a turn needs: rights of its worker over a vertex, and rights of whoever hands them on. And what it gives.
#[derive(Clone, Copy, Drop)]
pub(crate) struct TurnClaims {
    pub(crate) by: EdgeClaim,
    pub(crate) source: EdgeClaim,
    pub(crate) given: EdgeClaim,
}

fn claim_of(from: u64, to: u64, rights: Rights) -> EdgeClaim {
    EdgeClaim { from, to, rights }
}

// No rights of a vertex over itself.
fn no_claim(name: u64) -> EdgeClaim {
    claim_of(name, name, Rights::empty())
}

/// What a turn needs and gives. `next` is the name that it makes.
pub(crate) fn claims_of(worker: u64, deed: &Deed, next: u64) -> TurnClaims {
    match deed {
        Deed::Create { label, .. } | Deed::Spawn { label, .. } => TurnClaims {
            by: no_claim(worker),
            source: no_claim(worker),
            given: claim_of(worker, next, label.rights()),
        },
        Deed::Plain(
            Command::Take {
                rights,
                via,
                target,
            },
        ) => TurnClaims {
            by: claim_of(worker, *via, Rights::of(Right::T)),
            source: claim_of(*via, *target, rights.rights()),
            given: claim_of(worker, *target, rights.rights()),
        },
        Deed::Plain(
            Command::Grant {
                rights,
                via,
                target,
            },
        ) => TurnClaims {
            by: claim_of(worker, *via, Rights::of(Right::G)),
            source: claim_of(worker, *target, rights.rights()),
            given: claim_of(*via, *target, rights.rights()),
        },
        Deed::Plain(_) => TurnClaims {
            by: no_claim(worker),
            source: no_claim(worker),
            given: no_claim(worker),
        },
    }
}

/// New names of the vertices that turns make, in order, if some of these turns are left out.
#[derive(Drop)]
pub(crate) struct NewNames {
    made: u64,
    pub(crate) names: Vec<u64>,
}

impl NewNames {
    /// No names yet. So many vertices were made before the turns.
    pub(crate) fn none(alloc: Global, made: u64) -> NewNames {
        NewNames {
            made,
            names: Vec::new(alloc),
        }
    }

    // The new name of a vertex.
    fn name(&self, name: u64) -> u64 {
        if name < self.made {
            return name;
        }
        match self.names.get((name - self.made) as usize) {
            Some(new) => *new,
            None => name,
        }
    }

    /// The turn with the new names.
    pub(crate) fn turn(&self, turn: &(u64, Deed)) -> (u64, Deed) {
        (self.name(turn.0), self.deed(&turn.1))
    }

    // The deed with the new names. What is made stores the number 0.
    fn deed(&self, deed: &Deed) -> Deed {
        match deed {
            Deed::Create { label, .. } => Deed::Create {
                label: *label,
                law: Law::Cell,
                state: Numbers::one(0),
            },
            Deed::Spawn { label, .. } => Deed::Spawn {
                label: *label,
                law: Law::Cell,
                state: Numbers::one(0),
            },
            Deed::Plain(command) => Deed::Plain(self.command(command)),
        }
    }

    // The command with the new names.
    fn command(&self, command: &Command) -> Command {
        match command {
            Command::Take {
                rights,
                via,
                target,
            } => Command::Take {
                rights: *rights,
                via: self.name(*via),
                target: self.name(*target),
            },
            Command::Grant {
                rights,
                via,
                target,
            } => Command::Grant {
                rights: *rights,
                via: self.name(*via),
                target: self.name(*target),
            },
            _ => Command::Retire,
        }
    }
}
