//! A vertex that is made.
ghost use Rattle.std.specs.Prelude.{◌≡◌, ◌<◌, ◌≤◌, ◌↔◌, IsTrue, vec_len};
ghost use Rattle.std.specs.Vec.{vec_capacity};
ghost use Rattle.tg_model.specs.declared.making.Making.TheVariants.{Subject};
ghost use Rattle.tg_model.specs.declared.opening.TheConstants.{MAX_WORKERS};

use crate::command::Deed;
use crate::opening::MAX_WORKERS;
use crate::value::Value;
use tg_rights::Label;

/// What a vertex that is made is.
#[derive(Clone, Copy, PartialEq, Eq, Debug)]
pub enum Making {
    /// An object.
    Object,
    /// A subject, which issues commands of its own.
    Subject,
}

impl Making {
    ghost use Rattle.tg_model.specs.Making.{deed_making, subjects_making};

    /// The deed by which a vertex with this value is made.
    pub fn deed(self, label: Label, value: Value) -> Deed
        ensures { result ≡ deed_making self label value }
    {
        let Value { law, state } = value;
        match self {
            Making::Object => Deed::Create { label, law, state },
            Making::Subject => Deed::Spawn { label, law, state },
        }
    }

    /// Whether it would be a subject more than there may be, where so many are active.
    pub fn is_one_too_many(self, subjects: u64) -> bool
        ensures { IsTrue result ↔ ((self ≡ Subject) × (MAX_WORKERS ≤ subjects)) }
    {
        self == Making::Subject && subjects >= MAX_WORKERS
    }

    /// Adds the name of a vertex that was made to those of the subjects, where it is one. There has to be room, and so
    /// it takes no memory.
    pub fn enlist(self, subjects: &mut Vec<u64>, name: u64)
        requires { vec_len subjects.old < vec_capacity subjects.old }
        ensures { subjects.new.items ≡ subjects_making self subjects.old.items name }
    {
        if self == Making::Subject {
            subjects.push_reserved(name);
        }
    }
}
