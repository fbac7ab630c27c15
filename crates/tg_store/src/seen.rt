//! From which snapshot a store goes on, for clauses alone.
ghost use Rattle.std.specs.Prelude.{◌≡◌, None, Option, Some};
ghost use Rattle.std.specs.Borrow.{ftrue};
ghost use Rattle.tg_snapshot.specs.Snapshot.{Saved};

use std::marker::Model;
use tg_snapshot::Snapshot;

/// The snapshot from which a store goes on, if there is one. Only clauses read it. It takes no memory, and costs
/// nothing at run time.
#[derive(Drop)]
pub(crate) struct Seen {
    pub ghost snapshot: { Option Saved },
}

impl Model for Seen {
    ghost also_owns = { λ _. ftrue };
}

// It owns nothing.
unsafe impl Send for Seen {}

unsafe impl Sync for Seen {}

impl Seen {
    /// No snapshot.
    pub(crate) fn nothing() -> Seen
        ensures { result.snapshot ≡ None }
    {
        Seen {}
    }

    /// This snapshot.
    pub(crate) fn of(_snapshot: &Snapshot) -> Seen
        ensures { result.snapshot ≡ Some _snapshot.now }
    {
        Seen {}
    }
}
