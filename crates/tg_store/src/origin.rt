//! Where a store begins.
ghost use Rattle.std.specs.Prelude.{◌≡◌, ◌↔◌, IsSome, IsTrue};
ghost use Rattle.tg_store.specs.Origin.{opened_again, opened_by};

use crate::seen::Seen;
use std::marker::Model;
use tg_model::Opening;
use tg_snapshot::Snapshot;

/// The beginning of a store. It is an opening, or a snapshot from which the store was opened again. Contracts see the
/// snapshot too, but it takes no memory here.
#[derive(Drop)]
pub(crate) struct StoreOrigin {
    opening: Opening,
    again: bool,
    seen: Seen,
}

impl Model for StoreOrigin {
    ghost use Rattle.std.specs.Prelude.{◌↔◌, IsSome, IsTrue};
    ghost use Rattle.tg_store.specs.Origin.{Origin};

    ghost Value = { Origin };

    ghost view = { λ a. record { plan = a.opening; shown = a.seen.snapshot } };

    ghost invariant = { λ a. IsTrue a.again ↔ IsSome a.seen.snapshot };
}

impl StoreOrigin {
    /// The origin of a store that is opened by its opening alone.
    pub(crate) fn first(opening: Opening) -> StoreOrigin
        ensures { result ≡ opened_by opening }
    {
        StoreOrigin {
            opening,
            again: false,
            seen: Seen::nothing(),
        }
    }

    /// The origin of a store that is opened again from a snapshot.
    pub(crate) fn again(opening: Opening, snapshot: &Snapshot) -> StoreOrigin
        ensures { result ≡ opened_again opening snapshot.now }
    {
        StoreOrigin {
            opening,
            again: true,
            seen: Seen::of(snapshot),
        }
    }

    /// The opening, as it was handed in.
    pub(crate) fn opening(&self) -> &Opening
        ensures { result.now ≡ self.now.plan }
    {
        &self.opening
    }

    /// The most vertices that may ever be made.
    pub(crate) fn max_vertices(&self) -> u64
        ensures { result ≡ self.now.plan.limit }
    {
        self.opening.max_vertices()
    }

    /// Whether the store was opened again from a snapshot.
    pub(crate) fn is_again(&self) -> bool
        ensures { IsTrue result ↔ IsSome self.now.shown }
    {
        self.again
    }
}
