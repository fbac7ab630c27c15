//! How many helpers collect a store.

use std::marker::Model;
use tg_parallel::MOST_HELPERS;

/// How many helpers each collection of a run has, from 1 to 8.
#[derive(Clone, Copy, Debug)]
pub struct Helpers {
    number: u32,
}

impl Model for Helpers {
    ghost use Rattle.std.specs.Prelude.{◌≤◌, ℕ};

    ghost Value = { ℕ };

    ghost view = { λ a. a.number };

    ghost invariant = { λ a. (1 ≤ a.number) × (a.number ≤ 8) };

    ghost inverse = { λ v. record { number = v } };
}

impl Helpers {
    ghost use Rattle.std.specs.Prelude.{◌≡◌, ◌<◌, ◌≤◌, ◌⊎◌, IfNone, IfSome};

    /// One helper. The thread that asks for a collection makes it alone.
    pub fn one() -> Helpers
        ensures { result ≡ 1 }
    {
        Helpers { number: 1 }
    }

    /// So many helpers, or `None` where there would be none or more than 8.
    pub fn new(number: u32) -> Option<Helpers>
        ensures some { IfSome result (λ helpers. helpers ≡ number) }
        ensures none { IfNone result ((number < 1) ⊎ (8 < number)) }
    {
        if number < 1 || MOST_HELPERS < number {
            return None;
        }
        Some(Helpers { number })
    }

    /// How many they are.
    pub fn number(self) -> u32
        ensures value { result ≡ self }
        ensures range { (1 ≤ result) × (result ≤ 8) }
    {
        self.number
    }
}
