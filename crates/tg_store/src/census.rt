//! Counts of what a store has, and of its entries.
ghost use Rattle.std.specs.Prelude.{◌≡◌, ◌+◌, ◌-◌, ◌^◌, ◌<◌};
ghost use Rattle.tg_store.specs.Counts.{refusals_of, with_one_collection, with_one_refusal};

use tg_space::Kind;

/// What a store has, and how many entries and collections were made since it was opened.
#[derive(Clone, Copy, PartialEq, Eq, Debug)]
pub struct Census {
    /// How many vertices the heap has. Those that nobody reaches are counted until a full collection.
    pub vertices: u64,
    /// How many payloads, of those that nobody reaches until a full collection too.
    pub payloads: u64,
    /// How many blocks all spaces have, of 64 cells each.
    pub blocks: u64,
    /// How many entries were made.
    pub entries: u64,
    /// How many of these the store still holds. The others were handed out or given up.
    pub held: u64,
    /// How many of the entries record a refusal. A refusal without an entry is in no number.
    pub refusals: Refusals,
    /// How many collections were done, and not refused.
    pub collections: Collections,
}

/// How many entries record each kind of refusal that has an entry.
#[derive(Clone, Copy, PartialEq, Eq, Debug)]
pub struct Refusals {
    /// Commands that the rules denied.
    pub denied: u64,
    /// Creates and spawns for which there were as many vertices as may be made.
    pub vertices_full: u64,
    /// Spawns for which there were as many active subjects as may be.
    pub workers_full: u64,
}

/// How many collections of each kind were done. One that found nothing to move was done too. Each number stays at
/// 2^64 - 1, should it ever come to that.
#[derive(Clone, Copy, PartialEq, Eq, Debug)]
pub struct Collections {
    /// Nursery collections.
    pub nursery: u64,
    /// Full collections.
    pub full: u64,
}

/// A refusal that has an entry.
#[derive(Clone, Copy, PartialEq, Eq)]
pub(crate) enum Refusal {
    Denied,
    VerticesFull,
    WorkersFull,
}

impl Refusals {
    /// Counts one more.
    #[cold]
    #[inline(never)]
    pub(crate) fn add(&mut self, refusal: Refusal)
        requires { refusals_of self.old refusal < 2 ^ 64 - 1 }
        ensures { self.new ≡ with_one_refusal refusal self.old }
    {
        match refusal {
            Refusal::Denied => self.denied += 1,
            Refusal::VerticesFull => self.vertices_full += 1,
            Refusal::WorkersFull => self.workers_full += 1,
        }
    }
}

impl Collections {
    /// Counts one more.
    pub(crate) fn add(&mut self, kind: Kind)
        ensures { self.new ≡ with_one_collection kind self.old }
    {
        match kind {
            Kind::Nursery => self.nursery = self.nursery.saturating_add(1),
            Kind::Full => self.full = self.full.saturating_add(1),
        }
    }
}
