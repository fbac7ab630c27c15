//! Turns without those that aren't needed. Nothing has to be believed of what is left, because it is replayed.
//!
//! The turns are tried on the pairs of vertices that they name, and not on the whole graph. So the time that a try
//! takes depends on the turns alone.
use crate::search::growth::push;
use crate::separation::conditions::all_hold;
use crate::witness::claims::{EdgeClaim, NewNames, claims_of};
use std::alloc::{AllocError, Global};
use tg_model::{Command, Deed, Making};
use tg_rights::{Right, Rights};

/// A pair of vertices, and rights that the first has over the second. `needed` are the rights that some turn needs.
/// `first` are the needed rights that the vertex has before the turns, and `now` those after some of the turns. No edge
/// leads from a vertex to itself, so there the right to read represents that the vertex takes turns.
#[derive(Clone, Copy, Drop)]
pub(crate) struct Pair {
    pub(crate) from: u64,
    pub(crate) to: u64,
    pub(crate) needed: Rights,
    pub(crate) first: Rights,
    now: Rights,
}

// Rights of a pair, by the place of the pair.
#[derive(Clone, Copy, Drop)]
struct PairRights {
    pair: usize,
    rights: Rights,
}

// What a turn does besides giving rights. A spawn has the pair of the new subject with itself.
#[derive(Clone, Copy, Drop)]
enum Effect {
    Transfer,
    Create,
    Spawn(PairRights),
    Retire,
}

// A turn, by the places of pairs. A fixed turn has to stay, because it makes a vertex up to one that is asked about.
#[derive(Clone, Copy, Drop)]
struct TriedTurn {
    worker: PairRights,
    by: PairRights,
    source: PairRights,
    given: PairRights,
    effect: Effect,
    is_fixed: bool,
    is_left_out: bool,
}

/// Where turns begin, and what they are to lead to. The names below `free` have to be made.
#[derive(Clone, Copy, Drop)]
pub(crate) struct TurnsStart {
    pub(crate) goal: EdgeClaim,
    pub(crate) made: u64,
    pub(crate) free: u64,
    pub(crate) subjects: u64,
}

/// Turns that are tried without one or another.
#[derive(Drop)]
pub(crate) struct Tried {
    pub(crate) pairs: Vec<Pair>,
    steps: Vec<TriedTurn>,
    start: TurnsStart,
    // The name that the next turn makes.
    next: u64,
    /// Whether memory ran out once.
    pub(crate) grown: Result<(), AllocError>,
}

impl TriedTurn {
    // Whether it makes a vertex.
    fn is_making(&self) -> bool {
        matches!(self.effect, Effect::Create | Effect::Spawn(_))
    }
}

// That a vertex takes turns, as a claim.
fn acting(name: u64) -> EdgeClaim {
    EdgeClaim {
        from: name,
        to: name,
        rights: Rights::of(Right::R),
    }
}

impl Tried {
    /// These turns.
    pub(crate) fn of(alloc: Global, start: TurnsStart, turns: &[(u64, Deed)]) -> Tried {
        let goal = start.goal;
        let next = start.made;
        let mut tried = Tried {
            pairs: Vec::new(alloc),
            steps: Vec::new(alloc),
            start,
            next,
            grown: Ok(()),
        };
        tried.need(goal);
        for turn in turns {
            tried.add(turn.0, &turn.1);
        }
        tried
    }

    // Adds a turn, by the places of pairs.
    fn add(&mut self, worker: u64, deed: &Deed) {
        let next = self.next;
        let claims = claims_of(worker, deed, next);
        let effect = match deed {
            Deed::Create { .. } => Effect::Create,
            Deed::Spawn { .. } => Effect::Spawn(self.need(acting(next))),
            Deed::Plain(Command::Retire) => Effect::Retire,
            Deed::Plain(_) => Effect::Transfer,
        };
        let given = PairRights {
            pair: self.pair(claims.given.from, claims.given.to),
            rights: claims.given.rights,
        };
        let step = TriedTurn {
            worker: self.need(acting(worker)),
            by: self.need(claims.by),
            source: self.need(claims.source),
            given,
            effect,
            is_fixed: next < self.start.free,
            is_left_out: false,
        };
        if step.is_making() {
            self.next = next.saturating_add(1);
        }
        push(&mut self.steps, step, &mut self.grown);
    }

    // Notes that some turn needs these rights.
    fn need(&mut self, claim: EdgeClaim) -> PairRights {
        let at = self.pair(claim.from, claim.to);
        if let Some(pair) = self.pairs.get_mut(at) {
            pair.needed = pair.needed.union(claim.rights);
        }
        PairRights {
            pair: at,
            rights: claim.rights,
        }
    }

    // The place of a pair, which is added if it isn't there.
    fn pair(&mut self, from: u64, to: u64) -> usize {
        for (at, pair) in self.pairs.iter().enumerate() {
            if pair.from == from && pair.to == to {
                return at;
            }
        }
        let at = self.pairs.len();
        let none = Rights::empty();
        let pair = Pair {
            from,
            to,
            needed: none,
            first: none,
            now: none,
        };
        push(&mut self.pairs, pair, &mut self.grown);
        at
    }

    /// Leaves out each turn that isn't needed, from the last to the first. Whether the turns lead to the goal.
    pub(crate) fn leave_out(&mut self) -> bool {
        if !self.lead() {
            return false;
        }
        for before in 0..self.steps.len() {
            let at = self.steps.len().saturating_sub(before).saturating_sub(1);
            self.leave_out_at(at);
        }
        true
    }

    // Leaves out the turn at a place, if it isn't needed.
    fn leave_out_at(&mut self, at: usize) {
        let Some(step) = self.steps.get_mut(at) else {
            return;
        };
        if step.is_fixed && step.is_making() {
            return;
        }
        step.is_left_out = true;
        if self.lead() {
            return;
        }
        if let Some(step) = self.steps.get_mut(at) {
            step.is_left_out = false;
        }
    }

    // Whether the turns that aren't left out are all allowed, and lead to the goal.
    fn lead(&mut self) -> bool {
        for pair in self.pairs.iter_mut() {
            pair.now = pair.first;
        }
        let mut subjects = self.start.subjects;
        for at in 0..self.steps.len() {
            let Some(step) = self.steps.get(at) else {
                break;
            };
            let step = *step;
            if step.is_left_out {
                continue;
            }
            let Some(left) = self.take(step, subjects) else {
                return false;
            };
            subjects = left;
        }
        // The pair of the goal is the first.
        self.has(PairRights {
            pair: 0,
            rights: self.start.goal.rights,
        })
    }

    // Takes a turn. How many subjects are active then, unless it isn't allowed.
    fn take(&mut self, step: TriedTurn, subjects: u64) -> Option<u64> {
        if !all_hold(
            self.has(step.worker),
            self.has(step.by),
            self.has(step.source),
        ) {
            return None;
        }
        self.give(step.given);
        match step.effect {
            Effect::Transfer | Effect::Create => Some(subjects),
            Effect::Spawn(spawned) => {
                self.give(spawned);
                (!Making::Subject.is_one_too_many(subjects)).then_some(subjects.saturating_add(1))
            }
            Effect::Retire => {
                self.give_up(step.worker);
                Some(subjects.saturating_sub(1))
            }
        }
    }

    // Whether a pair has these rights.
    fn has(&self, held: PairRights) -> bool {
        match self.pairs.get(held.pair) {
            Some(pair) => pair.now.contains(held.rights),
            None => false,
        }
    }

    // Gives these rights to a pair.
    fn give(&mut self, held: PairRights) {
        if let Some(pair) = self.pairs.get_mut(held.pair) {
            pair.now = pair.now.union(held.rights);
        }
    }

    // Takes these rights from a pair.
    fn give_up(&mut self, held: PairRights) {
        if let Some(pair) = self.pairs.get_mut(held.pair) {
            pair.now = pair.now.minus(held.rights);
        }
    }

    /// The turns that aren't left out, with the names that they then make, and how many vertices are made after them.
    /// Notes whether memory ran out.
    pub(crate) fn rest(
        &self,
        alloc: Global,
        turns: &[(u64, Deed)],
        grown: &mut Result<(), AllocError>,
    ) -> (Vec<(u64, Deed)>, u64) {
        let mut names = NewNames::none(alloc, self.start.made);
        let mut next = self.start.made;
        let mut rest = Vec::new(alloc);
        for (turn, step) in turns.iter().zip(self.steps.iter()) {
            if step.is_making() {
                push(&mut names.names, next, grown);
            }
            if !step.is_left_out {
                next = next.saturating_add(step.is_making() as u64);
                push(&mut rest, names.turn(turn), grown);
            }
        }
        (rest, next)
    }
}
