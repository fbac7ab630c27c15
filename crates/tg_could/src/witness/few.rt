//! The fewest takes and grants that give x the right, up to three, among a few vertices. Nothing has to be believed of
//! them, because they are replayed.
use crate::search::Findings;
use crate::search::growth::{push, table};
use crate::separation::conditions::all_differ;
use crate::separation::single;
use crate::witness::chains::{Chains, NONE};
use std::alloc::{AllocError, Global};
use tg_model::{Command, Edge, Picture};
use tg_rights::{Right, Rights};

/// So many vertices at most are looked at.
pub(crate) const MOST_NEAR: usize = 16;

// So many pairs these have.
const PAIRS: usize = 256;

/// A turn that takes or grants.
pub(crate) type Handing = (u64, Command);

/// The right of one vertex over another, by their places.
#[derive(Clone, Copy, Drop)]
pub(crate) struct Fact {
    from: usize,
    right: Right,
    to: usize,
}

// A way to a fact: a turn, and the two facts that it needs.
#[derive(Clone, Copy, Drop)]
struct FactSource {
    by: Fact,
    source: Fact,
    turn: Handing,
}

/// A few vertices, who of them acts, and the rights of each over each.
#[derive(Drop)]
pub(crate) struct Near {
    names: Vec<u64>,
    actors: Vec<bool>,
    rights: Vec<Rights>,
}

/// The take by which the worker gets a right over a target that another has.
pub(crate) fn take_of(worker: u64, via: u64, right: Right, target: u64) -> Handing {
    let rights = single(right);
    let command = Command::Take {
        rights,
        via,
        target,
    };
    (worker, command)
}

/// The grant by which another gets a right over a target that the worker has.
pub(crate) fn grant_of(worker: u64, via: u64, right: Right, target: u64) -> Handing {
    let rights = single(right);
    let command = Command::Grant {
        rights,
        via,
        target,
    };
    (worker, command)
}

impl Near {
    /// The vertices with these names, each of which is in the list once, and the edges between them on a picture.
    pub(crate) fn of(
        alloc: Global,
        picture: &Picture,
        found: &Findings,
        rows: &Chains,
        names: Vec<u64>,
        grown: &mut Result<(), AllocError>,
    ) -> Near {
        let mut actors = Vec::new(alloc);
        for name in names.as_slice() {
            push(&mut actors, found.acts(*name), grown);
        }
        let rights = table(alloc, Rights::empty(), PAIRS, grown);
        let mut near = Near {
            names,
            actors,
            rights,
        };
        for at in 0..near.names.len() {
            near.note_from(picture.edges(), rows, near.name(at));
        }
        near
    }

    // Notes the edges from a vertex.
    fn note_from(&mut self, edges: &[Edge], rows: &Chains, name: u64) {
        let mut next = rows.first(name);
        for _ in 0..NONE {
            let Some(link) = rows.at(next) else {
                break;
            };
            if let Some(edge) = edges.get(link.edge as usize) {
                self.note(edge);
            }
            next = link.next;
        }
    }

    // Notes an edge, if it joins two of the vertices.
    fn note(&mut self, edge: &Edge) {
        let Some(to) = self.place(edge.to) else {
            return;
        };
        let Some(from) = self.place(edge.from) else {
            return;
        };
        let at = Near::at(from, to);
        if let Some(rights) = self.rights.get_mut(at) {
            *rights = rights.union(edge.label.rights());
        }
    }

    // The place of a vertex.
    fn place(&self, name: u64) -> Option<usize> {
        self.names.iter().position(|other| *other == name)
    }

    // The place of a pair of vertices.
    fn at(from: usize, to: usize) -> usize {
        from.saturating_mul(MOST_NEAR).saturating_add(to)
    }

    // The name at a place. No vertex has the last number.
    fn name(&self, place: usize) -> u64 {
        match self.names.get(place) {
            Some(name) => *name,
            None => u64::MAX,
        }
    }

    // Whether the vertex at a place acts.
    fn acts(&self, place: usize) -> bool {
        match self.actors.get(place) {
            Some(acts) => *acts,
            None => false,
        }
    }

    // The rights of a fact's vertex over the other.
    fn rights_of(&self, fact: Fact) -> Rights {
        match self.rights.get(Near::at(fact.from, fact.to)) {
            Some(rights) => *rights,
            None => Rights::empty(),
        }
    }

    // Gives a fact's vertex these rights over the other.
    fn put(&mut self, fact: Fact, rights: Rights) {
        let at = Near::at(fact.from, fact.to);
        if let Some(old) = self.rights.get_mut(at) {
            *old = rights;
        }
    }

    // Whether a fact is so.
    fn has(&self, fact: Fact) -> bool {
        self.rights_of(fact).contains(Rights::of(fact.right))
    }

    // One of the ways to a fact, if it is a take or a grant of one who acts.
    fn way(&self, fact: Fact, at: usize) -> Option<FactSource> {
        let via = at / 2;
        let is_take = at % 2 == 0;
        let worker = if is_take { fact.from } else { via };
        let (x, other, target) = (self.name(fact.from), self.name(via), self.name(fact.to));
        if !self.acts(worker) || !all_differ(x, other, target) {
            return None;
        }
        let (right, to) = if is_take {
            (Right::T, via)
        } else {
            (Right::G, fact.from)
        };
        Some(FactSource {
            by: Fact {
                from: worker,
                right,
                to,
            },
            source: Fact { from: via, ..fact },
            turn: if is_take {
                take_of(x, other, fact.right, target)
            } else {
                grant_of(other, x, fact.right, target)
            },
        })
    }

    // How many ways there are to a fact.
    fn ways(&self) -> usize {
        self.names.len().saturating_mul(2)
    }

    // One turn after which a fact is so.
    fn one(&self, fact: Fact) -> Option<Handing> {
        for at in 0..self.ways() {
            if let Some(way) = self.way(fact, at)
                && self.has(way.by)
                && self.has(way.source)
            {
                return Some(way.turn);
            }
        }
        None
    }

    /// The fact that one of the vertices has a right over another.
    pub(crate) fn fact(&self, x: u64, right: Right, y: u64) -> Option<Fact> {
        Some(Fact {
            from: self.place(x)?,
            right,
            to: self.place(y)?,
        })
    }

    /// Two turns after which a fact is so.
    pub(crate) fn two(&self, fact: Fact) -> Option<[Handing; 2]> {
        for at in 0..self.ways() {
            let Some(way) = self.way(fact, at) else {
                continue;
            };
            let last = way.turn;
            if let Some(first) = self.one_of(way) {
                return Some([first, last]);
            }
        }
        None
    }

    // One turn after which a way may be gone.
    fn one_of(&self, way: FactSource) -> Option<Handing> {
        if self.has(way.by) {
            return self.one(way.source);
        }
        if self.has(way.source) {
            return self.one(way.by);
        }
        None
    }

    /// Three turns after which a fact is so.
    pub(crate) fn three(&mut self, fact: Fact) -> Option<[Handing; 3]> {
        for at in 0..self.ways() {
            let Some(way) = self.way(fact, at) else {
                continue;
            };
            let last = way.turn;
            if let Some(before) = self.two_of(way) {
                return Some([before[0], before[1], last]);
            }
        }
        None
    }

    // Two turns after which a way may be gone.
    fn two_of(&mut self, way: FactSource) -> Option<[Handing; 2]> {
        if self.has(way.by) {
            return self.two(way.source);
        }
        if self.has(way.source) {
            return self.two(way.by);
        }
        let turns = self.both(way.by, way.source);
        if turns.is_some() {
            return turns;
        }
        self.both(way.source, way.by)
    }

    // A turn for a fact, and then a turn for another one, which may need the first.
    fn both(&mut self, fact: Fact, other: Fact) -> Option<[Handing; 2]> {
        let first = self.one(fact)?;
        let before = self.rights_of(fact);
        self.put(fact, before.union(Rights::of(fact.right)));
        let second = self.one(other);
        self.put(fact, before);
        match second {
            Some(second) => Some([first, second]),
            None => None,
        }
    }
}
