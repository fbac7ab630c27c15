//! The search. It finds who may come to hold a right, and on which way. What it finds is checked (`Separation::parts`,
//! `lead_there`), so that nothing has to be believed of it. It goes back along take edges first, and looks at all
//! others only where this leads to one who acts.
pub(crate) mod growth;
pub(crate) mod links;
pub(crate) mod marks;
pub(crate) mod names;

use crate::question::Scene;
use crate::search::growth::push;
use crate::search::links::{Links, number_of};
use crate::search::marks::{Pairs, is_in_second};
use crate::search::names::Names;
use crate::separation::{Separation, comes_later, has, is_silent};
use crate::witness::chains::{Chains, NONE, place};
use std::alloc::{AllocError, Global};
use tg_model::{Edge, Picture};
use tg_rights::Right;

/// A vertex that was put into a set.
#[derive(Clone, Copy, Drop)]
pub(crate) struct Hop {
    pub(crate) vertex: u64,
    pub(crate) forward: bool,
}

// A step as it is kept, in 8 bytes. The first half is twice the number of the vertex, and one more if it was put into
// the first set. The second half is the place of the step before, or `NONE` if the search began here.
#[derive(Clone, Copy, Drop)]
struct PackedHop {
    packed: u32,
    before: u32,
}

/// What the search has found: the sets, its steps in order, and who acts, in the second of two sets. If memory ran out
/// once, only that may be reported.
#[derive(Drop)]
pub(crate) struct Findings {
    pub(crate) sides: Separation,
    steps: Vec<PackedHop>,
    acting: Pairs,
    pub(crate) grown: Result<(), AllocError>,
}

// The edges with take or grant at each vertex. They come from the vertices that have grant over it, and go to the
// vertices over which it has take or grant.
#[derive(Drop)]
struct Ways {
    granters: Links,
    targets: Links,
}

impl Ways {
    // Adds an edge where it has take or grant.
    fn add(&mut self, names: &Names, edge: &Edge) {
        let take = has(edge.label, Right::T);
        let grant = has(edge.label, Right::G);
        if !take && !grant {
            return;
        }
        let from = names.number(edge.from);
        let to = names.number(edge.to);
        self.targets.add(from, to, take, grant);
        if grant {
            self.granters.add(to, from, false, true);
        }
    }
}

impl PackedHop {
    // None for a number past the most that are kept.
    fn of(number: u64, forward: bool, before: u32) -> Option<PackedHop> {
        let number = number_of(number)?;
        Some(PackedHop {
            packed: number << 1 | forward as u32,
            before,
        })
    }

    // The number of the vertex, and whether it was put into the first set.
    fn step(self) -> (u32, bool) {
        (self.packed >> 1, self.packed & 1 == 1)
    }
}

/// The least sets that hold those who have the right over a vertex, and that no edge and nobody who acts leads out of.
/// If the vertex may yet be made, those who act count as having the right. With `back`, the same walks go back from the
/// vertex. Then the first set has those whose rights it may get, and the second those who may hand it what they get. If
/// the vertex may yet be made, those who act count as the vertex. Reports whether memory ran out.
pub(crate) fn search(
    alloc: Global,
    scene: &Scene,
    right: Right,
    over: u64,
    back: bool,
) -> Findings {
    let mut found = Findings::start(alloc, scene);
    if comes_later(scene.picture, over) {
        found.put_actors(scene.picture, back);
    }
    if back && found.acts(over) {
        found.put_name(over, true);
    }
    found.search(alloc, scene.picture.edges(), right, over);
    found
}

impl Findings {
    // No vertex is in a set.
    fn start(alloc: Global, scene: &Scene) -> Findings {
        let mut grown = Ok(());
        let names = Names::of(alloc, scene.picture, &mut grown);
        let mut acting = Pairs::none(alloc, names.len(), &mut grown);
        for subject in scene.picture.subjects() {
            if !is_silent(scene.silent, scene.picture.made(), *subject) {
                acting.put(names.number(*subject), false);
            }
        }
        let sides = Separation::none(alloc, names, &mut grown);
        Findings {
            sides,
            steps: Vec::new(alloc),
            acting,
            grown,
        }
    }

    // Searches from those who have a right over a vertex too, until nothing is new.
    fn search(&mut self, alloc: Global, edges: &[Edge], right: Right, over: u64) {
        let count = self.sides.names.len();
        let mut takers = Links::with_room(alloc, count, edges.len(), &mut self.grown);
        for edge in edges {
            self.begin_at(&mut takers, edge, right, over);
        }
        takers.tie(&mut self.grown);
        if !self.go_back(&takers) {
            let ways = self.ways(alloc, edges);
            self.spread(&takers, &ways);
            drop(ways);
        }
        drop(takers);
    }

    // Puts the holder of an edge into the second set, if it has the right over the vertex. If the edge has take, links
    // its target to its holder.
    fn begin_at(&mut self, takers: &mut Links, edge: &Edge, right: Right, over: u64) {
        if edge.to == over && has(edge.label, right) {
            self.put_name(edge.from, false);
        }
        if has(edge.label, Right::T) {
            let from = self.sides.names.number(edge.from);
            let to = self.sides.names.number(edge.to);
            takers.add(to, from, false, true);
        }
    }

    // Puts everybody who acts into one of the sets.
    fn put_actors(&mut self, picture: &Picture, forward: bool) {
        for subject in picture.subjects() {
            if self.acts(*subject) {
                self.put_name(*subject, forward);
            }
        }
    }

    // Goes back along take edges from each step. Whether these are all: none leads to one who acts.
    fn go_back(&mut self, takers: &Links) -> bool {
        for at in 0..NONE {
            if at as usize >= self.steps.len() {
                break;
            }
            let (number, forward) = self.steps[at as usize].step();
            if forward || self.has_acting(number as u64) {
                return false;
            }
            self.spread_along(takers, at, number);
        }
        true
    }

    // The edges with grant to each vertex, and those with take or grant from each.
    fn ways(&mut self, alloc: Global, edges: &[Edge]) -> Ways {
        let count = self.sides.names.len();
        let mut ways = Ways {
            granters: Links::with_room(alloc, count, edges.len(), &mut self.grown),
            targets: Links::with_room(alloc, count, edges.len(), &mut self.grown),
        };
        for edge in edges {
            ways.add(&self.sides.names, edge);
        }
        ways.targets.tie(&mut self.grown);
        ways.granters.tie(&mut self.grown);
        ways
    }

    // Goes on from each step to what its vertex leads to, until nothing is new.
    fn spread(&mut self, takers: &Links, ways: &Ways) {
        for at in 0..NONE {
            if at as usize >= self.steps.len() {
                break;
            }
            let (number, forward) = self.steps[at as usize].step();
            if self.has_acting(number as u64) {
                self.put(number as u64, !forward, at);
            }
            if forward {
                self.spread_along(&ways.targets, at, number);
                self.spread_along(&ways.granters, at, number);
            } else {
                self.spread_along(takers, at, number);
            }
        }
    }

    // Puts the vertex with a name into a set, where the search begins.
    fn put_name(&mut self, name: u64, forward: bool) {
        let number = self.sides.names.number(name);
        self.put(number, forward, NONE);
    }

    // Puts the vertex with a number into a set.
    fn put(&mut self, number: u64, forward: bool, before: u32) {
        if self.sides.pairs.put(number, forward)
            && let Some(kept) = PackedHop::of(number, forward, before)
        {
            push(&mut self.steps, kept, &mut self.grown);
        }
    }

    // Goes along the links of a vertex.
    fn spread_along(&mut self, links: &Links, at: u32, number: u32) {
        let mut next = links.first(number);
        for _ in 0..NONE {
            let Some(link) = links.at(next) else {
                break;
            };
            let end = link.end() as u64;
            if link.packed & 2 != 0 {
                self.put(end, true, at);
            }
            if link.packed & 1 != 0 {
                self.put(end, false, at);
            }
            next = link.next;
        }
    }

    // Whether the vertex with a number is one who acts.
    fn has_acting(&self, number: u64) -> bool {
        is_in_second(self.acting.pair(number))
    }

    /// Whether a vertex is one who acts.
    pub(crate) fn acts(&self, name: u64) -> bool {
        self.has_acting(self.sides.names.number(name))
    }

    /// The first who acts and is in the first set, or in the second.
    pub(crate) fn first_actor(&self, picture: &Picture, forward: bool) -> Option<Hop> {
        for subject in picture.subjects() {
            let place = self.sides.place(*subject);
            let is_in = if forward { place.forward } else { place.back };
            if is_in && self.acts(*subject) {
                return Some(Hop {
                    vertex: *subject,
                    forward,
                });
            }
        }
        None
    }

    /// The edges from x and from all vertices in a set.
    pub(crate) fn rows(&self, alloc: Global, picture: &Picture, x: u64) -> Chains {
        let names = &self.sides.names;
        let mut grown = Ok(());
        let copy = names.copy(alloc, &mut grown);
        let mut rows = Chains::none(alloc, copy, picture, grown);
        for (at, edge) in picture.edges().iter().enumerate() {
            let number = names.number(edge.from);
            if edge.from == x || self.sides.pairs.pair(number) & 3 != 0 {
                rows.put(place(at), number);
            }
        }
        rows
    }

    /// The steps that led to a vertex in a set, the first one first. There are none if the vertex isn't in the set.
    /// Notes whether memory ran out.
    pub(crate) fn path(
        &self,
        alloc: Global,
        last: Hop,
        grown: &mut Result<(), AllocError>,
    ) -> Vec<Hop> {
        let mut path = Vec::new(alloc);
        let mut next = self.place(last);
        for _ in 0..self.steps.len() {
            if next as usize >= self.steps.len() {
                break;
            }
            let kept = self.steps[next as usize];
            let (number, forward) = kept.step();
            let step = Hop {
                vertex: self.sides.names.name(number as u64),
                forward,
            };
            push(&mut path, step, grown);
            next = kept.before;
        }
        path.reverse();
        path
    }

    // The place of a step, `NONE` where it wasn't made.
    fn place(&self, step: Hop) -> u32 {
        let number = self.sides.names.number(step.vertex);
        let Some(wanted) = PackedHop::of(number, step.forward, NONE) else {
            return NONE;
        };
        for (at, kept) in self.steps.iter().enumerate() {
            if kept.packed == wanted.packed {
                return place(at);
            }
        }
        NONE
    }
}
