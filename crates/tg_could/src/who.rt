//! Who could ever come to hold a right over a vertex.
ghost use Rattle.std.specs.Prelude.{◌≡◌, ◌↔◌, ◌<◌, ◌≤◌, ℕ, IfOk, IsTrue};
ghost use Rattle.std.specs.List.{All};
ghost use Rattle.tg_could.specs.declared.chance.Chance.TheVariants.{Never};
ghost use Rattle.tg_could.specs.Separation.{sides_of};
ghost use Rattle.tg_could.specs.Told.{IsLeftOut, IsToldName, TellsHolder, TellsOf, TellsActor, TellsWho, is_told};
ghost use Rattle.tg_could.specs.Scenes.{EachActor, TakesTurns};
ghost use Rattle.tg_could.specs.Told.{NeverUntold};

use crate::chance::Chance;
use crate::later::first_later;
use crate::question::Scene;
use crate::search::names::Names;
use crate::search::{Findings, search};
use crate::separation::conditions::both_imply;
use crate::separation::{Separation, comes_later, has, is_alone, is_silent, stays};
use std::alloc::{AllocError, Global};
use tg_model::{Edge, Picture};
use tg_rights::Right;

/// Who could ever come to hold a right over a vertex, as [`who_could`] returns it.
#[derive(Drop)]
pub struct Who {
    told: Candidates,
    is_shown: bool,
    over: u64,
    made: u64,
    limit: u64,
}

/// Who is listed, in the second of two sets, and whether the subjects that aren't made yet are.
#[derive(Drop)]
struct Candidates {
    marks: Separation,
    later: bool,
}

impl Who {
    /// The answer for a name, which is `Never` for each that isn't listed. All names that aren't made yet have one
    /// answer. For a name that can't be made any more it is `Never`.
    pub fn of(&self, name: u64) -> Chance
        ensures { (result ≡ Never) ↔ IsLeftOut self.now name }
    {
        if !self.is_shown {
            return Chance::Perhaps;
        }
        if name < self.made {
            return self.of_made(name);
        }
        if self.told.later && name < self.limit && name != self.over {
            return Chance::Perhaps;
        }
        Chance::Never
    }

    /// The answer for all names that aren't made yet, at once. It is `Never` if each of them is left out.
    pub fn of_later(&self) -> Chance
        ensures { (result ≡ Never) ↔ ((name : ℕ) → self.now.made ≤ name → IsLeftOut self.now name) }
    {
        self.of(first_later(self.made, self.over, self.limit))
    }

    // What is listed of a name that was made.
    fn of_made(&self, name: u64) -> Chance
        ensures { (result ≡ Never) ↔ ¬ IsToldName self.now.told name }
    {
        if self.told.has(name) {
            Chance::Perhaps
        } else {
            Chance::Never
        }
    }
}

/// Who could ever come to hold a right over y, by any turns of the active subjects but the silent ones. A name for
/// which the answer is `Never` never does, and `Perhaps` says nothing. Makes one search, in time and memory in
/// proportion to the picture. Fails only when out of memory.
pub fn who_could(alloc: Global, scene: &Scene, right: Right, y: u64) -> Result<Who, AllocError>
    ensures { IfOk result (TellsWho scene.now.silent.now scene.now.picture.now right y) }
{
    let found = search(alloc, scene, right, y, false);
    let mut grown = found.grown;
    let names = found.sides.names.copy(alloc, &mut grown);
    let mut told = Candidates::none(alloc, names, &mut grown);
    told.tell(scene, &found, right, y);
    grown?;
    let is_shown = told.leaves_out(&found.sides, scene, right, y);
    Ok(Who {
        told,
        is_shown,
        over: y,
        made: scene.picture.made(),
        limit: scene.picture.limit(),
    })
}

impl Candidates {
    // Nobody is listed. Notes whether memory ran out.
    fn none(alloc: Global, names: Names, grown: &mut Result<(), AllocError>) -> Candidates {
        Candidates {
            marks: Separation::none(alloc, names, grown),
            later: false,
        }
    }

    // Adds who holds the right, who acts and may come to hold it, and to whom a subject that may get it can grant. If y
    // is alone, only the holders are added.
    fn tell(&mut self, scene: &Scene, found: &Findings, right: Right, y: u64) {
        let edges = scene.picture.edges();
        if is_alone(scene, y) {
            self.add_holders(edges, right, y);
        } else {
            self.add_edges(edges, found, right, y);
            self.add_actors(scene.picture, found, y);
        }
    }

    // Adds each who holds the right.
    fn add_holders(&mut self, edges: &[Edge], right: Right, y: u64) {
        for edge in edges {
            if edge.to == y && has(edge.label, right) {
                self.marks.put(edge.from);
            }
        }
    }

    // Adds each who holds the right, and each to whom one who may hold it can grant.
    fn add_edges(&mut self, edges: &[Edge], found: &Findings, right: Right, y: u64) {
        for edge in edges {
            if edge.to == y {
                if has(edge.label, right) {
                    self.marks.put(edge.from);
                }
            } else if has(edge.label, Right::G) && found.sides.is_forward(edge.from) {
                self.marks.put(edge.to);
            }
        }
    }

    // Whether a name is listed.
    fn has(&self, name: u64) -> bool
        ensures { result ≡ is_told self.now name }
    {
        self.marks.is_back(name)
    }

    // Adds each who acts and may come to hold the right.
    fn add_actors(&mut self, picture: &Picture, found: &Findings, y: u64) {
        for subject in picture.subjects() {
            if !found.acts(*subject) || !found.sides.is_back(*subject) {
                continue;
            }
            self.later = true;
            if *subject != y {
                self.marks.put(*subject);
            }
        }
    }

    // Whether a name that isn't listed never holds the right, as far as the two sets show it.
    fn leaves_out(&self, sides: &Separation, scene: &Scene, right: Right, y: u64) -> bool
        ensures { IsTrue result → NeverUntold scene.now right y self.now }
    {
        if !self.has_holders(scene.picture.edges(), right, y) {
            return false;
        }
        if is_alone(scene, y) {
            return true;
        }
        if !self.has_actors(sides, scene, y) {
            return false;
        }
        self.has_gifts(sides, scene.picture.edges(), right, y)
    }

    // Whether each vertex that holds the right by an edge is listed.
    fn has_holders(&self, edges: &[Edge], right: Right, y: u64) -> bool
        ensures { IsTrue result → All (TellsHolder self.now right y) edges.now }
    {
        for edge in edges {
            if !both_imply(edge.to == y, has(edge.label, right), self.has(edge.from)) {
                return false;
            }
        }
        true
    }

    // Whether no edge leads out of the two sets. Each vertex to which a possible holder of the right can grant is also
    // listed.
    fn has_gifts(&self, sides: &Separation, edges: &[Edge], right: Right, y: u64) -> bool
        ensures { IsTrue result → All (TellsOf (sides_of sides.now) self.now right y) edges.now }
    {
        for edge in edges {
            if !self.has_gift(sides, edge, right, y) {
                return false;
            }
        }
        true
    }

    // Whether one edge doesn't lead out of the two sets, and its target is listed if it may get the right so.
    fn has_gift(&self, sides: &Separation, edge: &Edge, right: Right, y: u64) -> bool
        ensures { IsTrue result → TellsOf (sides_of sides.now) self.now right y edge.now }
    {
        let from = sides.place(edge.from);
        let grant = has(edge.label, Right::G);
        let told = edge.to == y || self.has(edge.to);
        if !stays(edge.label, from, sides.place(edge.to)) {
            return false;
        }
        if !both_imply(edge.to == y, has(edge.label, right), from.back) {
            return false;
        }
        both_imply(grant, from.forward, told)
    }

    // Whether each subject that acts is in both sets or in none, and is listed if it may hold the right.
    fn has_actors(&self, sides: &Separation, scene: &Scene, y: u64) -> bool
        ensures { IsTrue result →
            EachActor scene.now (TellsActor (sides_of sides.now) self.now scene.now.picture.now y) }
    {
        for subject in scene.picture.subjects() {
            if !self.has_actor(sides, scene, y, *subject) {
                return false;
            }
        }
        true
    }

    // Whether one subject, if it takes turns, is in both sets or in none, and is listed if it may hold the right.
    fn has_actor(&self, sides: &Separation, scene: &Scene, y: u64, subject: u64) -> bool
        ensures { IsTrue result → TakesTurns scene.now subject → TellsActor (sides_of sides.now) self.now scene.now.picture.now y subject }
    {
        if is_silent(scene.silent, scene.picture.made(), subject) {
            return true;
        }
        let back = sides.is_back(subject);
        if sides.is_forward(subject) != back {
            return false;
        }
        if back {
            return self.later && (subject == y || self.has(subject));
        }
        !comes_later(scene.picture, y)
    }
}
