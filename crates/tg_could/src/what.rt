//! What someone could ever come to hold.
ghost use Rattle.std.specs.Prelude.{◌≡◌, ◌⊎◌, ◌↔◌, ◌<◌, ◌≤◌, ℕ, true, IfOk, IfSome, IsTrue};
ghost use Rattle.std.specs.List.{All};
ghost use Rattle.tg_rights.specs.RightSet.{has as has_right};
ghost use Rattle.tg_rights.specs.declared.Right.{Right as TheRight};
ghost use Rattle.tg_could.specs.declared.chance.Chance.TheVariants.{Never};
ghost use Rattle.tg_could.specs.Separation.{sides_against};
ghost use Rattle.tg_could.specs.Listed.{IsLeftOut, IsOnlyActor, ListsEdge, ListsActor, TellsWhat, rights_over};
ghost use Rattle.tg_could.specs.Listed.{NeverUnlisted};
ghost use Rattle.tg_could.specs.Scenes.{EachActor, TakesTurns};

use crate::chance::Chance;
use crate::later::first_later;
use crate::question::Scene;
use crate::search::growth::table;
use crate::search::names::Names;
use crate::search::{Findings, search};
use crate::separation::conditions::{both_imply, not_all};
use crate::separation::{Separation, comes_later, has, is_alone, is_silent, stays};
use std::alloc::{AllocError, Global};
use tg_model::Edge;
use tg_rights::{Right, Rights};

/// What someone could ever come to hold, as [`what_could`] returns it.
#[derive(Drop)]
pub struct What {
    listed: Listed,
    is_shown: bool,
    holder: u64,
    made: u64,
    limit: u64,
}

/// The listed rights over each vertex, and whether every right over vertices that aren't made yet is listed. If as many
/// subjects as may be are active, it also has the only one who acts. The reason is that nobody comes to hold a right
/// over this subject.
#[derive(Drop)]
struct Listed {
    names: Names,
    rights: Vec<Rights>,
    later: bool,
    alone: Option<u64>,
}

impl What {
    /// The answer for a right over a name, which is `Never` for each that isn't listed. All names that aren't made yet
    /// have one answer. For a name that can't be made any more it is `Never`.
    pub fn of(&self, right: Right, name: u64) -> Chance
        ensures { (result ≡ Never) ↔ IsLeftOut self.now right name }
    {
        if self.over(name).contains(Rights::of(right)) {
            Chance::Perhaps
        } else {
            Chance::Never
        }
    }

    /// The rights over the name for which the answer is `Perhaps`.
    pub fn over(&self, name: u64) -> Rights
        ensures { (right : TheRight) → (¬ (has_right result right ≡ true)) ↔ IsLeftOut self.now right name }
    {
        if !self.is_shown {
            return all_rights();
        }
        if name < self.made {
            return self.listed.over(name);
        }
        if self.listed.later && name < self.limit && name != self.holder {
            return all_rights();
        }
        Rights::empty()
    }

    /// The rights over names that aren't made yet for which the answer is `Perhaps`. For every other right the answer
    /// is `Never` over each of these names.
    pub fn over_later(&self) -> Rights
        ensures { (right : TheRight) →
            (¬ (has_right result right ≡ true)) ↔ ((name : ℕ) → self.now.made ≤ name → IsLeftOut self.now right name) }
    {
        self.over(first_later(self.made, self.holder, self.limit))
    }
}

/// What x could ever come to hold, by any turns of the active subjects but the silent ones. It never holds a right over
/// a name for which the answer is `Never`, and `Perhaps` says nothing. Makes one search, in time and memory in
/// proportion to the picture. Fails only when out of memory.
pub fn what_could(alloc: Global, scene: &Scene, x: u64) -> Result<What, AllocError>
    ensures { IfOk result (TellsWhat scene.now.silent.now scene.now.picture.now x) }
{
    let found = search(alloc, scene, Right::G, x, true);
    let mut grown = found.grown;
    let listed = Listed::of(alloc, scene, &found, x, &mut grown);
    grown?;
    let is_shown = listed.leaves_out(&found.sides, scene, x);
    Ok(What {
        listed,
        is_shown,
        holder: x,
        made: scene.picture.made(),
        limit: scene.picture.limit(),
    })
}

// All rights.
fn all_rights() -> Rights
    ensures { (right : TheRight) → has_right result right ≡ true }
{
    Rights::from_bits(u8::MAX)
}

// The only one who acts, where as many subjects as may be are active.
fn only_actor(scene: &Scene) -> Option<u64> {
    for subject in scene.picture.subjects() {
        if !is_silent(scene.silent, scene.picture.made(), *subject) {
            return if is_alone(scene, *subject) {
                Some(*subject)
            } else {
                None
            };
        }
    }
    None
}

// Whether a name is that one.
fn is_that(one: Option<u64>, name: u64) -> bool
    ensures { IsTrue result → one ≡ Some name }
{
    match one {
        Some(other) => other == name,
        None => false,
    }
}

impl Listed {
    // What x holds, and what is held by those whose rights it may get. Notes whether memory ran out.
    fn of(
        alloc: Global,
        scene: &Scene,
        found: &Findings,
        x: u64,
        grown: &mut Result<(), AllocError>,
    ) -> Listed {
        let names = found.sides.names.copy(alloc, grown);
        let mut listed = Listed {
            rights: table(alloc, Rights::empty(), names.len(), grown),
            names,
            later: found.first_actor(scene.picture, true).is_some(),
            alone: only_actor(scene),
        };
        for edge in scene.picture.edges() {
            listed.add(found, edge, x);
        }
        listed
    }

    // Lists the rights of an edge, where it is one from x, or from somebody else whose rights x may get.
    fn add(&mut self, found: &Findings, edge: &Edge, x: u64) {
        if edge.from != x && (self.is_kept(edge.to, x) || !found.sides.is_forward(edge.from)) {
            return;
        }
        let at = self.names.number(edge.to) as usize;
        let rights = self.rights.as_mut_slice();
        if at < rights.len() {
            rights[at] = rights[at].union(edge.label.rights());
        }
    }

    // Whether x comes to hold no right over a vertex that it doesn't hold already.
    fn is_kept(&self, name: u64, x: u64) -> bool
        ensures { IsTrue result → (name ≡ x) ⊎ (self.now.alone ≡ Some name) }
    {
        name == x || is_that(self.alone, name)
    }

    // The rights over a name that are listed.
    fn over(&self, name: u64) -> Rights
        ensures { result ≡ rights_over self.now name }
    {
        match self.rights.get(self.names.number(name) as usize) {
            Some(rights) => *rights,
            None => Rights::empty(),
        }
    }

    // Whether x never holds a right that isn't listed, as far as the two sets show it.
    fn leaves_out(&self, sides: &Separation, scene: &Scene, x: u64) -> bool
        ensures { IsTrue result → NeverUnlisted scene.now x self.now }
    {
        if !self.has_alone(scene) {
            return false;
        }
        if !self.has_actors(sides, scene, x) {
            return false;
        }
        self.has_edges(sides, scene.picture.edges(), x)
    }

    // Whether the subject that is given as the only one who acts is the only one.
    fn has_alone(&self, scene: &Scene) -> bool
        ensures { IsTrue result → IfSome self.now.alone (IsOnlyActor scene.now.silent.now scene.now.picture.now) }
    {
        match self.alone {
            Some(name) => is_alone(scene, name),
            None => true,
        }
    }

    // Whether no edge leads out of the two sets, and what x may get of each edge is listed.
    fn has_edges(&self, sides: &Separation, edges: &[Edge], x: u64) -> bool
        ensures { IsTrue result → All (ListsEdge (sides_against sides.now) self.now x) edges.now }
    {
        for edge in edges {
            if !self.has_edge(sides, edge, x) {
                return false;
            }
        }
        true
    }

    // Whether one edge doesn't lead out of the two sets, and what x may get of it is listed.
    fn has_edge(&self, sides: &Separation, edge: &Edge, x: u64) -> bool
        ensures { IsTrue result → ListsEdge (sides_against sides.now) self.now x edge.now }
    {
        let from = sides.place_against(edge.from);
        let told = self.over(edge.to).contains(edge.label.rights());
        if !stays(edge.label, from, sides.place_against(edge.to)) {
            return false;
        }
        if !both_imply(edge.from == x, true, told) {
            return false;
        }
        if !both_imply(!self.is_kept(edge.to, x), !from.back, told) {
            return false;
        }
        not_all(edge.to == x, has(edge.label, Right::G), from.forward)
    }

    // Whether each who acts is in both sets or in none, and where it has to be.
    fn has_actors(&self, sides: &Separation, scene: &Scene, x: u64) -> bool
        ensures { IsTrue result →
            EachActor scene.now (ListsActor (sides_against sides.now) self.now scene.now.picture.now x) }
    {
        for subject in scene.picture.subjects() {
            if !self.has_actor(sides, scene, x, *subject) {
                return false;
            }
        }
        true
    }

    // Whether one subject, if it takes turns, is in both sets or in none, and where it has to be.
    fn has_actor(&self, sides: &Separation, scene: &Scene, x: u64, subject: u64) -> bool
        ensures { IsTrue result → TakesTurns scene.now subject → ListsActor (sides_against sides.now) self.now scene.now.picture.now x subject }
    {
        if is_silent(scene.silent, scene.picture.made(), subject) {
            return true;
        }
        let place = sides.place_against(subject);
        if place.forward != place.back {
            return false;
        }
        if place.back {
            return subject != x && !comes_later(scene.picture, x);
        }
        self.later
    }
}
