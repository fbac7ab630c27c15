//! Separations. A separation is two sets of vertices, which may part a vertex from a right.
ghost use Rattle.std.specs.Prelude.{◌≡◌, ◌≢◌, ◌⊎◌, ◌↔◌, ℕ, false, ◌<◌, ◌≤◌, IsTrue, length};
ghost use Rattle.std.specs.List.{Contains};
ghost use Rattle.tg_rights.specs.RightSet.{has as has_right};
ghost use Rattle.tg_model.specs.Opened.{label_in};
ghost use Rattle.tg_model.specs.declared.opening.TheConstants.{MAX_WORKERS};
ghost use Rattle.tg_model.specs.Picture.{Holds};
ghost use Rattle.tg_could.specs.Separation.{MayAdd, Parts, Stays, sides_of, sides_against, place_in, ComesLater, IsEven, IsIdle, SidesAreApart, Suits};
ghost use Rattle.tg_could.specs.LedNames.{ActsOn};
ghost use Rattle.tg_could.specs.Scenes.{EachActor, NeverOf, OnGraphs, TakesTurns};

pub(crate) mod conditions;
pub(crate) mod led;

use crate::question::{Question, Scene};
use crate::search::marks::{Pairs, is_in_first, is_in_second};
use crate::search::names::Names;
use crate::separation::conditions::{both_imply, not_all};
use std::alloc::{AllocError, Global};
use tg_model::{Edge, MAX_WORKERS, Picture};
use tg_rights::{Label, Right, Rights};

/// Why x never holds a right. It is two sets of names, with two bits for each name that the picture shows.
pub struct Separation {
    pub(crate) names: Names,
    pub(crate) pairs: Pairs,
}

// It is written out, so that who gives one up doesn't prove again how each part is.
impl Drop for Separation {
    fn drop(self) {
        let Self {
            names: _names,
            pairs: _pairs,
        } = self;
    }
}

/// Whether a vertex is in the first set, and whether it is in the second.
#[derive(Clone, Copy, Drop)]
pub(crate) struct Membership {
    pub(crate) forward: bool,
    pub(crate) back: bool,
}

// Whether a label has a right.
pub(crate) fn has(label: Label, right: Right) -> bool
    ensures { result ≡ has_right label right }
{
    label.rights().contains(Rights::of(right))
}

/// The label of one right.
pub(crate) fn single(right: Right) -> Label {
    Label::new(Rights::of(right)).unwrap()
}

/// Whether a name is in a list.
pub(crate) fn is_among(names: &[u64], name: u64) -> bool
    ensures { IsTrue result ↔ Contains names.now name }
{
    names.contains(&name)
}

/// Whether a name is that of a silent subject. Then it is in the list, and was made.
pub(crate) fn is_silent(silent: &[u64], made: u64, name: u64) -> bool
    ensures { IsTrue result ↔ (Contains silent.now name × (name < made)) }
{
    is_among(silent, name) && name < made
}

/// Whether a name isn't made yet and may be made.
pub(crate) fn comes_later(picture: &Picture, name: u64) -> bool
    ensures { IsTrue result ↔ ComesLater picture.now name }
{
    picture.made() <= name && name < picture.limit()
}

// Whether no edge from x to y has a right.
pub(crate) fn lacks(edges: &[Edge], question: Question) -> bool
    ensures lacks { IsTrue result → ¬ Holds (label_in edges.now) question.x question.right question.y }
    ensures held { result ≡ false → Holds (label_in edges.now) question.x question.right question.y }
{
    for edge in edges {
        if !not_all(
            edge.from == question.x,
            edge.to == question.y,
            has(edge.label, question.right),
        ) {
            return false;
        }
    }
    true
}

/// Whether take and grant lead out of neither set, along an edge from a vertex to another.
pub(crate) fn stays(label: Label, from: Membership, to: Membership) -> bool
    ensures { IsTrue result → Stays label from to }
{
    let take = has(label, Right::T);
    let grant = has(label, Right::G);
    if !both_imply(take, from.forward, to.forward) {
        return false;
    }
    if !both_imply(take, to.back, from.back) {
        return false;
    }
    if !both_imply(grant, from.forward, to.back) {
        return false;
    }
    both_imply(grant, to.forward, from.back)
}

// Whether an edge has neither take nor grant, nor the right over y.
fn is_idle(edge: &Edge, right: Right, y: u64) -> bool
    ensures { IsTrue result → IsIdle right y edge.now }
{
    let take = has(edge.label, Right::T);
    let grant = has(edge.label, Right::G);
    let held = has(edge.label, right);
    !take && !grant && (edge.to != y || !held)
}

// Whether neither of two vertices is in a set, and the name of the second isn't y.
fn are_apart(from: Membership, to: Membership, name: u64, y: u64) -> bool
    ensures { IsTrue result → SidesAreApart from to × (name ≢ y) }
{
    !from.forward && !from.back && !to.forward && !to.back && name != y
}

// Whether an edge between vertices in these sets leads out of neither, and x is neither its holder nor its gift.
fn are_fit(edge: &Edge, from: Membership, to: Membership, question: Question) -> bool
    ensures { IsTrue result → Suits from to question.x question.right question.y edge.now }
{
    let grant = has(edge.label, Right::G);
    let held = has(edge.label, question.right);
    let at_x = edge.from == question.x;
    let to_x = edge.to == question.x;
    let to_y = edge.to == question.y;
    if !stays(edge.label, from, to) {
        return false;
    }
    if !both_imply(held, to_y, from.back) {
        return false;
    }
    if !not_all(at_x, to_y, held) {
        return false;
    }
    not_all(to_x, grant, from.forward)
}

impl Separation {
    /// Empty sets of these names. Notes whether memory ran out.
    pub(crate) fn none(
        alloc: Global,
        names: Names,
        grown: &mut Result<(), AllocError>,
    ) -> Separation {
        let pairs = Pairs::none(alloc, names.len(), grown);
        Separation { names, pairs }
    }

    /// Puts a name into the second set.
    pub(crate) fn put(&mut self, name: u64) {
        self.pairs.put(self.names.number(name), false);
    }

    /// Whether a name is in the first set.
    pub(crate) fn is_forward(&self, name: u64) -> bool
        ensures { result ≡ (sides_of self.now).forward name }
    {
        is_in_first(self.pairs.pair(self.names.number(name)))
    }

    /// Whether a name is in the second set.
    pub(crate) fn is_back(&self, name: u64) -> bool
        ensures { result ≡ (sides_of self.now).back name }
    {
        is_in_second(self.pairs.pair(self.names.number(name)))
    }

    /// In which of the sets a name is.
    pub(crate) fn place(&self, name: u64) -> Membership
        ensures { result ≡ place_in (sides_of self.now) name }
    {
        let pair = self.pairs.pair(self.names.number(name));
        Membership {
            forward: is_in_first(pair),
            back: is_in_second(pair),
        }
    }

    /// In which of the sets it is of those whom a search that went back from x didn't reach.
    pub(crate) fn place_against(&self, name: u64) -> Membership
        ensures { result ≡ place_in (sides_against self.now) name }
    {
        let pair = self.pairs.pair(self.names.number(name));
        Membership {
            forward: !is_in_second(pair),
            back: !is_in_first(pair),
        }
    }

    // Whether an edge leads out of neither set, and x is neither its holder nor its gift.
    fn fits(&self, edge: &Edge, question: Question) -> bool
        ensures { IsTrue result → MayAdd (sides_of self.now) question.x question.right question.y edge.now.from edge.now.to edge.now.label }
    {
        if is_idle(edge, question.right, question.y) {
            return true;
        }
        let from = self.place(edge.from);
        let to = self.place(edge.to);
        if are_apart(from, to, edge.to, question.y) {
            return true;
        }
        are_fit(edge, from, to, question)
    }

    // Whether the two sets part x from a right over y, as far as these edges go.
    fn part(&self, edges: &[Edge], question: Question) -> bool
        ensures { IsTrue result → Parts (sides_of self.now) question.x question.right question.y (label_in edges.now) }
    {
        for edge in edges {
            if !self.fits(edge, question) {
                return false;
            }
        }
        true
    }

    // Whether a subject is silent, or in both sets or in none, and where it has to be.
    fn is_even(&self, scene: &Scene, question: Question, subject: u64) -> bool
        ensures { IsTrue result →
            TakesTurns scene.now subject → IsEven (sides_of self.now) scene.now.picture.now question.x question.y subject }
    {
        if is_silent(scene.silent, scene.picture.made(), subject) {
            return true;
        }
        let back = self.is_back(subject);
        if self.is_forward(subject) != back {
            return false;
        }
        if back {
            return subject != question.x && !comes_later(scene.picture, question.x);
        }
        !comes_later(scene.picture, question.y)
    }

    // Whether each who acts is in both sets or in none, and where it has to be.
    fn are_even(&self, scene: &Scene, question: Question) -> bool
        ensures { IsTrue result →
            EachActor scene.now (IsEven (sides_of self.now) scene.now.picture.now question.x question.y) }
    {
        for subject in scene.picture.subjects() {
            if !self.is_even(scene, question, *subject) {
                return false;
            }
        }
        true
    }

    /// Whether the two sets show that x never holds the right over y, after any turns of the active subjects but the
    /// silent ones. Subjects that are spawned on the way are among those who act. Looks at each edge once. The sets
    /// play no part if x is y. They also play none if only y acts and as many subjects as may be are active. In both
    /// cases x never holds the right unless it holds it at first.
    pub fn parts(&self, scene: &Scene, question: Question) -> bool
        ensures { IsTrue result → OnGraphs scene.now (NeverOf scene.now question) }
    {
        if question.x == question.y {
            return lacks(scene.picture.edges(), question);
        }
        if is_alone(scene, question.y) {
            return lacks(scene.picture.edges(), question);
        }
        if !self.are_even(scene, question) {
            return false;
        }
        self.part(scene.picture.edges(), question)
    }
}

/// Whether nobody but y acts, and as many subjects as may be are active.
pub(crate) fn is_alone(scene: &Scene, y: u64) -> bool
    ensures many { IsTrue result → MAX_WORKERS ≤ length scene.now.picture.now.subjects }
    ensures alone { IsTrue result →
        EachActor scene.now (λ v. v ≡ y) }
    ensures helped { result ≡ false → (length scene.now.picture.now.subjects < MAX_WORKERS) ⊎ ((v : ℕ) × ActsOn scene.now v × (v ≢ y)) }
{
    if (scene.picture.subjects().len() as u64) < MAX_WORKERS {
        return false;
    }
    for subject in scene.picture.subjects() {
        if !is_or_is_silent(scene, *subject, y) {
            return false;
        }
    }
    true
}

// Whether a subject is silent, or is y.
fn is_or_is_silent(scene: &Scene, subject: u64, y: u64) -> bool
    ensures is { IsTrue result → TakesTurns scene.now subject → subject ≡ y }
    ensures other { result ≡ false → TakesTurns scene.now subject × (subject ≢ y) }
{
    is_silent(scene.silent, scene.picture.made(), subject) || subject == y
}
