//! To whom a right is led, by going over all edges until nothing is new. The search (`search`) is quick, and nothing of
//! it has to be believed. This search is slow and believed. It is only asked if the turns that the first search found
//! don't give x the right.
ghost use Rattle.std.specs.Prelude.{◌≡◌, ◌≤◌, ◌<◌, ◌^◌, ℕ, true, false, IsTrue, IfSome, IfNone, IfOk, OnOk};
ghost use Rattle.tg_rights.specs.declared.Right.TheVariants.{G};
ghost use Rattle.tg_model.specs.Opened.{label_in};
ghost use Rattle.tg_model.specs.Picture.{Holds};
ghost use Rattle.tg_could.specs.Turns.{IsSilent};
ghost use Rattle.tg_could.specs.Separation.{KeepsSides, place_in};
ghost use Rattle.tg_could.specs.Answered.{IsDecided};
ghost use Rattle.tg_could.specs.LedNames.{AreLed, IsPut, IsTurned, TurnsTo, is_on_side, LeadsOn, sides_led, number_led};
ghost use Rattle.tg_could.specs.LedNames.{ActsOn, AreTurned, BringsTo, IsOrMakes, KeepsEach, NobodyGets, StaysLed, StaysLedAlong};
ghost use Rattle.tg_could.specs.Scenes.{OnGraphs, TakesTurns};

use crate::question::{Question, Scene};
use crate::search::Hop;
use crate::separation::conditions::both_but_not;
use crate::separation::{Membership, comes_later, has, is_alone, is_silent, lacks};
use indexmap::IndexSet;
use std::alloc::{AllocError, Global};
use tg_model::Edge;
use tg_rights::Right;

/// The names that walks lead to, forward and back.
pub(crate) struct LedNames {
    forward: IndexSet<u64>,
    back: IndexSet<u64>,
}

// It is written out, so that who gives them up doesn't prove again how each part is.
impl Drop for LedNames {
    fn drop(self) {
        let Self {
            forward: _forward,
            back: _back,
        } = self;
    }
}

/// Whether x could come to hold a right over y, after turns that aren't shown. Else it never does. Goes over all edges
/// as often as something is new. Fails only when out of memory.
pub(crate) fn may_come_about(
    alloc: Global,
    scene: &Scene,
    question: Question,
) -> Result<bool, AllocError>
    ensures { IfOk result (λ may. OnGraphs scene.now (λ g. IsDecided scene.now.silent.now g question.x question.right question.y may)) }
{
    if !lacks(scene.picture.edges(), question) {
        return Ok(true);
    }
    if question.x == question.y {
        return Ok(false);
    }
    if is_alone(scene, question.y) {
        return Ok(false);
    }
    let led = led_from(alloc, scene, question.right, question.y)?;
    Ok(led.lead_to(scene, question.x))
}

// All names that walks lead to from those who hold a right over y. Fails only when out of memory.
fn led_from(alloc: Global, scene: &Scene, right: Right, y: u64) -> Result<LedNames, AllocError>
    ensures led { IfOk result (λ led. OnGraphs scene.now (λ g. AreLed (IsSilent scene.now.silent.now g) right y g (sides_led led))) }
    ensures edges { IfOk result (λ led. KeepsEach (sides_led led) right y scene.now.picture.now.edges) }
    ensures actors { IfOk result (λ led. AreTurned scene.now (sides_led led) y) }
{
    let mut led = LedNames {
        forward: IndexSet::new(alloc),
        back: IndexSet::new(alloc),
    };
    while led.goes_on(scene, right, y)? {}
    Ok(led)
}

impl LedNames {
    // Whether a name is in the sets.
    fn place(&self, name: u64) -> Membership
        ensures { result ≡ place_in (sides_led self.now) name }
    {
        Membership {
            forward: self.forward.contains(&name),
            back: self.back.contains(&name),
        }
    }

    // How many there are in both sets.
    fn len(&self) -> usize
        ensures { result ≡ number_led self.now }
    {
        self.forward.len() + self.back.len()
    }

    // Puts a vertex into a set.
    fn put(&mut self, step: Hop) -> Result<(), AllocError>
        ensures put { OnOk result (IsPut (sides_led self.old) step.forward step.vertex (sides_led self.new)) }
        ensures more { OnOk result (is_on_side (sides_led self.old) step.forward step.vertex ≡ false → number_led self.old < number_led self.new) }
    {
        if step.forward {
            self.forward.insert(step.vertex)?;
        } else {
            self.back.insert(step.vertex)?;
        }
        Ok(())
    }

    // Where an edge leads to that isn't in the sets yet.
    fn led_on(&self, edge: &Edge, right: Right, y: u64) -> Option<Hop>
        ensures leads { IfSome result (λ step. LeadsOn (sides_led self.now) right y edge.now step.forward step.vertex) }
        ensures new { IfSome result (λ step. is_on_side (sides_led self.now) step.forward step.vertex ≡ false) }
        ensures keeps { IfNone result (KeepsSides (sides_led self.now) right y (λ a b. edge.now.label) edge.now.from edge.now.to) }
    {
        let from = self.place(edge.from);
        let to = self.place(edge.to);
        let take = has(edge.label, Right::T);
        let grant = has(edge.label, Right::G);
        let held = has(edge.label, right);
        if both_but_not(edge.to == y, held, from.back) {
            return Some(Hop {
                vertex: edge.from,
                forward: false,
            });
        }
        if both_but_not(take, to.back, from.back) {
            return Some(Hop {
                vertex: edge.from,
                forward: false,
            });
        }
        if both_but_not(grant, to.forward, from.back) {
            return Some(Hop {
                vertex: edge.from,
                forward: false,
            });
        }
        if both_but_not(grant, from.forward, to.back) {
            return Some(Hop {
                vertex: edge.to,
                forward: false,
            });
        }
        if both_but_not(take, from.forward, to.forward) {
            return Some(Hop {
                vertex: edge.to,
                forward: true,
            });
        }
        None
    }

    // Puts whatever each edge leads to.
    fn go_along(&mut self, edges: &[Edge], right: Right, y: u64) -> Result<(), AllocError>
        ensures led { OnOk result (StaysLedAlong edges.now right y (sides_led self.old) (sides_led self.new)) }
        ensures more { OnOk result (number_led self.old ≤ number_led self.new) }
        ensures still { OnOk result (number_led self.new ≡ number_led self.old → (sides_led self.new ≡ sides_led self.old) ×
            KeepsEach (sides_led self.new) right y edges.now) }
    {
        for edge in edges {
            let Some(step) = self.led_on(edge, right, y) else {
                continue;
            };
            self.put(step)?;
        }
        Ok(())
    }

    // Puts whoever acts and is in one set into the other, and into the second where y may yet be made.
    fn turn(&mut self, scene: &Scene, y: u64) -> Result<(), AllocError>
        ensures led { OnOk result ((right : Right) → StaysLed scene.now right y (sides_led self.old) (sides_led self.new)) }
        ensures more { OnOk result (number_led self.old ≤ number_led self.new) }
        ensures still { OnOk result (number_led self.new ≡ number_led self.old → (sides_led self.new ≡ sides_led self.old) ×
            AreTurned scene.now (sides_led self.new) y) }
    {
        for subject in scene.picture.subjects() {
            let Some(forward) = self.turned(scene, y, *subject) else {
                continue;
            };
            let vertex = *subject;
            self.put(Hop { vertex, forward })?;
        }
        Ok(())
    }

    // The set in which a subject that acts isn't yet and is to be: the first one or the second.
    fn turned(&self, scene: &Scene, y: u64, subject: u64) -> Option<bool>
        ensures acts { IfSome result (λ forward. TakesTurns scene.now subject) }
        ensures leads { IfSome result (λ forward. TurnsTo (sides_led self.now) scene.now.picture.now y forward subject) }
        ensures new { IfSome result (λ forward. is_on_side (sides_led self.now) forward subject ≡ false) }
        ensures turned { IfNone result (TakesTurns scene.now subject → IsTurned (sides_led self.now) scene.now.picture.now y subject) }
    {
        if is_silent(scene.silent, scene.picture.made(), subject) {
            return None;
        }
        let at = self.place(subject);
        if !at.back && at.forward {
            return Some(false);
        }
        if !at.back && comes_later(scene.picture, y) {
            return Some(false);
        }
        if at.back && !at.forward {
            return Some(true);
        }
        None
    }

    // Goes over all edges and subjects once. Whether something was new.
    fn goes_on(&mut self, scene: &Scene, right: Right, y: u64) -> Result<bool, AllocError>
        ensures led { OnOk result (StaysLed scene.now right y (sides_led self.old) (sides_led self.new)) }
        ensures more { IfOk result (λ more. more ≡ true → number_led self.old < number_led self.new) }
        ensures few { OnOk result (number_led self.new < 2 ^ 64) }
        ensures edges { IfOk result (λ more. more ≡ false → KeepsEach (sides_led self.new) right y scene.now.picture.now.edges) }
        ensures actors { IfOk result (λ more. more ≡ false → AreTurned scene.now (sides_led self.new) y) }
    {
        let before = self.len();
        self.go_along(scene.picture.edges(), right, y)?;
        self.turn(scene, y)?;
        Ok(self.len() > before)
    }

    // Whether the right is led to x, which doesn't hold it. Then x acts and may get it, or may yet be made by a subject
    // that may get it, or is granted to.
    fn lead_to(&self, scene: &Scene, x: u64) -> bool
        ensures brought { IsTrue result → BringsTo scene.now (sides_led self.now) x }
        ensures not_taken { result ≡ false → NobodyGets scene.now (sides_led self.now) x }
        ensures not_given { result ≡ false → (a : ℕ) → Holds (label_in scene.now.picture.now.edges) a G x → ¬ ((sides_led self.now).forward a ≡ true) }
    {
        self.reach(scene, x) || self.grant_to(scene.picture.edges(), x)
    }

    // Whether one who acts is in the second set, and is x, or may make x.
    fn reach(&self, scene: &Scene, x: u64) -> bool
        ensures reached { IsTrue result → (v : ℕ) × ActsOn scene.now v × IsOrMakes scene.now x v × ((sides_led self.now).back v ≡ true) }
        ensures not_taken { result ≡ false → NobodyGets scene.now (sides_led self.now) x }
    {
        for subject in scene.picture.subjects() {
            if self.reaches_by(scene, x, *subject) {
                return true;
            }
        }
        false
    }

    // Whether a subject acts, is in the second set, and is x, or may make x.
    fn reaches_by(&self, scene: &Scene, x: u64, subject: u64) -> bool
        ensures reached { IsTrue result → TakesTurns scene.now subject × IsOrMakes scene.now x subject × ((sides_led self.now).back subject ≡ true) }
        ensures not_taken { result ≡ false → TakesTurns scene.now subject → IsOrMakes scene.now x subject → (sides_led self.now).back subject ≡ false }
    {
        if is_silent(scene.silent, scene.picture.made(), subject) {
            return false;
        }
        if subject != x && !comes_later(scene.picture, x) {
            return false;
        }
        self.place(subject).back
    }

    // Whether someone in the first set has grant over x.
    fn grant_to(&self, edges: &[Edge], x: u64) -> bool
        ensures given { IsTrue result → (a : ℕ) × Holds (label_in edges.now) a G x × ((sides_led self.now).forward a ≡ true) }
        ensures not_given { result ≡ false → (a : ℕ) → Holds (label_in edges.now) a G x → ¬ ((sides_led self.now).forward a ≡ true) }
    {
        for edge in edges {
            if edge.to == x && has(edge.label, Right::G) && self.place(edge.from).forward {
                return true;
            }
        }
        false
    }
}
