//! Policies. A policy is a list of questions, and each of them has to be answered `Never`.
ghost use Rattle.std.specs.Prelude.{◌≡◌, IfNone, IfOk, IfSome};
ghost use Rattle.tg_could.specs.Policy.{IsKeptOrBroken};
ghost use Rattle.tg_could.specs.Kinds.{IsNotNever};
ghost use Rattle.tg_could.specs.Scenes.{AnswerOf, NeverOf, OnGraphs};
ghost use Rattle.tg_could.specs.View.{IsViewOf};

use crate::answer::{Answer, AnswerKind, could_hold};
use crate::chance::Chance;
use crate::question::{Question, Scene};
use crate::view::View;
use std::alloc::{AllocError, Global};

/// The first question of a policy that isn't answered `Never`.
#[derive(Drop)]
pub struct Breach {
    /// The place of the question in the list.
    pub place: usize,
    /// The answer to it, which isn't `Never`. `Could` has the turns.
    pub answer: Answer,
}

/// The first of these questions that isn't answered `Never`, or none if each of them is. Makes one view of the scene.
/// A question costs the time of the edges to its y if the view answers `Never`. Otherwise it costs what [`could_hold`]
/// costs. Nothing is asked after the breach. Fails only when out of memory.
pub fn first_breach(
    alloc: Global,
    scene: &Scene,
    questions: &[Question],
) -> Result<Option<Breach>, AllocError>
    ensures { IfOk result (λ told. OnGraphs scene.now (IsKeptOrBroken scene.now questions.now told)) }
{
    let view = View::open(alloc, scene)?;
    for (place, question) in questions.iter().enumerate() {
        if let Some(answer) = unless_never(alloc, scene, &view, *question)? {
            return Ok(Some(Breach { place, answer }));
        }
    }
    Ok(None)
}

// The answer to a question, or none if it is `Never`. The view is asked first. Fails only when out of memory.
fn unless_never(
    alloc: Global,
    scene: &Scene,
    view: &View,
    question: Question,
) -> Result<Option<Answer>, AllocError>
    requires { IsViewOf scene.now.silent.now scene.now.picture.now view.now }
    ensures told { IfOk result (λ told. OnGraphs scene.now (λ g. IfSome told (λ answer. AnswerOf scene.now question answer g))) }
    ensures never { IfOk result (λ told. OnGraphs scene.now (λ g. IfNone told (NeverOf scene.now question g))) }
    ensures more { IfOk result (λ told. IfSome told IsNotNever) }
{
    if view.could(question) == Chance::Never {
        return Ok(None);
    }
    let answer = could_hold(alloc, scene, question)?;
    if answer.kind() == AnswerKind::Never {
        return Ok(None);
    }
    Ok(Some(answer))
}
