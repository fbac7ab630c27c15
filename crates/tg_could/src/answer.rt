//! The question and its answers.
ghost use Rattle.std.specs.Prelude.{◌≡◌, ◌<◌, IfNone, IfOk, IfSome, IsTrue};
ghost use Rattle.tg_rights.specs.declared.Right.{Right as TheRight};
ghost use Rattle.tg_model.specs.Graph.{ProtectionGraph};
ghost use Rattle.tg_model.specs.Picture.{IsPictureOf};
ghost use Rattle.tg_could.specs.Answered.{IsFar, IsShort};
ghost use Rattle.tg_could.specs.Kinds.{KindOf};
ghost use Rattle.tg_could.specs.Scenes.{AnswerOf, NeverOf, OnGraphs};

use crate::question::{Question, Scene, Witness};
use crate::search::{Findings, search};
use crate::separation::led::may_come_about;
use crate::separation::{Separation, comes_later};
use crate::witness::plan::turns_to;
use crate::witness::replay;
use std::alloc::{AllocError, Global};
use tg_model::{Deed, Picture};

// How many names that nobody asks about turns make at most, on the way to one that is asked about.
const MOST_MADE: u64 = 1 << 16;

/// The answer to the question whether x could ever come to hold a right over y. Those who act are the active subjects
/// that aren't silent, and each subject that is spawned later.
#[derive(Drop)]
pub enum Answer {
    /// x never holds it, after no list of turns of those who act. The separation may be kept and asked again
    /// ([`Separation::parts`]) when the graph has changed.
    Never(Separation),
    /// x holds it after these turns, each of one who acts by then.
    Could(Vec<(u64, Deed)>),
    /// x holds it after these turns where so many more vertices may be made than are left. Other turns may do with the
    /// names that are left, and the answer doesn't say so. It comes only if y was made and fewer than 64 names are left
    /// besides x.
    WantsNames {
        /// The turns, each of one who acts by then.
        turns: Vec<(u64, Deed)>,
        /// How many names are missing.
        names: u64,
    },
    /// Nothing is known. The answer is about a name that isn't made yet and that comes after over 65,536 others. Turns
    /// would have to make all of these, so ask about the next name in its place. No other name is known to get this
    /// answer. If another got it, x could come to hold the right after turns that aren't shown. For this 64 names
    /// besides x have to be left, or y isn't made yet.
    Open,
}

/// The kind of an [`Answer`], which says as much as the answer without its turns.
#[derive(Clone, Copy, PartialEq, Eq, Drop)]
pub enum AnswerKind {
    /// x never holds the right, after no list of turns of those who act.
    Never,
    /// x holds it after some turns of those who act.
    Could,
    /// x holds it after some turns where more vertices may be made than are left.
    WantsNames,
    /// Nothing is known, as [`Answer::Open`] says.
    Open,
}

impl Answer {
    ghost use Rattle.std.specs.Prelude.{◌≡◌, ℕ, List};
    ghost use Rattle.tg_could.specs.Answered.{IsAnswer, answer_kind, turns_of};
    ghost use Rattle.tg_could.specs.Kinds.{IsKind};

    /// The kind of the answer. Whatever question the answer is to, the kind says what is so of it.
    pub fn kind(&self) -> AnswerKind
        ensures is { result ≡ answer_kind self.now }
        ensures says { (silent : List ℕ) (g : ProtectionGraph) (x : ℕ) (right : TheRight) (y : ℕ) →
            IsAnswer silent g x right y self.now → IsKind silent g x right y result }
    {
        match self {
            Answer::Never(_) => AnswerKind::Never,
            Answer::Could(_) => AnswerKind::Could,
            Answer::WantsNames { .. } => AnswerKind::WantsNames,
            Answer::Open => AnswerKind::Open,
        }
    }

    /// The turns of the answer, in order. `Never` and `Open` have none.
    pub fn turns(&self) -> &[(u64, Deed)]
        ensures { result.now ≡ turns_of self.now }
    {
        match self {
            Answer::Could(turns) | Answer::WantsNames { turns, .. } => turns.as_slice(),
            Answer::Never(_) | Answer::Open => &[],
        }
    }
}

/// Whether x could ever come to hold a right over y, by any turns of the active subjects but the silent ones. The
/// picture is that of the graph. A name in `silent` that was never made is ignored. A subject that retired is asked
/// about like any object. A name that isn't made yet is a vertex that those who act may make. They may have the right
/// over it, or hand the right to it. A `Could` makes each name up to that name. If over 65,536 others come before it,
/// the answer is `Never` or `Open`. Takes time and memory in proportion to the picture and to these names. Fails only
/// when out of memory.
pub fn could_hold(alloc: Global, scene: &Scene, question: Question) -> Result<Answer, AllocError>
    ensures { IfOk result (λ answer. OnGraphs scene.now (AnswerOf scene.now question answer)) }
{
    let found = search(alloc, scene, question.right, question.y, false);
    match settle(alloc, scene, &found, question) {
        Ok(Some(answer)) => Ok(answer),
        Ok(None) => Ok(Answer::Never(found.sides)),
        Err(error) => Err(error),
    }
}

/// The kind of the answer alone, as [`could_hold`] answers. It takes the time of `could_hold` too, because `Could` is
/// answered only after turns were replayed. Fails only when out of memory.
pub fn could_hold_kind(
    alloc: Global,
    scene: &Scene,
    question: Question,
) -> Result<AnswerKind, AllocError>
    ensures { IfOk result (λ kind. OnGraphs scene.now (KindOf scene.now question kind)) }
{
    let answer = could_hold(alloc, scene, question)?;
    Ok(answer.kind())
}

// The answer by what the search has found. There is none if x never holds the right. Fails only when out of memory.
fn settle(
    alloc: Global,
    scene: &Scene,
    found: &Findings,
    question: Question,
) -> Result<Option<Answer>, AllocError>
    ensures told { IfOk result (λ told. OnGraphs scene.now (λ g. IfSome told (λ answer. AnswerOf scene.now question answer g))) }
    ensures never { IfOk result (λ told. OnGraphs scene.now (λ g. IfNone told (NeverOf scene.now question g))) }
{
    found.grown?;
    if found.sides.parts(scene, question) {
        return Ok(None);
    }
    if is_far(scene.picture, question.x) || is_far(scene.picture, question.y) {
        return Ok(Some(Answer::Open));
    }
    if let Some(answer) = tell_turns(alloc, scene, found, question)? {
        return Ok(Some(answer));
    }
    if may_come_about(alloc, scene, question)? {
        return Ok(Some(Answer::Open));
    }
    Ok(None)
}

// The turns that the search leads to. There are none if x doesn't hold the right after them, or if they need more names
// although many are left. Fails only when out of memory.
fn tell_turns(
    alloc: Global,
    scene: &Scene,
    found: &Findings,
    question: Question,
) -> Result<Option<Answer>, AllocError>
    ensures { IfOk result (λ told. OnGraphs scene.now (λ g. IfSome told (λ answer. AnswerOf scene.now question answer g))) }
{
    let rows = found.rows(alloc, scene.picture, question.x);
    let planned = turns_to(alloc, scene.picture, found, rows, question);
    let names = planned.made.saturating_sub(scene.picture.limit());
    let turns = planned.turns;
    let witness = Witness {
        turns: turns.as_slice(),
        names,
    };
    let leads = replay(alloc, scene, planned.rows, question, &witness)?;
    if !leads {
        return Ok(None);
    }
    if names == 0 {
        return Ok(Some(Answer::Could(turns)));
    }
    if is_short(scene.picture, question.x, question.y) {
        return Ok(Some(Answer::WantsNames { turns, names }));
    }
    Ok(None)
}

// Whether more names than turns make come before one that isn't made yet and may be made.
fn is_far(picture: &Picture, name: u64) -> bool
    ensures { IsTrue result → (g : ProtectionGraph) → IsPictureOf picture.now g → IsFar g name }
{
    comes_later(picture, name) && name - picture.made() > MOST_MADE
}

// Whether names are few for the right over a y that was made. They are few if fewer than 64 are left, or if 64 are left
// and x is one of them.
fn is_short(picture: &Picture, x: u64, y: u64) -> bool
    ensures { IsTrue result → (g : ProtectionGraph) → IsPictureOf picture.now g → IsShort g x y }
{
    let left = picture.limit().saturating_sub(picture.made());
    y < picture.made() && (left < 64 || comes_later(picture, x) && left < 65)
}
