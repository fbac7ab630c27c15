//! A policy of a store in its place. It has many questions, each of which is to be answered never.
ghost use Rattle.std.specs.Prelude.{◌≡◌, ◌≢◌, ◌==◌, IfOk, IfErr, IfNone, IfSome, MatchResult};
ghost use Rattle.tg_c.specs.Could.{kind_in};
ghost use Rattle.tg_c.specs.Inner.Stores.{KeepsStore};
ghost use Rattle.tg_c.specs.Policy.{AskRights, IsPolicyOutcome, IsNeverTold, IsPolicyAnswered, IsRefusedPolicy, IsToldTo, OnSupposed};

use crate::forms::{EdgeIn, QuestionIn};
use crate::held::Holder;
use crate::law_store::LawStore;
use crate::opening::check_rights;
use crate::outlook::Outlook;
use crate::place::StorePlace;
use crate::refusal::CallRefusal;
use crate::view::sight::{Glimpse, Sight};
use std::alloc::{AllocError, Global};
use tg_could::{Answer, Question, ReachedAnswer, Scene, could_hold_reached};
use tg_model::Edge;
use tg_rights::Right;

/// The first question of a policy that isn't answered never.
#[derive(Drop)]
pub struct PolicyBreach {
    /// The place of the question in the list.
    pub place: u64,
    /// The answer to it, in a box of its own.
    pub answer: Box<Outlook>,
}

/// The first of these questions that isn't answered never, or none if each of them is. The silent workers take no
/// turns, and the edges of `as_if` are supposed to be there too. The view of [`crate::view`] is asked first, and then
/// what the view leaves open is asked one by one. Nothing is asked after the breach. The checks have this order:
///
/// 1. the right of each question,
/// 2. the rights of the edges,
/// 3. whether the answer's place is closed, by `is_open`,
/// 4. whether the store's place is open,
/// 5. whether each silent name is a worker,
/// 6. with memory, whether each edge joins two different vertices that workers reach.
///
/// The first fault is returned. The store is as it was.
pub fn first_breach(
    alloc: Global,
    place: &mut StorePlace,
    silent: &[u64],
    as_if: &[EdgeIn],
    questions: &[QuestionIn],
    is_open: bool,
) -> Result<Option<PolicyBreach>, CallRefusal>
    ensures kept { KeepsStore place.old place.new }
    ensures told { IfOk result (IsPolicyAnswered place.old is_open silent.now as_if.now questions.now) }
    ensures refused { IfErr result (IsRefusedPolicy place.old is_open silent.now as_if.now questions.now) }
{
    check_questions(questions)?;
    check_rights(as_if)?;
    if is_open {
        return Err(CallRefusal::AlreadyOpen);
    }
    let Some(opened) = place.take(alloc) else {
        return Err(CallRefusal::NotOpen);
    };
    let told = opened.first_breach(alloc, silent, as_if, questions);
    place.put(opened);
    told
}

// Whether each question is about one right.
fn check_questions(questions: &[QuestionIn]) -> Result<(), CallRefusal>
    ensures { MatchResult result (λ _. AskRights questions.now) (λ why. (¬ AskRights questions.now) × (why ≡ CallRefusal.BadRights)) }
{
    for question in questions {
        let Some(_right) = Right::of_bit(question.right) else {
            return Err(CallRefusal::BadRights);
        };
    }
    Ok(())
}

impl LawStore {
    ghost use Rattle.tg_store.specs.Store.{graph_of_store};
    ghost use Rattle.tg_c.specs.Forms.{HaveLabels};
    ghost use Rattle.tg_c.specs.Inner.Stores.{IsAnsweredOn};
    ghost use Rattle.tg_c.specs.Policy.{IsPolicyOn};

    // The first breach in an open store, after the rights of the edges were checked.
    fn first_breach(
        &self,
        alloc: Global,
        silent: &[u64],
        as_if: &[EdgeIn],
        questions: &[QuestionIn],
    ) -> Result<Option<PolicyBreach>, CallRefusal>
        requires { HaveLabels as_if.now }
        ensures { IsAnsweredOn (graph_of_store self.now.store) silent.now as_if.now
            (IsPolicyOn (graph_of_store self.now.store) silent.now as_if.now questions.now) result }
    {
        let scene = self.scene(alloc, silent, as_if)?;
        let edges = scene.as_if.as_slice();
        let sight = Sight::of(alloc, &scene.picture, edges, silent)?;
        let asked = Scene {
            picture: &scene.picture,
            silent,
        };
        find_breach(alloc, &asked, edges, &sight, questions)
    }
}

// The first of these questions that isn't answered never on the graph with the supposed edges, or none. The sight is
// that of the graph. Fails only when out of memory.
fn find_breach(
    alloc: Global,
    scene: &Scene,
    as_if: &[Edge],
    sight: &Sight,
    questions: &[QuestionIn],
) -> Result<Option<PolicyBreach>, CallRefusal>
    ensures told { IfOk result (λ told. OnSupposed scene.now.picture.now scene.now.silent.now as_if.now sight.now
        (λ g. IsPolicyOutcome scene.now.silent.now g questions.now told)) }
    ensures refused { IfErr result (λ why. why ≡ CallRefusal.OutOfMemory) }
{
    for (place, question) in questions.iter().enumerate() {
        if let Some(told) = unless_never(alloc, scene, as_if, sight, *question)? {
            let answer = Box::new(alloc, Outlook { told })?;
            return Ok(Some(PolicyBreach {
                place: place as u64,
                answer,
            }));
        }
    }
    Ok(None)
}

// The answer to a question, or none if it is never. The sight is asked first. Fails only when out of memory.
fn unless_never(
    alloc: Global,
    scene: &Scene,
    as_if: &[Edge],
    sight: &Sight,
    asked: QuestionIn,
) -> Result<Option<ReachedAnswer>, AllocError>
    ensures told { IfOk result (λ told. OnSupposed scene.now.picture.now scene.now.silent.now as_if.now sight.now
        (λ g. IfSome told (IsToldTo scene.now.silent.now g asked))) }
    ensures never { IfOk result (λ told. OnSupposed scene.now.picture.now scene.now.silent.now as_if.now sight.now
        (λ g. IfNone told (IsNeverTold scene.now.silent.now g asked))) }
    ensures more { IfOk result (λ told. IfSome told (λ answer. kind_in answer ≢ 0)) }
{
    let Some(right) = Right::of_bit(asked.right) else {
        return Ok(None);
    };
    if let Glimpse::Never = sight.could(asked.x, right, asked.y) {
        return Ok(None);
    }
    let question = Question {
        x: asked.x,
        right,
        y: asked.y,
    };
    let told = could_hold_reached(alloc, scene, as_if, question)?;
    if is_never(&told) {
        return Ok(None);
    }
    Ok(Some(told))
}

// Whether an answer is that the right never comes about.
fn is_never(told: &ReachedAnswer) -> bool
    ensures { result ≡ (kind_in told.now == 0) }
{
    match told {
        ReachedAnswer::Unreached => false,
        ReachedAnswer::Of(Answer::Never(_)) => true,
        ReachedAnswer::Of(_) => false,
    }
}
