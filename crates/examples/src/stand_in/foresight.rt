//! The owner's question before it hands anything out. It asks whether the client could ever come to hold more.
//!
//! The question is about a picture of the store, as if the grant were made already. The owner is silent in it, because
//! the program speaks for the owner. All others do whatever they like.
ghost use Rattle.std.specs.Prelude.{ℕ, List, IfOk, IsTrue};
ghost use Rattle.tg_rights.specs.declared.Right.{Right as RightOf};
ghost use Rattle.tg_model.specs.Graph.{ProtectionGraph};
ghost use Rattle.tg_could.specs.Reached.{IsToldOf, with_edges};
ghost use Rattle.tg_could.specs.Turns.{NeverHolds};
ghost use Rattle.tg_store.specs.Store.{graph_of_store};

use std::alloc::{AllocError, Global};
use tg_could::{Answer, Question, ReachedAnswer, Scene, could_hold_reached, join_reached};
use tg_model::Edge;
use tg_payload::Payload;
use tg_store::Store;

/// Whether x never holds the right over y after these edges are granted, whatever the workers that aren't silent do.
/// `false` says nothing. It is also the answer if an edge doesn't join two different vertices that workers reach. Fails
/// only when out of memory.
pub fn never_after<P: Payload>(
    alloc: Global,
    store: &Store<P>,
    silent: &[u64],
    grants: &[Edge],
    question: Question,
) -> Result<bool, AllocError>
    ensures { IfOk result (λ never. IsTrue never →
        NeverHolds silent.now (with_edges (graph_of_store store.now) grants.now) question.x question.right question.y) }
{
    // This call shows that the store represents a sound graph.
    let _ = store.journal();
    let picture = store.picture(alloc)?;
    if !join_reached(&picture, grants) {
        return Ok(false);
    }
    let scene = Scene {
        picture: &picture,
        silent,
    };
    let answer = could_hold_reached(alloc, &scene, grants, question)?;
    Ok(is_never(&answer))
}

// Whether the answer is that it never comes about.
fn is_never(answer: &ReachedAnswer) -> bool
    ensures { IsTrue result → (silent : List ℕ) (g : ProtectionGraph) (x : ℕ) (right : RightOf) (y : ℕ) →
        IsToldOf silent g x right y answer.now → NeverHolds silent g x right y }
{
    matches!(answer, ReachedAnswer::Of(Answer::Never(_)))
}
