//! The question whether x could ever come to hold a right over y, asked of a store in its place.
ghost use Rattle.std.specs.Prelude.{◌≡◌, ◌↔◌, IfOk, IfErr, IsTrue};
ghost use Rattle.tg_model.specs.Graph.{ProtectionGraph, IsSound};
ghost use Rattle.tg_could.specs.Reached.{IsReachedPicture, IsToldOf, JoinReached, with_edges};
ghost use Rattle.tg_c.specs.Calls.{IsMemoryOr};
ghost use Rattle.tg_c.specs.Could.{ForeseesKind, IsForeseen, IsRefusedQuestion};
ghost use Rattle.tg_c.specs.Inner.Stores.{KeepsStore};

use crate::forms::{EdgeIn, QuestionIn};
use crate::held::Holder;
use crate::law_store::LawStore;
use crate::opening::{check_rights, edges_in};
use crate::outlook::Outlook;
use crate::place::StorePlace;
use crate::refusal::CallRefusal;
use std::alloc::Global;
use tg_could::{Question, ReachedAnswer, could_hold_reached, join_reached};
use tg_model::{Edge, Picture};
use tg_rights::Right;

/// Answers whether x could ever come to hold the right of this bit over y. The silent workers take no turns, and the
/// edges of `as_if` are supposed to be there too. The checks have this order:
///
/// 1. the right,
/// 2. the rights of the edges,
/// 3. whether the answer's place is closed, by `is_open`,
/// 4. whether the store's place is open,
/// 5. whether each silent name is a worker,
/// 6. with memory, whether each edge joins two different vertices that workers reach.
///
/// The first fault is returned. The store is as it was.
pub fn foresee(
    alloc: Global,
    place: &mut StorePlace,
    silent: &[u64],
    as_if: &[EdgeIn],
    asked: QuestionIn,
    is_open: bool,
) -> Result<Box<Outlook>, CallRefusal>
    ensures kept { KeepsStore place.old place.new }
    ensures told { IfOk result (λ opened. IsForeseen place.old is_open silent.now as_if.now asked.x asked.right asked.y opened.value.told) }
    ensures refused { IfErr result (IsRefusedQuestion place.old is_open silent.now as_if.now asked.right) }
{
    let Some(right) = Right::of_bit(asked.right) else {
        return Err(CallRefusal::BadRights);
    };
    check_rights(as_if)?;
    if is_open {
        return Err(CallRefusal::AlreadyOpen);
    }
    let Some(opened) = place.take(alloc) else {
        return Err(CallRefusal::NotOpen);
    };
    let question = Question {
        x: asked.x,
        right,
        y: asked.y,
    };
    let foreseen = opened.foresee(alloc, silent, as_if, question);
    place.put(opened);
    foreseen
}

/// The kind of the answer alone, by its number ([`Outlook::kind`]). The checks are the checks of [`foresee`], with an
/// answer's place that is closed. The store is as it was.
pub fn foresee_kind(
    alloc: Global,
    place: &mut StorePlace,
    silent: &[u64],
    as_if: &[EdgeIn],
    asked: QuestionIn,
) -> Result<u64, CallRefusal>
    ensures { ForeseesKind place.old place.new silent.now as_if.now asked.x asked.right asked.y (λ told. result ≡ told) }
{
    match foresee(alloc, place, silent, as_if, asked, false) {
        Ok(opened) => Ok(opened.kind()),
        Err(refusal) => Err(refusal),
    }
}

/// The values that a question about an open store needs. They are the picture of the vertices that its workers reach,
/// and the supposed edges.
#[derive(Drop)]
pub struct SupposedScene {
    /// The picture.
    pub picture: Picture,
    /// The edges.
    pub as_if: Vec<Edge>,
}

impl LawStore {
    ghost use Rattle.std.specs.Prelude.{◌↔◌, IsTrue};
    ghost use Rattle.tg_store.specs.Store.{graph_of_store};
    ghost use Rattle.tg_c.specs.Forms.{HaveLabels};
    ghost use Rattle.tg_c.specs.Could.{AreActive, IsForeseenOn, IsSceneOf};
    ghost use Rattle.tg_c.specs.Inner.Stores.{IsAnsweredOn};

    // Answers a question about an open store, after the rights of the edges were checked.
    fn foresee(
        &self,
        alloc: Global,
        silent: &[u64],
        as_if: &[EdgeIn],
        question: Question,
    ) -> Result<Box<Outlook>, CallRefusal>
        requires { HaveLabels as_if.now }
        ensures { IsAnsweredOn (graph_of_store self.now.store) silent.now as_if.now
            (λ opened. IsForeseenOn (graph_of_store self.now.store) silent.now as_if.now question.x question.right question.y opened.value.told) result }
    {
        let scene = self.scene(alloc, silent, as_if)?;
        let asked = tg_could::Scene {
            picture: &scene.picture,
            silent,
        };
        let told = foresee_on(alloc, &asked, scene.as_if.as_slice(), question)?;
        Ok(Box::new(alloc, Outlook { told })?)
    }

    /// Returns what a question or a view about an open store needs. The rights of the edges were checked before.
    /// `NoSuchWorker` is returned exactly if a silent name is no worker. Otherwise a call that fails is out of memory.
    pub fn scene(
        &self,
        alloc: Global,
        silent: &[u64],
        as_if: &[EdgeIn],
    ) -> Result<SupposedScene, CallRefusal>
        requires { HaveLabels as_if.now }
        ensures { IsAnsweredOn (graph_of_store self.now.store) silent.now as_if.now
            (IsSceneOf (graph_of_store self.now.store) silent.now as_if.now) result }
    {
        if !self.are_workers(silent) {
            return Err(CallRefusal::NoSuchWorker);
        }
        // This call shows that the store represents a sound graph.
        let _ = self.store.journal();
        let as_if = edges_in(alloc, as_if)?;
        let picture = self.store.picture(alloc)?;
        Ok(SupposedScene { picture, as_if })
    }

    // Whether each name is a worker's.
    fn are_workers(&self, names: &[u64]) -> bool
        ensures { IsTrue result ↔ AreActive (graph_of_store self.now.store) names.now }
    {
        for name in names {
            if !self.store.is_subject(*name) {
                return false;
            }
        }
        true
    }
}

// The answer on the graph with the supposed edges too. Each supposed edge has to join two different vertices that
// active subjects reach.
fn foresee_on(
    alloc: Global,
    scene: &tg_could::Scene,
    as_if: &[Edge],
    question: Question,
) -> Result<ReachedAnswer, CallRefusal>
    ensures told { IfOk result (λ told. (g : ProtectionGraph) → IsSound g → IsReachedPicture scene.now.picture.now g →
        JoinReached g as_if.now × IsToldOf scene.now.silent.now (with_edges g as_if.now) question.x question.right question.y told) }
    ensures refused { IfErr result (λ why. (g : ProtectionGraph) → IsReachedPicture scene.now.picture.now g →
        IsMemoryOr CallRefusal.BadEdge (¬ JoinReached g as_if.now) why) }
{
    if !join_reached(scene.picture, as_if) {
        return Err(CallRefusal::BadEdge);
    }
    let told = could_hold_reached(alloc, scene, as_if, question)?;
    Ok(told)
}
