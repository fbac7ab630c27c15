//! What the active subjects of a graph reach, and the question on a picture of that part alone. Of a heap that was
//! collected it is all that there is.
ghost use Rattle.std.specs.Prelude.{◌≡◌, ◌↔◌, ◌⊎◌, ◌++◌, ◌<◌, ℕ, List, IfOk, IsTrue};
ghost use Rattle.std.specs.List.{Contains};
ghost use Rattle.tg_rights.specs.declared.Right.{Right};
ghost use Rattle.tg_model.specs.Graph.{ProtectionGraph, IsReachable, IsSound};
ghost use Rattle.tg_model.specs.Picture.{Shown};
ghost use Rattle.tg_could.specs.Reached.{HaveSameReach, HoldsWhatItHolds, IsLedTo, IsReachedPicture, JoinReached, JoinsReached, with_edges};
ghost use Rattle.tg_could.specs.Reached.{LeadThereAlso, NeverHoldsAlso, OnReached, ReachedAnswerOf, ShowsAllOf, as_shown};

use crate::answer::{Answer, could_hold};
use crate::question::{Question, Scene};
use crate::separation::is_among;
use std::alloc::{AllocError, Global};
use tg_model::{Edge, Picture};

/// The answer to the question on a picture of what the active subjects reach.
#[derive(Drop)]
pub enum ReachedAnswer {
    /// No active subject reaches x, which was made. So x keeps what it holds, and no turns of anybody change that. The
    /// picture doesn't show what this is.
    Unreached,
    /// What [`could_hold`] answers. It is true of the whole graph.
    Of(Answer),
}

/// Whether an active subject reaches the vertex with a name, on the graph whose reached part the picture has. The
/// vertex is such a subject, or an edge of the picture leads to it. Looks at each edge once at most. Takes no memory.
pub fn is_reached(picture: &Picture, name: u64) -> bool
    ensures { (g : ProtectionGraph) → IsReachedPicture picture.now g → IsTrue result ↔ IsReachable g name }
{
    is_shown(picture, name)
}

// Whether the vertex with a name is an active subject of the picture, or an edge leads to it.
fn is_shown(picture: &Picture, name: u64) -> bool
    ensures { IsTrue result ↔ (Contains picture.now.subjects name ⊎ IsLedTo picture.now.edges name) }
{
    is_among(picture.subjects(), name) || is_led_to(picture.edges(), name)
}

// Whether one of these edges leads to the vertex with a name.
fn is_led_to(edges: &[Edge], name: u64) -> bool
    ensures { IsTrue result ↔ IsLedTo edges.now name }
{
    for edge in edges {
        if edge.to == name {
            return true;
        }
    }
    false
}

/// Answers as [`could_hold`] does on the graph with these edges too. The picture has what the active subjects of the
/// graph reach without the edges, and the answer is true of the whole graph. `Unreached` is returned exactly if x was
/// made and no active subject reaches it. Each edge has to join two different vertices that active subjects reach
/// ([`join_reached`]), or else the answer says nothing. Fails only when out of memory.
pub fn could_hold_reached(
    alloc: Global,
    scene: &Scene,
    supposed: &[Edge],
    question: Question,
) -> Result<ReachedAnswer, AllocError>
    ensures { IfOk result (λ told. OnReached scene.now (λ g. JoinReached g supposed.now →
        ReachedAnswerOf scene.now question told (with_edges g supposed.now))) }
{
    if question.x < scene.picture.made() && !is_reached(scene.picture, question.x) {
        return Ok(ReachedAnswer::Unreached);
    }
    let picture = supposing(alloc, scene.picture, supposed)?;
    let wider = Scene {
        picture: &picture,
        silent: scene.silent,
    };
    let answer = could_hold(alloc, &wider, question)?;
    Ok(ReachedAnswer::Of(answer))
}

/// Whether each edge joins two different vertices that active subjects reach, on the graph of whose reached part this
/// is a picture. Looks at each edge of the picture once at most for each end. Takes no memory.
pub fn join_reached(picture: &Picture, edges: &[Edge]) -> bool
    ensures { (g : ProtectionGraph) → IsReachedPicture picture.now g → IsTrue result ↔ JoinReached g edges.now }
{
    for edge in edges {
        if !joins_reached(picture, edge) {
            return false;
        }
    }
    true
}

// Whether an edge joins two different vertices that active subjects reach.
fn joins_reached(picture: &Picture, edge: &Edge) -> bool
    ensures { (g : ProtectionGraph) → IsReachedPicture picture.now g → IsTrue result ↔ JoinsReached g edge.now }
{
    edge.from != edge.to && is_reached(picture, edge.from) && is_reached(picture, edge.to)
}

/// The picture with these edges too. Fails only when out of memory.
pub fn supposing(alloc: Global, picture: &Picture, edges: &[Edge]) -> Result<Picture, AllocError>
    ensures { IfOk result (λ supposed. supposed ≡ record picture.now { edges = picture.now.edges ++ edges.now }) }
{
    let subjects = Vec::from_slice(alloc, picture.subjects())?;
    let mut all = Vec::from_slice(alloc, picture.edges())?;
    all.extend_from_slice(edges)?;
    Ok(Picture::new(subjects, all, picture.made(), picture.limit()))
}

/// A graph may have only the labels that a picture of the reached part shows. On it, whoever is reached or isn't made
/// yet could hold exactly what it could on the whole graph. The same turns give the right, and if no turns do so there,
/// none do here.
pub fn what_is_reached_says_it_all()
    ensures never { (silent : List ℕ) (p : Shown) (g : ProtectionGraph) (x : ℕ) (right : Right) (y : ℕ) →
        ShowsAllOf p g x → NeverHoldsAlso silent (as_shown p g) g x right y }
    ensures could { (silent : List ℕ) (p : Shown) (g : ProtectionGraph) (x : ℕ) (right : Right) (y : ℕ) →
        ShowsAllOf p g x → LeadThereAlso silent (as_shown p g) g x right y }
{}

/// A vertex that was made and that no active subject reaches keeps what it holds. No turns of anybody change a label at
/// it.
pub fn the_unreached_hold_what_they_hold()
    ensures { (g : ProtectionGraph) (x : ℕ) → IsSound g → x < g.made → ¬ IsReachable g x → HoldsWhatItHolds g x }
{}

/// Two graphs of which the active subjects reach the same part have the same pictures of it.
pub fn the_same_reach_has_the_same_picture()
    ensures { (p : Shown) (g h : ProtectionGraph) → HaveSameReach g h → IsReachedPicture p g → IsReachedPicture p h }
{}
