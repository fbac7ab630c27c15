//! The value that the handle of a view points to.
ghost use Rattle.std.specs.Prelude.{◌≡◌, ◌↔◌, ◌<◌, ℕ, List, false, IfOk, IfErr, IsTrue};
ghost use Rattle.std.specs.List.{All, Contains};
ghost use Rattle.tg_could.specs.Reached.{IsReachedPicture, JoinReached, with_edges};
ghost use Rattle.tg_model.specs.Graph.{ProtectionGraph, IsSound};
ghost use Rattle.tg_c.specs.Calls.{IsMemoryOr};
ghost use Rattle.tg_c.specs.View.{AreShown, SightFollows, IsGlimpse, IsGlimpseAsIf, IsNoGlimpse, IsNotFollowed, IsSightOf, JoinsSeen, is_seen, kind_seen};

use crate::refusal::CallRefusal;
use indexmap::IndexSet;
use std::alloc::{AllocError, Global};
use tg_could::{Chance, Question, Scene, View, join_reached, supposing};
use tg_model::{Edge, Picture};
use tg_rights::Right;

/// The rights that could come about among the vertices that the active subjects of a graph reach. A sight is of the
/// moment when it was made.
#[derive(Drop)]
pub struct Sight {
    // It is `None` if no subject is active. Then no vertex is reached, and no right comes about any more.
    seen: Option<ReachedView>,
    // How many vertices were made.
    made: u64,
}

// The view of a graph with an active subject, and the names of the vertices that an active subject reaches.
#[derive(Drop)]
struct ReachedView {
    view: View,
    reached: IndexSet<u64>,
}

/// The answer of a view to a question.
#[derive(Clone, Copy, Debug, PartialEq, Eq, Drop)]
pub enum Glimpse {
    /// It never comes about.
    Never,
    /// No active subject reaches x, which was made.
    Unreached,
    /// The view doesn't decide it.
    Perhaps,
}

impl Glimpse {
    /// The number of its kind, as in an answer. It is 0 for never, 4 if x isn't reached, and 6 for perhaps.
    pub fn kind(self) -> u64
        ensures { result ≡ kind_seen self }
    {
        match self {
            Glimpse::Never => 0,
            Glimpse::Unreached => 4,
            Glimpse::Perhaps => 6,
        }
    }
}

impl Sight {
    /// The view of a graph whose reached part the picture shows, with the supposed edges too. The silent subjects take
    /// no turns. Each supposed edge has to join two different vertices that active subjects reach.
    pub fn of(
        alloc: Global,
        picture: &Picture,
        as_if: &[Edge],
        silent: &[u64],
    ) -> Result<Sight, CallRefusal>
        ensures seen { IfOk result (λ sight. (g : ProtectionGraph) → IsSound g → IsReachedPicture picture.now g →
            JoinReached g as_if.now × IsSightOf silent.now (with_edges g as_if.now) sight) }
        ensures refused { IfErr result (λ why. (g : ProtectionGraph) → IsReachedPicture picture.now g →
            IsMemoryOr CallRefusal.BadEdge (¬ JoinReached g as_if.now) why) }
    {
        if !join_reached(picture, as_if) {
            return Err(CallRefusal::BadEdge);
        }
        let made = picture.made();
        if picture.subjects().is_empty() {
            return Ok(Sight { seen: None, made });
        }
        let reached = names_shown(alloc, picture)?;
        let supposed = supposing(alloc, picture, as_if)?;
        let scene = Scene {
            picture: &supposed,
            silent,
        };
        let view = View::open(alloc, &scene)?;
        Ok(Sight {
            seen: Some(ReachedView { view, reached }),
            made,
        })
    }

    /// Answers whether x could ever come to hold a right over y. Takes no memory, and time in proportion to the edges
    /// to y.
    pub fn could(&self, x: u64, right: Right, y: u64) -> Glimpse
        ensures { (silent : List ℕ) (g : ProtectionGraph) → IsSightOf silent g self.now → IsGlimpse silent g x right y result }
    {
        if self.is_unreached(x) {
            return Glimpse::Unreached;
        }
        let Some(seen) = &self.seen else {
            return Glimpse::Never;
        };
        match seen.view.could(Question { x, right, y }) {
            Chance::Never => Glimpse::Never,
            Chance::Perhaps => Glimpse::Perhaps,
        }
    }

    /// Answers as [`Sight::could`] does on the graph with these edges too. If an edge joins two parts of the view, the
    /// answer is `Perhaps`. `BadEdge` is returned if an edge doesn't join two different vertices that active subjects
    /// reach. Takes no memory, and time in proportion to the edges to y, to those that the view followed, and to these.
    pub fn could_as_if(
        &self,
        supposed: &[Edge],
        x: u64,
        right: Right,
        y: u64,
    ) -> Result<Glimpse, CallRefusal>
        ensures told { IfOk result (IsGlimpseAsIf self.now supposed.now x right y) }
        ensures refused { IfErr result (IsNoGlimpse self.now supposed.now) }
    {
        if !self.join_seen(supposed) {
            return Err(CallRefusal::BadEdge);
        }
        if self.is_unreached(x) {
            return Ok(Glimpse::Unreached);
        }
        let Some(seen) = &self.seen else {
            return Ok(Glimpse::Never);
        };
        match seen.view.could_as_if(supposed, Question { x, right, y }) {
            Chance::Never => Ok(Glimpse::Never),
            Chance::Perhaps => Ok(Glimpse::Perhaps),
        }
    }

    /// Adds an edge that came since to the view, such as the edge of a grant. Returns whether it was added. It isn't if
    /// it joins two parts of the view, and then the view stays as it was. `BadEdge` is returned if the edge doesn't
    /// join two different vertices that active subjects reach. Takes memory for one edge.
    pub fn follow(&mut self, edge: Edge) -> Result<bool, CallRefusal>
        ensures told { IfOk result (SightFollows self.old edge self.new) }
        ensures refused { IfErr result (IsNotFollowed self.old edge self.new) }
    {
        if !self.joins_seen(&edge) {
            return Err(CallRefusal::BadEdge);
        }
        let Some(mut seen) = self.seen.take() else {
            return Ok(false);
        };
        let followed = seen.view.follow(edge);
        self.seen = Some(seen);
        match followed {
            Ok(is_followed) => Ok(is_followed),
            Err(error) => Err(error.into()),
        }
    }

    // Whether each edge joins two different vertices that an active subject reaches.
    fn join_seen(&self, edges: &[Edge]) -> bool
        ensures { IsTrue result ↔ All (JoinsSeen self.now.seen) edges.now }
    {
        for edge in edges {
            if !self.joins_seen(edge) {
                return false;
            }
        }
        true
    }

    // Whether an edge joins two different vertices that an active subject reaches.
    fn joins_seen(&self, edge: &Edge) -> bool
        ensures { IsTrue result ↔ JoinsSeen self.now.seen edge.now }
    {
        edge.from != edge.to && self.has_seen(edge.from) && self.has_seen(edge.to)
    }

    // Whether the vertex with a name was made, and no active subject reaches it.
    fn is_unreached(&self, name: u64) -> bool
        ensures { IsTrue result ↔ ((name < self.now.made) × (is_seen self.now.seen name ≡ false)) }
    {
        name < self.made && !self.has_seen(name)
    }

    // Whether a name is that of a vertex which an active subject reaches.
    fn has_seen(&self, name: u64) -> bool
        ensures { result ≡ is_seen self.now.seen name }
    {
        match &self.seen {
            Some(seen) => seen.reached.contains(&name),
            None => false,
        }
    }
}

// The names of the vertices that a picture shows as reached. Fails only when out of memory.
fn names_shown(alloc: Global, picture: &Picture) -> Result<IndexSet<u64>, AllocError>
    ensures { IfOk result (λ names. AreShown picture.now names.keys) }
{
    let mut names = IndexSet::new(alloc);
    for subject in picture.subjects() {
        names.insert(*subject)?;
    }
    for edge in picture.edges() {
        names.insert(edge.to)?;
    }
    Ok(names)
}
