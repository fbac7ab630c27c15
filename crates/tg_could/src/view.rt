//! All questions of one picture at once.
ghost use Rattle.std.specs.Prelude.{◌≡◌, ◌↔◌, ◌<◌, ◌≤◌, true, ℕ, length, IfOk, IfSome, IsTrue};
ghost use Rattle.std.specs.List.{All};
ghost use Rattle.tg_model.specs.declared.opening.TheConstants.{MAX_WORKERS};
ghost use Rattle.tg_could.specs.declared.chance.Chance.TheVariants.{Never};
ghost use Rattle.tg_could.specs.View.{AreCounted, IsViewOf, IsCheckedOn, IsCheckedSince, IsCounted, IsPlaced, IsListed, JoinsEdge, Stands, is_at_most as within};
ghost use Rattle.tg_could.specs.Reached.{JoinsMade};
ghost use Rattle.tg_could.specs.Scenes.{EachActor, TakesTurns};
ghost use Rattle.tg_could.specs.View.{FollowsEdge, TellsNever, TellsNeverWith};

pub(crate) mod entries;
pub(crate) mod incoming;
pub(crate) mod islands;
pub(crate) mod walks;
pub(crate) mod words;

use crate::chance::Chance;
use crate::question::{Question, Scene};
use crate::search::growth::{push, table};
use crate::search::names::Names;
use crate::separation::conditions::pairs_match;
use crate::separation::{has, is_among, is_silent};
use crate::view::entries::{PackedEdge, PackedEdges};
use crate::view::incoming::Incoming;
use crate::view::islands::Islands;
use crate::view::words::{is_within, meets};
use std::alloc::{AllocError, Global};
use tg_model::{Edge, MAX_WORKERS, Picture};

/// What could come about on a picture, of all questions at once. The picture is that of [`View::open`], with the edges
/// that [`View::follow`] has added.
#[derive(Drop)]
pub struct View {
    facts: Facts,
    added: Vec<Edge>,
    is_shown: bool,
}

/// What was found of a picture. It is who acts, the islands, the edges by their targets, and whether as many subjects
/// as may be are active.
struct Facts {
    names: Names,
    actors: Vec<u64>,
    islands: Islands,
    incoming: Incoming,
    is_full: bool,
    made: u64,
    limit: u64,
}

// It is written out, so that who gives them up doesn't prove again how each part is.
impl Drop for Facts {
    fn drop(self) {
        let Self {
            names: _names,
            actors: _actors,
            islands: _islands,
            incoming: _incoming,
            is_full: _,
            made: _,
            limit: _,
        } = self;
    }
}

impl View {
    /// Makes ready for all questions about a picture, in which the silent ones take no turns. It keeps two words of 64
    /// bits for each vertex, and the edges by their targets. Time and memory are in proportion to the picture. Vertices
    /// and edges count by 32 bits. If there are more, every answer is `Perhaps`. Fails only when out of memory.
    pub fn open(alloc: Global, scene: &Scene) -> Result<View, AllocError>
        ensures { IfOk result (λ view. IsViewOf scene.now.silent.now scene.now.picture.now view) }
    {
        let mut grown = Ok(());
        let names = Names::of(alloc, scene.picture, &mut grown);
        let entries = PackedEdges::of(alloc, &names, scene.picture.edges(), &mut grown);
        let (facts, places) = Facts::of(alloc, scene, names, entries.list.as_slice(), &mut grown);
        grown?;
        let is_shown = facts.is_checked(scene, &entries, places.as_slice());
        let added = Vec::new(alloc);
        Ok(View {
            facts,
            added,
            is_shown,
        })
    }

    /// Whether x could ever come to hold a right over y, on the picture of the view. The silent subjects take no turns,
    /// and all other active subjects may take any turns. `Never` is proved, and `Perhaps` says nothing. Takes no
    /// memory, and time in proportion to the edges to y and to those that were added.
    pub fn could(&self, question: Question) -> Chance
        ensures { TellsNever (λ silent shown. IsViewOf silent shown self.now) result question }
    {
        self.could_as_if(&[], question)
    }

    /// Answers as [`View::could`] does on the graph with these edges too. If an edge joins two parts of the view, or an
    /// end of it wasn't made at the opening, the answer is `Perhaps`. Then [`could_hold`](crate::could_hold) answers
    /// about the picture with the edge. Takes no memory. Takes time in proportion to the edges to y, to those that were
    /// added, and to these.
    pub fn could_as_if(&self, supposed: &[Edge], question: Question) -> Chance
        ensures { TellsNeverWith (λ silent shown. IsViewOf silent shown self.now) supposed.now result question }
    {
        if !self.is_shown {
            return Chance::Perhaps;
        }
        self.facts.could(self.added.as_slice(), supposed, question)
    }

    /// Adds an edge to the picture of the view. A grant makes such an edge, from the vertex that is given the rights to
    /// their target. Returns whether the edge was added. The call returns `false` if the edge joins two parts of the
    /// view, or if an end of it wasn't made at the opening. It also returns `false` if the view answers nothing but
    /// `Perhaps`. After `false` the view stays as it was, and a new view has to be opened on a picture with the edge.
    /// Each added edge costs later questions a step. Fails only when out of memory, and leaves the view as it was.
    pub fn follow(&mut self, edge: Edge) -> Result<bool, AllocError>
        ensures { FollowsEdge self.old edge result self.new }
    {
        if !self.takes(&edge) {
            return Ok(false);
        }
        self.added.push(edge)?;
        Ok(true)
    }

    // Whether an edge can be added, as `follow` says.
    fn takes(&self, edge: &Edge) -> bool
        ensures shown { IsTrue result → self.now.is_shown ≡ true }
        ensures made { IsTrue result → JoinsMade self.now.facts.made edge.now }
        ensures joins { IsTrue result → JoinsEdge self.now.facts edge.now }
    {
        self.is_shown && self.facts.has_ends(edge) && self.facts.joins_none(edge)
    }
}

impl Facts {
    // The facts of a picture, by its entries, and the place of each entry's holder. Nothing is believed of them. Notes
    // whether memory ran out.
    fn of(
        alloc: Global,
        scene: &Scene,
        names: Names,
        entries: &[PackedEdge],
        grown: &mut Result<(), AllocError>,
    ) -> (Facts, Vec<u32>) {
        let mut places = table(alloc, 0, entries.len(), grown);
        let actors = actors_of(alloc, scene, grown);
        let islands = Islands::of(alloc, &names, entries, actors.as_slice(), grown);
        let incoming = Incoming::of(alloc, names.len(), entries, places.as_mut_slice(), grown);
        let facts = Facts {
            names,
            actors,
            islands,
            incoming,
            is_full: is_full(scene.picture),
            made: scene.picture.made(),
            limit: scene.picture.limit(),
        };
        (facts, places)
    }

    // What a view answers by facts that were checked, of the graph with the edges that were added and are supposed.
    fn could(&self, added: &[Edge], supposed: &[Edge], question: Question) -> Chance
        ensures { TellsNeverWith (λ silent shown. IsCheckedSince silent shown self.now added.now) supposed.now result question }
    {
        if !self.have_ends(supposed) {
            return Chance::Perhaps;
        }
        let Some(word) = self.word_over(added, supposed, question) else {
            return Chance::Perhaps;
        };
        if question.x == question.y {
            return Chance::Never;
        }
        if self.is_alone(question.y) {
            return Chance::Never;
        }
        let number = self.names.number(question.x);
        if meets(self.islands.granted(number), word) {
            return Chance::Perhaps;
        }
        if !self.are_placed(question.x, question.y, word) {
            return Chance::Perhaps;
        }
        Chance::Never
    }

    // Whether both ends of each of these edges were made.
    fn have_ends(&self, edges: &[Edge]) -> bool
        ensures { IsTrue result → All (JoinsMade self.now.made) edges.now }
    {
        for edge in edges {
            if !self.has_ends(edge) {
                return false;
            }
        }
        true
    }

    // Whether both ends of an edge were made.
    fn has_ends(&self, edge: &Edge) -> bool
        ensures { IsTrue result → JoinsMade self.now.made edge.now }
    {
        edge.from < self.made && edge.to < self.made
    }

    // The word of all who hold the right over y, with all islands where y isn't made yet and may be. There is none if x
    // holds it, or if an edge that was added or is supposed joins two islands.
    fn word_over(&self, added: &[Edge], supposed: &[Edge], question: Question) -> Option<u64>
        ensures { IfSome result (AreCounted self.now added.now supposed.now question) }
    {
        let Some(gathered) = self.incoming.gather(
            self.islands.reached.as_slice(),
            self.names.number(question.x),
            question.right,
            self.names.number(question.y),
        )
        else {
            return None;
        };
        let more = self.word_by(added, question) | self.word_by(supposed, question);
        let word = self.with_later(gathered | more, question.y);
        if !self.are_counted(added, question, word) {
            return None;
        }
        if !self.are_counted(supposed, question, word) {
            return None;
        }
        Some(word)
    }

    // The word of those who hold the right over y by these edges. Nothing is believed of it.
    fn word_by(&self, edges: &[Edge], question: Question) -> u64 {
        let mut word = 0;
        for edge in edges {
            if edge.to == question.y && has(edge.label, question.right) {
                word |= self.islands.word(self.names.number(edge.from));
            }
        }
        word
    }

    // Whether the words count each of these edges, and a word counts each by which the right over y is held.
    fn are_counted(&self, edges: &[Edge], question: Question, word: u64) -> bool
        ensures { IsTrue result → All (IsCounted self.now question word) edges.now }
    {
        for edge in edges {
            if !self.is_counted(edge, question, word) {
                return false;
            }
        }
        true
    }

    // Whether the words count one edge, and a word counts it if the right over y is held by it.
    fn is_counted(&self, edge: &Edge, question: Question, word: u64) -> bool
        ensures { IsTrue result → IsCounted self.now question word edge.now }
    {
        if !self.joins_none(edge) {
            return false;
        }
        if edge.to != question.y || !has(edge.label, question.right) {
            return true;
        }
        let from = self.names.number(edge.from);
        from != self.names.number(question.x) && is_within(self.islands.word(from), word)
    }

    // Whether the words count an edge, and it joins no two islands.
    fn joins_none(&self, edge: &Edge) -> bool
        ensures { IsTrue result → JoinsEdge self.now edge.now }
    {
        let from = self.names.number(edge.from);
        let to = self.names.number(edge.to);
        self.islands.is_joined(from, to, edge.label)
    }

    // Whether the facts are those of a picture.
    fn is_checked(&self, scene: &Scene, entries: &PackedEdges, places: &[u32]) -> bool
        ensures { IsTrue result → IsCheckedOn scene.now.silent.now scene.now.picture.now self.now }
    {
        let actors = self.actors.as_slice();
        if !pairs_match(
            self.made,
            scene.picture.made(),
            self.limit,
            scene.picture.limit(),
        ) {
            return false;
        }
        if !self.is_full_as(scene.picture) {
            return false;
        }
        if !are_listed(actors, scene) {
            return false;
        }
        if !self.islands.are_single(&self.names, actors) {
            return false;
        }
        self.have_all(scene.picture.edges(), entries, places)
    }

    // Whether each of these edges has an entry, which the words count, and whose holder is at its place.
    fn have_all(&self, edges: &[Edge], entries: &PackedEdges, places: &[u32]) -> bool
        ensures { IsTrue result → All (Stands self.now.names self.now.islands self.now.incoming) edges.now }
    {
        let list = entries.list.as_slice();
        if !entries.have_all(&self.names, edges) {
            return false;
        }
        if !self.islands.are_joined(list) {
            return false;
        }
        self.incoming.has_all(list, places)
    }

    // Whether as many subjects as may be are active on a picture, where it is kept so.
    fn is_full_as(&self, picture: &Picture) -> bool
        ensures { IsTrue result → self.now.is_full ≡ true → MAX_WORKERS ≤ length picture.now.subjects }
    {
        !self.is_full || is_full(picture)
    }

    // A word with all islands, where y isn't made yet and may be.
    fn with_later(&self, word: u64, y: u64) -> u64
        ensures { (other : ℕ) → within other word ≡ true → within other result ≡ true }
    {
        if self.comes_later(y) {
            word | u64::MAX
        } else {
            word
        }
    }

    // Whether a name isn't made yet and may be made.
    fn comes_later(&self, name: u64) -> bool
        ensures { IsTrue result ↔ ((self.now.made ≤ name) × (name < self.now.limit)) }
    {
        self.made <= name && name < self.limit
    }

    // Whether nobody but y acts, and as many subjects as may be are active.
    fn is_alone(&self, y: u64) -> bool
        ensures { IsTrue result → (self.now.is_full ≡ true) × All (λ v. v ≡ y) self.now.actors.items }
    {
        self.is_full && are_each(self.actors.as_slice(), y)
    }

    // Whether each who acts is of the islands of a word or not, as x and y ask.
    fn are_placed(&self, x: u64, y: u64, word: u64) -> bool
        ensures { IsTrue result → All (IsPlaced self.now x y word) self.now.actors.items }
    {
        for actor in self.actors.as_slice() {
            if !self.is_placed(x, y, word, *actor) {
                return false;
            }
        }
        true
    }

    // Whether one subject that acts is of the islands of a word or not, as x and y ask.
    fn is_placed(&self, x: u64, y: u64, word: u64, actor: u64) -> bool
        ensures { IsTrue result → IsPlaced self.now x y word actor }
    {
        if is_within(self.islands.word(self.names.number(actor)), word) {
            return actor != x && !self.comes_later(x);
        }
        !self.comes_later(y)
    }
}

// Who acts. Notes whether memory ran out.
fn actors_of(alloc: Global, scene: &Scene, grown: &mut Result<(), AllocError>) -> Vec<u64> {
    let mut actors = Vec::new(alloc);
    for subject in scene.picture.subjects() {
        if !is_silent(scene.silent, scene.picture.made(), *subject) {
            push(&mut actors, *subject, grown);
        }
    }
    actors
}

// Whether as many subjects as may be are active.
fn is_full(picture: &Picture) -> bool
    ensures { IsTrue result → MAX_WORKERS ≤ length picture.now.subjects }
{
    picture.subjects().len() as u64 >= MAX_WORKERS
}

// Whether each of these names is y.
fn are_each(names: &[u64], y: u64) -> bool
    ensures { IsTrue result → All (λ v. v ≡ y) names.now }
{
    for name in names {
        if *name != y {
            return false;
        }
    }
    true
}

// Whether each who acts is listed.
fn are_listed(actors: &[u64], scene: &Scene) -> bool
    ensures { IsTrue result →
        EachActor scene.now (IsListed actors.now) }
{
    for subject in scene.picture.subjects() {
        if !is_listed_or_silent(actors, scene, *subject) {
            return false;
        }
    }
    true
}

// Whether a subject is silent, or listed.
fn is_listed_or_silent(actors: &[u64], scene: &Scene, subject: u64) -> bool
    ensures { IsTrue result → TakesTurns scene.now subject → IsListed actors.now subject }
{
    is_silent(scene.silent, scene.picture.made(), subject) || is_among(actors, subject)
}
