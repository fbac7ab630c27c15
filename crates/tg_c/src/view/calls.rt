//! The calls on a view in its place, in Rattle's own types.
ghost use Rattle.std.specs.Prelude.{◌≡◌, IfOk, IfErr, map};
ghost use Rattle.tg_c.specs.Inner.Stores.{KeepsStore};
ghost use Rattle.tg_c.specs.Forms.{HaveLabels, edge_in};
ghost use Rattle.tg_c.specs.View.{Glances, IsFollowedIn, IsGlimpseAsIf, IsNoGlimpse, IsNotFollowedIn, IsRefusedAsIf, IsRefusedView, IsSeen, IsSeenAsIf, KeepsView};

use crate::forms::{EdgeIn, QuestionIn, label_of};
use crate::held::Holder;
use crate::law_store::LawStore;
use crate::opening::{check_rights, edges_in};
use crate::place::StorePlace;
use crate::refusal::CallRefusal;
use crate::view::place::ViewPlace;
use crate::view::sight::{Glimpse, Sight};
use std::alloc::Global;
use tg_could::Question;
use tg_model::Edge;
use tg_rights::Right;

/// Opens a view, which no place has yet, of the store in a place. The silent workers take no turns, and the edges of
/// `as_if` are supposed to be there too. The checks are the checks of a question (`crate::foresee`), in this order:
///
/// 1. the rights of the edges,
/// 2. whether the view's place is closed, by `is_open`,
/// 3. whether the store's place is open,
/// 4. whether each silent name is a worker,
/// 5. with memory, whether each edge joins two different vertices that workers reach.
///
/// The store is as it was.
pub fn open_view(
    alloc: Global,
    place: &mut StorePlace,
    silent: &[u64],
    as_if: &[EdgeIn],
    is_open: bool,
) -> Result<Box<Sight>, CallRefusal>
    ensures kept { KeepsStore place.old place.new }
    ensures seen { IfOk result (λ opened. IsSeen place.old is_open silent.now as_if.now opened.value) }
    ensures refused { IfErr result (IsRefusedView place.old is_open silent.now as_if.now) }
{
    check_rights(as_if)?;
    if is_open {
        return Err(CallRefusal::AlreadyOpen);
    }
    let Some(opened) = place.take(alloc) else {
        return Err(CallRefusal::NotOpen);
    };
    let seen = opened.look(alloc, silent, as_if);
    place.put(opened);
    seen
}

/// The kind of the view's answer to the question whether x could ever come to hold the right of this bit over y.
pub fn ask_view(
    alloc: Global,
    view: &mut ViewPlace,
    x: u64,
    right: u64,
    y: u64,
) -> Result<u64, CallRefusal>
    ensures { Glances view.old view.new x right y (λ told. result ≡ told) }
{
    let Some(right) = Right::of_bit(right) else {
        return Err(CallRefusal::BadRights);
    };
    view.with_open(alloc, |sight| sight.could(x, right, y).kind())
}

/// The view's answer to a question, as if the edges of `as_if` were there too. The checks have this order:
///
/// 1. the right,
/// 2. the rights of the edges,
/// 3. whether the view's place is open,
/// 4. with memory, whether each edge joins two different vertices that workers reached at the opening.
///
/// The view is as it was.
pub fn ask_view_as_if(
    alloc: Global,
    view: &mut ViewPlace,
    as_if: &[EdgeIn],
    asked: QuestionIn,
) -> Result<Glimpse, CallRefusal>
    ensures kept { KeepsView view.old view.new }
    ensures told { IfOk result (IsSeenAsIf view.old as_if.now asked.x asked.right asked.y) }
    ensures refused { IfErr result (IsRefusedAsIf view.old as_if.now asked.right) }
{
    let Some(right) = Right::of_bit(asked.right) else {
        return Err(CallRefusal::BadRights);
    };
    check_rights(as_if)?;
    let Some(sight) = view.take(alloc) else {
        return Err(CallRefusal::NotOpen);
    };
    let question = Question {
        x: asked.x,
        right,
        y: asked.y,
    };
    let told = glimpse_as_if(alloc, &sight, as_if, question);
    view.put(sight);
    told
}

/// Has the view follow an edge that came since its opening ([`Sight::follow`]). The checks have this order:
///
/// 1. the rights of the edge,
/// 2. whether the view's place is open,
/// 3. with memory, whether the edge joins two different vertices that workers reached at the opening.
pub fn follow(alloc: Global, view: &mut ViewPlace, edge: &EdgeIn) -> Result<bool, CallRefusal>
    ensures stays { view.new.is_open ≡ view.old.is_open }
    ensures told { IfOk result (IsFollowedIn view.old edge.now view.new) }
    ensures refused { IfErr result (IsNotFollowedIn view.old edge.now view.new) }
{
    let label = label_of(edge.rights)?;
    let Some(mut sight) = view.take(alloc) else {
        return Err(CallRefusal::NotOpen);
    };
    let followed = sight.follow(Edge {
        from: edge.from,
        to: edge.to,
        label,
    });
    view.put(sight);
    followed
}

// The answer of a view with supposed edges, after their rights were checked.
fn glimpse_as_if(
    alloc: Global,
    sight: &Sight,
    as_if: &[EdgeIn],
    asked: Question,
) -> Result<Glimpse, CallRefusal>
    requires { HaveLabels as_if.now }
    ensures told { IfOk result (IsGlimpseAsIf sight.now (map edge_in as_if.now) asked.x asked.right asked.y) }
    ensures refused { IfErr result (IsNoGlimpse sight.now (map edge_in as_if.now)) }
{
    let edges = edges_in(alloc, as_if)?;
    sight.could_as_if(edges.as_slice(), asked.x, asked.right, asked.y)
}

impl LawStore {
    ghost use Rattle.tg_store.specs.Store.{graph_of_store};
    ghost use Rattle.tg_c.specs.Forms.{HaveLabels};
    ghost use Rattle.tg_c.specs.Inner.Stores.{IsAnsweredOn};
    ghost use Rattle.tg_c.specs.View.{IsSeenOn};

    // A view of an open store. The edges' rights were looked at.
    fn look(
        &self,
        alloc: Global,
        silent: &[u64],
        as_if: &[EdgeIn],
    ) -> Result<Box<Sight>, CallRefusal>
        requires { HaveLabels as_if.now }
        ensures { IsAnsweredOn (graph_of_store self.now.store) silent.now as_if.now
            (λ opened. IsSeenOn (graph_of_store self.now.store) silent.now as_if.now opened.value) result }
    {
        let scene = self.scene(alloc, silent, as_if)?;
        let sight = Sight::of(alloc, &scene.picture, scene.as_if.as_slice(), silent)?;
        Ok(Box::new(alloc, sight)?)
    }
}
