//! One round of a shared store: the store is shared, what a test does with its sessions is done, and the store is taken
//! back. The tests have the round in common, because each function that owns a shared store is slow to prove. The store
//! is shared so that its keeper may take parts and end workers. That is known to the proofs alone, so a round that is
//! shared otherwise runs the same code.
ghost use Rattle.std.specs.Prelude.{◌≡◌, true};
ghost use Rattle.tg_shared.specs.Sessions.{MayShare};

use super::batches::{BatchesSeen, batches_of};
use super::hands::{TurnsSeen, turns_of};
use super::parks::{ParksSeen, parks_of};
use super::story::{StoryTold, tell};
use super::unasked::{act, collect};
use std::alloc::Global;
use std::marker::Brand;
use std::sync::Wait;
use tg_payload::CellPayload;
use tg_shared::{Blanks, Keeper, Round, Session, Shared, SharedStore, close, close_with, reclaim};
use tg_store::Store;

/// What is done in a round, and how the store is taken back.
#[derive(Clone, Copy)]
pub(crate) enum RoundWay {
    /// two sessions hand rights on in turns, and the store is closed
    Hands,
    /// two sessions ask for batches in turns, and the store is closed
    Batches,
    /// the story of two workers is played, and the store is closed with its keeper
    Tells,
    /// the keeper parks a user and unparks a new one, and the store is closed with its keeper
    Parks,
    /// all calls are made but collections, and the store is closed with its keeper
    Acts,
    /// the store is closed at once
    Closes,
    /// a session is lost, and the store is reclaimed
    Loses,
    /// a session collects the nurseries, and the store is closed
    Collects,
}

/// What is seen of a round until the store is taken back.
#[derive(Clone, Copy)]
pub(crate) struct RoundSeen {
    /// what the hands were answered
    pub(crate) turns: Option<TurnsSeen>,
    /// what the batches were answered
    pub(crate) batches: Option<BatchesSeen>,
    /// what the story came to
    pub(crate) told: Option<StoryTold>,
    /// what the parkings were answered
    pub(crate) parks: Option<ParksSeen>,
    /// how many entries the keeper made, and at which place its last part ended
    pub(crate) of_keeper: [u64; 2],
}

// Nothing is seen yet.
const NOTHING: RoundSeen = RoundSeen {
    turns: None,
    batches: None,
    told: None,
    parks: None,
    of_keeper: [0, 0],
};

/// A shared store with its keeper.
pub(crate) struct SharedRound<L: Round> {
    pub(crate) store: SharedStore<L, CellPayload>,
    pub(crate) keeper: Keeper<L>,
}

// What was seen of a round, and the store, if it was taken back.
pub(crate) type RoundEnd = (RoundSeen, Option<Store<CellPayload>>);

/// Shares a store, does what the way says, and takes the store back.
pub(crate) fn play_round<R: Wait>(
    rt: &R,
    alloc: Global,
    store: Store<CellPayload>,
    way: RoundWay,
) -> RoundEnd {
    match Blanks::new(alloc, store.opening().max_vertices() + 1) {
        Ok(blanks) => share::<Brand, R>(rt, alloc, blanks, store, way),
        Err(_) => {
            store.let_go();
            (NOTHING, None)
        }
    }
}

fn share<L: Round, R: Wait>(
    rt: &R,
    alloc: Global,
    blanks: Blanks,
    store: Store<CellPayload>,
    way: RoundWay,
) -> RoundEnd
    requires shareable { MayShare L.name L.parts L.keeper L.start blanks store }
    requires in_parts { L.start.in_parts ≡ true }
    requires may_end { L.start.may_end ≡ true }
{
    match SharedStore::<L, CellPayload>::new(alloc, blanks, store) {
        Ok(shared) => play_and_end(rt, alloc, shared, way),
        Err(refused) => {
            refused.store.let_go();
            (NOTHING, None)
        }
    }
}

fn play_and_end<L: Round, R: Wait>(
    rt: &R,
    alloc: Global,
    shared: Shared<L, CellPayload>,
    way: RoundWay,
) -> RoundEnd
    requires in_parts { L.start.in_parts ≡ true }
    requires may_end { L.start.may_end ≡ true }
{
    let Shared {
        store,
        mut sessions,
        keeper,
    } = shared;
    let mut kept = SharedRound { store, keeper };
    let seen = play(rt, alloc, &mut kept, &mut sessions, way);
    let SharedRound { store, mut keeper } = kept;
    let back = taken_back(store, sessions, &mut keeper, way);
    let of_keeper = [keeper.entered(), keeper.next()];
    drop(keeper);
    (RoundSeen { of_keeper, ..seen }, back)
}

// Does with the sessions what the way says.
fn play<L: Round, R: Wait>(
    rt: &R,
    alloc: Global,
    kept: &mut SharedRound<L>,
    sessions: &mut Vec<Session<L>>,
    way: RoundWay,
) -> RoundSeen
    requires in_parts { L.start.in_parts ≡ true }
    requires may_end { L.start.may_end ≡ true }
{
    let mut seen = NOTHING;
    match way {
        RoundWay::Hands => seen.turns = turns_of(rt, &kept.store, sessions),
        RoundWay::Batches => seen.batches = batches_of(rt, alloc, &kept.store, sessions),
        RoundWay::Tells => seen.told = tell(rt, alloc, kept, sessions),
        RoundWay::Parks => seen.parks = parks_of(rt, alloc, kept, sessions),
        RoundWay::Acts => act(rt, alloc, kept, sessions),
        RoundWay::Closes => {}
        RoundWay::Loses => drop(sessions.pop()),
        RoundWay::Collects => collect(rt, &kept.store, sessions),
    }
    seen
}

// Takes the store back.
fn taken_back<L: Round>(
    store: SharedStore<L, CellPayload>,
    sessions: Vec<Session<L>>,
    keeper: &mut Keeper<L>,
    way: RoundWay,
) -> Option<Store<CellPayload>> {
    match way {
        RoundWay::Loses => reclaim(store, sessions).ok(),
        RoundWay::Tells | RoundWay::Parks | RoundWay::Acts => close_with(
            store, sessions, keeper,
        ).ok(),
        _ => close(store, sessions).ok(),
    }
}
