//! Collections that nobody asks for. No clause of a session's call, of a keeper's or of a close says that it collects
//! nothing. So the counts are of a store that was asked for all but a collection, while it had vertices that nobody
//! reaches. The store was taken back in three ways.
use super::opened::{Counted, counted, is_answered, makes, open_store, read_and_write, spawned_by};
use super::rounds::{RoundWay, SharedRound, play_round};
use std::alloc::Global;
use std::sync::Wait;
use tg_model::Command;
use tg_payload::CellPayload;
use tg_shared::{Round, Session, SharedStore};
use tg_store::{Kind, Store};

// Lets the session make a vertex, and give it up: nobody reaches it then.
fn gives_up<L: Round, R: Wait>(
    rt: &R,
    alloc: Global,
    store: &SharedStore<L, CellPayload>,
    session: &mut Session<L>,
) -> bool {
    let rights = read_and_write();
    let given_up = Command::Remove { target: 2, rights };
    makes(rt, alloc, store, session) && is_answered(rt, store, session, given_up)
}

// Makes each call but a collection. Returns the session of the spawned subject, if all calls were answered.
fn act_of_two<L: Round, R: Wait>(
    rt: &R,
    alloc: Global,
    kept: &mut SharedRound<L>,
    first: &mut Session<L>,
    second: &mut Session<L>,
) -> Option<Session<L>> {
    let store = &kept.store;
    let made = gives_up(rt, alloc, store, first) && makes(rt, alloc, store, second);
    let spawned = spawned_by(rt, alloc, store, first);
    let is_read = is_answered(rt, store, second, Command::Read { target: 3 });
    let is_told = second.label(rt, store, 3).is_some();
    let is_shown = kept.keeper.picture(rt, alloc, store).is_ok();
    let left = first.leave(rt, store).is_ok();
    if made && is_read && is_told && is_shown && left {
        spawned
    } else {
        None
    }
}

/// Makes each call but a collection with the sessions of a store, and adds the session that is made. There have to be
/// two sessions.
pub(crate) fn act<L: Round, R: Wait>(
    rt: &R,
    alloc: Global,
    kept: &mut SharedRound<L>,
    sessions: &mut Vec<Session<L>>,
) {
    let spawned = match sessions.as_mut_slice() {
        [first, second] => act_of_two(rt, alloc, kept, first, second),
        _ => None,
    };
    if let Some(session) = spawned {
        let _pushed = sessions.push(session);
    }
}

/// Lets the first session collect the nurseries.
pub(crate) fn collect<L: Round, R: Wait>(
    rt: &R,
    store: &SharedStore<L, CellPayload>,
    sessions: &mut [Session<L>],
) {
    if let Some(session) = sessions.first_mut() {
        let _collected = session.collect(rt, store, Kind::Nursery);
    }
}

// What is counted of the store that is taken back, which is shared anew in another way.
fn counted_after<R: Wait>(
    rt: &R,
    alloc: Global,
    store: Store<CellPayload>,
    ways: &[RoundWay],
) -> Option<(Store<CellPayload>, Counted)> {
    let mut store = store;
    for way in ways {
        store = play_round(rt, alloc, store, *way).1?;
    }
    let counted = counted(&store);
    Some((store, counted))
}

// What is counted once all was asked for but a collection, and once one of the nurseries was.
fn story<R: Wait>(rt: &R, alloc: Global) -> Option<[Counted; 2]> {
    let unasked = [RoundWay::Acts, RoundWay::Closes, RoundWay::Loses];
    let (store, before) = counted_after(rt, alloc, open_store(alloc)?, &unasked)?;
    let (store, after) = counted_after(rt, alloc, store, &[RoundWay::Collects])?;
    store.let_go();
    Some([before, after])
}

// Nothing is collected that nobody asks for, and of two vertices that nobody reaches each is there. A collection of the
// nurseries is one.
#[test]
fn nobody_collects_unasked(rt: HostRuntime) {
    assert!(rt; story(&rt, rt.alloc()) == Some([[5, 0, 0], [3, 1, 0]]));
}
