//! A user of a shared store whom the keeper parks, and who comes back as a new subject with a session of its own.
ghost use Rattle.std.specs.Prelude.{◌≡◌, true};

use super::opened::is_answered;
use super::rounds::{RoundWay, SharedRound, play_round};
use crate::opened::{cell, cells, opening_with};
use std::alloc::Global;
use std::sync::Wait;
use tg_model::{Command, Edge};
use tg_payload::CellPayload;
use tg_rights::{Label, Right, Rights};
use tg_shared::{Round, Session};
use tg_store::{ApplyFault, Limits, ParkFault, Parked, Parking, Store};

// The worker who parks and unparks.
const HOST: u64 = 0;

// The worker who is parked.
const USER: u64 = 1;

// A name that no vertex has.
const NOBODY: u64 = 9;

/// What is seen of a parking and an unparking while the store is shared.
#[derive(Clone, Copy, PartialEq, Eq)]
pub(crate) struct ParksSeen {
    // how many edges the park puts into the account
    parked: Option<u64>,
    // why the next line of the parked user's session is refused
    after: Option<ApplyFault>,
    // why a name that is no worker's can't be parked, and why a new user can't be parked into the account
    refused: [Option<ParkFault>; 2],
    // how many edges the unpark takes out, and whether a second one is denied
    unparked: (Option<u64>, bool),
    // what the new user's session holds over the host afterwards, and whether it is answered
    back: (Option<Label>, bool),
    // how many entries the keeper made for each of the five calls
    entered: [u64; 5],
}

// The label with these two rights.
fn two(first: Right, second: Right) -> Label {
    Label::new(Rights::of(first).union(Rights::of(second))).unwrap()
}

// The host holds take and grant over the user, and the user may read the host.
fn edges(alloc: Global) -> Option<Vec<Edge>> {
    let over_user = Edge {
        from: HOST,
        to: USER,
        label: two(Right::T, Right::G),
    };
    let over_host = Edge {
        from: USER,
        to: HOST,
        label: Label::new(Rights::of(Right::R)).unwrap(),
    };
    Vec::from_array(alloc, [over_user, over_host]).ok()
}

// A store of the host and the user.
fn open(alloc: Global) -> Option<Store<CellPayload>> {
    let limits = Limits::new(64, 16).ok()?;
    let drafts = cells(alloc, 2)?;
    let opening = opening_with(alloc, &drafts, edges(alloc)?, 6)?;
    Store::open(alloc, opening, limits, drafts).ok()
}

fn edges_of(answer: Result<Parked, ParkFault>) -> Option<u64> {
    match answer {
        Ok(Parked::Done { edges }) => Some(edges),
        _ => None,
    }
}

// The parking of this user by the host.
fn into(user: u64, account: u64) -> Parking {
    Parking {
        host: HOST,
        user,
        account,
    }
}

// How many entries the keeper made more than so many.
fn more<L: Round>(kept: &SharedRound<L>, before: u64) -> u64 {
    kept.keeper.entered().saturating_sub(before)
}

// Parks, and returns how many entries the keeper made for it.
fn park<L: Round, R: Wait>(
    rt: &R,
    kept: &mut SharedRound<L>,
    parking: Parking,
) -> (Result<Parked, ParkFault>, u64)
    requires may_end { L.start.may_end ≡ true }
{
    let before = kept.keeper.entered();
    let answer = kept.keeper.park(rt, &kept.store, parking);
    (answer, more(kept, before))
}

// Unparks, and returns how many entries the keeper made for it.
fn unpark<L: Round, R: Wait>(
    rt: &R,
    kept: &mut SharedRound<L>,
    parking: Parking,
) -> (Result<Parked, ParkFault>, u64)
    requires may_end { L.start.may_end ≡ true }
{
    let before = kept.keeper.entered();
    let answer = kept.keeper.unpark(rt, &kept.store, parking);
    (answer, more(kept, before))
}

// What is seen of the parkings: of the user, of nobody, and of a new user into an account that is in use.
type Away = ([(Result<Parked, ParkFault>, u64); 3], Option<ApplyFault>);

// Parks the user, and asks its session for a line. Then it tries to park nobody, and the new user.
fn park_thrice<L: Round, R: Wait>(
    rt: &R,
    kept: &mut SharedRound<L>,
    user: &mut Session<L>,
    account: u64,
    newcomer: u64,
) -> Away
    requires may_end { L.start.may_end ≡ true }
{
    let parked = park(rt, kept, into(user.worker(), account));
    let after = user.call(rt, &kept.store, Command::List).err();
    let nobody = park(rt, kept, into(NOBODY, account));
    let in_use = park(rt, kept, into(newcomer, account));
    ([parked, nobody, in_use], after)
}

// Lets the host make an account and spawn a new user. Parks the user, and unparks the new user twice. Returns what is
// seen, and the session of the new user.
fn go_and_come<L: Round, R: Wait>(
    rt: &R,
    alloc: Global,
    kept: &mut SharedRound<L>,
    host: &mut Session<L>,
    user: &mut Session<L>,
) -> Option<(ParksSeen, Session<L>)>
    requires may_end { L.start.may_end ≡ true }
{
    let both = two(Right::T, Right::G);
    let account = host.create(rt, &kept.store, both, cell(alloc)?).ok()?;
    let mut back = host.spawn(rt, &kept.store, both, cell(alloc)?).ok()?;
    let ([parked, nobody, in_use], after) = park_thrice(rt, kept, user, account, back.worker());
    let first = unpark(rt, kept, into(back.worker(), account));
    let second = unpark(rt, kept, into(back.worker(), account));
    let held = back.label(rt, &kept.store, HOST);
    let answered = is_answered(rt, &kept.store, &mut back, Command::List);
    let seen = ParksSeen {
        parked: edges_of(parked.0),
        after,
        refused: [nobody.0.err(), in_use.0.err()],
        unparked: (edges_of(first.0), matches!(second.0, Ok(Parked::Denied(_)))),
        back: (held, answered),
        entered: [parked.1, nobody.1, in_use.1, first.1, second.1],
    };
    Some((seen, back))
}

/// Parks and unparks with the sessions of a store, of which there have to be two. The session of the new user is then
/// among them.
pub(crate) fn parks_of<L: Round, R: Wait>(
    rt: &R,
    alloc: Global,
    kept: &mut SharedRound<L>,
    sessions: &mut Vec<Session<L>>,
) -> Option<ParksSeen>
    requires may_end { L.start.may_end ≡ true }
{
    let (seen, back) = match sessions.as_mut_slice() {
        [host, user] => go_and_come(rt, alloc, kept, host, user)?,
        _ => return None,
    };
    sessions.push(back).ok()?;
    Some(seen)
}

// What is seen, how many entries the keeper made, and how many entries of the closed store are legal.
type StorySeen = (ParksSeen, u64, u64);

// Shares a store, and looks at it once it is closed.
fn story<R: Wait>(rt: &R, alloc: Global) -> Option<StorySeen> {
    let (seen, store) = play_round(rt, alloc, open(alloc)?, RoundWay::Parks);
    let store = store?;
    let legal = store.audit(alloc).ok()?.entries();
    store.let_go();
    Some((seen.parks?, seen.of_keeper[0], legal))
}

// The park of one edge has five entries, and its unpark has four. A refused call makes no entry, and a denied one makes
// one. The create, the spawn and the line of the new user's session have one entry each.
#[test]
fn who_was_parked_comes_back_with_a_new_session(rt: HostRuntime) {
    let seen = ParksSeen {
        parked: Some(1),
        after: Some(ApplyFault::NoSuchWorker),
        refused: [Some(ParkFault::NoSuchWorker), Some(ParkFault::InUse)],
        unparked: (Some(1), true),
        back: (Label::new(Rights::of(Right::R)), true),
        entered: [5, 0, 0, 4, 1],
    };
    assert!(rt; story(&rt, rt.alloc()) == Some((seen, 10, 13)));
}
