//! A shared store of two workers. Its sessions get answers, and its journal is handed out in two parts. One session is
//! taken over, and one worker is ended. In the end the store is taken back.
ghost use Rattle.std.specs.Prelude.{◌≡◌, true};

use super::opened::{Counted, counted, is_answered, makes, open_store, spawned_by};
use super::rounds::{RoundWay, SharedRound, play_round};
use std::alloc::Global;
use std::sync::Wait;
use tg_model::Command;
use tg_payload::CellPayload;
use tg_shared::{Receipt, Round, Session, SharedStore, receipts_match};
use tg_store::{ApplyFault, Store};

// A part of a journal: the place of its first entry, the one after its last, and whether receipts match it.
type Part = (u64, u64, bool);

/// What is seen while the store is shared.
#[derive(Clone, Copy)]
pub(crate) struct StoryTold {
    // the bits of the rights that each of the two sessions holds over the vertex that the first session made
    labels: [u8; 2],
    // two parts, each with the receipts of the first
    parts: [Part; 2],
    // whether a session that another one spawned is taken over with a receipt, and without
    taken_over: [bool; 2],
    // how many edges a worker gives up who is ended, and why its session's next line is refused
    ended: (Option<u64>, Option<ApplyFault>),
    // the bits of what that worker holds over its own vertex, before it is ended and afterwards
    held_by_ended: [u8; 2],
    // why a name that is no worker's can't be ended, and whether the first session is answered after that
    nobody: (Option<ApplyFault>, bool),
}

const NOTHING: StoryTold = StoryTold {
    labels: [0, 0],
    parts: [(0, 0, false), (0, 0, false)],
    taken_over: [false, false],
    ended: (None, None),
    held_by_ended: [0, 0],
    nobody: (None, false),
};

// The bits of what the session's worker holds over a vertex, or 0 if it holds nothing.
fn held_by<L: Round, R: Wait>(
    rt: &R,
    store: &SharedStore<L, CellPayload>,
    session: &mut Session<L>,
    target: u64,
) -> u8 {
    match session.label(rt, store, target) {
        Some(label) => label.rights().bits(),
        None => 0,
    }
}

// Takes a part of the journal, and looks at it with these receipts.
fn take_part<L: Round, R: Wait>(rt: &R, kept: &mut SharedRound<L>, receipts: &[Receipt]) -> Part
    requires in_parts { L.start.in_parts ≡ true }
{
    let part = kept.keeper.take_journal(rt, &kept.store);
    (part.start(), part.len(), receipts_match(&part, 0, receipts))
}

// Whether the session takes over the spawned one with its receipts, and without.
fn take_over_twice<L: Round>(session: &mut Session<L>, spawned: Session<L>) -> [bool; 2]
    requires in_parts { L.start.in_parts ≡ true }
{
    match session.take_over(spawned) {
        Ok(()) => [true, false],
        Err(mut spawned) => {
            drop(spawned.take_receipts());
            [false, session.take_over(spawned).is_ok()]
        }
    }
}

// Lets the session spawn one, which retires, and take it over.
fn spawn_and_take_over<L: Round, R: Wait>(
    rt: &R,
    alloc: Global,
    kept: &SharedRound<L>,
    session: &mut Session<L>,
) -> [bool; 2]
    requires in_parts { L.start.in_parts ≡ true }
{
    match spawned_by(rt, alloc, &kept.store, session) {
        Some(mut spawned) => {
            let _retired = is_answered(rt, &kept.store, &mut spawned, Command::Retire);
            take_over_twice(session, spawned)
        }
        None => [false, false],
    }
}

// Takes the part so far, and another one once the session has read, spawned and taken over.
fn take_parts<L: Round, R: Wait>(
    rt: &R,
    alloc: Global,
    kept: &mut SharedRound<L>,
    session: &mut Session<L>,
) -> ([Part; 2], [bool; 2])
    requires in_parts { L.start.in_parts ≡ true }
{
    let receipts = session.take_receipts();
    let first = take_part(rt, kept, &receipts);
    let _read = is_answered(rt, &kept.store, session, Command::Read { target: 2 });
    let taken_over = spawn_and_take_over(rt, alloc, kept, session);
    let second = take_part(rt, kept, &receipts);
    ([first, second], taken_over)
}

// Ends the session's worker.
fn end<L: Round, R: Wait>(
    rt: &R,
    kept: &mut SharedRound<L>,
    session: &mut Session<L>,
) -> (Option<u64>, Option<ApplyFault>)
    requires may_end { L.start.may_end ≡ true }
{
    let given_up = kept.keeper.end(rt, &kept.store, session.worker()).ok();
    (given_up, session.call(rt, &kept.store, Command::List).err())
}

// Ends a name that is no worker's, and asks the session for a line.
fn end_nobody<L: Round, R: Wait>(
    rt: &R,
    kept: &mut SharedRound<L>,
    session: &mut Session<L>,
) -> (Option<ApplyFault>, bool)
    requires may_end { L.start.may_end ≡ true }
{
    let why = kept.keeper.end(rt, &kept.store, 4).err();
    (why, is_answered(rt, &kept.store, session, Command::List))
}

// Lets the first session make a vertex, and asks both what they hold over it. Takes two parts of the journal. Then the
// second makes one, and its worker is ended. An end is also tried with a name that is no worker's.
fn tell_of_two<L: Round, R: Wait>(
    rt: &R,
    alloc: Global,
    kept: &mut SharedRound<L>,
    first: &mut Session<L>,
    second: &mut Session<L>,
) -> StoryTold
    requires in_parts { L.start.in_parts ≡ true }
    requires may_end { L.start.may_end ≡ true }
{
    let _made = makes(rt, alloc, &kept.store, first);
    let labels = [
        held_by(rt, &kept.store, first, 2),
        held_by(rt, &kept.store, second, 2),
    ];
    let (parts, taken_over) = take_parts(rt, alloc, kept, first);
    let _made = makes(rt, alloc, &kept.store, second);
    let held = held_by(rt, &kept.store, second, 4);
    let ended = end(rt, kept, second);
    let held_by_ended = [held, held_by(rt, &kept.store, second, 4)];
    let nobody = end_nobody(rt, kept, first);
    drop(first.take_receipts());
    StoryTold {
        labels,
        parts,
        taken_over,
        ended,
        held_by_ended,
        nobody,
    }
}

/// Plays the story with the sessions of a store. There have to be two sessions.
pub(crate) fn tell<L: Round, R: Wait>(
    rt: &R,
    alloc: Global,
    kept: &mut SharedRound<L>,
    sessions: &mut [Session<L>],
) -> Option<StoryTold>
    requires in_parts { L.start.in_parts ≡ true }
    requires may_end { L.start.may_end ≡ true }
{
    match sessions {
        [first, second] => Some(tell_of_two(rt, alloc, kept, first, second)),
        _ => None,
    }
}

// Numbers of the store that is taken back with both sessions. The first two are how many entries its keeper made, and
// at which place its last part ended. The next two are how many entries there are, and from which place on the store
// holds them. The last are its counts.
type Back = ([u64; 4], Counted);

// The numbers of a store that was taken back, with those of its keeper.
fn back_of(store: &Store<CellPayload>, of_keeper: [u64; 2]) -> Back {
    let [entered, next] = of_keeper;
    let journal = store.journal();
    (
        [entered, next, journal.len(), journal.start()],
        counted(store),
    )
}

// What is seen of the shared store, and of the store that is taken back.
fn story<R: Wait>(rt: &R, alloc: Global) -> Option<(StoryTold, Back)> {
    let (seen, store) = play_round(rt, alloc, open_store(alloc)?, RoundWay::Tells);
    let store = store?;
    let back = back_of(&store, seen.of_keeper);
    store.let_go();
    Some((seen.told?, back))
}

// What the sessions see of the store while it is shared.
fn while_shared<R: Wait>(rt: &R, alloc: Global) -> StoryTold {
    match story(rt, alloc) {
        Some((told, _)) => told,
        None => NOTHING,
    }
}

// What is seen of the store that is taken back.
fn taken_back<R: Wait>(rt: &R, alloc: Global) -> Option<Back> {
    match story(rt, alloc) {
        Some((_, back)) => Some(back),
        None => None,
    }
}

// A session gets the label of its own worker.
#[test]
fn labels_are_told(rt: HostRuntime) {
    assert!(rt; while_shared(&rt, rt.alloc()).labels == [3, 0]);
}

// A part begins where the last one ended, and the receipts so far match the first.
#[test]
fn a_journal_is_taken_in_parts(rt: HostRuntime) {
    assert!(rt; while_shared(&rt, rt.alloc()).parts == [(0, 1, true), (1, 4, false)]);
}

// A session with a receipt isn't taken over, and then it is.
#[test]
fn a_session_is_taken_over(rt: HostRuntime) {
    assert!(rt; while_shared(&rt, rt.alloc()).taken_over == [false, true]);
}

// A worker that is ended gives up its edge, and its session is answered that there is no such worker.
#[test]
fn a_worker_is_ended(rt: HostRuntime) {
    let wanted = (Some(1), Some(ApplyFault::NoSuchWorker));
    assert!(rt; while_shared(&rt, rt.alloc()).ended == wanted);
}

// A label is that of the graph now. A worker that the keeper ended holds nothing over its own vertex any more. Its
// session saw rights over the vertex before, and made no call in between.
#[test]
fn a_label_is_not_remembered(rt: HostRuntime) {
    assert!(rt; while_shared(&rt, rt.alloc()).held_by_ended == [3, 0]);
}

// A name that is no worker's is ended of nobody: the first session acts on.
#[test]
fn nobody_else_is_ended(rt: HostRuntime) {
    assert!(rt; while_shared(&rt, rt.alloc()).nobody == (Some(ApplyFault::NoSuchWorker), true));
}

// The store is closed without the session that was taken over, and with the session of the worker that was ended. The
// store holds the entries that are in no part, from the place where the keeper's last part ended. Nobody asked it to
// collect, and it didn't.
#[test]
fn a_shared_store_is_cut_and_closes(rt: HostRuntime) {
    assert!(rt; taken_back(&rt, rt.alloc()) == Some(([2, 4, 8, 4], [5, 0, 0])));
}
