//! Hands of two sessions that take turns: what each hand is answered, which receipts it adds, and which entries the
//! closed store has.
use super::opened::{is_answered, read_and_write};
use super::rounds::{RoundWay, play_round};
use crate::opened::{cells, opening_with};
use std::alloc::Global;
use std::sync::Wait;
use tg_journal::{Entry, Journal};
use tg_model::{Cause, Command, Deed, Denial, Edge, Rule, Verb};
use tg_payload::CellPayload;
use tg_rights::{Label, Right, Rights};
use tg_shared::{OwnHand, Receipt, Round, Session, SharedStore};
use tg_store::{ApplyFault, Handed, Limits, Store};

// The worker from whom rights over the target are taken.
const FROM: u64 = 2;

// The worker over whom rights are handed on.
const TARGET: u64 = 3;

// The worker who gets the rights.
const TO: u64 = 4;

// A name that no vertex has.
const NOBODY: u64 = 9;

// The answer to a hand, the place of its first receipt, and how many receipts it adds. There is no place if it adds no
// receipt, or receipts whose places don't follow one another.
type HandSeen = (Result<Handed, ApplyFault>, Option<(u64, u64)>);

/// What is seen of the hands: of three that are served, of five that are denied, and of one by a worker who retired.
pub(crate) type TurnsSeen = ([HandSeen; 3], [HandSeen; 5], HandSeen);

// What is seen of the closed store: whether its entries are those of the hands and of the retire, and whether exactly
// the right workers may read the target, and write to it. Then how many entries an audit finds legal.
type ClosedSeen = ([bool; 3], u64);

// What is seen of the hands, and of the closed store.
type StorySeen = (TurnsSeen, Option<ClosedSeen>);

// The label with this right alone.
fn only(right: Right) -> Label {
    Label::new(Rights::of(right)).unwrap()
}

// Workers 0 and 1 may take from one worker and grant to another. The first of these may read the target and write to
// it, and worker 0 may read it.
fn edges(alloc: Global) -> Option<Vec<Edge>> {
    let edges = [
        edge(0, FROM, only(Right::T)),
        edge(0, TO, only(Right::G)),
        edge(0, TARGET, only(Right::R)),
        edge(1, FROM, only(Right::T)),
        edge(1, TO, only(Right::G)),
        edge(FROM, TARGET, read_and_write()),
    ];
    Vec::from_array(alloc, edges).ok()
}

fn edge(from: u64, to: u64, label: Label) -> Edge {
    Edge { from, to, label }
}

// A store of five workers with these edges.
fn open(alloc: Global) -> Option<Store<CellPayload>> {
    let limits = Limits::new(64, 16).ok()?;
    let drafts = cells(alloc, 5)?;
    let opening = opening_with(alloc, &drafts, edges(alloc)?, 5)?;
    Store::open(alloc, opening, limits, drafts).ok()
}

// The place of the first receipt from an index on, and how many there are, if their places follow one another.
fn run_from(receipts: &[Receipt], index: usize) -> Option<(u64, u64)> {
    let added = receipts.get(index..)?;
    let first = added.first()?.at;
    let mut count = 0u64;
    for receipt in added {
        if receipt.at != first.wrapping_add(count) {
            return None;
        }
        count = count.wrapping_add(1);
    }
    Some((first, count))
}

// Lets the session hand rights on.
fn hands<L: Round, R: Wait>(
    rt: &R,
    store: &SharedStore<L, CellPayload>,
    session: &mut Session<L>,
    hand: OwnHand,
) -> HandSeen {
    let before = session.receipts().len();
    let handed: Result<Handed, ApplyFault> = session.hand(rt, store, hand);
    (handed, run_from(session.receipts(), before))
}

// Rights over the target, from the one to the other.
fn over_target(from: u64, to: u64, rights: Label) -> OwnHand {
    OwnHand {
        from,
        to,
        target: TARGET,
        rights,
    }
}

// Three hands that are served. The worker holds the right of the first hand. Of the two rights of the second hand it
// holds none, and of those of the third hand one.
fn serve<L: Round, R: Wait>(
    rt: &R,
    store: &SharedStore<L, CellPayload>,
    first: &mut Session<L>,
    second: &mut Session<L>,
) -> [HandSeen; 3] {
    let both = read_and_write();
    [
        hands(rt, store, first, over_target(FROM, TO, only(Right::R))),
        hands(rt, store, second, over_target(FROM, TO, both)),
        hands(rt, store, first, over_target(FROM, TO, both)),
    ]
}

// Five hands that are denied: of a right that the giver lacks, from the worker itself, from nobody, to the target, and
// to a worker over whom grant is lacking.
fn deny<L: Round, R: Wait>(
    rt: &R,
    store: &SharedStore<L, CellPayload>,
    first: &mut Session<L>,
    second: &mut Session<L>,
) -> [HandSeen; 5] {
    let read = only(Right::R);
    [
        hands(rt, store, second, over_target(FROM, TO, only(Right::A))),
        hands(rt, store, first, over_target(0, TO, read)),
        hands(rt, store, second, over_target(NOBODY, TO, read)),
        hands(rt, store, first, over_target(FROM, TARGET, read)),
        hands(rt, store, second, over_target(FROM, 0, read)),
    ]
}

// Lets two sessions hand rights on in turns. Then the third session's worker retires, and hands on.
fn take_turns<L: Round, R: Wait>(
    rt: &R,
    store: &SharedStore<L, CellPayload>,
    first: &mut Session<L>,
    second: &mut Session<L>,
    third: &mut Session<L>,
) -> TurnsSeen {
    let served = serve(rt, store, first, second);
    let denied = deny(rt, store, first, second);
    let _retired = is_answered(rt, store, third, Command::Retire);
    let read = over_target(FROM, 0, only(Right::R));
    (served, denied, hands(rt, store, third, read))
}

/// The same with the sessions of the store, of which there have to be five.
pub(crate) fn turns_of<L: Round, R: Wait>(
    rt: &R,
    store: &SharedStore<L, CellPayload>,
    sessions: &mut [Session<L>],
) -> Option<TurnsSeen> {
    match sessions {
        [first, second, _, _, third] => Some(take_turns(rt, store, first, second, third)),
        _ => None,
    }
}

// Who asked for an entry, and for what. `None` if it made a vertex.
fn asked(entry: &Entry) -> Option<(u64, Verb)> {
    match entry.deed {
        Deed::Plain(command) => Some((entry.worker, command.parts().0)),
        _ => None,
    }
}

// The entries of the hands that are served, in turns, then those of the denied ones, and the retire.
fn entries_asked() -> [(u64, Verb); 14] {
    [
        (0, Verb::Take),
        (0, Verb::Grant),
        (1, Verb::Take),
        (1, Verb::Grant),
        (1, Verb::Remove),
        (0, Verb::Take),
        (0, Verb::Grant),
        (0, Verb::Remove),
        (1, Verb::Take),
        (0, Verb::Take),
        (1, Verb::Take),
        (0, Verb::Grant),
        (1, Verb::Grant),
        (TO, Verb::Retire),
    ]
}

// Whether the journal has exactly these entries.
fn has_entries(journal: &Journal, wanted: &[(u64, Verb)]) -> bool {
    let entries = journal.entries();
    let mut is_so = entries.len() == wanted.len();
    for (entry, wanted) in entries.iter().zip(wanted.iter()) {
        is_so &= asked(entry) == Some(*wanted);
    }
    is_so
}

// Whether exactly these workers hold a right over the target.
fn are_holders(
    alloc: Global,
    store: &Store<CellPayload>,
    right: Right,
    wanted: &[u64],
) -> Option<bool> {
    let holders = store.who_holds(alloc, right, TARGET).ok()?;
    Some(holders.as_slice() == wanted)
}

fn closed_seen(alloc: Global, store: &Store<CellPayload>) -> Option<ClosedSeen> {
    let readers = are_holders(alloc, store, Right::R, &[0, FROM, TO])?;
    let writers = are_holders(alloc, store, Right::W, &[FROM, TO])?;
    let has_entries = has_entries(store.journal(), &entries_asked());
    let legal = store.audit(alloc).ok()?.entries();
    Some(([has_entries, readers, writers], legal))
}

// Shares a store, and looks at it once it is closed.
fn story<R: Wait>(rt: &R, alloc: Global) -> Option<StorySeen> {
    let (seen, store) = play_round(rt, alloc, open(alloc)?, RoundWay::Hands);
    let store = store?;
    let closed = closed_seen(alloc, &store);
    store.let_go();
    Some((seen.turns?, closed))
}

// A hand that is served, whose first receipt has this place.
fn served(removed: Option<Label>, at: u64, receipts: u64) -> HandSeen {
    (Ok(Handed::Done { removed }), Some((at, receipts)))
}

// A hand that is refused, which adds no receipt.
fn refused(why: ApplyFault) -> HandSeen {
    (Err(why), None)
}

// A hand whose take of these rights is denied, with one receipt at this place.
fn denied_take(rights: Label, from: u64, cause: Cause, at: u64) -> HandSeen {
    let command = Command::Take {
        rights,
        via: from,
        target: TARGET,
    };
    let rule = Rule::Take;
    denied(command, Denial { rule, cause }, at)
}

// A hand whose grant of a read is denied, with one receipt at this place.
fn denied_grant(to: u64, cause: Cause, at: u64) -> HandSeen {
    let command = Command::Grant {
        rights: only(Right::R),
        via: to,
        target: TARGET,
    };
    let rule = Rule::Grant;
    denied(command, Denial { rule, cause }, at)
}

fn denied(command: Command, denial: Denial, at: u64) -> HandSeen {
    (Ok(Handed::Denied { command, denial }), Some((at, 1)))
}

// That this right is missing.
fn missing(right: Right, from: u64, to: u64) -> Cause {
    Cause::Missing {
        rights: Rights::of(right),
        from,
        to,
    }
}

// The receipts of a hand have the next places. They are two, or three if the hand removes rights. A denied hand has one
// receipt, of the denied command. The receipts match the journal of the closed store, which has no other entry.
#[test]
fn hands_have_receipts_that_follow_one_another(rt: HostRuntime) {
    let read = only(Right::R);
    let served = [
        served(None, 0, 2),
        served(Some(read_and_write()), 2, 3),
        served(Some(only(Right::W)), 5, 3),
    ];
    let denied = [
        denied_take(only(Right::A), FROM, missing(Right::A, FROM, TARGET), 8),
        denied_take(read, 0, Cause::NotDistinct, 9),
        denied_take(read, NOBODY, missing(Right::T, 1, NOBODY), 10),
        denied_grant(TARGET, Cause::NotDistinct, 11),
        denied_grant(0, missing(Right::G, 1, 0), 12),
    ];
    let turns = (served, denied, refused(ApplyFault::NoSuchWorker));
    let closed = ([true, true, true], 14);
    assert!(rt; story(&rt, rt.alloc()) == Some((turns, Some(closed))));
}
