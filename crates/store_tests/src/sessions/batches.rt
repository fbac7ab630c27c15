//! Batches of two sessions that take turns. The tests compare the answer to each batch, its receipts, the drafts that
//! are left, and the entries of the closed store.
use super::opened::{counted, open_store, read_and_write};
use super::rounds::{RoundWay, play_round};
use crate::opened::cells;
use std::alloc::Global;
use std::sync::Wait;
use tg_model::{Command, Reply};
use tg_payload::CellPayload;
use tg_shared::{CreatesFault, Receipt, Round, Session, SharedStore};
use tg_store::{ApplyFault, BatchFault, CreateFault};

// What is seen of a batch of creates: its answer, and how many drafts are left. Then the places of the first and the
// last receipt that it added, and the names in these two. There is no name in the receipt of a refused create.
type CreatesSeen = (Result<u64, CreatesFault>, u64, [Option<u64>; 4]);

/// What is seen of the batches: of five batches of creates, and of two batches of commands.
pub(crate) type BatchesSeen = ([CreatesSeen; 5], [Result<u64, BatchFault>; 2]);

// What is seen of the batches. Then how many entries the closed store has, how many an audit finds legal, and how many
// vertices there are.
type StorySeen = (BatchesSeen, [u64; 3]);

// The place of a receipt.
fn place_in(receipt: Option<&Receipt>) -> Option<u64> {
    receipt.map(|receipt| receipt.at)
}

// The name in a receipt.
fn name_in(receipt: Option<&Receipt>) -> Option<u64> {
    match receipt {
        Some(receipt) => match receipt.entry.reply {
            Reply::Name(name) => Some(name),
            _ => None,
        },
        None => None,
    }
}

// The places of the first and the last of these receipts, and the names in them.
fn ends_of(receipts: &[Receipt]) -> [Option<u64>; 4] {
    let first = receipts.first();
    let last = receipts.last();
    [
        place_in(first),
        place_in(last),
        name_in(first),
        name_in(last),
    ]
}

// Lets the session make so many vertices in one batch.
fn creates<L: Round, R: Wait>(
    rt: &R,
    alloc: Global,
    store: &SharedStore<L, CellPayload>,
    session: &mut Session<L>,
    count: u64,
) -> CreatesSeen {
    let before = session.receipts().len();
    let Some(mut drafts) = cells(alloc, count) else {
        return (Ok(0), count, [None; 4]);
    };
    let made = session.create_all(rt, store, read_and_write(), &mut drafts);
    let left = drafts.len() as u64;
    drop(drafts);
    match session.receipts().get(before..) {
        Some(added) => (made, left, ends_of(added)),
        None => (made, left, [None; 4]),
    }
}

// The first session makes two vertices, and the second one has room for one more alone. An empty batch and one that is
// too long change nothing. Then the first session is answered twice, of which once by a denial, and retires. So it
// makes nothing more.
fn take_turns<L: Round, R: Wait>(
    rt: &R,
    alloc: Global,
    store: &SharedStore<L, CellPayload>,
    first: &mut Session<L>,
    second: &mut Session<L>,
) -> BatchesSeen {
    let two = creates(rt, alloc, store, first, 2);
    let three = creates(rt, alloc, store, second, 3);
    let none = creates(rt, alloc, store, second, 0);
    let too_many = creates(rt, alloc, store, second, 1_025);
    let reads = [Command::Read { target: 2 }, Command::Read { target: 4 }];
    let retire = [Command::Retire, Command::List];
    let answered = first.call_all(rt, store, &reads);
    let stopped = first.call_all(rt, store, &retire);
    let retired = creates(rt, alloc, store, first, 1);
    ([two, three, none, too_many, retired], [answered, stopped])
}

/// The same with the sessions of the store, of which there have to be two.
pub(crate) fn batches_of<L: Round, R: Wait>(
    rt: &R,
    alloc: Global,
    store: &SharedStore<L, CellPayload>,
    sessions: &mut [Session<L>],
) -> Option<BatchesSeen> {
    match sessions {
        [first, second] => Some(take_turns(rt, alloc, store, first, second)),
        _ => None,
    }
}

// Shares a store, and looks at it once it is closed.
fn story<R: Wait>(rt: &R, alloc: Global) -> Option<StorySeen> {
    let (seen, store) = play_round(rt, alloc, open_store(alloc)?, RoundWay::Batches);
    let store = store?;
    let entries = store.journal().len();
    let legal = store.audit(alloc).ok()?.entries();
    let vertices = counted(&store)[0];
    store.let_go();
    Some((seen.batches?, [entries, legal, vertices]))
}

// The places and the names of a batch follow one another. The create that meets the limit has an entry, and its draft
// and the drafts after it are left.
#[test]
fn batches_stop_at_the_first_refusal(rt: HostRuntime) {
    let full = CreatesFault::Stopped {
        done: 1,
        why: CreateFault::VerticesFull,
    };
    let nobody = CreatesFault::Stopped {
        done: 0,
        why: CreateFault::NoSuchWorker,
    };
    let creates = [
        (Ok(2), 0, [Some(0), Some(1), Some(2), Some(3)]),
        (Err(full), 2, [Some(2), Some(3), Some(4), None]),
        (Ok(0), 0, [None; 4]),
        (Err(CreatesFault::TooLong), 1_025, [None; 4]),
        (Err(nobody), 1, [None; 4]),
    ];
    let stopped = BatchFault::Stopped {
        done: 1,
        why: ApplyFault::NoSuchWorker,
    };
    let wanted = ((creates, [Ok(2), Err(stopped)]), [7, 7, 5]);
    assert!(rt; story(&rt, rt.alloc()) == Some(wanted));
}
