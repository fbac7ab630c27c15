//! The story, from sharing the store to the audit.
ghost use Rattle.tg_shared.specs.Sessions.{MayShare};

use super::errands::{Errands, hand_on, read_and_collect, run_errands};
use super::opening::{open_store, opening};
use super::tell::Ending;
use crate::fault::StoryFault;
use crate::opening::{cell, read_and_write};
use crate::sessions::make;
use std::alloc::Global;
use std::marker::Brand;
use std::sync::Wait;
use std::thread::{Threads, join};
use tg_journal::{Journal, audit};
use tg_payload::CellPayload;
use tg_shared::{Blanks, Round, Session, Shared, SharedStore, close};
use tg_store::{Store, StoreFault};

/// Opens a store, plays the story in it on two threads, and audits its journal from an opening of its own. Returns the
/// ending, and how many entries there are.
pub fn run_round<R: Threads + Wait + Sync>(
    rt: &R,
    alloc: Global,
) -> Result<(Ending, u64), StoryFault> {
    let store = open_store(alloc)?;
    match Blanks::new(alloc, store.opening().max_vertices() + 1) {
        Ok(blanks) => share::<Brand, R>(rt, alloc, blanks, store),
        Err(fault) => {
            store.let_go();
            Err(StoryFault::from(fault))
        }
    }
}

// Shares the store, plays the story, closes and audits.
fn share<L: Round + Send + Sync, R: Threads + Wait + Sync>(
    rt: &R,
    alloc: Global,
    blanks: Blanks,
    store: Store<CellPayload>,
) -> Result<(Ending, u64), StoryFault>
    requires shareable { MayShare L.name L.parts L.keeper L.start blanks store }
{
    match SharedStore::<L, CellPayload>::new(alloc, blanks, store) {
        Ok(shared) => tell_and_close(rt, alloc, shared),
        Err(refused) => Err(StoryFault::from(refused)),
    }
}

// Plays the story, closes and audits.
fn tell_and_close<L: Round + Send + Sync, R: Threads + Wait + Sync>(
    rt: &R,
    alloc: Global,
    shared: Shared<L, CellPayload>,
) -> Result<(Ending, u64), StoryFault> {
    let Shared {
        store,
        mut sessions,
        ..
    } = shared;
    let told = tell(rt, alloc, &store, sessions.as_mut_slice());
    let entries = close_and_audit(alloc, store, sessions);
    Ok((told?, entries?))
}

// Closes with all sessions, and audits the journal. Returns how many entries the journal has.
fn close_and_audit<L: Round>(
    alloc: Global,
    store: SharedStore<L, CellPayload>,
    sessions: Vec<Session<L>>,
) -> Result<u64, StoryFault> {
    match close(store, sessions) {
        Ok(store) => {
            let entries = audited(alloc, store.journal());
            store.let_go();
            Ok(entries?)
        }
        Err(refused) => Err(StoryFault::from(refused)),
    }
}

// Audits the journal as a legal history of the opening that the program makes anew. Returns how many entries it has.
fn audited(alloc: Global, journal: &Journal) -> Result<u64, StoreFault> {
    let kept = opening(alloc)?;
    audit(alloc, &kept, journal.entries())?;
    Ok(journal.len())
}

// The story of the three.
fn tell<L: Round + Send + Sync, R: Threads + Wait + Sync>(
    rt: &R,
    alloc: Global,
    store: &SharedStore<L, CellPayload>,
    sessions: &mut [Session<L>],
) -> Result<Ending, StoryFault> {
    match sessions {
        [deputy, client, hand] => Ok(tell_of_three(rt, alloc, store, deputy, client, hand)?),
        _ => Err(StoryFault::NoSession),
    }
}

// Makes the ledger and the paper. Then the deputy, its hand and the client do their parts on their threads.
fn tell_of_three<L: Round + Send + Sync, R: Threads + Wait + Sync>(
    rt: &R,
    alloc: Global,
    store: &SharedStore<L, CellPayload>,
    deputy: &mut Session<L>,
    client: &mut Session<L>,
    hand: &mut Session<L>,
) -> Result<Ending, StoreFault> {
    let ledger = make_own(rt, alloc, store, deputy)?;
    let paper = make_and_hand_on(rt, alloc, store, client)?;
    let (errands, read) = work(rt, store, deputy, client, hand, ledger, paper);
    ended(ledger, paper, errands, read)
}

// Makes a vertex that the session's subject may read and write.
fn make_own<L: Round, R: Wait>(
    rt: &R,
    alloc: Global,
    store: &SharedStore<L, CellPayload>,
    session: &mut Session<L>,
) -> Result<u64, StoreFault> {
    make(rt, store, session, read_and_write(), cell(alloc, 0)?)
}

// Makes the client's paper, over which the client hands w on to the deputy's hand.
fn make_and_hand_on<L: Round, R: Wait>(
    rt: &R,
    alloc: Global,
    store: &SharedStore<L, CellPayload>,
    client: &mut Session<L>,
) -> Result<u64, StoreFault> {
    let paper = make_own(rt, alloc, store, client)?;
    let _granted = hand_on(rt, store, client, paper)?;
    Ok(paper)
}

// The ending, if both threads came to their ends.
fn ended(
    ledger: u64,
    paper: u64,
    errands: Result<Errands, StoreFault>,
    read: Result<(), StoreFault>,
) -> Result<Ending, StoreFault> {
    read?;
    Ok(Ending {
        ledger,
        paper,
        errands: errands?,
    })
}

// The deputy with its hand on one thread, and the client on another.
fn work<L: Round + Send + Sync, R: Threads + Wait + Sync>(
    rt: &R,
    store: &SharedStore<L, CellPayload>,
    deputy: &mut Session<L>,
    client: &mut Session<L>,
    hand: &mut Session<L>,
    ledger: u64,
    paper: u64,
) -> (Result<Errands, StoreFault>, Result<(), StoreFault>) {
    join(
        rt,
        move || run_errands(rt, store, deputy, hand, ledger, paper),
        move || read_and_collect(rt, store, client, paper),
    )
}
