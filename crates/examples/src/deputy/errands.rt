//! The part of each of the three in the story.

use super::opening::HAND;
use crate::opening::write_right;
use std::sync::Wait;
use tg_model::{Command, Reply};
use tg_payload::Payload;
use tg_shared::{Round, Session, SharedStore};
use tg_store::{Kind, StoreFault};

// How often the client reads its paper and collects.
const READS: u64 = 20;

/// Whether each of the three errands was done.
#[derive(Clone, Copy)]
pub struct Errands {
    /// The ledger, written with the deputy's own rights.
    pub ledger_by_deputy: bool,
    /// The client's paper, written with the rights of the hand.
    pub paper_by_hand: bool,
    /// The ledger, written with the rights of the hand.
    pub ledger_by_hand: bool,
}

// Asks the store for a command. Returns whether it was done. A denial is no refusal.
fn is_done<L: Round, P: Payload, R: Wait>(
    rt: &R,
    store: &SharedStore<L, P>,
    session: &mut Session<L>,
    command: Command,
) -> Result<bool, StoreFault> {
    match session.call(rt, store, command) {
        Ok(reply) => Ok(matches!(reply, Reply::Done)),
        Err(fault) => Err(StoreFault::from(fault)),
    }
}

/// Hands the client's right to write to the paper on to the deputy's hand. Returns whether it was done.
pub fn hand_on<L: Round, P: Payload, R: Wait>(
    rt: &R,
    store: &SharedStore<L, P>,
    client: &mut Session<L>,
    paper: u64,
) -> Result<bool, StoreFault> {
    let grant = Command::Grant {
        via: HAND,
        target: paper,
        rights: write_right(),
    };
    is_done(rt, store, client, grant)
}

// Writes 1 to the target. Returns whether it was done.
fn write<L: Round, P: Payload, R: Wait>(
    rt: &R,
    store: &SharedStore<L, P>,
    session: &mut Session<L>,
    target: u64,
) -> Result<bool, StoreFault> {
    is_done(rt, store, session, Command::Write { target, value: 1 })
}

/// The deputy's part on its thread. It runs the client's errands, with its own rights and with the rights of its hand.
pub fn run_errands<L: Round, P: Payload, R: Wait>(
    rt: &R,
    store: &SharedStore<L, P>,
    deputy: &mut Session<L>,
    hand: &mut Session<L>,
    ledger: u64,
    paper: u64,
) -> Result<Errands, StoreFault> {
    Ok(Errands {
        ledger_by_deputy: write(rt, store, deputy, ledger)?,
        paper_by_hand: write(rt, store, hand, paper)?,
        ledger_by_hand: write(rt, store, hand, ledger)?,
    })
}

/// The client's part on its thread. It reads its paper and collects, again and again.
pub fn read_and_collect<L: Round, P: Payload, R: Wait>(
    rt: &R,
    store: &SharedStore<L, P>,
    client: &mut Session<L>,
    paper: u64,
) -> Result<(), StoreFault> {
    for _ in 0..READS {
        let _read = is_done(rt, store, client, Command::Read { target: paper })?;
        let _left = client.collect(rt, store, Kind::Full)?;
    }
    Ok(())
}
