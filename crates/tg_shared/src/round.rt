//! The time from sharing a store to closing it, as a type.
ghost use Rattle.std.specs.Prelude.{◌≡◌, [], false, IfOk};
ghost use Rattle.tg_shared.specs.Sessions.{KeeperNames, SharedStart};

use std::alloc::{AllocError, Global};
use std::marker::{Brand, PhantomData};
use std::sync::ledger::{Blank, Book, Ledger};
use tg_passes::{BlankRoll, Board, Roll};

/// One shared store, from [`SharedStore::new`](crate::SharedStore::new) to [`close`](crate::close). Its parameter ties
/// the sessions to the store. A function that shares a store is generic in it, and is called with `Brand`.
pub trait Round: Ledger {
    /// The store as it was when it was shared. The start also says whether the journal may be handed out in parts until
    /// the close, and whether the keeper may end workers.
    ghost start: { SharedStart };

    /// The name of the ledger by which the keeper and the locked value know the same number. The table by which the
    /// sessions, the keeper and the locked value know of the same entries.
    ghost keeper: { KeeperNames };
}

impl Round for Brand {
    ghost use Rattle.tg_passes.specs.Passes.{no_table};
    ghost use Rattle.tg_store.specs.Origin.{opened_by};

    ghost keeper = { record { handed = 0; roll = no_table } };

    ghost start = { record { opening = opened_by (record { workers = 0; edges = []; values = []; limit = 0 }); entries = []; handed = 0; limits = record { max_blocks = 0; space_blocks = 0 }; in_parts = false; may_end = false } };
}

/// The ledger of the place at which the last part of the journal ended that the keeper took.
pub(crate) struct HandedOut<L: Round> {
    of: PhantomData<L>,
}

impl<L: Round> Ledger for HandedOut<L> {
    ghost name = { L.keeper.handed };

    ghost parts = { 2 };
}

/// The board of the locked roll, and of the passes of the sessions and of the keeper.
pub(crate) struct Rolled<L: Round> {
    of: PhantomData<L>,
}

impl<L: Round> Board for Rolled<L> {
    ghost board = { L.keeper.roll };
}

/// The notes on each entry under the lock. The book counts the entry, and the roll has it.
#[derive(Drop)]
pub(crate) struct Register<L: Round> {
    pub(crate) book: Book<L>,
    pub(crate) roll: Roll<Rolled<L>>,
}

/// The blanks with which a round is opened. A round needs the blank of its sessions' ledger, the blank of its keeper's
/// ledger, and a blank roll. The roll takes a word of memory, and the others take no bytes.
#[derive(Drop)]
pub struct Blanks {
    pub sessions: Blank,
    pub handed: Blank,
    pub roll: BlankRoll,
}

impl Blanks {
    /// The blanks of a round whose sessions' ledger has so many parts. [`SharedStore::new`](crate::SharedStore::new)
    /// asks for one part more than vertices may be made. Fails only when out of memory.
    pub fn new(alloc: Global, parts: u64) -> Result<Blanks, AllocError>
        ensures sessions { IfOk result (λ blanks. blanks.sessions.parts ≡ parts) }
        ensures keeper { IfOk result (λ blanks. blanks.handed.parts ≡ 2) }
    {
        Ok(Blanks {
            sessions: Blank::new(parts),
            handed: Blank::new(2),
            roll: BlankRoll::new(alloc)?,
        })
    }
}
