//! Why a store wasn't resumed.
use tg_payload::Payload;
use tg_space::RoomFault;
use tg_store::Store;
use thiserror::Error;

/// A part wasn't resumed to its end. Each place is one in the store's journal, counted from 0.
#[derive(Drop, Error)]
pub enum ResumeStopped<P: Payload> {
    /// The part begins at `from`, and the next entry of the journal is at `due`. The store is as it was.
    #[error("the part begins at entry {from}, and entry {due} comes next: resume from the part that begins there")]
    BadPlace {
        due: u64,
        from: u64,
        store: Store<P>,
    },
    /// The first entry that isn't legal. Its worker is no active subject, its state doesn't fit its law, or its reply
    /// isn't that of the rules. The store is dropped, and nothing of it is kept.
    #[error("entry {at} is not legal: the entries were altered, or are of another opening")]
    BadEntry {
        at: u64,
    },
    /// There is no room for this entry. The store has all entries before it, and goes on if it is fed from there
    /// ([`Part::rest`](crate::Part::rest)).
    #[error("no room for entry {at}, {why}: free memory and resume from there, or open a store with more blocks")]
    NoRoom {
        at: u64,
        why: RoomFault,
        store: Store<P>,
    },
}
