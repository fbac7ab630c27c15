//! Entries with who made them.
use tg_journal::Entry;

/// Who makes an entry of a round. It is the session of a worker, or the keeper of the round.
pub enum Maker {
    /// The session of the worker with this name.
    Session(u64),
    /// The keeper, which makes entries of any worker.
    Keeper,
}

/// An entry with who made it. The roll has these. No value of it is made.
pub struct Signed {
    pub by: Maker,
    pub entry: Entry,
}
