//! The answer to a question without its turns.

/// Whether someone could ever come to hold a right.
#[derive(Clone, Copy, PartialEq, Eq, Drop)]
pub enum Chance {
    /// Never, after no list of turns of those who act.
    Never,
    /// Perhaps. The view doesn't decide it. [`could_hold`](crate::could_hold) looks for turns.
    Perhaps,
}
