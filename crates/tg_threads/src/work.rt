//! A session with the lines that it has to run, and with their results.

use crate::task::{Task, Told};
use tg_payload::Payload;

/// A worker's session, and the lines that it has to run.
#[derive(Drop)]
pub struct Work<S, P: Payload> {
    pub session: S,
    pub tasks: Vec<Task<P>>,
}

/// A worker's session after its lines, and the result of each line, in their order.
#[derive(Drop)]
pub struct Finished<S> {
    pub session: S,
    /// The sessions of the subjects that the lines made. Nobody runs the lines of these subjects.
    pub spawned: Vec<S>,
    pub told: Vec<Told>,
}
