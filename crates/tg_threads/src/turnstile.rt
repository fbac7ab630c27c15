//! The place at which a worker's thread may be held up.

/// A gate that each worker's thread passes before each of its lines. A turnstile that lets nobody pass before another
/// worker has come shows that workers have threads of their own.
pub trait Turnstile {
    /// Lets the worker's thread pass.
    fn pass(&self, worker: u64);
}

/// A turnstile that holds nobody up.
#[derive(Clone, Copy, Debug)]
pub struct NoTurnstile;

impl Turnstile for NoTurnstile {
    fn pass(&self, _worker: u64) {}
}
