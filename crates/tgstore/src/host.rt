//! The parts of the machine that a run of the program uses.

use std::alloc::Global;

/// The runtime, the allocator, and the collector of a run.
#[derive_where(Clone, Copy)]
pub struct RunHost<'a, R, C> {
    pub rt: &'a R,
    pub alloc: Global,
    pub collector: &'a C,
}

/// The runtime, and the runtime once more for calls on files that are kept. Those calls start no thread and wait for
/// none, and take the runtime of the machine itself.
#[derive_where(Clone, Copy)]
pub struct Handles<'a, R> {
    pub rt: &'a R,
    pub files: &'a HostRuntime,
}
