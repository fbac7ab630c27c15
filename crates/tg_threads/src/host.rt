//! The values that the threads of a race have in common.

use std::alloc::Global;
use tg_payload::Payload;
use tg_script::Helpers;
use tg_shared::{Round, SharedStore};

/// The parts of the machine that a race uses. They are the runtime that starts its threads, the allocator, and the
/// turnstile that each thread passes.
#[derive_where(Clone, Copy)]
pub struct RaceHost<'a, G, R> {
    pub rt: &'a R,
    pub alloc: Global,
    pub turnstile: &'a G,
}

/// The values that each worker's thread gets beside its lines. They are the host, the store, and how many helpers a
/// collection has.
#[derive_where(Clone, Copy)]
pub struct RaceContext<'a, L: Round, P: Payload, G, R> {
    pub host: &'a RaceHost<'a, G, R>,
    pub store: &'a SharedStore<L, P>,
    pub helpers: Helpers,
}
