//! Collections by helpers on threads.
ghost use Rattle.std.specs.Thread.{IsSync};

use std::alloc::Global;
use std::sync::Wait;
use std::thread::Threads;
use tg_helpers::{NoGate, collect_with};
use tg_payload::Payload;
use tg_script::{Collector, Helpers, OneThread, Refusal, helpers_refusal};
use tg_store::{Kind, Store};

/// The collector of a run whose helpers have threads. If there is to be one helper alone, the thread that runs the
/// script collects, and no other thread is started.
#[derive(Clone, Copy)]
pub struct OnThreads<'a, R: Threads + Wait + Sync> {
    rt: &'a R,
    alloc: Global,
}

impl<'a, R: Threads + Wait + Sync> OnThreads<'a, R> {
    /// Helpers on threads of this runtime, with tables in memory of this allocator.
    pub fn new(rt: &'a R, alloc: Global) -> OnThreads<'a, R> {
        OnThreads { rt, alloc }
    }
}

impl<R: Threads + Wait + Sync> Collector for OnThreads<'_, R> {
    ghost Ready = { IsSync R.row };

    fn collect<P: Payload>(
        &self,
        store: &mut Store<P>,
        kind: Kind,
        helpers: Helpers,
    ) -> Result<u64, Refusal> {
        let number = helpers.number();
        if number == 1 {
            return OneThread.collect(store, kind, helpers);
        }
        match collect_with(self.rt, self.alloc, store, kind, number, &NoGate) {
            Ok(kept) => Ok(kept),
            Err(fault) => Err(helpers_refusal(fault)),
        }
    }
}
