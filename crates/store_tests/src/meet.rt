//! Where the workers of a race meet, and the helpers of a collection.

use std::alloc::{AllocError, Global};
use std::sync::atomic::{AtomicU64, Ordering};
use std::thread;
use tg_helpers::Gate;
use tg_threads::Turnstile;

/// How many turns a thread waits for another one that is to come.
pub(crate) const MANY_TURNS: u64 = 100_000_000;

/// Where each of so many threads waits at its first pass for all others, for so many turns, until one was missed.
#[derive(Drop)]
pub(crate) struct Meet {
    turns: u64,
    // how often each thread has passed
    passes: Vec<AtomicU64>,
    missed: AtomicU64,
}

impl Meet {
    /// A meeting of so many threads, of whom each waits so many turns.
    pub(crate) fn of(alloc: Global, threads: u32, turns: u64) -> Result<Meet, AllocError> {
        let mut passes = Vec::new(alloc);
        for _ in 0..threads {
            passes.push(AtomicU64::new(0))?;
        }
        Ok(Meet {
            turns,
            passes,
            missed: AtomicU64::new(0),
        })
    }

    /// Whether a thread missed another.
    pub(crate) fn is_missed(&self) -> bool {
        self.missed.load(Ordering::SeqCst) > 0
    }

    /// How often all threads have passed.
    pub(crate) fn passes(&self) -> u64 {
        let mut all = 0u64;
        for passes in &self.passes {
            all = all.wrapping_add(passes.load(Ordering::SeqCst));
        }
        all
    }

    fn have_all_come(&self) -> bool {
        let mut have_come = true;
        for passes in &self.passes {
            have_come &= passes.load(Ordering::SeqCst) > 0;
        }
        have_come
    }

    // The thread with a number passes.
    fn come(&self, number: usize) {
        if let Some(passes) = self.passes.get(number) {
            passes.fetch_add(1, Ordering::SeqCst);
        }
        for _ in 0..self.turns {
            if self.have_all_come() || self.is_missed() {
                return;
            }
            thread::yield_now();
        }
        self.missed.store(1, Ordering::SeqCst);
    }
}

impl Gate for Meet {
    fn pass(&self, helper: u32) {
        self.come(helper as usize);
    }
}

impl Turnstile for Meet {
    fn pass(&self, worker: u64) {
        self.come(worker as usize);
    }
}
