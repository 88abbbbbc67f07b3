//! Events that found no room for their packets, as they happen.

use std::sync::atomic::{AtomicU64, Ordering};
use xcp_slave::Told;

/// How many events of tasks found no room for their packets so far. It is for who watches: what is told at the end is counted of the journal.
#[derive(Drop)]
pub struct Losses {
    count: AtomicU64,
}

impl Losses {
    /// None.
    pub fn new() -> Losses {
        Losses {
            count: AtomicU64::new(0),
        }
    }

    /// One more, if that is what an event was told.
    pub fn note(&self, told: &Told) {
        if *told == Told::Overrun {
            let _ = self.count.fetch_add(1, Ordering::Relaxed);
        }
    }

    /// How many there were. At 2^64 this begins again at 0.
    pub fn count(&self) -> u64 {
        self.count.load(Ordering::Relaxed)
    }
}
