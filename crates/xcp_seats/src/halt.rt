//! When a server ends.

use std::sync::atomic::{AtomicBool, Ordering};
use std::sync::{Condvar, CondvarTimeouts, Mutex, Wait};
use std::time::{Clock, Duration};

/// Whether a server was asked to end, by anybody.
#[derive(Drop)]
pub struct Halt {
    asked: Mutex<bool>,
    told: Condvar,
    ends: AtomicBool,
}

impl Halt {
    /// Nobody asked yet.
    pub fn new() -> Halt {
        Halt {
            asked: Mutex::new(false),
            told: Condvar::new(),
            ends: AtomicBool::new(false),
        }
    }

    /// Asks the server to end, in order. Nothing takes it back.
    pub fn ask(&self, rt: &impl Wait) {
        *self.asked.lock(rt) = true;
        self.ends.store(true, Ordering::SeqCst);
        self.told.notify_all();
    }

    /// Whether somebody asked.
    pub fn is_asked(&self) -> bool {
        self.ends.load(Ordering::SeqCst)
    }

    /// Waits until somebody asks.
    pub fn wait(&self, rt: &impl Wait) {
        let _asked = self
            .told
            .wait_while(rt, self.asked.lock(rt), |asked| !*asked);
    }

    /// Waits until somebody asks, but no longer than this.
    pub fn wait_for<R: Wait + Clock>(&self, rt: &R, time: Duration) {
        let _asked = self
            .told
            .wait_timeout_while(rt, self.asked.lock(rt), time, |asked| !*asked);
    }
}
