//! What wakes the taker.

use std::sync::{Condvar, Mutex, Wait};

/// What was heard since the taker last looked.
#[derive(Drop)]
struct Heard {
    /// Something was handed in.
    rung: bool,
    /// The taker need not wait any more.
    closed: bool,
}

/// Givers ring it when something lies there, and the taker waits for it.
#[derive(Drop)]
pub struct Bell {
    heard: Mutex<Heard>,
    rings: Condvar,
}

impl Bell {
    pub fn new() -> Bell {
        Bell {
            heard: Mutex::new(Heard {
                rung: false,
                closed: false,
            }),
            rings: Condvar::new(),
        }
    }

    pub fn ring<R: Wait>(&self, rt: &R) {
        self.heard.lock(rt).rung = true;
        self.rings.notify_all();
    }

    pub fn close<R: Wait>(&self, rt: &R) {
        self.heard.lock(rt).closed = true;
        self.rings.notify_all();
    }

    /// Waits until it was rung since the last wait, or closed, and tells whether it is closed. It is for one taker: who waits beside
    /// another may miss what that one heard.
    pub fn wait<R: Wait>(&self, rt: &R) -> bool {
        let mut heard = self.rings.wait_while(
            rt,
            self.heard.lock(rt),
            |heard| !heard.rung && !heard.closed,
        );
        heard.rung = false;
        heard.closed
    }
}
