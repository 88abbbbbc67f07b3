//! How far a keeper is behind.

use std::sync::{Condvar, Mutex, Wait};

/// How many chapters may lie at a post before a tool waits for the keeper.
const MOST: u32 = 2;

/// What lies there.
#[derive(Drop)]
struct Lying {
    chapters: u32,
    /// Nobody takes it any more.
    is_closed: bool,
}

/// That a chapter was counted, which nobody can say but `Lag::rise`. It goes with the chapter, and is given back when the keeper takes
/// it: so none is taken before it was counted, nor counted off twice, and the count never stays above what lies there.
#[derive(Drop)]
pub(crate) struct Counted {
    _by_lag: (),
}

/// How many chapters were cut off that the keeper has not taken, for who can wait until it has caught up.
#[derive(Drop)]
pub(crate) struct Lag {
    lying: Mutex<Lying>,
    fell: Condvar,
}

impl Lag {
    /// None.
    pub(crate) fn new() -> Lag {
        Lag {
            lying: Mutex::new(Lying {
                chapters: 0,
                is_closed: false,
            }),
            fell: Condvar::new(),
        }
    }

    /// One more is to be handed in.
    pub(crate) fn rise(&self, rt: &impl Wait) -> Counted {
        let mut lying = self.lying.lock(rt);
        lying.chapters = lying.chapters.saturating_add(1);
        Counted { _by_lag: () }
    }

    /// The one that was counted so was taken.
    pub(crate) fn fall(&self, rt: &impl Wait, _counted: Counted) {
        let mut lying = self.lying.lock(rt);
        lying.chapters = lying.chapters.saturating_sub(1);
        self.fell.notify_all();
    }

    /// Whether one lies there, or is to be handed in.
    pub(crate) fn is_behind(&self, rt: &impl Wait) -> bool {
        self.lying.lock(rt).chapters > 0
    }

    /// Nobody waits from now on.
    pub(crate) fn close(&self, rt: &impl Wait) {
        self.lying.lock(rt).is_closed = true;
        self.fell.notify_all();
    }

    /// Waits until there are few.
    pub(crate) fn wait(&self, rt: &impl Wait) {
        let _lying = self.fell.wait_while(rt, self.lying.lock(rt), |lying| {
            lying.chapters >= MOST && !lying.is_closed
        });
    }
}
