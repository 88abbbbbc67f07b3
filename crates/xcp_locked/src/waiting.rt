//! Who waits for packets.

use crate::{Locked, Name};
use std::sync::atomic::{AtomicBool, Ordering};
use std::sync::{Arc, Mutex, Wait};

/// What may lie under a lock: a slave, alone or with what belongs to it.
pub trait HasSlave<N: Name> {
    /// The slave.
    fn locked(&self) -> &Locked<N>;
}

impl<N: Name> HasSlave<N> for Locked<N> {
    fn locked(&self) -> &Locked<N> {
        self
    }
}

/// Waits until packets wait in the slave's outbox, or `stop` is set. Whoever submits what leaves more of
/// them waiting tells it, and so does `Locked::stop`. Others may empty the outbox at once.
pub fn wait_for_packets<N: Name, T: HasSlave<N>, R: Wait>(
    rt: &R,
    lock: &Mutex<T>,
    stop: &AtomicBool,
) {
    let held = lock.lock(rt);
    let Ok(waits) = Arc::try_clone(&held.locked().waits) else {
        return;
    };
    let _held = waits.wait_while(rt, held, |held| {
        held.locked().pending() == 0 && !stop.load(Ordering::SeqCst)
    });
}
