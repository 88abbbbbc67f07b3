//! Who waits for the session, and for its packets.

use crate::resident::Resident;
use crate::route::Route;
use std::sync::atomic::{AtomicBool, Ordering};
use std::sync::{Arc, Condvar, Mutex, Wait};
use xcp_locked::Name;

/// Where the pumps of seats wait: those of seats whose the session isn't, until it is, and the one of the seat whose it is, until packets
/// wait.
#[derive(Drop)]
pub(crate) struct Pumps {
    session: Condvar,
    packets: Condvar,
}

impl Pumps {
    pub(crate) fn new() -> Pumps {
        Pumps {
            session: Condvar::new(),
            packets: Condvar::new(),
        }
    }

    /// All look again.
    pub(crate) fn tell_all(&self) {
        self.session.notify_all();
        self.packets.notify_all();
    }

    /// Who waits for packets looks again, where more of them wait than before.
    pub(crate) fn tell_packets(&self, before: u16, after: u16) {
        if before < after {
            self.packets.notify_all();
        }
    }
}

/// Waits until packets wait for this seat, or `stop` is set. It comes back also where the session is another's meanwhile. Whoever changes
/// whose the session is tells it, and so does who leaves more packets waiting, and who sets the stop of a connection.
pub(crate) fn wait_for_packets<N: Name, M: Route, R: Wait>(
    rt: &R,
    lock: &Mutex<Resident<N, M>>,
    seat: u8,
    stop: &AtomicBool,
) {
    let held = lock.lock(rt);
    let Ok(pumps) = Arc::try_clone(held.pumps()) else {
        return;
    };
    let held = pumps.session.wait_while(rt, held, |resident| {
        !resident.has_session(seat) && !stop.load(Ordering::SeqCst)
    });
    let _held = pumps.packets.wait_while(rt, held, |resident| {
        resident.has_session(seat)
            && resident.pending_for(seat) == 0
            && !stop.load(Ordering::SeqCst)
    });
}
