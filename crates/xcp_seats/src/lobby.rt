//! Where tools wait for a seat.
ghost use Rattle.std.specs.Prelude.{◌≡◌, ◌≤◌, ◌<◌, ◌+◌, ◌++◌, [], ◌∷◌, MatchBool, MatchOption, OnErr, OnOk, length};

use std::alloc::Global;
use std::net::{SocketAddr, TcpStream};
use std::sync::{Condvar, CondvarTimeouts, Mutex, Wait};
use std::time::{Clock, Duration};

/// How long a tool is kept that finds no seat and no place in the queue, in milliseconds: a seat is free a moment after its tool has
/// closed the connection, and a tool that connects again at once is to find it.
const MOMENT: u64 = 250;

/// A tool that has connected, and its address.
pub type Guest = (TcpStream, SocketAddr);

/// Who waits.
#[derive(Drop)]
struct Waiting {
    /// Those that came and have no seat yet, the first one first.
    guests: Vec<Guest>,
    /// How many seats have no tool.
    free: u32,
    /// Nobody gets a seat any more.
    is_closed: bool,
}

impl Waiting {
    /// Whether as many wait as there are free seats, and so many more.
    fn is_full(&self, queue: u8) -> bool
        ensures { MatchBool result
            (self.now.free + queue ≤ length self.now.guests.items)
            (length self.now.guests.items < self.now.free + queue) }
    {
        self.guests.len() as u64 >= u64::from(self.free) + u64::from(queue)
    }

    /// One more waits, behind the others. It is given back where there is no memory.
    fn take_in(&mut self, guest: Guest) -> Result<(), Guest>
        ensures waits { OnOk result (self.new.guests.items ≡ self.old.guests.items ++ guest ∷ []) }
        ensures back { OnErr result (self.new.guests.items ≡ self.old.guests.items) }
    {
        if self.guests.reserve(1).is_err() {
            return Err(guest);
        }
        self.guests.push_reserved(guest);
        Ok(())
    }

    /// The one that has waited longest gets a seat.
    fn seat_first(&mut self) -> Option<Guest>
        ensures { MatchOption result
            (self.new.guests.items ≡ self.old.guests.items)
            (λ guest. self.old.guests.items ≡ guest ∷ self.new.guests.items) }
    {
        if self.guests.is_empty() {
            return None;
        }
        self.free = self.free.saturating_sub(1);
        Some(self.guests.remove(0))
    }
}

/// Tools that have connected and have no seat yet: one for each free seat, and as many more as the queue may have.
#[derive(Drop)]
pub struct Lobby {
    waiting: Mutex<Waiting>,
    changed: Condvar,
    queue: u8,
}

impl Lobby {
    /// Nobody is here, and so many seats are free.
    pub fn new(alloc: Global, seats: u8, queue: u8) -> Lobby {
        Lobby {
            waiting: Mutex::new(Waiting {
                guests: Vec::new(alloc),
                free: u32::from(seats),
                is_closed: false,
            }),
            changed: Condvar::new(),
            queue,
        }
    }

    /// A tool comes in. It is given back where no seat is free for it a moment later and the queue is full, where there is no memory, and
    /// where nobody gets a seat any more.
    pub fn admit<R: Wait + Clock>(&self, rt: &R, guest: Guest) -> Result<(), Guest> {
        let queue = self.queue;
        let moment = Duration::from_millis(MOMENT);
        let (mut waiting, _) = self
            .changed
            .wait_timeout_while(rt, self.waiting.lock(rt), moment, |waiting| {
                waiting.is_full(queue) && !waiting.is_closed
            });
        if waiting.is_closed || waiting.is_full(queue) {
            return Err(guest);
        }
        let admitted = waiting.take_in(guest);
        self.changed.notify_all();
        admitted
    }

    /// Waits for the next tool, for a seat that is free: it isn't any more then. `None` where nobody gets a seat any more.
    pub fn next(&self, rt: &impl Wait) -> Option<Guest> {
        let mut waiting = self
            .changed
            .wait_while(rt, self.waiting.lock(rt), |waiting| {
                waiting.guests.is_empty() && !waiting.is_closed
            });
        if waiting.is_closed {
            return None;
        }
        waiting.seat_first()
    }

    /// A seat is free again.
    pub fn free(&self, rt: &impl Wait) {
        let mut waiting = self.waiting.lock(rt);
        waiting.free = waiting.free.saturating_add(1);
        self.changed.notify_all();
    }

    /// Nobody gets a seat from now on: the connections of those that wait are closed.
    pub fn close(&self, rt: &impl Wait) {
        let mut waiting = self.waiting.lock(rt);
        waiting.is_closed = true;
        waiting.guests.clear();
        self.changed.notify_all();
    }
}
