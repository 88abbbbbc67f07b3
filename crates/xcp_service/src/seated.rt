//! A member of a slave that stays, as a station.
ghost use Rattle.std.specs.Prelude.{◌≡◌};
ghost use Rattle.xcp_locked.specs.Tasks.{Same};
ghost use Rattle.xcp_service.specs.Telling.{TellsTime};

use crate::member::Member;
use crate::post::Post;
use crate::pumps::wait_for_packets;
use crate::resident::Resident;
use crate::route::Route;
use crate::timekeeper::Timekeeper;
use crate::under_lock::{Hold, UnderLock};
use std::alloc::Global;
use std::boxed::Box;
use std::sync::atomic::AtomicBool;
use std::sync::{Mutex, Wait};
use std::time::Clock;
use xcp_framing::{Batch, ServeError, Station, StationError};
use xcp_locked::Name;
use xcp_packet::Packet;
use xcp_slave::{Asked, Told};

/// A slave that stays, under its lock, the post of its keeper, and who tells the slave the time, where its layout has a clock. Who takes the
/// lock of the latter has the slave's already. The slave lies in a box, since each function through whose hands it went would have room for
/// it on the stack for as long as the server runs.
#[derive(Drop)]
pub struct Shared<N: Name, M: Route> {
    pub lock: Box<Mutex<Resident<N, M>>>,
    pub post: Post<N, M>,
    pub timekeeper: Option<Mutex<Timekeeper<N, M>>>,
}

impl<N: Name, M: Route> Shared<N, M> {
    /// Tells the slave the time, under the lock that it is lent from, if there is somebody who does and the clock can be read.
    pub fn tell_time(
        &self,
        rt: &impl Wait,
        clock: &impl Clock,
        alloc: Global,
        resident: &mut Resident<N, M>,
    )
        ensures { TellsTime N.parts resident.old resident.new }
    {
        let Some(timekeeper) = &self.timekeeper else {
            return;
        };
        let mut timekeeper = timekeeper.lock(rt);
        if let Some(time) = timekeeper.time(clock) {
            timekeeper.tell_time(rt, alloc, resident, &self.post, time);
        }
    }
}

/// A member, as a station of a seat. Its exchanges are those of all receipts that it ever had. A submit waits until the keeper is not far
/// behind, and then for the lock. Before a GET_DAQ_CLOCK the slave is told the time, under the same hold. Packets wait for the seat whose
/// the session is, and for no other: it is the seat's whose CONNECT was accepted last, of those whose tool is still there.
#[derive(Drop)]
pub struct Seated<'a, N: Name, M: Route, R: Wait + Clock> {
    shared: &'a Shared<N, M>,
    alloc: Global,
    member: Member<N, M>,
    seat: u8,
    rt: &'a R,
}

impl<'a, N: Name, M: Route, R: Wait + Clock> Seated<'a, N, M, R> {
    /// A station for this member, at the seat of this number.
    pub fn new(
        rt: &'a R,
        alloc: Global,
        shared: &'a Shared<N, M>,
        member: Member<N, M>,
        seat: u8,
    ) -> Seated<'a, N, M, R>
        ensures member { result.member ≡ member }
        ensures seat { result.seat ≡ seat }
    {
        Seated {
            shared,
            alloc,
            member,
            seat,
            rt,
        }
    }

    /// The seat's tool has gone: the session isn't the seat's any more.
    pub fn leave_session(&self) {
        self.shared.lock.as_ref().lock(self.rt).depart(self.seat);
    }

    /// The member, with all its receipts.
    pub fn into_member(self) -> Member<N, M>
        ensures { result ≡ self.entry.member }
    {
        self.member
    }
}

impl<'a, N: Name, M: Route, R: Wait + Clock> Station for Seated<'a, N, M, R> {
    ghost use Rattle.xcp_locked.specs.Receipts.{exchanges_of};
    ghost use Rattle.std.proofs.Common.{refl, ◌∙◌};
    ghost use Rattle.xcp_locked.specs.CallRefusal.{MayRefuse};
    ghost use Rattle.xcp_locked.specs.Tasks.{Same};

    ghost exchanges = { λ t. exchanges_of t.member.receipts };

    ghost same = { λ old new. Same old.member new.member };

    ghost same_refl = { λ t. record { number = refl; events = refl; signals = refl } };

    ghost same_trans = { λ x y z p q. record { number = q.number ∙ p.number; events = q.events ∙ p.events; signals = q.signals ∙ p.signals } };

    ghost refuses = { λ t request e. MayRefuse e };

    fn submit_into(&mut self, asked: Asked<'_>, packet: &mut Packet) -> Result<Told, StationError> {
        self.shared.post.wait_for_keeper(self.rt);
        // What grows is made before the lock is taken. Where there is no memory, submit says so.
        self.member.reserve();
        let mut hold = Hold::take(self.rt, self.alloc, self.shared, self.seat);
        let mut held = UnderLock {
            hold: &mut hold,
            member: &mut self.member,
        };
        held.submit_into(asked, packet)
    }

    /// Drains what waits for this seat, under one hold of the lock. Before that it waits until the keeper is not far behind.
    fn drain_into(
        &mut self,
        batch: &mut Batch,
        alloc: Global,
        most: u8,
    ) -> Result<u64, ServeError> {
        self.shared.post.wait_for_keeper(self.rt);
        self.member.reserve();
        let mut hold = Hold::take(self.rt, self.alloc, self.shared, self.seat);
        let mut held = UnderLock {
            hold: &mut hold,
            member: &mut self.member,
        };
        held.drain_into(batch, alloc, most)
    }

    /// How many packets wait for this seat: none, where the session isn't its own. It may be another's at once.
    fn pending(&mut self) -> u16
        ensures kept { self.new ≡ self.old }
        ensures stays { Same self.old.member self.new.member }
    {
        self.shared
            .lock
            .as_ref()
            .lock(self.rt)
            .pending_for(self.seat)
    }

    /// Waits until packets wait for this seat, or `stop` is set.
    fn wait(&mut self, stop: &AtomicBool)
        ensures kept { self.new ≡ self.old }
        ensures stays { Same self.old.member self.new.member }
    {
        wait_for_packets(self.rt, self.shared.lock.as_ref(), self.seat, stop);
    }
}
