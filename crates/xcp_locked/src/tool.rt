//! A station that submits under a lock.
ghost use Rattle.std.specs.Prelude.{◌≡◌};
ghost use Rattle.xcp_locked.specs.Tasks.{Same};

use crate::under_lock::UnderLock;
use crate::{Caller, Locked, Name, wait_for_packets};
use std::alloc::Global;
use std::sync::atomic::AtomicBool;
use std::sync::{Mutex, Wait};
use xcp_framing::{Batch, ServeError, Station, StationError};
use xcp_packet::Packet;
use xcp_slave::{Asked, Told};

/// A caller of a slave that others share, as a station. Its exchanges are its caller's receipts.
/// A submit waits for the lock.
#[derive(Drop)]
pub struct Tool<'a, N: Name, R: Wait> {
    lock: &'a Mutex<Locked<N>>,
    caller: Caller<N>,
    rt: &'a R,
}

impl<'a, N: Name, R: Wait> Tool<'a, N, R> {
    /// A station for this caller.
    pub fn new(rt: &'a R, lock: &'a Mutex<Locked<N>>, caller: Caller<N>) -> Tool<'a, N, R>
        ensures { result.caller ≡ caller }
    {
        Tool { lock, caller, rt }
    }

    /// The caller, with all its receipts.
    pub fn into_caller(self) -> Caller<N>
        ensures { result ≡ self.entry.caller }
    {
        self.caller
    }
}

impl<'a, N: Name, R: Wait> Station for Tool<'a, N, R> {
    ghost use Rattle.xcp_locked.specs.Receipts.{exchanges_of};
    ghost use Rattle.std.proofs.Common.{refl, ◌∙◌};
    ghost use Rattle.xcp_locked.specs.CallRefusal.{MayRefuse};
    ghost use Rattle.xcp_locked.specs.Tasks.{Same};

    ghost exchanges = { λ t. exchanges_of t.caller.receipts };

    ghost same = { λ old new. Same old.caller new.caller };

    ghost same_refl = { λ t. record { number = refl; events = refl; signals = refl } };

    ghost same_trans = { λ x y z p q. record { number = q.number ∙ p.number; events = q.events ∙ p.events; signals = q.signals ∙ p.signals } };

    ghost refuses = { λ t request e. MayRefuse e };

    fn submit_into(&mut self, asked: Asked<'_>, packet: &mut Packet) -> Result<Told, StationError> {
        // What grows is made before the lock is taken. Where there is no memory, submit says so.
        let _ = self.caller.reserve();
        let mut locked = self.lock.lock(self.rt);
        let mut held = UnderLock {
            locked: &mut locked,
            caller: &mut self.caller,
        };
        held.submit_into(asked, packet)
    }

    /// Drains under one hold of the lock.
    fn drain_into(
        &mut self,
        batch: &mut Batch,
        alloc: Global,
        most: u8,
    ) -> Result<u64, ServeError> {
        let _ = self.caller.reserve();
        let mut locked = self.lock.lock(self.rt);
        let mut held = UnderLock {
            locked: &mut locked,
            caller: &mut self.caller,
        };
        held.drain_into(batch, alloc, most)
    }

    /// How many packets wait in the shared slave's outbox. Others may empty it at once.
    fn pending(&mut self) -> u16
        ensures kept { self.new ≡ self.old }
        ensures stays { Same self.old.caller self.new.caller }
    {
        self.lock.lock(self.rt).pending()
    }

    /// Waits until packets wait in the shared slave's outbox, or `stop` is set. Whoever submits what leaves more of them
    /// waiting tells it, and so does who sets the stop under the lock.
    fn wait(&mut self, stop: &AtomicBool)
        ensures kept { self.new ≡ self.old }
        ensures stays { Same self.old.caller self.new.caller }
    {
        wait_for_packets::<N, Locked<N>, R>(self.rt, self.lock, stop);
    }
}
