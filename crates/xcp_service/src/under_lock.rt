//! A member of a slave whose lock is held, as a station.
ghost use Rattle.std.specs.Prelude.{◌≡◌, [], ◌∷◌, ◌++◌, IfErr, IfOk, OnErr};
ghost use Rattle.xcp_slave.specs.AnswerInBytes.{answer_in};
ghost use Rattle.xcp_slave.specs.AskedRequest.{IsShort, request_asked};
ghost use Rattle.xcp_locked.specs.CallRefusal.{MayRefuse};
ghost use Rattle.xcp_locked.specs.Receipts.{exchanges_of};
ghost use Rattle.xcp_locked.specs.Tasks.{Same};

use crate::calling::call_for;
use crate::member::Member;
use crate::resident::Resident;
use crate::route::Route;
use crate::seated::Shared;
use crate::sessions::has_code;
use std::alloc::Global;
use std::marker::Model;
use std::sync::{MutexGuard, Wait};
use std::time::Clock;
use xcp_framing::{Station, StationError};
use xcp_locked::{LockedError, Name};
use xcp_packet::Packet;
use xcp_slave::{Asked, Told};

/// The code of GET_DAQ_CLOCK.
const GET_DAQ_CLOCK: u8 = 0xDC;

/// The lock of a slave that stays, held by who calls the slave for the seat of this number.
#[derive(Drop)]
pub(crate) struct Hold<'a, N: Name, M: Route, R: Wait + Clock> {
    rt: &'a R,
    alloc: Global,
    shared: &'a Shared<N, M>,
    resident: MutexGuard<'a, Resident<N, M>>,
    seat: u8,
}

// Clauses see nothing of it: a call that is refused may have cut a chapter off, and told the time.
impl<'a, N: Name, M: Route, R: Wait + Clock> Model for Hold<'a, N, M, R> {
    ghost use Rattle.std.specs.Prelude.{⊤};

    ghost Value = { ⊤ };

    ghost view = { λ h. tt };
}

impl<'a, N: Name, M: Route, R: Wait + Clock> Hold<'a, N, M, R> {
    /// Waits for the lock.
    pub(crate) fn take(
        rt: &'a R,
        alloc: Global,
        shared: &'a Shared<N, M>,
        seat: u8,
    ) -> Hold<'a, N, M, R> {
        Hold {
            rt,
            alloc,
            shared,
            resident: shared.lock.as_ref().lock(rt),
            seat,
        }
    }

    /// Submits a member's request. Before a GET_DAQ_CLOCK the slave is told the time.
    fn submit_into(
        &mut self,
        member: &mut Member<N, M>,
        asked: Asked<'_>,
        packet: &mut Packet,
    ) -> Result<Told, StationError>
        requires { IsShort asked }
        ensures ok { IfOk result (λ told. exchanges_of member.new.receipts ≡ exchanges_of member.old.receipts
            ++ record { request = request_asked asked.entry; answer = answer_in told packet.new } ∷ []) }
        ensures err { OnErr result (member.new ≡ member.old) }
        ensures refused { IfErr result MayRefuse }
        ensures stays { Same member.old member.new }
    {
        if has_code(GET_DAQ_CLOCK, asked) {
            self.shared
                .tell_time(self.rt, self.rt, self.alloc, &mut self.resident);
        }
        let called = call_for(
            self.rt,
            self.alloc,
            &mut self.resident,
            &self.shared.post,
            member,
            self.seat,
            asked,
            packet,
        );
        match called {
            Ok(told) => Ok(told),
            Err(LockedError::Memory) => Err(StationError::Memory),
            Err(_) => Err(StationError::JournalFull),
        }
    }

    /// How many packets wait for the seat: none, where the session isn't its own.
    fn pending(&self) -> u16 {
        self.resident.pending_for(self.seat)
    }
}

/// A member and the slave that it calls, whose lock is held. Nobody else calls the slave meanwhile.
#[derive(Drop)]
pub(crate) struct UnderLock<'a, 'h, N: Name, M: Route, R: Wait + Clock> {
    pub(crate) hold: &'a mut Hold<'h, N, M, R>,
    pub(crate) member: &'a mut Member<N, M>,
}

impl<'a, 'h, N: Name, M: Route, R: Wait + Clock> Station for UnderLock<'a, 'h, N, M, R> {
    ghost use Rattle.xcp_locked.specs.Receipts.{exchanges_of};
    ghost use Rattle.std.proofs.Common.{refl, ◌∙◌};
    ghost use Rattle.xcp_locked.specs.CallRefusal.{MayRefuse};
    ghost use Rattle.xcp_locked.specs.Tasks.{Same};

    ghost exchanges = { λ h. exchanges_of h.member.now.receipts };

    ghost same = { λ old new. Same old.member.now new.member.now × (new.member.ghost_name ≡ old.member.ghost_name) };

    ghost same_refl = { λ h. (record { number = refl; events = refl; signals = refl }, refl) };

    ghost same_trans = { λ x y z p q. (record { number = q.0.number ∙ p.0.number; events = q.0.events ∙ p.0.events; signals = q.0.signals ∙ p.0.signals }, q.1 ∙ p.1) };

    ghost refuses = { λ h request e. MayRefuse e };

    fn submit_into(&mut self, asked: Asked<'_>, packet: &mut Packet) -> Result<Told, StationError> {
        self.hold.submit_into(self.member, asked, packet)
    }

    fn pending(&mut self) -> u16 {
        self.hold.pending()
    }
}
