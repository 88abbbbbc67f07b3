//! A caller of a slave that stays.
ghost use Rattle.std.specs.Prelude.{◌≡◌, ◌≤◌, ◌↔◌, ◌++◌, [], ◌∷◌, Err, IfOk, IfSome, OnErr, length};
ghost use Rattle.xcp_slave.specs.AnswerInBytes.{answer_in};
ghost use Rattle.xcp_slave.specs.AskedRequest.{IsShort, request_asked};
ghost use Rattle.xcp_slave.specs.Step.{Answers};
ghost use Rattle.xcp_locked.specs.Caller.{accepting};
ghost use Rattle.xcp_locked.specs.Journal.{entry, journal_limit};
ghost use Rattle.xcp_locked.specs.LockedSlave.{SameChapter};
ghost use Rattle.xcp_locked.specs.PublishingCalls.{Publishes};
ghost use Rattle.xcp_locked.specs.Receipts.{receipt};
ghost use Rattle.xcp_service.specs.Parcels.{HasAllReceipts, IsHandedOver};
ghost use Rattle.xcp_service.specs.Storing.{asked_in};

use crate::collector::Collector;
use crate::former::Former;
use crate::parcel::Parcel;
use crate::post::Post;
use crate::resident::Resident;
use crate::route::Route;
use relay::{Giver, Tray};
use std::alloc::Global;
use std::marker::{Model, PhantomData};
use std::sync::Wait;
use xcp_locked::{Caller, LockedError, Name};
use xcp_packet::Packet;
use xcp_scribe::Scribe;
use xcp_slave::{Asked, Told};

/// A caller that hands its receipts over, chapter by chapter. Contracts see it as a caller that has all receipts it ever had:
/// those that it handed over, and those at hand.
#[derive(Drop)]
pub struct Member<N: Name, M: Route> {
    caller: Caller<N>,
    /// By which it hands its receipts over.
    tray: Tray<Parcel<N>>,
    /// The chapter in which its last call was accepted.
    chapter: u64,
    of: PhantomData<M>,
}

impl<N: Name, M: Route> Model for Member<N, M> {
    ghost use Rattle.std.specs.Prelude.{◌≡◌, ◌++◌, length};
    ghost use Rattle.xcp_locked.specs.Caller.{CallerValue};
    ghost use Rattle.xcp_service.specs.Parcels.{receipts_put};

    ghost Value = { CallerValue };

    ghost view = { λ m. record { number = m.caller.number; events = m.caller.events; signals = m.caller.signals; receipts = receipts_put m.tray.put ++ m.caller.receipts; accepted = m.caller.accepted } };

    ghost invariant = { λ m. (m.tray.relay ≡ M.relay) × (m.tray.tag ≡ m.caller.number) × (m.caller.accepted ≡ length (receipts_put m.tray.put ++ m.caller.receipts)) };
}

impl<N: Name, M: Route> Member<N, M> {
    /// A caller that has handed over nothing yet and has a receipt for each of its calls, with a giver whose tag is its number.
    pub(crate) fn new(caller: Caller<N>, giver: Giver<Parcel<N>>) -> Member<N, M>
        requires giver { giver ≡ record { relay = M.relay; tag = caller.number; given = [] } }
        requires counted { HasAllReceipts caller }
        ensures { result ≡ caller }
    {
        Member {
            caller,
            tray: Tray::new(giver),
            chapter: 0,
            of: PhantomData,
        }
    }

    /// The caller itself, with what it has at hand.
    pub fn own_caller(&self) -> &Caller<N>
        ensures number { result.now.number ≡ self.now.number }
        ensures events { result.now.events ≡ self.now.events }
        ensures signals { result.now.signals ≡ self.now.signals }
    {
        &self.caller
    }

    /// Makes room for the receipt of the next call, as `Caller::reserve` does.
    pub fn reserve(&mut self)
        ensures { self.new ≡ self.old }
    {
        let _ = self.caller.reserve();
    }

    /// Hands over what is at hand, where it is of chapters that were cut off. Where there is no memory, it does so later.
    pub(crate) fn hand_over(
        &mut self,
        rt: &impl Wait,
        alloc: Global,
        resident: &mut Resident<N, M>,
        post: &Post<N, M>,
    )
        ensures { (self.new ≡ self.old) × (resident.new ≡ resident.old) }
    {
        if self.chapter != resident.as_locked().chapter() {
            self.hand_rest_over(rt, alloc, resident, post);
        }
    }

    /// Hands over what is at hand, of whatever chapter. Where there is no memory, it stays at hand.
    pub fn hand_rest_over(
        &mut self,
        rt: &impl Wait,
        alloc: Global,
        resident: &mut Resident<N, M>,
        post: &Post<N, M>,
    )
        ensures { (self.new ≡ self.old) × (resident.new ≡ resident.old) }
    {
        if self.caller.receipts.len() > 0 {
            resident.hand_over(rt, alloc, post, &mut self.caller, &mut self.tray);
        }
    }

    /// Whether the keeper took all receipts that it ever had: the caller then calls no more. `None` where some are still at hand, or
    /// on their way.
    pub fn resign<S: Scribe>(
        self,
        post: &Post<N, M>,
        collector: &mut Collector<N, M, S>,
    ) -> Option<Former<N>>
        ensures former { IfSome result (λ f. f ≡ self) }
        ensures handed { IfSome result (λ f. IsHandedOver collector.new f) }
        ensures counted { IfSome result (λ f. HasAllReceipts f) }
        ensures same { collector.new ≡ collector.old }
    {
        let Member { caller, tray, .. } = self;
        let Ok(mut giver) = tray.into_giver() else {
            return None;
        };
        if caller.receipts.len() > 0 || !collector.meets(post, &mut giver) {
            return None;
        }
        Some(Former { caller, giver })
    }

    /// Submits a request whose bytes are lent, as `Locked::submit_into` does.
    pub(crate) fn submit(
        &mut self,
        resident: &mut Resident<N, M>,
        asked: Asked<'_>,
        packet: &mut Packet,
    ) -> Result<Told, LockedError>
        requires { IsShort asked }
        ensures answers { IfOk result (λ told. Answers resident.old.locked.slave (request_asked asked.entry)
            (answer_in told packet.new) resident.new.locked.slave) }
        ensures journal { IfOk result (λ told. resident.new.locked.journal ≡ resident.old.locked.journal
            ++ entry self.old.number (request_asked asked.entry) (answer_in told packet.new) ∷ []) }
        ensures caller { IfOk result (λ told. self.new ≡ accepting self.old
            (receipt resident.old.locked.chapter (length resident.old.locked.journal) (request_asked asked.entry) (answer_in told packet.new))) }
        ensures full { result ≡ Err LockedError.JournalFull ↔ (journal_limit ≤ length resident.old.locked.journal) }
        ensures err { OnErr result ((resident.new ≡ resident.old) × (self.new ≡ self.old)) }
        ensures published { IfOk result (λ told. Publishes resident.old.locked resident.new.locked) }
        ensures past { resident.new.past ≡ resident.old.past }
        ensures sessions { resident.new.sessions ≡ resident.old.sessions }
        ensures stores { IfOk result (λ told. resident.new.stores
            ≡ asked_in resident.old.locked.chapter (request_asked asked.entry) (answer_in told packet.new) resident.old.stores) }
        ensures chapter { SameChapter resident.old.locked resident.new.locked }
    {
        let told = resident.submit(&mut self.caller, asked, packet)?;
        self.chapter = resident.as_locked().chapter();
        Ok(told)
    }
}
