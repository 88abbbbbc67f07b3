//! A slave that stays.
ghost use Rattle.std.specs.Prelude.{◌≡◌, ◌≤◌, ◌↔◌, ◌++◌, [], ◌∷◌, Err, IfOk, IfSome, MatchBool, OnErr, length};
ghost use Rattle.xcp_bank.specs.BankEnds.{ReaderDoes};
ghost use Rattle.xcp_bank.specs.PinHistory.{looked_at};
ghost use Rattle.xcp_slave.specs.AnswerInBytes.{answer_in};
ghost use Rattle.xcp_slave.specs.AskedRequest.{IsShort, request_asked};
ghost use Rattle.xcp_slave.specs.Step.{Answers};
ghost use Rattle.xcp_locked.specs.Caller.{accepting};
ghost use Rattle.xcp_locked.specs.Journal.{entry, exchanges, journal_limit};
ghost use Rattle.xcp_locked.specs.LockedSlave.{IsReached, SameChapter};
ghost use Rattle.xcp_locked.specs.PublishingCalls.{AreAllImages, AreImagesFrom, Publishes};
ghost use Rattle.xcp_locked.specs.Receipts.{receipt};
ghost use Rattle.xcp_service.specs.Parcels.{chapters_put, parcel_of_sheaf};
ghost use Rattle.xcp_service.specs.Residents.{GoesOn, HasPublished, IsUncut, pending_for, with_a_cut};
ghost use Rattle.xcp_service.specs.Sessions.{has_session, noted, without};
ghost use Rattle.xcp_service.specs.Sheaves.{sheaf_of};
ghost use Rattle.xcp_service.specs.Storing.{MayFinish, asked_in, unasked, wants_end};

use crate::collector::Collector;
use crate::parcel::Parcel;
use crate::post::Post;
use crate::pumps::Pumps;
use crate::route::Route;
use crate::sessions::Sessions;
use crate::stores::Stores;
use relay::{Giver, Tray};
use std::alloc::Global;
use std::marker::{Model, PhantomData};
use std::sync::{Arc, Wait};
use xcp_locked::{Caller, HasSlave, Locked, LockedError, Name, Reader};
use xcp_packet::Packet;
use xcp_scribe::Scribe;
use xcp_slave::{Asked, Told};

/// A slave that stays, as it lies under its lock, with the chapters that were cut off it: those that were put into the post for its
/// keeper. They are one run from the opening of the layout to the open chapter, and all that is published are the images along that run.
#[derive(Drop)]
pub struct Resident<N: Name, M: Route> {
    locked: Locked<N>,
    /// By which its chapters go to the keeper. What lies here is handed in before the next one is cut off, and before anybody hands
    /// receipts over.
    tray: Tray<Parcel<N>>,
    sessions: Sessions,
    stores: Stores,
    /// Where pumps wait, which no contract sees.
    pumps: Arc<Pumps>,
    of: PhantomData<M>,
}

impl<N: Name, M: Route> Model for Resident<N, M> {
    ghost use Rattle.std.specs.Prelude.{◌≡◌};
    ghost use Rattle.xcp_service.specs.Parcels.{chapters_put};
    ghost use Rattle.xcp_service.specs.Residents.{GoesOn, HasPublished, ResidentValue};

    ghost Value = { ResidentValue };

    ghost view = { λ r. record { locked = r.locked; past = chapters_put r.tray.put; sessions = r.sessions; stores = r.stores } };

    ghost invariant = { λ r. (r.tray.relay ≡ M.relay) × (r.tray.tag ≡ N.parts) × GoesOn N.layout (record { locked = r.locked; past = chapters_put r.tray.put; sessions = r.sessions; stores = r.stores }) × HasPublished N.layout (record { locked = r.locked; past = chapters_put r.tray.put; sessions = r.sessions; stores = r.stores }) };
}

impl<N: Name, M: Route> HasSlave<N> for Resident<N, M> {
    /// The slave, for who may stop a pump: where a connection has been heard, its pump's stop is set under this hold (`Locked::stop`).
    /// So all pumps that wait look again when the lock is free.
    fn locked(&self) -> &Locked<N>
        ensures { result.now ≡ self.now.locked }
    {
        self.pumps.tell_all();
        &self.locked
    }
}

impl<N: Name, M: Route> Resident<N, M> {
    /// A slave of which no chapter was cut off yet, with the giver of its chapters, whose tag is the one behind those of all callers. It is
    /// said whether stored pages are kept on a shelf.
    pub(crate) fn new(
        locked: Locked<N>,
        chapters: Giver<Parcel<N>>,
        keeps_pages: bool,
        pumps: Arc<Pumps>,
    ) -> Resident<N, M>
        requires first { IsUncut N.layout locked }
        requires chapters { chapters ≡ record { relay = M.relay; tag = N.parts; given = [] } }
        ensures { result ≡ record { locked = locked; past = []; sessions = []; stores = unasked keeps_pages } }
    {
        locked.known();
        Resident {
            locked,
            tray: Tray::new(chapters),
            sessions: Sessions::new(),
            stores: Stores::new(keeps_pages),
            pumps,
            of: PhantomData,
        }
    }

    /// The slave, where nobody who waits is told anything.
    pub(crate) fn as_locked(&self) -> &Locked<N>
        ensures { result.now ≡ self.now.locked }
    {
        &self.locked
    }

    /// Where pumps wait.
    pub(crate) fn pumps(&self) -> &Arc<Pumps> {
        &self.pumps
    }

    /// Whether the session is this seat's.
    pub(crate) fn has_session(&self, seat: u8) -> bool
        ensures { result ≡ has_session seat self.now.sessions }
    {
        self.sessions.has(seat)
    }

    /// How many packets wait for this seat: all that wait, if the session is its own, and else none.
    pub fn pending_for(&self, seat: u8) -> u16
        ensures { result ≡ pending_for seat self.now }
    {
        if self.sessions.has(seat) {
            self.locked.pending()
        } else {
            0
        }
    }

    /// Notes what came of a call of this seat: whose the session is then.
    pub(crate) fn note(&mut self, seat: u8, asked: Asked<'_>, told: &Told, packet: &Packet)
        ensures { self.new ≡ record self.old { sessions = noted seat (request_asked asked.entry) (answer_in told.now packet.now) self.old.sessions } }
    {
        if self.sessions.note(seat, asked, told, packet) {
            self.pumps.tell_all();
        }
    }

    /// A seat's tool has gone: the session isn't its own any more.
    pub fn depart(&mut self, seat: u8)
        ensures { self.new ≡ record self.old { sessions = without seat self.old.sessions } }
    {
        self.sessions.depart(seat);
        self.pumps.tell_all();
    }

    /// Whether the open chapter has to end, so that the shelf gets its pages.
    pub(crate) fn wants_end(&self) -> bool
        ensures { result ≡ wants_end self.now.locked.chapter self.now.stores }
    {
        self.stores.wants_end(self.locked.chapter())
    }

    /// Whether a store may be finished, where the first so many chapters lie on the shelf.
    pub(crate) fn may_finish(&self, shelved: u64) -> bool
        ensures { MatchBool result (MayFinish shelved self.now.stores) (¬ (MayFinish shelved self.now.stores)) }
    {
        self.stores.may_finish(shelved)
    }

    /// Hands in the chapter that could not be handed in when it was cut off, if there is one, and tells whether there is none now.
    pub fn clear(&mut self, rt: &impl Wait, post: &Post<N, M>) -> bool
        ensures { self.new ≡ self.old }
    {
        post.clear(rt, &mut self.tray)
    }

    /// Cuts the open chapter off, and puts it into the post for the keeper. `false` where there is no memory for it, or the chapter is
    /// the last that there can be: nothing was cut off then.
    pub fn cut_chapter(&mut self, rt: &impl Wait, alloc: Global, post: &Post<N, M>) -> bool
        ensures { MatchBool result (self.new ≡ with_a_cut self.old) (self.new ≡ self.old) }
    {
        if !post.clear(rt, &mut self.tray) {
            return false;
        }
        self.locked.known();
        let Ok(chapter) = self.locked.cut_chapter(alloc) else {
            return false;
        };
        post.put_chapter(rt, &mut self.tray, chapter);
        true
    }

    /// Puts the receipts that a caller has at hand into the post, behind the chapters that were cut off. `false` where there is no
    /// memory for it: nothing was handed over then.
    pub(crate) fn hand_over(
        &mut self,
        rt: &impl Wait,
        alloc: Global,
        post: &Post<N, M>,
        caller: &mut Caller<N>,
        tray: &mut Tray<Parcel<N>>,
    ) -> bool
        requires relay { tray.old.relay ≡ M.relay }
        ensures handed { MatchBool result
            ((caller.new ≡ record caller.old { receipts = [] })
            × (tray.new.put ≡ tray.old.put ++ parcel_of_sheaf (sheaf_of self.old.locked caller.old) ∷ []))
            ((caller.new ≡ caller.old) × (tray.new.put ≡ tray.old.put)) }
        ensures same { (tray.new.relay ≡ tray.old.relay) × (tray.new.tag ≡ tray.old.tag) }
        ensures slave { self.new ≡ self.old }
    {
        if !self.clear(rt, post) || !post.clear(rt, tray) {
            return false;
        }
        let sheaf = self.locked.take_receipts(alloc, caller);
        post.put_sheaf(rt, tray, sheaf);
        true
    }

    /// Submits a request whose bytes are lent, as `Locked::submit_into` does.
    pub(crate) fn submit(
        &mut self,
        caller: &mut Caller<N>,
        asked: Asked<'_>,
        packet: &mut Packet,
    ) -> Result<Told, LockedError>
        requires { IsShort asked }
        ensures answers { IfOk result (λ told. Answers self.old.locked.slave (request_asked asked.entry)
            (answer_in told packet.new) self.new.locked.slave) }
        ensures journal { IfOk result (λ told. self.new.locked.journal ≡ self.old.locked.journal
            ++ entry caller.old.number (request_asked asked.entry) (answer_in told packet.new) ∷ []) }
        ensures caller { IfOk result (λ told. caller.new ≡ accepting caller.old
            (receipt self.old.locked.chapter (length self.old.locked.journal) (request_asked asked.entry) (answer_in told packet.new))) }
        ensures full { result ≡ Err LockedError.JournalFull ↔ (journal_limit ≤ length self.old.locked.journal) }
        ensures err { OnErr result ((self.new ≡ self.old) × (caller.new ≡ caller.old)) }
        ensures published { IfOk result (λ told. Publishes self.old.locked self.new.locked) }
        ensures chapter { SameChapter self.old.locked self.new.locked }
        ensures past { self.new.past ≡ self.old.past }
        ensures sessions { self.new.sessions ≡ self.old.sessions }
        ensures stores { IfOk result (λ told. self.new.stores
            ≡ asked_in self.old.locked.chapter (request_asked asked.entry) (answer_in told packet.new) self.old.stores) }
    {
        self.locked.known();
        let before = self.locked.pending();
        let chapter = self.locked.chapter();
        let submitted = self.locked.submit_into(caller, asked, packet);
        self.pumps.tell_packets(before, self.locked.pending());
        if let Ok(told) = &submitted {
            self.stores.note(chapter, asked, told, packet);
        }
        submitted
    }

    /// Tells a reader all that was published, as `Locked::tell` does.
    pub fn tell(&mut self, reader: &mut Reader<N>)
        ensures seen { reader.new.seen ≡ self.old.locked.writer.publications }
        ensures published { AreImagesFrom self.old.locked.first self.old.locked.base
            (exchanges self.old.locked.journal) reader.new.seen }
        ensures past { reader.new.past ≡ reader.old.seen ∷ reader.old.past }
        ensures history { reader.new.history ≡ reader.old.history }
        ensures held { reader.new.held ≡ reader.old.held }
        ensures does { ReaderDoes reader.old reader.new (looked_at reader.old.index self.old.locked.writer.current
            ∷ looked_at reader.old.index self.old.locked.writer.current ∷ []) }
        ensures same { self.new ≡ self.old }
        ensures same_reader { (reader.new.bank ≡ reader.old.bank) × (reader.new.index ≡ reader.old.index) }
    {
        self.locked.tell(reader);
    }

    /// Does nothing: its contract says what the type keeps. The chapters that were cut off are one run from the opening to the open one,
    /// and what is published are the images along this run and the open chapter's.
    pub fn known(&self)
        ensures goes_on { GoesOn N.layout self.now }
        ensures published { HasPublished N.layout self.now }
        ensures reached { IsReached N.layout self.now.locked.before self.now.locked.base }
        ensures images { AreImagesFrom self.now.locked.first self.now.locked.base
            (exchanges self.now.locked.journal) self.now.locked.writer.publications }
        ensures all_images { AreAllImages N.layout self.now.locked.before self.now.locked.base
            (exchanges self.now.locked.journal) self.now.locked.writer.publications }
    {
        self.locked.known();
    }

    /// The slave, which is called no more, once the keeper took all chapters that were ever cut off it. `None` where one of them is still
    /// on its way.
    pub fn resign<S: Scribe>(
        self,
        post: &Post<N, M>,
        collector: &mut Collector<N, M, S>,
    ) -> Option<Locked<N>>
        ensures slave { IfSome result (λ l. l ≡ self.locked) }
        ensures cut { IfSome result (λ _. collector.new.chapters ≡ self.past) }
        ensures same { collector.new ≡ collector.old }
    {
        let Resident { locked, tray, .. } = self;
        let Ok(mut chapters) = tray.into_giver() else {
            return None;
        };
        if !collector.meets_desk(post, &mut chapters) {
            return None;
        }
        Some(locked)
    }
}
