//! What lies under the lock: a slave and its journal.
ghost use Rattle.std.specs.Prelude.{◌≡◌, ◌≢◌, ◌↔◌, ◌⊎◌, ◌+◌, ◌*◌, ◌<◌, ◌≤◌, IfErr, [], ◌∷◌, ◌++◌, length, OnErr, OnOk, IfOk, Err, vec_capacity, vec_len};
ghost use Rattle.xcp_bank.specs.BankEnds.{newest};
ghost use Rattle.xcp_bank.specs.BankId.{image_bytes};
ghost use Rattle.xcp_memory.specs.EcuImage.{ecu_image, image_size};
ghost use Rattle.xcp_slave.specs.Run.{Run};
ghost use Rattle.xcp_slave.specs.Step.{Answers};
ghost use Rattle.xcp_slave.specs.AnswerInBytes.{answer_in};
ghost use Rattle.xcp_slave.specs.AskedRequest.{IsShort, request_asked};
ghost use Rattle.xcp_slave.specs.SlaveValue.{layout_of, opening};
ghost use Rattle.xcp_locked.specs.Caller.{accepting};
ghost use Rattle.xcp_locked.specs.Journal.{entry, exchanges, journal_limit};
ghost use Rattle.xcp_locked.specs.LockedSlave.{IsReached, SameChapter};
ghost use Rattle.xcp_locked.specs.Publications.{image_of};
ghost use Rattle.xcp_locked.specs.PublishingCalls.{AreAllImages, AreImagesFrom, Publishes};
ghost use Rattle.xcp_locked.specs.private.OfferedImages.{Offers};
ghost use Rattle.xcp_locked.specs.Receipts.{receipt};
ghost use Rattle.xcp_trace.specs.EntrySpelling.{room_for_any_entry};
ghost use Rattle.xcp_trace.specs.ExchangeSpelling.{room_for_any};

use crate::publisher::Publisher;
use crate::receipts::Place;
use crate::{Caller, LockedError, Name, Receipt, Receipts};
use std::alloc::AllocError;
use std::marker::Model;
use std::sync::atomic::{AtomicBool, Ordering};
use std::sync::ledger::Book;
use std::sync::{Arc, Condvar};
use xcp_packet::Packet;
use xcp_slave::{Asked, Request, Slave, Told};
use xcp_trace::{Entries, Journal};

/// The most entries of a journal.
pub const JOURNAL: usize = 65_536;

/// A slave with its journal, which has chapters: the open one, and those before it that were cut off.
/// The open chapter is a run of the slave, from its base to the slave as it is; the calls before it are
/// a run from the opening of the layout to the base; and the book of accepted calls has as many units
/// as all chapters have entries. The bank's publications are the controller's images along all calls
/// since the opening: the opening's, and each that differs from the one before it; and those since the
/// chapter's first image are those along the chapter's run.
///
/// Who waits for packets waits at `waits`, which no contract sees: a submit that leaves more packets waiting
/// than there were tells them.
#[derive(Drop)]
pub struct Locked<N: Name> {
    pub(crate) slave: Slave,
    pub(crate) chapter: u64,
    pub(crate) base: Arc<Slave>,
    pub(crate) before: u64,
    pub(crate) journal: Journal,
    pub(crate) book: Book<N>,
    pub(crate) publisher: Publisher,
    pub(crate) waits: Arc<Condvar>,
}

impl<N: Name> Model for Locked<N> {
    ghost use Rattle.std.specs.Prelude.{◌≡◌, ◌≤◌, ◌+◌, ◌*◌, length};
    ghost use Rattle.std.specs.Arc.{arc_value};
    ghost use Rattle.xcp_memory.specs.EcuImage.{image_size};
    ghost use Rattle.xcp_slave.specs.Run.{Run};
    ghost use Rattle.xcp_slave.specs.SlaveValue.{layout_of};
    ghost use Rattle.xcp_locked.specs.LockedSlave.{IsReached, LockedValue};
    ghost use Rattle.xcp_locked.specs.Journal.{exchanges, journal_limit, last_chapter};
    ghost use Rattle.xcp_locked.specs.PublishingCalls.{AreAllImages};
    ghost use Rattle.xcp_locked.specs.private.OfferedImages.{IsOfferKept};

    ghost Value = { LockedValue };

    ghost view = { λ l. record { slave = l.slave; chapter = l.chapter; base = arc_value l.base; journal = l.journal.entries; before = l.before; writer = l.publisher.writer; first = l.publisher.first } };

    ghost invariant = { λ l. Run (arc_value l.base) (exchanges l.journal.entries) l.slave × (l.book.total ≡ l.before + length l.journal.entries) × (length l.journal.entries ≤ journal_limit) × (layout_of l.slave ≡ N.layout) × IsOfferKept (image_size N.layout) N.bank (arc_value l.base) (exchanges l.journal.entries) l.slave l.publisher × IsReached N.layout l.before (arc_value l.base) × (l.before ≤ l.chapter * journal_limit) × (l.chapter ≤ last_chapter) × (l.publisher.first ≤ l.before) × AreAllImages N.layout l.before (arc_value l.base) (exchanges l.journal.entries) l.publisher.writer.publications };
}

impl<N: Name> Locked<N> {
    /// Executes a request, and stores it with its answer and its caller. The receipt that it gives
    /// also stands last in the caller's. Where the controller's image is another one then, it is
    /// published. `JournalFull` is looked at first; after an error nothing was executed, and nothing
    /// changed.
    pub fn submit(
        &mut self,
        caller: &mut Caller<N>,
        request: Request,
    ) -> Result<Receipt, LockedError>
        ensures answers { IfOk result (λ r.
            Answers self.old.slave request r.answer self.new.slave) }
        ensures journal { IfOk result (λ r. self.new.journal
            ≡ self.old.journal ++ entry caller.old.number request r.answer ∷ []) }
        ensures receipt { IfOk result (λ r.
            r ≡ receipt self.old.chapter (length self.old.journal) request r.answer) }
        ensures caller { IfOk result (λ r. caller.new ≡ accepting caller.old r) }
        ensures published { IfOk result (λ r. Publishes self.old self.new) }
        ensures full { result ≡ Err LockedError.JournalFull
            ↔ (journal_limit ≤ length self.old.journal) }
        ensures err { OnErr result ((self.new ≡ self.old) × (caller.new ≡ caller.old)) }
        ensures layout { layout_of self.new.slave ≡ layout_of self.old.slave }
        ensures chapter { SameChapter self.old self.new }
        ensures refused { IfErr result (λ e. (e ≡ LockedError.Memory) ⊎ (e ≡ LockedError.JournalFull)) }
    {
        let at = self.len();
        let chapter = self.chapter;
        let mut packet = Packet::new();
        let told = self.submit_into(caller, request.lent(), &mut packet)?;
        Ok(Receipt {
            chapter,
            at,
            request,
            answer: told.with(packet),
        })
    }

    /// Executes a request whose bytes are lent, as `submit` does. The answer's packet, or the data bytes of its
    /// block, stand in the lent packet, which has any bytes otherwise.
    pub fn submit_into(
        &mut self,
        caller: &mut Caller<N>,
        asked: Asked<'_>,
        packet: &mut Packet,
    ) -> Result<Told, LockedError>
        requires { IsShort asked }
        ensures answers { IfOk result (λ told. Answers self.old.slave (request_asked asked.entry)
            (answer_in told packet.new) self.new.slave) }
        ensures journal { IfOk result (λ told. self.new.journal ≡ self.old.journal
            ++ entry caller.old.number (request_asked asked.entry) (answer_in told packet.new) ∷ []) }
        ensures caller { IfOk result (λ told. caller.new ≡ accepting caller.old
            (receipt self.old.chapter (length self.old.journal) (request_asked asked.entry) (answer_in told packet.new))) }
        ensures published { IfOk result (λ told. Publishes self.old self.new) }
        ensures full { result ≡ Err LockedError.JournalFull
            ↔ (journal_limit ≤ length self.old.journal) }
        ensures err { OnErr result ((self.new ≡ self.old) × (caller.new ≡ caller.old)) }
        ensures layout { layout_of self.new.slave ≡ layout_of self.old.slave }
        ensures chapter { SameChapter self.old self.new }
        ensures refused { IfErr result (λ e. (e ≡ LockedError.Memory) ⊎ (e ≡ LockedError.JournalFull)) }
    {
        if self.journal.len() >= JOURNAL {
            return Err(LockedError::JournalFull);
        }
        let Locked {
            slave,
            chapter,
            journal,
            book,
            publisher,
            waits,
            ..
        } = self;
        let Caller {
            number,
            receipts,
            accepted,
            share,
            ..
        } = caller;
        // All memory is taken before anything is executed.
        if make_room(journal, publisher, receipts).is_err() {
            return Err(LockedError::Memory);
        }
        book.audit(share);
        let at = journal.len() as u64;
        let before = slave.pending();
        let told = execute(slave, journal, publisher, *number, asked, packet, at + 1);
        book.add(share, 1);
        *accepted += 1;
        let place = Place {
            chapter: *chapter,
            at,
        };
        receipts.push_told(place, asked, &told, packet);
        tell_waiting(waits, before, slave.pending());
        Ok(told)
    }

    /// How many calls the open chapter has, at most 65,536.
    pub fn len(&self) -> u64
        ensures { result ≡ length self.now.journal }
    {
        self.journal.len() as u64
    }

    /// How many calls were accepted in all.
    pub fn total(&self) -> u64
        ensures { result ≡ self.now.before + length self.now.journal }
    {
        self.before + self.journal.len() as u64
    }

    /// How many calls there were before the open chapter.
    pub fn before(&self) -> u64
        ensures { result ≡ self.now.before }
    {
        self.before
    }

    /// The number of the open chapter, from 0.
    pub fn chapter(&self) -> u64
        ensures { result ≡ self.now.chapter }
    {
        self.chapter
    }

    /// The slave where the open chapter begins.
    pub fn base(&self) -> &Slave
        ensures { result.now ≡ self.now.base }
    {
        &self.base
    }

    /// The slave as it is. It executes nothing but by `submit`.
    pub fn slave(&self) -> &Slave
        ensures { result.now ≡ self.now.slave }
    {
        &self.slave
    }

    /// The calls of the open chapter, from the first one on.
    pub fn entries(&self) -> Entries<'_>
        ensures { result ≡ self.now.journal }
    {
        self.journal.entries()
    }

    /// How many packets wait in the slave's outbox, for `Drain`.
    pub fn pending(&self) -> u16
        ensures { result ≡ length self.now.slave.outbox }
    {
        self.slave.pending()
    }

    /// Sets a stop, and tells those who wait. Under the lock, so that nobody who saw it unset begins to wait behind this.
    pub fn stop(&self, stop: &AtomicBool) {
        stop.store(true, Ordering::SeqCst);
        self.waits.notify_all();
    }

    /// Writes the ECU image out, and answers its place: the number of calls that the open chapter has.
    pub fn image(&self, out: &mut [u8]) -> u64
        requires size { length out.old ≡ image_size (layout_of self.now.slave) }
        ensures image { out.new ≡ ecu_image self.now.slave.transfer.pages }
        ensures place { result ≡ length self.now.journal }
    {
        self.slave.image(out);
        self.len()
    }

    /// The open chapter's journal, where no more is executed.
    pub fn into_journal(self) -> Journal
        ensures { result.entries ≡ self.journal }
    {
        let Locked { journal, .. } = self;
        journal
    }

    /// Does nothing: its contract says that the open chapter is a run from its base, which all calls
    /// before it led to from the opening of the layout that was named; that what is published since
    /// its first image are the images of this run, and all that is published those of all calls since
    /// the opening. The type keeps this.
    pub fn known(&self)
        ensures run { Run self.now.base (exchanges self.now.journal) self.now.slave }
        ensures reached { IsReached N.layout self.now.before self.now.base }
        ensures layout { layout_of self.now.slave ≡ N.layout }
        ensures few { length self.now.journal ≤ journal_limit }
        ensures chapters { self.now.before ≤ self.now.chapter * journal_limit }
        ensures published { AreImagesFrom self.now.first self.now.base (exchanges self.now.journal)
            self.now.writer.publications }
        ensures all_published { AreAllImages N.layout self.now.before self.now.base (exchanges self.now.journal)
            self.now.writer.publications }
    {
        let _ = &self.slave;
    }
}

/// Tells those who wait for packets, where more wait than before.
fn tell_waiting(waits: &Condvar, before: u16, after: u16) {
    if before < after {
        waits.notify_all();
    }
}

/// Makes room for one more call: for its entry, for the place of an image that it may publish, and for
/// its receipt.
fn make_room(
    journal: &mut Journal,
    publisher: &mut Publisher,
    receipts: &mut Receipts,
) -> Result<(), AllocError>
    ensures entry { OnOk result (room_for_any_entry ≤ journal.new.room) }
    ensures place { OnOk result (vec_len publisher.new.places < vec_capacity publisher.new.places) }
    ensures receipt { OnOk result ((0 < receipts.new.places) × (room_for_any ≤ receipts.new.bytes)) }
    ensures entries { journal.new.entries ≡ journal.old.entries }
    ensures writer { publisher.new.writer ≡ publisher.old.writer }
    ensures places { publisher.new.places.items ≡ publisher.old.places.items }
    ensures last { publisher.new.last.items ≡ publisher.old.last.items }
    ensures first { publisher.new.first ≡ publisher.old.first }
    ensures receipts { receipts.new.list ≡ receipts.old.list }
{
    journal.reserve()?;
    publisher.reserve()?;
    receipts.reserve()
}

/// Executes a request, stores it with its answer and its caller, and publishes the image that it
/// leaves, with this place, if it isn't the one published last. There is room for all this.
fn execute(
    slave: &mut Slave,
    journal: &mut Journal,
    publisher: &mut Publisher,
    caller: u8,
    asked: Asked<'_>,
    packet: &mut Packet,
    place: u64,
) -> Told
    requires short { IsShort asked }
    requires room { room_for_any_entry ≤ journal.old.room }
    requires room_for_place { vec_len publisher.old.places < vec_capacity publisher.old.places }
    requires size { image_bytes publisher.old.writer.bank ≡ image_size (layout_of slave.old) }
    requires last { publisher.old.last.items ≡ image_of slave.old }
    requires newest { newest publisher.old.writer ≡ publisher.old.last.items }
    ensures answers { Answers slave.old (request_asked asked.entry) (answer_in result packet.new) slave.new }
    ensures journal { journal.new.entries ≡ journal.old.entries
        ++ entry caller (request_asked asked.entry) (answer_in result packet.new) ∷ [] }
    ensures offers { Offers place (image_of slave.new) publisher.old publisher.new }
{
    slave.known();
    let told = slave.answer(asked, packet);
    publisher.offer(slave, asked, &told, place);
    journal.push(caller, asked, &told, packet);
    told
}
