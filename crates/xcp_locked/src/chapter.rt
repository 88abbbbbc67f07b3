//! A chapter of a journal, which was cut off.
ghost use Rattle.std.specs.Prelude.{◌*◌, ◌≡◌, ◌↔◌, ◌⊎◌, ◌<◌, ◌≤◌, [], Err, IfOk, IfErr, OnErr, MatchResult, false, true, length, vec_capacity, vec_len};
ghost use Rattle.std.specs.Arc.{arc_value};
ghost use Rattle.xcp_slave.specs.Run.{Run};
ghost use Rattle.xcp_locked.specs.Journal.{exchanges, journal_limit, last_chapter};
ghost use Rattle.xcp_locked.specs.LockedSlave.{IsReached, chapter_of, cut_off};
ghost use Rattle.xcp_locked.specs.SettledReceipts.{DiffersFor, IsSettledFor};

use crate::publisher::Publisher;
use crate::settling::settled;
use crate::{Caller, Locked, LockedError, Mismatch, Name};
use std::alloc::{AllocError, Global};
use std::marker::{Model, PhantomData};
use std::mem;
use std::sync::Arc;
use xcp_slave::Slave;
use xcp_trace::{Entries, Journal};

/// The number of the last chapter that there can be.
pub(crate) const LAST_CHAPTER: u64 = 4_294_967_295;

/// What is cut off.
#[derive(Drop)]
pub(crate) struct Cut {
    pub(crate) number: u64,
    pub(crate) before: u64,
    pub(crate) base: Arc<Slave>,
    pub(crate) entries: Arc<Journal>,
    pub(crate) last: Arc<Slave>,
}

impl Model for Cut {
    ghost use Rattle.std.specs.Arc.{arc_value};
    ghost use Rattle.xcp_locked.specs.LockedSlave.{ChapterValue};

    ghost Value = { ChapterValue };

    ghost view = { λ c. record { number = c.number; before = c.before; base = arc_value c.base; entries = (arc_value c.entries).entries; last = arc_value c.last } };
}

/// A chapter that was cut off: its calls are a run from its base to its last, and the calls before it
/// led from the opening to its base.
#[derive(Drop)]
pub struct Chapter<N: Name> {
    pub(crate) cut: Cut,
    of: PhantomData<N>,
}

impl<N: Name> Model for Chapter<N> {
    ghost use Rattle.std.specs.Prelude.{◌≤◌, ◌*◌, length};
    ghost use Rattle.xcp_slave.specs.Run.{Run};
    ghost use Rattle.xcp_locked.specs.Journal.{exchanges, journal_limit, last_chapter};
    ghost use Rattle.xcp_locked.specs.LockedSlave.{ChapterValue, IsReached};

    ghost Value = { ChapterValue };

    ghost view = { λ c. c.cut };

    ghost invariant = { λ c. Run c.cut.base (exchanges c.cut.entries) c.cut.last × IsReached N.layout c.cut.before c.cut.base × (length c.cut.entries ≤ journal_limit) × (c.cut.before ≤ c.cut.number * journal_limit) × (c.cut.number ≤ last_chapter) };
}

impl<N: Name> Locked<N> {
    /// Cuts the open chapter off. The next one begins with the slave as it is, without calls; nothing
    /// is executed or published. `LastChapter` is looked at first; after an error nothing changed.
    pub fn cut_chapter(&mut self, alloc: Global) -> Result<Chapter<N>, LockedError>
        ensures chapter { IfOk result (λ c. c ≡ chapter_of self.old) }
        ensures next { IfOk result (λ _. self.new ≡ cut_off self.old) }
        ensures last { result ≡ Err LockedError.LastChapter ↔ (last_chapter ≤ self.old.chapter) }
        ensures refused { IfErr result (λ e. (e ≡ LockedError.Memory) ⊎ (e ≡ LockedError.LastChapter)) }
        ensures err { OnErr result (self.new ≡ self.old) }
    {
        if self.chapter >= LAST_CHAPTER {
            return Err(LockedError::LastChapter);
        }
        let Locked {
            slave,
            chapter,
            base,
            before,
            journal,
            publisher,
            ..
        } = self;
        // All memory is taken before anything is changed.
        let Ok((last, next, mut entries, places)) = beginnings(alloc, slave, journal, publisher)
        else {
            return Err(LockedError::Memory);
        };
        let calls = journal.len() as u64;
        if !exchange(&mut entries, journal) {
            return Err(LockedError::Memory);
        }
        publisher.turn(places);
        let cut = Cut {
            number: *chapter,
            before: *before,
            base: mem::replace(base, next),
            entries,
            last,
        };
        *before += calls;
        *chapter += 1;
        Ok(Chapter {
            cut,
            of: PhantomData,
        })
    }
}

/// What the next chapter begins with: a copy of the slave, for two owners, an empty journal, and an empty list with room for one place.
fn beginnings(
    alloc: Global,
    slave: &Slave,
    journal: &Journal,
    publisher: &Publisher,
) -> Result<(Arc<Slave>, Arc<Slave>, Arc<Journal>, Vec<u64>), AllocError>
    ensures slaves { IfOk result (λ b. (arc_value b.0 ≡ slave.now) × (arc_value b.1 ≡ slave.now)) }
    ensures journal { IfOk result (λ b. (arc_value b.2).entries ≡ []) }
    ensures places { IfOk result (λ b. (b.3.items ≡ []) × (vec_len b.3 < vec_capacity b.3)) }
{
    let places = publisher.room_anew(alloc)?;
    let empty = Journal::with_room_of(alloc, journal)?;
    let entries = Arc::new(alloc, empty)?;
    let last = share(alloc, slave)?;
    let next = Arc::try_clone(&last)?;
    Ok((last, next, entries, places))
}

/// Puts a journal into the place of another one, which nobody else owns, and that one into its place. `false` where somebody else owns
/// it: nothing was changed then.
fn exchange(place: &mut Arc<Journal>, journal: &mut Journal) -> bool
    ensures done { result ≡ true → (arc_value place.new ≡ journal.old) × (journal.new ≡ arc_value place.old) }
    ensures not { result ≡ false → (arc_value place.new ≡ arc_value place.old) × (journal.new ≡ journal.old) }
{
    match Arc::get_mut(place) {
        Some(other) => {
            mem::swap(other, journal);
            true
        }
        None => false,
    }
}

/// A copy of a slave, for several owners.
pub(crate) fn share(alloc: Global, slave: &Slave) -> Result<Arc<Slave>, AllocError>
    ensures { IfOk result (λ s. arc_value s ≡ slave.now) }
{
    let copy = slave.copy(alloc)?;
    Ok(Arc::new(alloc, copy)?)
}

impl<N: Name> Chapter<N> {
    /// Its number, from 0.
    pub fn number(&self) -> u64
        ensures { result ≡ self.now.number }
    {
        self.cut.number
    }

    /// How many calls were accepted before it.
    pub fn before(&self) -> u64
        ensures { result ≡ self.now.before }
    {
        self.cut.before
    }

    /// The slave where it begins.
    pub fn base(&self) -> &Slave
        ensures { result.now ≡ self.now.base }
    {
        &self.cut.base
    }

    /// The slave where it ends.
    pub fn last(&self) -> &Slave
        ensures { result.now ≡ self.now.last }
    {
        &self.cut.last
    }

    /// The slave where it ends, for another owner too.
    pub fn share_last(&self) -> Result<Arc<Slave>, AllocError>
        ensures { IfOk result (λ s. arc_value s ≡ self.now.last) }
    {
        Arc::try_clone(&self.cut.last)
    }

    /// How many calls it has.
    pub fn len(&self) -> u64
        ensures { result ≡ length self.now.entries }
    {
        self.cut.entries.len() as u64
    }

    /// Its calls, from the first one on.
    pub fn entries(&self) -> Entries<'_>
        ensures { result ≡ self.now.entries }
    {
        self.cut.entries.entries()
    }

    /// Whether the caller's receipts of this chapter are its calls of this caller, in order, each with
    /// its place. The error is the first index among these receipts that differs.
    pub fn settle(&self, caller: &Caller<N>) -> Result<(), Mismatch>
        ensures { MatchResult result
            (λ _. IsSettledFor false self.now.number self.now.entries caller.now)
            (λ m. DiffersFor false self.now.number self.now.entries caller.now m.at) }
    {
        settled(
            caller.number,
            self.cut.number,
            false,
            &self.cut.entries,
            &caller.receipts,
        )
    }

    /// Does nothing: its contract says what the type keeps.
    pub fn known(&self)
        ensures run { Run self.now.base (exchanges self.now.entries) self.now.last }
        ensures reached { IsReached N.layout self.now.before self.now.base }
        ensures few { length self.now.entries ≤ journal_limit }
        ensures before { self.now.before ≤ self.now.number * journal_limit }
        ensures number { self.now.number ≤ last_chapter }
    {
        let _ = &self.cut.base;
    }
}
