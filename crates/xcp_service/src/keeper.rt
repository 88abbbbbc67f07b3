//! What settles chapters and drops them.
ghost use Rattle.std.specs.List.{AllByRecursion};
ghost use Rattle.std.specs.Prelude.{◌≡◌, ◌≢◌, ◌++◌, ◌-◌, ◌^◌, min, [], ◌∷◌, true, false, length, MatchBool, OnOk, OnErr, IfErr, ◌⊎◌};
ghost use Rattle.xcp_locked.specs.Chapters.{AreJoined, Follows};
ghost use Rattle.xcp_service.specs.Keeping.{AreDroppedSettled, AreKeptSettled, AreOnce, HasNoneAhead};
ghost use Rattle.xcp_service.specs.Losing.{lost_in};
ghost use Rattle.xcp_service.specs.Refusals.{GoesNoFurther, HasItsDue, IsMet, RefusesChapter, RefusesParcel, RefusesSheaf};

use crate::losing::count_lost;
use crate::noted::Noted;
use crate::parcel::Parcel;
use crate::waiting::{Waiting, check_sheaf, count_calls, discord, drop_settled, mark_all};
use std::alloc::Global;
use std::marker::Model;
use std::sync::Arc;
use xcp_locked::{Chapter, Discord, Locked, Name, Sheaf};
use xcp_slave::Slave;

/// Why a keeper goes no further.
#[derive(Clone, Copy, Debug, PartialEq, Eq)]
pub enum Unkept {
    /// There was no memory.
    Memory,
    /// A chapter doesn't follow the one before it, or receipts aren't a chapter's calls.
    Discord(Discord),
}

/// Takes the chapters of a slave, one behind another, settles each with the sheaves of its callers, and drops both. All that it took
/// is one run from the opening, and each chapter that it dropped is settled by all callers, though nothing of it is left: contracts
/// alone see what was dropped.
#[derive(Drop)]
pub struct Keeper<N: Name> {
    /// The number of the chapter that comes next.
    number: u64,
    /// How many calls there were before it.
    before: u64,
    /// How many of them were events that found no room for their packets, 2^64 - 1 at most.
    lost: u64,
    /// The slave with which it must begin, behind the first one.
    at: Option<Arc<Slave>>,
    waiting: Vec<Waiting<N>>,
    chapters: Noted<Chapter<N>>,
    sheaves: Noted<Sheaf<N>>,
}

impl<N: Name> Model for Keeper<N> {
    ghost use Rattle.std.specs.Prelude.{◌≡◌, None};
    ghost use Rattle.std.specs.Arc.{arc_value};
    ghost use Rattle.std.specs.Option.{option_map_or};
    ghost use Rattle.xcp_slave.specs.SlaveValue.{opening};
    ghost use Rattle.xcp_locked.specs.Chapters.{AreJoined};
    ghost use Rattle.xcp_service.specs.Keeping.{KeeperValue};
    ghost use Rattle.std.specs.Prelude.{◌-◌, ◌^◌, min};
    ghost use Rattle.xcp_service.specs.Losing.{lost_in};
    ghost use Rattle.xcp_service.specs.private.Waiting.{AreKept, chapters_in};

    ghost Value = { KeeperValue };

    ghost view = { λ k. record { chapters = k.chapters.list; sheaves = k.sheaves.list; waiting = chapters_in k.waiting.items; number = k.number; before = k.before; last = option_map_or arc_value k.at (opening N.layout) } };

    ghost invariant = { λ k. AreJoined N.layout k.chapters.list k.number k.before (option_map_or arc_value k.at (opening N.layout)) × AreKept k.chapters.list k.sheaves.list k.waiting.items × (k.at ≡ None → k.before ≡ 0) × (k.lost ≡ min (lost_in k.chapters.list) (2 ^ 64 - 1)) };
}

impl<N: Name> Keeper<N> {
    /// A keeper that has taken nothing yet.
    pub fn new(alloc: Global) -> Keeper<N>
        ensures { (result.chapters ≡ []) × (result.sheaves ≡ []) }
    {
        Keeper {
            number: 0,
            before: 0,
            lost: 0,
            at: None,
            waiting: Vec::new(alloc),
            chapters: Noted::new(alloc),
            sheaves: Noted::new(alloc),
        }
    }

    /// How many chapters it has taken.
    pub fn chapters(&self) -> u64
        ensures { result ≡ length self.now.chapters }
    {
        self.number
    }

    /// How many calls of these chapters were events that found no room for their packets, 2^64 - 1 at most.
    pub fn lost(&self) -> u64
        ensures { result ≡ min (lost_in self.now.chapters) (2 ^ 64 - 1) }
    {
        self.lost
    }

    /// Takes the next chapter, which must follow the one before it. The error `Discord::Chapter` says that it doesn't, with the number
    /// that the next one has; after an error nothing changed.
    pub fn join(&mut self, chapter: Chapter<N>) -> Result<(), Unkept>
        ensures chapters { OnOk result (self.new.chapters ≡ self.old.chapters ++ chapter ∷ []) }
        ensures waiting { OnOk result (self.new.waiting ≡ self.old.waiting ++ chapter ∷ []) }
        ensures sheaves { self.new.sheaves ≡ self.old.sheaves }
        ensures gap { IfErr result (λ e. (e ≡ Unkept.Memory) ⊎ ((e ≡ Unkept.Discord (Discord.Chapter self.old.number))
            × ¬ (Follows self.old.number self.old.before self.old.last chapter.number chapter.before chapter.base))) }
        ensures err { OnErr result (self.new ≡ self.old) }
    {
        if !self.follows(&chapter) {
            return Err(Unkept::Discord(Discord::Chapter(self.number)));
        }
        if self.waiting.reserve(1).is_err() || self.chapters.reserve().is_err() {
            return Err(Unkept::Memory);
        }
        let Ok(last) = chapter.share_last() else {
            return Err(Unkept::Memory);
        };
        chapter.known();
        let owed = count_calls(&chapter);
        let more = count_lost(&chapter);
        let Keeper {
            number,
            before,
            lost,
            at,
            waiting,
            chapters,
            ..
        } = self;
        *number += 1;
        *before += chapter.len();
        *lost = lost.saturating_add(more);
        *at = Some(last);
        chapters.push_reserved(&chapter);
        waiting.push_reserved(Waiting { chapter, owed });
        Ok(())
    }

    /// Whether a chapter has the next number, as many calls before it, and begins where the one before it ended; the first one with
    /// the opening.
    fn follows(&self, chapter: &Chapter<N>) -> bool
        ensures { MatchBool result
            (Follows self.now.number self.now.before self.now.last chapter.now.number chapter.now.before chapter.now.base)
            (¬ (Follows self.now.number self.now.before self.now.last chapter.now.number chapter.now.before chapter.now.base)) }
    {
        chapter.known();
        if chapter.number() != self.number || chapter.before() != self.before {
            return false;
        }
        match &self.at {
            None => true,
            Some(at) => chapter.base().same(at),
        }
    }

    /// Takes a sheaf, and settles it: it must have the receipts of its caller for all chapters that wait for them, up to the one that
    /// was open when it was handed over, and no others. The error `Discord::Receipts` says that it hasn't, and where. After an error nothing
    /// changed.
    pub fn settle(&mut self, sheaf: &Sheaf<N>) -> Result<(), Unkept>
        ensures sheaves { OnOk result (self.new.sheaves ≡ self.old.sheaves ++ sheaf.now ∷ []) }
        ensures chapters { self.new.chapters ≡ self.old.chapters }
        ensures waiting { self.new.waiting ≡ self.old.waiting }
        ensures due { OnOk result (HasItsDue self.old sheaf.now) }
        ensures refused { IfErr result (GoesNoFurther (RefusesSheaf self.old sheaf.now)) }
        ensures err { OnErr result (self.new ≡ self.old) }
    {
        if self.sheaves.reserve().is_err() {
            return Err(Unkept::Memory);
        }
        let (caller, until) = (sheaf.caller(), sheaf.until());
        if let Err(discord) = check_sheaf(self.waiting.as_slice(), sheaf) {
            return Err(Unkept::Discord(discord));
        }
        let Keeper {
            waiting,
            sheaves,
            ..
        } = self;
        mark_all(waiting.as_mut_slice(), caller, until);
        sheaves.push_reserved(sheaf);
        Ok(())
    }

    /// Drops the chapters that are settled by all callers.
    pub fn drop_settled(&mut self)
        ensures chapters { self.new.chapters ≡ self.old.chapters }
        ensures sheaves { self.new.sheaves ≡ self.old.sheaves }
    {
        drop_settled(&mut self.waiting);
    }

    /// Takes what came under this number: joins a chapter, which must come under the number of the desk, or settles a sheaf, which must be
    /// of the caller with this number; and drops what is settled then. After an error nothing changed.
    pub(crate) fn take(&mut self, desk: u16, number: u16, parcel: Parcel<N>) -> Result<(), Unkept>
        ensures chapters { OnOk result (self.new.chapters ≡ self.old.chapters ++ parcel.chapters) }
        ensures sheaves { OnOk result (self.new.sheaves ≡ self.old.sheaves ++ parcel.sheaves) }
        ensures own { OnOk result (AllByRecursion (λ s. s.caller ≡ number) parcel.sheaves) }
        ensures desk { OnOk result (number ≢ desk → parcel.chapters ≡ []) }
        ensures refused { IfErr result (GoesNoFurther (RefusesParcel desk number self.old parcel)) }
    {
        let Parcel { chapter, sheaf, .. } = parcel;
        match (chapter, sheaf) {
            (Some(chapter), _) => self.take_chapter(desk, number, chapter)?,
            (None, Some(sheaf)) => self.take_sheaf(number, &sheaf)?,
            (None, None) => {}
        }
        self.drop_settled();
        Ok(())
    }

    /// Joins a chapter that came under this number.
    fn take_chapter(&mut self, desk: u16, number: u16, chapter: Chapter<N>) -> Result<(), Unkept>
        ensures chapters { OnOk result (self.new.chapters ≡ self.old.chapters ++ chapter ∷ []) }
        ensures sheaves { self.new.sheaves ≡ self.old.sheaves }
        ensures desk { OnOk result (number ≡ desk) }
        ensures refused { IfErr result (GoesNoFurther (λ d. ((number ≢ desk) × (d ≡ Discord.Chapter self.old.number))
            ⊎ RefusesChapter self.old chapter d)) }
        ensures err { OnErr result (self.new ≡ self.old) }
    {
        if number != desk {
            return Err(Unkept::Discord(Discord::Chapter(self.number)));
        }
        self.join(chapter)
    }

    /// Settles a sheaf that came under this number.
    fn take_sheaf(&mut self, number: u16, sheaf: &Sheaf<N>) -> Result<(), Unkept>
        ensures sheaves { OnOk result (self.new.sheaves ≡ self.old.sheaves ++ sheaf.now ∷ []) }
        ensures chapters { self.new.chapters ≡ self.old.chapters }
        ensures own { OnOk result (sheaf.now.caller ≡ number) }
        ensures refused { IfErr result (GoesNoFurther (λ d. ((sheaf.now.caller ≢ number)
            × (d ≡ Discord.Receipts sheaf.now.until (record { caller = sheaf.now.caller; at = 0 })))
            ⊎ RefusesSheaf self.old sheaf.now d)) }
        ensures err { OnErr result (self.new ≡ self.old) }
    {
        let caller = sheaf.caller();
        if u16::from(caller) != number {
            return Err(Unkept::Discord(discord(sheaf.until(), caller as usize, 0)));
        }
        self.settle(sheaf)
    }

    /// Does nothing: its contract says what the type keeps. The chapters that were taken are one run from the opening, and each that is
    /// not there any more is settled by all callers.
    pub fn known(&self)
        ensures joined { AreJoined N.layout self.now.chapters self.now.number self.now.before self.now.last }
        ensures settled { AreDroppedSettled self.now }
    {
        let _ = &self.waiting;
    }

    /// Whether all chapters that it took were dropped, and the slave goes on from the last of them. All calls since the opening are
    /// then one run, those of the open chapter behind those that were dropped, and each call that stands in a chapter was handed over
    /// by its caller once.
    pub fn meets(&self, locked: &Locked<N>) -> bool
        ensures joined { result ≡ true → AreJoined N.layout self.now.chapters locked.now.chapter
            locked.now.before locked.now.base }
        ensures settled { result ≡ true → AreKeptSettled self.now }
        ensures ahead { result ≡ true → HasNoneAhead self.now }
        ensures once { result ≡ true → AreOnce self.now }
        ensures unmet { result ≡ false → ¬ (IsMet N.layout self.now locked.now) }
    {
        locked.known();
        if !self.waiting.is_empty()
            || locked.chapter() != self.number
            || locked.before() != self.before
        {
            return false;
        }
        match &self.at {
            None => true,
            Some(at) => locked.base().same(at),
        }
    }
}
