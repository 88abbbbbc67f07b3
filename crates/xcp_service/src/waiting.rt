//! Chapters that wait for the sheaves of their callers.
ghost use Rattle.std.specs.Prelude.{◌≡◌, ◌==◌, IfErr, OnOk, map, not};
ghost use Rattle.std.specs.List.{AllByRecursion, filter, list_all};
ghost use Rattle.xcp_locked.specs.declared.joining.Discord.TheVariants as discords;
ghost use Rattle.xcp_service.specs.private.Waiting.{AreApart, FitsAll, IsCounted, IsCountedFor, IsSheafUnfit, is_due, settled_mark, owes_nothing};

use std::marker::Model;
use xcp_locked::{Chapter, Discord, Name, Sheaf, Unsettled};

/// How many numbers a caller may have.
pub(crate) const CALLERS: usize = 256;

/// A chapter, and how many of its calls are still to be settled, of each caller.
#[derive(Drop)]
pub(crate) struct Waiting<N: Name> {
    pub(crate) chapter: Chapter<N>,
    pub(crate) owed: [u32; CALLERS],
}

impl<N: Name> Model for Waiting<N> {
    ghost use Rattle.xcp_service.specs.private.Waiting.{WaitingValue};

    ghost Value = { WaitingValue };

    ghost view = { λ w. record { chapter = w.chapter; owed = w.owed } };
}

impl<N: Name> Waiting<N> {
    /// Whether this sheaf must have the receipts that the chapter still wants of its caller.
    fn is_due(&self, sheaf: &Sheaf<N>) -> bool
        ensures { result ≡ is_due sheaf.now self.now }
    {
        self.chapter.number() < sheaf.until() && self.owed[sheaf.caller() as usize] != 0
    }

    /// Where the chapter is one before this number, nothing is wanted of this caller any more.
    fn mark(&mut self, caller: u8, until: u64)
        ensures { self.new ≡ settled_mark caller until self.old }
    {
        if self.chapter.number() < until {
            self.owed[caller as usize] = 0;
        }
    }

    /// Whether nothing is wanted of anybody.
    fn owes_nothing(&self) -> bool
        ensures { result ≡ owes_nothing self.now }
    {
        is_zero(&self.owed)
    }
}

/// Whether all numbers are 0.
fn is_zero(owed: &[u32]) -> bool
    ensures { result ≡ list_all (λ n. n == 0) owed.now }
{
    owed.iter().all(|count| *count == 0)
}

/// How many calls each caller has in a chapter.
pub(crate) fn count_calls<N: Name>(chapter: &Chapter<N>) -> [u32; CALLERS]
    ensures { IsCounted chapter.now result }
{
    chapter.known();
    let mut counts = [0u32; CALLERS];
    let mut entries = chapter.entries();
    for _at in 0..chapter.len() {
        let Some(entry) = entries.next_lent() else {
            unreachable!()
        };
        counts[entry.caller() as usize] += 1;
    }
    counts
}

/// Whether a sheaf has its caller's receipts of all chapters that still want them, up to the one that was open when it was handed
/// over, and no others. The error names the chapter, and the first place among the receipts of it that differs; where there are
/// others, the chapter that was open, and how many were right.
pub(crate) fn check_sheaf<N: Name>(waiting: &[Waiting<N>], sheaf: &Sheaf<N>) -> Result<(), Discord>
    requires apart { AreApart waiting.now }
    requires counted { AllByRecursion (IsCountedFor sheaf.now.caller) waiting.now }
    ensures fits { OnOk result (FitsAll sheaf.now waiting.now) }
    ensures unfit { IfErr result (λ d. IsSheafUnfit sheaf.now waiting.now d) }
{
    let caller = sheaf.caller() as usize;
    let all = sheaf.len();
    let mut settled = 0;
    for k in 0..waiting.len() {
        let one = &waiting[k];
        if !one.is_due(sheaf) {
            continue;
        }
        if let Err(mismatch) = one.chapter.settle_sheaf(sheaf) {
            return Err(discord(one.chapter.number(), caller, mismatch.at));
        }
        settled += one.owed[caller] as usize;
    }
    if settled != all {
        return Err(discord(sheaf.until(), caller, settled));
    }
    Ok(())
}

/// What isn't as it must be: this caller's receipts of this chapter.
pub(crate) fn discord(chapter: u64, caller: usize, at: usize) -> Discord
    ensures { result ≡ discords.Receipts chapter (record { caller = caller; at = at }) }
{
    Discord::Receipts(chapter, Unsettled { caller, at })
}

/// Nothing is wanted of this caller any more, by the chapters before this number.
pub(crate) fn mark_all<N: Name>(waiting: &mut [Waiting<N>], caller: u8, until: u64)
    ensures { waiting.new ≡ map (settled_mark caller until) waiting.old }
{
    for one in waiting.iter_mut() {
        one.mark(caller, until);
    }
}

/// Drops the chapters by which nothing is wanted of anybody.
pub(crate) fn drop_settled<N: Name>(waiting: &mut Vec<Waiting<N>>)
    ensures { waiting.new.items ≡ filter (λ w. not (owes_nothing w)) waiting.old.items }
{
    waiting.retain(|one| !one.owes_nothing());
}
