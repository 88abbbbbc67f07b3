//! Whether chapters follow one another, from the opening to the open one.
ghost use Rattle.std.specs.Prelude.{◌≡◌, ◌≢◌, ◌≤◌, ◌<◌, ◌-◌, ◌++◌, OnOk, IfOk, IfErr, length, true, false, sum_by, slice_index_or as get_or};
ghost use Rattle.xcp_locked.specs.Caller.{accepted_by};
ghost use Rattle.xcp_locked.specs.Chapters.{AreJoined, Disagree, IsFirstGap, IsWhole, entries_of};
ghost use Rattle.xcp_locked.specs.private.NoChapter.{empty_chapter};
ghost use Rattle.xcp_locked.specs.SettledReceipts.{AreSettledFor, FirstUnsettledFor};

use crate::{Caller, Chapter, Locked, Name, Unsettled};
use xcp_slave::Slave;

/// Whether the chapters have the numbers from 0 on, each says how many calls there were before it and
/// begins with the slave at which the one before ended, and the open one follows them. The error is the
/// number of the first chapter that doesn't follow, which may be the open one.
pub fn check_joined<N: Name>(locked: &Locked<N>, chapters: &[Chapter<N>]) -> Result<(), u64>
    ensures joined { OnOk result (AreJoined N.layout chapters.now locked.now.chapter locked.now.before
        locked.now.base) }
    ensures gap { IfErr result (λ k. IsFirstGap N.layout chapters.now locked.now.chapter locked.now.before
        locked.now.base k) }
{
    let mut calls = 0;
    for k in 0..chapters.len() {
        let chapter = &chapters[k];
        chapter.known();
        if chapter.number() != k as u64
            || chapter.before() != calls
            || !follows(chapters, k, chapter.base())
        {
            return Err(k as u64);
        }
        calls = chapter.before() + chapter.len();
    }
    locked.known();
    let last = chapters.len();
    if locked.chapter() != last as u64
        || locked.before() != calls
        || !follows(chapters, last, locked.base())
    {
        return Err(last as u64);
    }
    Ok(())
}

/// Whether the chapter before the one with this number ended with this slave. Before chapter 0 there is
/// none: that it begins with the opening is kept in the type.
fn follows<N: Name>(chapters: &[Chapter<N>], number: usize, base: &Slave) -> bool
    requires { number ≤ length chapters.now }
    ensures yes { result ≡ true → 0 < number
        → base.now ≡ (get_or chapters.now (number - 1) empty_chapter).last }
    ensures no { result ≡ false → (0 < number)
        × (base.now ≢ (get_or chapters.now (number - 1) empty_chapter).last) }
{
    if number == 0 {
        return true;
    }
    base.same(chapters[number - 1].last())
}

/// What isn't as it must be: a chapter that doesn't follow the one before it, or a caller's receipts.
#[derive(Clone, Copy, Debug, PartialEq, Eq)]
pub enum Discord {
    /// The number of the first chapter that doesn't follow, which may be the open one.
    Chapter(u64),
    /// The first caller whose receipts of a chapter aren't its calls, in the first such chapter.
    Receipts(u64, Unsettled),
}

/// Settles all callers for each chapter and for the open one, where these follow one another, and answers
/// how many calls there were. All of them are then one run of one slave from the opening to the slave as
/// it is, each was accepted once, and each caller has its receipts of it.
pub fn settle_chapters<N: Name>(
    locked: &mut Locked<N>,
    chapters: &[Chapter<N>],
    callers: &mut [Caller<N>],
) -> Result<u64, Discord>
    requires { (0 < length callers.old) × (length callers.old ≡ N.parts) }
    ensures whole { IfOk result (λ _. IsWhole N.layout locked.old chapters.now callers.old) }
    ensures count { IfOk result (λ n. n ≡ length (entries_of chapters.now ++ locked.old.journal)) }
    ensures sum { IfOk result (λ n. n ≡ sum_by accepted_by callers.old) }
    ensures first { IfErr result (Disagree N.layout locked.old chapters.now callers.old) }
    ensures same { (locked.new ≡ locked.old) × (callers.new ≡ callers.old) }
{
    locked.gather(callers);
    locked.known();
    if let Err(number) = check_joined(locked, chapters) {
        return Err(Discord::Chapter(number));
    }
    for k in 0..chapters.len() {
        if let Err(unsettled) = settle_one(&chapters[k], callers) {
            return Err(Discord::Receipts(k as u64, unsettled));
        }
    }
    match locked.settle_each(callers) {
        Ok(calls) => Ok(calls),
        Err(unsettled) => Err(Discord::Receipts(locked.chapter(), unsettled)),
    }
}

/// Settles one caller after another for a chapter.
pub(crate) fn settle_one<N: Name>(
    chapter: &Chapter<N>,
    callers: &[Caller<N>],
) -> Result<(), Unsettled>
    ensures all { OnOk result (AreSettledFor false chapter.now.number chapter.now.entries
        (length callers.now) callers.now) }
    ensures first { IfErr result (λ u. FirstUnsettledFor false chapter.now.number
        chapter.now.entries callers.now u) }
{
    for caller in 0..callers.len() {
        if let Err(mismatch) = chapter.settle(&callers[caller]) {
            return Err(Unsettled {
                caller,
                at: mismatch.at,
            });
        }
    }
    Ok(())
}
