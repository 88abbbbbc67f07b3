//! All callers together.
ghost use Rattle.std.specs.Prelude.{◌≡◌, ◌<◌, ◌+◌, ℕ, IfErr, IfOk, true, Some, length, sum_by};
ghost use Rattle.std.specs.List.{slice_get};
ghost use Rattle.xcp_locked.specs.Caller.{CallerValue, accepted_by};
ghost use Rattle.xcp_locked.specs.SettledReceipts.{AreSettledFor, FirstUnsettledFor};

use crate::{Caller, Locked, Name};
use std::sync::ledger::{Book, Share};

impl<N: Name> Locked<N> {
    /// Changes nothing: its contract says that the journal has as many entries as all callers
    /// together had calls accepted, so that none of these is missing and none stands there twice.
    pub fn gather(&mut self, callers: &mut [Caller<N>])
        requires { (0 < length callers.old) × (length callers.old ≡ N.parts) }
        ensures sum { self.new.before + length self.new.journal ≡ sum_by accepted_by callers.old }
        ensures same { self.new ≡ self.old }
        ensures callers { callers.new ≡ callers.old }
    {
        let first = &mut callers[0];
        let mut seen = first.share.empty();
        lend(&mut self.book, callers, &mut seen);
    }
}

/// Lends the callers' shares to one, until it has all parts.
fn lend<N: Name>(book: &mut Book<N>, callers: &mut [Caller<N>], seen: &mut Share<N>)
    requires parts { seen.old.parts + length callers.old ≡ N.parts }
    requires backed { seen.old.parts ≡ 0 → seen.old.amount ≡ 0 }
    ensures sum { book.old.total ≡ seen.old.amount + sum_by accepted_by callers.old }
    ensures total { book.new.total ≡ book.old.total }
    ensures parts { seen.new.parts ≡ seen.old.parts }
    ensures amount { seen.new.amount ≡ seen.old.amount }
    ensures callers { callers.new ≡ callers.old }
{
    if callers.is_empty() {
        book.audit(seen);
        return;
    }
    let (head, rest) = callers.split_at_mut(1);
    let Caller {
        accepted,
        share,
        ..
    } = &mut head[0];
    share.give(seen, 1, *accepted);
    lend(book, rest, seen);
    seen.give(share, 1, *accepted);
}

/// A caller whose receipts are not the journal's: its place among the callers, and the first index
/// that differs.
#[derive(Clone, Copy, Debug, PartialEq, Eq)]
pub struct Unsettled {
    pub caller: usize,
    pub at: usize,
}

impl<N: Name> Locked<N> {
    /// Settles one caller after another, and answers how many calls the journal has.
    pub(crate) fn settle_each(&mut self, callers: &[Caller<N>]) -> Result<u64, Unsettled>
        ensures count { IfOk result (λ n. n ≡ self.old.before + length self.old.journal) }
        ensures all { IfOk result (λ _. AreSettledFor true self.old.chapter self.old.journal (length callers.now) callers.now) }
        ensures first { IfErr result (λ u. FirstUnsettledFor true self.old.chapter self.old.journal callers.now u) }
        ensures same { self.new ≡ self.old }
    {
        for caller in 0..callers.len() {
            if let Err(mismatch) = self.settle(&callers[caller]) {
                return Err(Unsettled {
                    caller,
                    at: mismatch.at,
                });
            }
        }
        Ok(self.total())
    }
}
