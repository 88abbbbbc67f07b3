//! Whether a caller's receipts are the journal's.
ghost use Rattle.std.specs.Prelude.{◌≡◌, ◌≢◌, MatchBool, MatchResult, Some, true};
ghost use Rattle.xcp_locked.specs.Receipts.{receipt_of};
ghost use Rattle.xcp_locked.specs.SettledReceipts.{DifferAt, DiffersFor, IsSettledFor, compared, receipts_for, tally};
ghost use Rattle.xcp_locked.specs.private.PlacedExchanges.{receipts_ahead};

use crate::receipts::LentReceipt;
use crate::{Caller, Locked, Name, Receipts, ReceiptsLeft};
use xcp_trace::{Journal, LentEntry};

/// The first index at which a caller's receipts are not the journal's.
#[derive(Clone, Copy, Debug, PartialEq, Eq)]
pub struct Mismatch {
    pub at: usize,
}

impl<N: Name> Locked<N> {
    /// Whether the caller's receipts of the open chapter are its calls of this caller, in order, each
    /// with its place. A receipt of a later chapter, which there isn't, is compared too, and differs.
    /// The error is the first index among these receipts that differs, the shorter length where one ends.
    pub fn settle(&mut self, caller: &Caller<N>) -> Result<(), Mismatch>
        ensures settled { MatchResult result
            (λ _. IsSettledFor true self.old.chapter self.old.journal caller.now)
            (λ m. DiffersFor true self.old.chapter self.old.journal caller.now m.at) }
        ensures same { self.new ≡ self.old }
    {
        settled(
            caller.number,
            self.chapter,
            true,
            &self.journal,
            &caller.receipts,
        )
    }
}

/// Whether a caller's receipts of a chapter (where it is the open one, of it and of later ones) are
/// its tally of the chapter.
pub(crate) fn settled(
    number: u8,
    chapter: u64,
    later: bool,
    journal: &Journal,
    receipts: &Receipts,
) -> Result<(), Mismatch>
    ensures { MatchResult result
        (λ _. receipts_for later chapter receipts.now.list ≡ tally number chapter 0 journal.now.entries)
        (λ m. DifferAt m.at (receipts_for later chapter receipts.now.list)
        (tally number chapter 0 journal.now.entries)) }
{
    let mut entries = journal.entries();
    let mut left = receipts.iter();
    let mut next = next_compared(later, chapter, &mut left);
    let mut met = 0;
    for at in 0..journal.len() {
        let Some(entry) = entries.next_lent() else {
            unreachable!()
        };
        if entry.caller() != number {
            continue;
        }
        if !is_receipt(chapter, at as u64, &entry, &next) {
            return Err(Mismatch { at: met });
        }
        met += 1;
        next = next_compared(later, chapter, &mut left);
    }
    match next {
        Some(_) => Err(Mismatch { at: met }),
        None => Ok(()),
    }
}

/// The next of the receipts that are left which is compared, if there is one. Those before it are passed over.
fn next_compared<'a>(
    later: bool,
    chapter: u64,
    left: &mut ReceiptsLeft<'a>,
) -> Option<LentReceipt<'a>>
    ensures { receipts_for later chapter left.old ≡ receipts_ahead result (receipts_for later chapter left.new) }
{
    for _passed in 0..left.len() {
        let Some(receipt) = left.next_lent() else {
            unreachable!()
        };
        if is_compared(later, chapter, receipt.chapter()) {
            return Some(receipt);
        }
    }
    None
}

/// Whether receipts of this chapter are compared with that one's calls.
fn is_compared(later: bool, chapter: u64, other: u64) -> bool
    ensures { result ≡ compared later chapter other }
{
    if later {
        chapter <= other
    } else {
        other == chapter
    }
}

/// Whether there is a receipt, and it is that of the entry at this place.
fn is_receipt(
    chapter: u64,
    at: u64,
    entry: &LentEntry<'_>,
    receipt: &Option<LentReceipt<'_>>,
) -> bool
    ensures { MatchBool result (receipt.now ≡ Some (receipt_of chapter at entry.now))
        (receipt.now ≢ Some (receipt_of chapter at entry.now)) }
{
    match receipt {
        None => false,
        Some(receipt) => receipt.is_of(chapter, at, entry),
    }
}
