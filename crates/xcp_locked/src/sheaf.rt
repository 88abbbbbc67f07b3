//! Receipts that a caller hands over.
ghost use Rattle.std.specs.Prelude.{◌≡◌, [], length, MatchResult, false};
ghost use Rattle.xcp_locked.specs.SettledReceipts.{DifferAt, receipts_for, tally};

use crate::settling::settled;
use crate::{Caller, Chapter, Locked, Mismatch, Name, Receipts};
use std::alloc::Global;
use std::marker::{Model, PhantomData};
use std::mem;

/// What a caller has handed over: its number, its receipts, and the chapter that was open then. It is the
/// caller's that handed it over, since nobody else can make one.
#[derive(Drop)]
pub struct Sheaf<N: Name> {
    caller: u8,
    until: u64,
    receipts: Receipts,
    of: PhantomData<N>,
}

impl<N: Name> Model for Sheaf<N> {
    ghost use Rattle.xcp_locked.specs.Sheaves.{SheafValue};

    ghost Value = { SheafValue };

    ghost view = { λ s. record { caller = s.caller; until = s.until; receipts = s.receipts.list } };
}

impl<N: Name> Locked<N> {
    /// Takes the receipts of a caller, which goes on without any. How many of its calls were accepted it
    /// still knows. Those of all chapters before the open one are then in this sheaf or in earlier ones.
    pub fn take_receipts(&self, alloc: Global, caller: &mut Caller<N>) -> Sheaf<N>
        ensures sheaf { result ≡ record {
          caller = caller.old.number;
          until = self.now.chapter;
          receipts = caller.old.receipts;
        } }
        ensures left { caller.new ≡ record caller.old { receipts = [] } }
    {
        Sheaf {
            caller: caller.number,
            until: self.chapter,
            receipts: mem::replace(&mut caller.receipts, Receipts::new(alloc)),
            of: PhantomData,
        }
    }
}

impl<N: Name> Sheaf<N> {
    /// The number of the caller that handed it over.
    pub fn caller(&self) -> u8
        ensures { result ≡ self.now.caller }
    {
        self.caller
    }

    /// The number of the chapter that was open when it was handed over.
    pub fn until(&self) -> u64
        ensures { result ≡ self.now.until }
    {
        self.until
    }

    /// How many receipts it has.
    pub fn len(&self) -> usize
        ensures { result ≡ length self.now.receipts }
    {
        self.receipts.len()
    }
}

impl<N: Name> Chapter<N> {
    /// Whether the sheaf's receipts of this chapter are its calls of the sheaf's caller, in order, each with
    /// its place. The error is the first index among these receipts that differs.
    pub fn settle_sheaf(&self, sheaf: &Sheaf<N>) -> Result<(), Mismatch>
        ensures { MatchResult result
            (λ _. receipts_for false self.now.number sheaf.now.receipts
            ≡ tally sheaf.now.caller self.now.number 0 self.now.entries)
            (λ m. DifferAt m.at (receipts_for false self.now.number sheaf.now.receipts)
            (tally sheaf.now.caller self.now.number 0 self.now.entries)) }
    {
        settled(
            sheaf.caller,
            self.cut.number,
            false,
            &self.cut.entries,
            &sheaf.receipts,
        )
    }
}
