//! Who calls a slave under its lock.
ghost use Rattle.std.specs.Prelude.{◌≡◌};

use crate::{Name, Receipts};
use std::alloc::AllocError;
use std::marker::Model;
use std::sync::ledger::Share;

/// A caller of one opening, with a receipt for each of its calls that was accepted, up to those that it has handed
/// over (`Locked::take_receipts`).
#[derive(Drop)]
pub struct Caller<N: Name> {
    pub(crate) number: u8,
    pub(crate) events: usize,
    pub(crate) signals: usize,
    pub receipts: Receipts,
    pub(crate) accepted: u64,
    pub(crate) share: Share<N>,
}

impl<N: Name> Model for Caller<N> {
    ghost use Rattle.std.specs.Prelude.{◌≡◌, ◌≤◌};
    ghost use Rattle.xcp_locked.specs.Caller.{CallerValue};

    ghost Value = { CallerValue };

    ghost view = { λ c. record { number = c.number; events = c.events; signals = c.signals; receipts = c.receipts.list; accepted = c.accepted } };

    ghost invariant = { λ c. (c.share.parts ≡ 1) × (c.share.amount ≡ c.accepted) × (1 ≤ c.events) × (c.events ≤ 64) × (c.signals ≤ 64) };
}

impl<N: Name> Caller<N> {
    /// The caller's number: its place among the callers of its opening.
    pub fn number(&self) -> u8
        ensures { result ≡ self.now.number }
    {
        self.number
    }

    /// Makes room for the receipt of the next call. `Locked::submit` makes it where there is none; made before
    /// the lock is taken, it copies nothing under the lock.
    pub fn reserve(&mut self) -> Result<(), AllocError>
        ensures { self.new ≡ self.old }
    {
        self.receipts.reserve()
    }
}
