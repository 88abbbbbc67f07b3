//! A keeper that doesn't meet its slave.
ghost use Rattle.std.specs.Prelude.{◌≡◌, length};
ghost use Rattle.xcp_service.specs.Refusals.{IsMet};

use std::marker::Model;
use std::snapshot::Snapshot;
use xcp_locked::{Discord, Locked, Name};
use xcp_service::Keeper;

/// A keeper that doesn't meet its slave: a chapter of it still waits, or those that it took don't lead to the slave's open one. Contracts
/// alone see both.
#[derive(Drop)]
pub struct Unmet<N: Name> {
    /// How many chapters the keeper took.
    chapters: u64,
    keeper: Snapshot<Keeper<N>>,
    locked: Snapshot<Locked<N>>,
}

impl<N: Name> Model for Unmet<N> {
    ghost use Rattle.std.specs.Prelude.{◌≡◌, length};
    ghost use Rattle.xcp_service.specs.Refusals.{IsMet};
    ghost use Rattle.xcp_stay.specs.Unmet.{UnmetValue};

    ghost Value = { UnmetValue };

    ghost view = { λ u. record { keeper = u.keeper.value; locked = u.locked.value } };

    ghost invariant = { λ u. (u.chapters ≡ length u.keeper.value.chapters) × ¬ (IsMet N.layout u.keeper.value u.locked.value) };
}

impl<N: Name> Unmet<N> {
    /// A keeper that doesn't meet this slave.
    pub(crate) fn new(keeper: &Keeper<N>, locked: &Locked<N>) -> Unmet<N>
        requires { ¬ (IsMet N.layout keeper.now locked.now) }
        ensures { result ≡ record { keeper = keeper.now; locked = locked.now } }
    {
        Unmet {
            chapters: keeper.chapters(),
            keeper: Snapshot::of(keeper),
            locked: Snapshot::of(locked),
        }
    }

    /// The chapter that would come next.
    pub fn discord(&self) -> Discord
        ensures told { result ≡ Discord.Chapter (length self.now.keeper.chapters) }
        ensures unmet { ¬ (IsMet N.layout self.now.keeper self.now.locked) }
    {
        Discord::Chapter(self.chapters)
    }
}
