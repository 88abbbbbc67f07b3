//! Why a server that stays doesn't begin, or ends early.
ghost use Rattle.std.specs.Prelude.{◌≡◌};
ghost use Rattle.xcp_stay.specs.Stay.{IsKeeperMismatch, early_end};

use crate::unmet::Unmet;
use std::alloc::AllocError;
use xcp_locked::{Discord, Name};
use xcp_service::{Halted, Refusal, Route, Unkept};

/// What is told of a server that doesn't begin, or ends early.
#[derive(Clone, Copy, Debug, PartialEq, Eq)]
pub enum StayError {
    /// There was no memory, or no thread.
    Memory,
    /// The listener can't be shared with who shuts it.
    Listener,
    /// A chapter doesn't follow the one before it, or receipts aren't a chapter's calls.
    Discord(Discord),
}

/// Why a server that stays doesn't begin, or ends early, with what stands behind it.
#[derive(Drop)]
pub enum Unstayed<N: Name> {
    /// There was no memory, or no thread.
    Memory,
    /// The listener can't be shared with who shuts it.
    Listener,
    /// The keeper goes no further: it has no memory, or refuses what came.
    Refused(Refusal<N>),
    /// All that was handed in was taken, and the keeper doesn't meet the slave.
    Unmet(Unmet<N>),
}

impl<N: Name> Unstayed<N> {
    /// What is told of it. A mismatch is told only where the keeper refuses what came, or doesn't meet the slave.
    pub fn told(&self) -> StayError
        ensures told { result ≡ early_end self.now }
        ensures mismatch { IsKeeperMismatch N.layout N.parts result }
    {
        match self {
            Unstayed::Memory => StayError::Memory,
            Unstayed::Listener => StayError::Listener,
            Unstayed::Refused(refusal) => StayError::from(refusal.why()),
            Unstayed::Unmet(unmet) => StayError::Discord(unmet.discord()),
        }
    }
}

impl<N: Name> From<AllocError> for Unstayed<N> {
    ghost use Rattle.xcp_stay.specs.declared.unstayed.Unstayed.TheVariants.{Memory};

    ghost from_gives = { λ _ e. e ≡ Memory };

    fn from(_: AllocError) -> Unstayed<N> {
        Unstayed::Memory
    }
}

impl<N: Name, M: Route> From<Halted<N, M>> for Unstayed<N> {
    ghost use Rattle.xcp_stay.specs.declared.unstayed.Unstayed.TheVariants.{Refused};

    ghost from_gives = { λ halted e. e ≡ Refused halted };

    fn from(halted: Halted<N, M>) -> Unstayed<N> {
        Unstayed::Refused(halted.into_refusal())
    }
}

impl From<Unkept> for StayError {
    ghost use Rattle.xcp_stay.specs.Stay.{stay_error};

    ghost from_gives = { λ unkept e. e ≡ stay_error unkept };

    fn from(unkept: Unkept) -> StayError {
        match unkept {
            Unkept::Memory => StayError::Memory,
            Unkept::Discord(discord) => StayError::Discord(discord),
        }
    }
}
