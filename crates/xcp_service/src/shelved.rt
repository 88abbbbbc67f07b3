//! How many chapters lie on the shelf.
ghost use Rattle.std.specs.Prelude.{◌≡◌, length};
ghost use Rattle.xcp_service.specs.Parcels.{given_in};

use crate::keeper::Keeper;
use std::marker::{Model, PhantomData};
use xcp_locked::Name;
use xcp_scribe::Scribe;

/// The first so many chapters lie on the shelf, with what tools asked to have stored by their end. Nobody says so but a keeper that has taken
/// them, when its scribe does.
#[derive(Drop)]
pub(crate) struct Shelved<N: Name> {
    chapters: u64,
    of: PhantomData<N>,
}

impl<N: Name> Model for Shelved<N> {
    ghost use Rattle.std.specs.Prelude.{ℕ};

    ghost Value = { ℕ };

    ghost view = { λ s. s.chapters };
}

impl<N: Name> Shelved<N> {
    /// None yet.
    pub(crate) fn new() -> Shelved<N>
        ensures { result ≡ 0 }
    {
        Shelved {
            chapters: 0,
            of: PhantomData,
        }
    }

    /// All that this keeper has taken, where its scribe was given them and says that what was to be stored lies there.
    pub(crate) fn of<S: Scribe>(keeper: &Keeper<N>, _scribe: &S) -> Shelved<N>
        requires { S.shelved _scribe.now (given_in keeper.now.chapters) }
        ensures { result ≡ length keeper.now.chapters }
    {
        Shelved {
            chapters: keeper.chapters(),
            of: PhantomData,
        }
    }

    /// How many.
    pub(crate) fn chapters(&self) -> u64
        ensures { result ≡ self.now }
    {
        self.chapters
    }
}
