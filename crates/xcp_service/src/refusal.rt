//! What a keeper refused.
ghost use Rattle.std.specs.Prelude.{◌≡◌};
ghost use Rattle.xcp_service.specs.Refusals.{IsKeeperRefusal};

use crate::keeper::{Keeper, Unkept};
use crate::parcel::Parcel;
use std::marker::Model;
use std::snapshot::Snapshot;
use xcp_locked::Name;

/// Why a keeper goes no further. Contracts see how it stood, what came, and under which number.
#[derive(Drop)]
pub struct Refusal<N: Name> {
    why: Unkept,
    number: u16,
    keeper: Snapshot<Keeper<N>>,
    came: Snapshot<Parcel<N>>,
}

impl<N: Name> Model for Refusal<N> {
    ghost use Rattle.xcp_service.specs.Refusals.{IsKeeperRefusal, RefusalValue};

    ghost Value = { RefusalValue };

    ghost view = { λ r. record { keeper = r.keeper.value; number = r.number; came = r.came.value; why = r.why } };

    ghost invariant = { λ r. IsKeeperRefusal N.parts (record { keeper = r.keeper.value; number = r.number; came = r.came.value; why = r.why }) };
}

impl<N: Name> Refusal<N> {
    /// A keeper that stood so doesn't take what came under this number.
    pub(crate) fn new(
        why: Unkept,
        number: u16,
        keeper: Snapshot<Keeper<N>>,
        came: Snapshot<Parcel<N>>,
    ) -> Refusal<N>
        requires { IsKeeperRefusal N.parts (record { keeper = keeper.value; number = number; came = came.value; why = why }) }
        ensures { result ≡ record { keeper = keeper.value; number = number; came = came.value; why = why } }
    {
        Refusal {
            why,
            number,
            keeper,
            came,
        }
    }

    /// Why: there was no memory, or what came isn't as it must be.
    pub fn why(&self) -> Unkept
        ensures why { result ≡ self.now.why }
        ensures refuses { IsKeeperRefusal N.parts self.now }
    {
        self.why
    }
}
