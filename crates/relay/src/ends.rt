//! The ends of a relay.
ghost use Rattle.std.specs.Prelude.{◌≡◌};

use crate::rule::Pass;
use std::marker::Model;

/// Hands items in, under a tag that no other giver of its relay has. Contracts see all items that it handed in, in order.
#[derive(Drop)]
pub struct Giver<T> {
    pub(crate) tag: u16,
    pub(crate) pass: Pass<T>,
}

impl<T> Model for Giver<T> {
    ghost use Rattle.relay.specs.Ends.{GiverValue};
    ghost use Rattle.relay.specs.private.Passes.{note_of, relay_of, IsGivers};

    ghost Value = { GiverValue T };

    ghost view = { λ g. record { relay = relay_of g.pass; tag = g.tag; given = (note_of g.pass).given } };

    ghost invariant = { λ g. IsGivers g.tag g.pass };
}

impl<T> Giver<T> {
    /// Its tag.
    pub fn tag(&self) -> u16
        ensures { result ≡ self.now.tag }
    {
        self.tag
    }
}

/// Takes what was handed in. A relay has one. Contracts see all items that it took, in order, each with its giver's tag.
#[derive(Drop)]
pub struct Taker<T> {
    /// How many givers its relay has.
    pub(crate) givers: u16,
    pub(crate) pass: Pass<T>,
}

impl<T> Model for Taker<T> {
    ghost use Rattle.relay.specs.Ends.{TakerValue};
    ghost use Rattle.relay.specs.private.Passes.{note_of, relay_of, IsTakers};

    ghost Value = { TakerValue T };

    ghost view = { λ t. record { relay = relay_of t.pass; givers = t.givers; taken = (note_of t.pass).taken } };

    ghost invariant = { λ t. IsTakers t.givers t.pass };
}
