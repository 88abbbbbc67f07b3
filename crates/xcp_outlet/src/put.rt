//! An end that puts no more.
use crate::opening::{Sender, Token};
use std::marker::Model;

/// What one end has put: the end itself, behind its end mark, with the pass that knows it.
#[derive(Drop)]
pub struct Put {
    pub(crate) is_data: bool,
    pub(crate) ended: bool,
    pub(crate) sender: Sender,
    pub(crate) pass: Token,
}

impl Model for Put {
    ghost use Rattle.std.specs.Prelude.{◌≡◌};
    ghost use Rattle.crossbeam_channel.specs.Claims.{IsSeatAt};
    ghost use Rattle.crossbeam_channel.specs.Ends.{sends_on};
    ghost use Rattle.xcp_outlet.specs.PassKnowledge.{half};
    ghost use Rattle.xcp_outlet.specs.private.KnownHalves.{one_half};
    ghost use Rattle.xcp_outlet.specs.OutletEnds.{Putting, putting_of, knows};

    ghost Value = { Putting };

    ghost view = { λ e. putting_of e.is_data e.ended e.pass };

    ghost invariant = { λ e. IsSeatAt (sends_on e.sender) e.pass
        × (knows e.pass ≡ one_half e.is_data
        (half (putting_of e.is_data e.ended e.pass).put e.ended)) };
}
