//! What was taken, and the meeting with what was put.
ghost use Rattle.std.specs.Prelude.{◌≡◌, true};
ghost use mathlib.Core.List.{IsPrefix};
ghost use Rattle.xcp_outlet.specs.OutletEnds.{packets, has_mark};
ghost use Rattle.xcp_outlet.specs.ChannelRule.{of};

use crate::opening::Token;
use crate::put::Put;
use crate::rule::{Compare, Halves};
use std::marker::Model;

/// What was taken of both ends, with the pass that knows it.
#[derive(Drop)]
pub struct Took {
    pub(crate) pass: Token,
}

impl Model for Took {
    ghost use Rattle.std.specs.Prelude.{◌≡◌, [], Some};
    ghost use Rattle.xcp_outlet.specs.OutletEnds.{Taking, taking_of, knows};

    ghost Value = { Taking };

    ghost view = { λ t. taking_of t.pass };

    ghost invariant = { λ t. (t.pass.me.1 ≡ [])
        × ((knows t.pass).taken ≡ Some (taking_of t.pass).taken) };
}

impl Took {
    /// What was taken of an end is, in order, a front of what that end has put, and behind its end
    /// mark it is all of it. It joins the passes, and does nothing else.
    pub fn meet(&mut self, put: Put)
        requires outlet { self.old.outlet ≡ put.outlet }
        ensures same { self.new ≡ self.old }
        ensures begins { IsPrefix (packets (of put.side self.old.taken)) put.put }
        ensures all { has_mark (of put.side self.old.taken) ≡ true
            → packets (of put.side self.old.taken) ≡ put.put }
    {
        let Put {
            is_data: _,
            ended: _,
            sender,
            pass,
        } = put;
        sender.absorb::<Halves>(&mut self.pass, pass);
        sender.learn_as::<Compare>(&mut self.pass);
    }
}
