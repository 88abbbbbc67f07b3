//! The end that takes in what is to be written.
ghost use Rattle.std.specs.Prelude.{◌≡◌, ◌++◌, [], ◌∷◌, MatchBool, true};
ghost use Rattle.std.specs.Arc.{arc_value};
ghost use Rattle.xcp_behind.specs.Writing.{HoldsPieces};

use crate::backlog::Backlog;
use crate::piece::Piece;
use crate::write_end::WriteEnd;
use relay::Giver;
use std::alloc::Global;
use std::io::Write;
use std::sync::{Arc, Wait};

/// Takes in what is to be written, and waits for nobody who writes it. Contracts see all pieces that it took in, in order.
#[derive(Drop)]
pub struct Behind {
    pub(crate) alloc: Global,
    pub(crate) backlog: Arc<Backlog>,
    pub(crate) giver: Giver<Piece>,
    ghost relay: { giver.relay ≡ (arc_value backlog).relay },
    ghost tag: { giver.tag ≡ 0 },
}

impl Behind {
    /// Takes these bytes in, as one piece. `false` where they aren't: there was no room or no memory for them, or for a piece before, or
    /// a write failed. Nothing is taken in any more then.
    pub fn put(&mut self, rt: &impl Wait, bytes: &[u8]) -> bool
        ensures given { MatchBool result
            (self.new.giver.given ≡ self.old.giver.given ++ bytes.now ∷ [])
            (self.new.giver.given ≡ self.old.giver.given) }
        ensures same { self.new.giver.relay ≡ self.old.giver.relay }
    {
        if !self.backlog.take_in(rt, bytes.len()) {
            return false;
        }
        let Ok(piece) = Piece::new(self.alloc, bytes) else {
            self.backlog.give_up(rt);
            return false;
        };
        self.backlog.give(rt, &mut self.giver, piece)
    }

    /// Whether nothing lay between the two ends at one moment of the call. Then the one took all that the other took in, in order, and
    /// where no write failed all of it is written.
    pub fn meets<W: Write>(&mut self, end: &mut WriteEnd<W>) -> bool
        requires relay { self.old.giver.relay ≡ end.old.relay }
        ensures taken { result ≡ true → end.new.taken ≡ self.new.giver.given }
        ensures stands { HoldsPieces end.new.failed end.new.before end.new.after end.new.taken }
        ensures same { (self.new.giver ≡ self.old.giver) × (end.new ≡ end.old) }
    {
        end.meets(&self.backlog, &mut self.giver)
    }
}
