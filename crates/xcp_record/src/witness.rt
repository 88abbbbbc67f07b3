//! What is told of an audit while it runs.
ghost use Rattle.std.specs.Prelude.{[], ◌∷◌, ◌++◌, List, Option, ⊤};
ghost use Rattle.xcp_trace.specs.declared.journal.Entry.{Entry};
ghost use Rattle.xcp_record.specs.declared.roster.Roster.{Roster};

use crate::roster::Roster;
use xcp_trace::Entry;

/// Is told each call that an audit compares, in their order: the one that differs is the last. With each it is told the roster of the
/// file, if that has one.
pub trait Witness {
    /// Told these calls of a file with this roster or none, the witness comes from the first state to the second.
    ghost hears: { Self → Option Roster → List Entry → Self → Type 0 };

    /// The next call.
    fn told(&mut self, roster: Option<Roster>, call: &Entry)
        ensures { hears self.old roster (call.now ∷ []) self.new };

    ghost hears_none: { (x : Self) (r : Option Roster) → hears x r [] x };

    ghost hears_more: { (x y z : Self) (r : Option Roster) (a b : List Entry)
        → hears x r a y → hears y r b z → hears x r (a ++ b) z };
}

/// A witness that keeps nothing of what it is told.
#[derive(Clone, Copy, Debug, PartialEq, Eq)]
pub struct Silent;

impl Witness for Silent {
    ghost hears = { λ x r calls y. ⊤ };

    fn told(&mut self, _roster: Option<Roster>, _call: &Entry) {}

    ghost hears_none = { λ x r. tt };

    ghost hears_more = { λ x y z r a b p q. tt };
}
