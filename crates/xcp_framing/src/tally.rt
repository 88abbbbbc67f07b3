//! A number that contracts alone see. It has no limit, and takes no memory and no time.
//!
//! Nothing ties such a number to what the program does, so the module is private: it is raised in
//! `Watched` alone, beside the call that it counts.
ghost use Rattle.std.specs.Prelude.{◌≡◌, ℕ, ◌+◌};
ghost use Rattle.std.specs.Borrow.{ftrue};

use std::marker::Model;

#[derive(Drop)]
pub(crate) struct Tally {
    pub ghost count: { ℕ },
}

impl Model for Tally {
    ghost also_owns = { λ _. ftrue };
}

impl Tally {
    pub(crate) fn new() -> Tally
        ensures { result.count ≡ 0 }
    {
        Tally {}
    }

    /// One more than before.
    pub(crate) fn more(_before: &Tally) -> Tally
        ensures { result.count ≡ _before.now.count + 1 }
    {
        Tally {}
    }
}
