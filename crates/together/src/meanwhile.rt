//! What is done beside threads.

use std::sync::Wait;

/// What the thread that calls does while others do their works. Its result is `U`.
pub trait Meanwhile<U>: Drop {
    /// What comes of it.
    ghost gives: { Self → U → Type 0 };

    /// Does it. It may wait for the works that run beside it.
    fn run<R: Wait>(self, rt: &R) -> U
        ensures { gives self result };
}

/// Nothing is done.
#[derive(Drop)]
pub(crate) struct Nothing;

impl Meanwhile<()> for Nothing {
    ghost use Rattle.std.specs.Prelude.{⊤};

    ghost gives = { λ nothing unit. ⊤ };

    fn run<R: Wait>(self, _rt: &R) {}
}
