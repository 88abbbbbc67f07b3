//! The rule of a relay, and the steps that keep it.
ghost use Rattle.std.specs.Prelude.{◌≡◌, ◌<◌, ◌+◌, ◌++◌, [], ⊤};
ghost use Rattle.relay.specs.Ends.{items_of};
ghost use Rattle.relay.specs.Rule.{Relays, idle, taking, giving, comparing, gave, took};

use crate::note::Note;
use crossbeam_queue::protocol::{Join, Lesson, Outcome, Protocol, Split};
use crossbeam_queue::{RuledSegQueue, SegPass};

/// The queue of a relay.
pub type Queue<T> = RuledSegQueue<(u16, T), Note<T>, Rule>;

/// The right of an end, with what it knows.
pub type Pass<T> = SegPass<(u16, T), Note<T>>;

/// What lies in a relay, and what its ends know, at any moment.
pub struct Rule;

impl<T> Protocol<(u16, T), Note<T>> for Rule {
    ghost holds = { Relays };

    ghost first = { taking 0 [] };
}

/// The taker's pass gives out one more tag.
pub struct Hiring;

impl<T> Split<Note<T>> for Hiring {
    ghost left = { λ v. taking (v.tags + 1) v.taken };

    ghost right = { λ v. giving v.tags [] };
}

/// An item is handed in.
pub struct Giving;

impl<T> Outcome<(u16, T), Note<T>> for Giving {
    ghost then = { λ v x w. w ≡ gave v x };
}

/// An item is taken, or none lies there.
pub struct Taking;

impl<T> Outcome<(u16, T), Note<T>> for Taking {
    ghost then = { λ v x w. (w ≡ took v x) × (x.0 < v.tags) };
}

impl<T> Lesson<(u16, T), Note<T>> for Taking {
    ghost fact = { λ v items. ⊤ };
}

/// A pass comes that may do nothing.
pub struct Sparing;

impl<T> Split<Note<T>> for Sparing {
    ghost left = { λ v. v };

    ghost right = { λ v. idle };
}

/// The right to give comes to the taker's pass.
pub struct Lending;

impl<T> Join<Note<T>> for Lending {
    ghost both = { comparing };

    ghost spent = { idle };
}

/// What was taken is compared with what was handed in.
pub struct Comparing;

impl<T> Lesson<(u16, T), Note<T>> for Comparing {
    ghost fact = { λ v items. items_of v.tag (v.taken ++ items) ≡ v.given };
}

/// The right to give leaves the taker's pass.
pub struct Parting;

impl<T> Split<Note<T>> for Parting {
    ghost left = { λ v. taking v.tags v.taken };

    ghost right = { λ v. giving v.tag v.given };
}
