//! A relay.
ghost use Rattle.std.specs.Prelude.{◌≡◌, ◌<◌, [], ◌∷◌, ◌++◌, IfSome, MatchOption, MatchResult};

use crate::bell::Bell;
use crate::ends::{Giver, Taker};
use crate::rule::{Giving, Queue, Taking};
use std::marker::Model;
use std::sync::Wait;

/// What many hand in, and one takes, in the order in which it came in, under the tag of the giver that handed it in.
pub struct Relay<T> {
    pub(crate) line: Queue<T>,
    pub(crate) bell: Bell,
}

impl<T> Model for Relay<T> {
    ghost use Rattle.relay.specs.Ends.{RelayId};

    ghost Value = { RelayId };

    ghost view = { λ r. record { queue = r.line } };
}

impl<T: Drop> Drop for Relay<T> {
    fn drop(self) {
        let Self { line, bell } = self;
        drop(bell);
        line.destroy();
    }
}

impl<T: Drop> Relay<T> {
    /// Hands an item in under the giver's tag. It never waits for the taker. Where there is no memory the item comes back.
    pub fn give<R: Wait>(&self, rt: &R, giver: &mut Giver<T>, item: T) -> Result<(), T>
        requires relay { giver.old.relay ≡ self.now }
        ensures given { MatchResult result
            (λ _. giver.new ≡ record giver.old { given = giver.old.given ++ item ∷ [] })
            (λ back. (back ≡ item) × (giver.new ≡ giver.old)) }
    {
        match self
            .line
            .push_as::<Giving, R>(rt, &mut giver.pass, (giver.tag, item))
        {
            Ok(()) => {
                self.bell.ring(rt);
                Ok(())
            }
            Err((_, back)) => Err(back),
        }
    }

    /// Takes the next item, with the tag of its giver. `None` where nothing lay there at one moment.
    pub fn take<R: Wait>(&self, rt: &R, taker: &mut Taker<T>) -> Option<(u16, T)>
        requires relay { taker.old.relay ≡ self.now }
        ensures taken { MatchOption result
            (taker.new ≡ taker.old)
            (λ x. taker.new ≡ record taker.old { taken = taker.old.taken ++ x ∷ [] }) }
        ensures tag { IfSome result (λ x. x.0 < taker.old.givers) }
    {
        self.line.pop_as::<Taking, R>(rt, &mut taker.pass)
    }

    /// Takes the next item, with the tag of its giver, and waits for it where nothing lies there. `None` where the relay is closed, and
    /// nothing lay there at one moment since.
    pub fn wait_and_take<R: Wait>(&self, rt: &R, taker: &mut Taker<T>) -> Option<(u16, T)>
        requires relay { taker.old.relay ≡ self.now }
        ensures taken { MatchOption result
            (taker.new ≡ taker.old)
            (λ x. taker.new ≡ record taker.old { taken = taker.old.taken ++ x ∷ [] }) }
        ensures tag { IfSome result (λ x. x.0 < taker.old.givers) }
    {
        for _ in rt.forever() {
            if let Some(item) = self.take(rt, taker) {
                return Some(item);
            }
            if self.bell.wait(rt) {
                return self.take(rt, taker);
            }
        }
        unreachable!()
    }

    /// Tells the taker that it need not wait any more. What was handed in can still be taken.
    pub fn close<R: Wait>(&self, rt: &R) {
        self.bell.close(rt);
    }
}
