//! How a relay begins.
ghost use Rattle.std.specs.Prelude.{◌≡◌, ◌+◌, ◌↔◌, [], None, IfOk, MatchOption};

use crate::bell::Bell;
use crate::ends::{Giver, Taker};
use crate::relay::Relay;
use crate::rule::{Hiring, Queue};
use std::alloc::{AllocError, Global};

impl<T: Drop> Relay<T> {
    /// A relay in which nothing lies, with its taker. It has no givers yet.
    pub fn new(alloc: Global) -> Result<(Relay<T>, Taker<T>), AllocError>
        ensures { IfOk result (λ r. r.1 ≡ record { relay = r.0; givers = 0; taken = [] }) }
    {
        let (line, pass) = Queue::with_rule(alloc)?;
        let bell = Bell::new();
        Ok((Relay { line, bell }, Taker { givers: 0, pass }))
    }

    /// One more giver, with the next tag; the first has tag 0. `None` where there are 65,535 already.
    pub fn hire(&self, taker: &mut Taker<T>) -> Option<Giver<T>>
        requires relay { taker.old.relay ≡ self.now }
        ensures hired { MatchOption result
            (taker.new ≡ taker.old)
            (λ g. (g ≡ record { relay = self.now; tag = taker.old.givers; given = [] })
            × (taker.new ≡ record taker.old { givers = taker.old.givers + 1 })) }
        ensures full { result ≡ None ↔ (taker.old.givers ≡ 65535) }
    {
        let tag = taker.givers;
        let next = tag.checked_add(1)?;
        let pass = self.line.another::<Hiring>(&mut taker.pass);
        taker.givers = next;
        Some(Giver { tag, pass })
    }
}
