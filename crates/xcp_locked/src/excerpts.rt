//! By which way excerpts of chapters go to whoever writes them down.
ghost use Rattle.std.specs.Prelude.{◌≡◌, ◌++◌, [], ◌∷◌, IfOk, MatchBool, MatchOption, length};
ghost use mathlib.Core.List.{IsPrefix};

use crate::Excerpt;
use relay::{Giver, Relay, Taker, items_are_of_their_tag};
use std::alloc::{AllocError, Global};
use std::marker::Model;
use std::sync::{Arc, Wait};

/// Hands excerpts in, as chapters are cut.
#[derive(Drop)]
pub struct Handing {
    relay: Arc<Relay<Excerpt>>,
    giver: Giver<Excerpt>,
    each_store: bool,
}

impl Model for Handing {
    ghost use Rattle.std.specs.Prelude.{◌≡◌};
    ghost use Rattle.std.specs.Arc.{arc_value};
    ghost use Rattle.xcp_locked.specs.Excerpts.{HandingValue};

    ghost Value = { HandingValue };

    ghost view = { λ h. record { relay = h.giver.relay; given = h.giver.given; each_store = h.each_store } };

    ghost invariant = { λ h. (h.giver.relay ≡ arc_value h.relay) × (h.giver.tag ≡ 0) };
}

/// Takes the excerpts that are handed in, in order.
#[derive(Drop)]
pub struct Excerpts {
    relay: Arc<Relay<Excerpt>>,
    taker: Taker<Excerpt>,
    /// How many were taken.
    count: u64,
}

impl Model for Excerpts {
    ghost use Rattle.std.specs.Prelude.{◌≡◌, length};
    ghost use Rattle.std.specs.Arc.{arc_value};
    ghost use Rattle.relay.specs.Ends.{items_of};
    ghost use Rattle.xcp_locked.specs.Excerpts.{ExcerptsValue};

    ghost Value = { ExcerptsValue };

    ghost view = { λ e. record { relay = e.taker.relay; taken = items_of 0 e.taker.taken } };

    ghost invariant = { λ e. (e.taker.relay ≡ arc_value e.relay) × (e.taker.givers ≡ 1) × (e.count ≡ length (items_of 0 e.taker.taken)) };
}

impl Excerpts {
    /// Who takes excerpts, and who hands them in; with `each_store` a store ends a chapter.
    pub fn new(alloc: Global, each_store: bool) -> Result<(Handing, Excerpts), AllocError>
        ensures handing { IfOk result (λ r. r.0 ≡ record { relay = r.1.relay; given = []; each_store = each_store }) }
        ensures excerpts { IfOk result (λ r. r.1.taken ≡ []) }
    {
        let (relay, mut taker) = Relay::new(alloc)?;
        let giver = relay.hire(&mut taker).ok_or(AllocError)?;
        let relay = Arc::new(alloc, relay)?;
        let handing = Handing {
            relay: Arc::try_clone(&relay)?,
            giver,
            each_store,
        };
        let excerpts = Excerpts {
            relay,
            taker,
            count: 0,
        };
        Ok((handing, excerpts))
    }

    /// How many were taken.
    pub fn count(&self) -> u64
        ensures { result ≡ length self.now.taken }
    {
        self.count
    }

    /// Waits for the next excerpt, and takes it. `None` where no more is handed in, and nothing lay there.
    pub fn next(&mut self, rt: &impl Wait) -> Option<Excerpt>
        ensures { MatchOption result
            (self.new ≡ self.old)
            (λ e. self.new ≡ record self.old { taken = self.old.taken ++ e ∷ [] }) }
    {
        items_are_of_their_tag::<Excerpt>();
        let count = self.count.checked_add(1)?;
        let (_tag, excerpt) = self.relay.wait_and_take(rt, &mut self.taker)?;
        self.count = count;
        Some(excerpt)
    }

    /// Looks at what was handed in: what was taken are the first of it.
    pub fn follow(&mut self, rt: &impl Wait, handing: &mut Handing)
        requires relay { handing.old.relay ≡ self.old.relay }
        ensures first { IsPrefix self.new.taken handing.new.given }
        ensures same { (self.new ≡ self.old) × (handing.new ≡ handing.old) }
    {
        self.relay
            .count_left(rt, &mut handing.giver, &mut self.taker);
    }
}

impl Handing {
    /// Hands an excerpt in, and tells whether there was memory for it.
    pub(crate) fn hand(&mut self, rt: &impl Wait, excerpt: Excerpt) -> bool
        ensures { MatchBool result
            (self.new ≡ record self.old { given = self.old.given ++ excerpt ∷ [] })
            (self.new ≡ self.old) }
    {
        self.relay.give(rt, &mut self.giver, excerpt).is_ok()
    }

    /// Whether a store ends a chapter.
    pub(crate) fn each_store(&self) -> bool
        ensures { result ≡ self.now.each_store }
    {
        self.each_store
    }

    /// Tells who takes excerpts that no more are handed in.
    pub(crate) fn close(&self, rt: &impl Wait) {
        self.relay.close(rt);
    }
}
