//! What a slave that stays and its callers give to the keeper.
ghost use Rattle.std.specs.Prelude.{◌≡◌, ◌++◌, [], ◌∷◌, MatchOption, true};
ghost use Rattle.relay.specs.Ends.{IsAllTaken};
ghost use Rattle.xcp_service.specs.Parcels.{parcel_of_chapter, parcel_of_sheaf};

use crate::lag::Lag;
use crate::parcel::Parcel;
use crate::route::Route;
use crate::shelved::Shelved;
use relay::{Giver, Relay, Taker, Tray};
use std::marker::{Model, PhantomData};
use std::sync::{Mutex, MutexGuard, Wait};
use xcp_locked::{Chapter, Name, Sheaf};

/// By which chapters that were cut off, and sheaves that were handed over, go to the keeper, in order; and where the keeper says how many
/// chapters lie on the shelf.
#[derive(Drop)]
pub struct Post<N: Name, M: Route> {
    relay: Relay<Parcel<N>>,
    lag: Lag,
    shelved: Mutex<Shelved<N>>,
    of: PhantomData<M>,
}

impl<N: Name, M: Route> Model for Post<N, M> {
    ghost use Rattle.std.specs.Prelude.{◌≡◌};
    ghost use Rattle.relay.specs.Ends.{RelayId};

    ghost Value = { RelayId };

    ghost view = { λ p. p.relay };

    ghost invariant = { λ p. p.relay ≡ M.relay };
}

impl<N: Name, M: Route> Post<N, M> {
    /// The post of this relay.
    pub(crate) fn new(relay: Relay<Parcel<N>>) -> Post<N, M>
        requires { relay ≡ M.relay }
    {
        Post {
            relay,
            lag: Lag::new(),
            shelved: Mutex::new(Shelved::new()),
            of: PhantomData,
        }
    }

    /// Hands in what lies on a tray, if there is memory, and tells whether nothing lies there now.
    pub(crate) fn clear(&self, rt: &impl Wait, tray: &mut Tray<Parcel<N>>) -> bool
        requires relay { tray.old.relay ≡ M.relay }
        ensures { tray.new ≡ record tray.old { is_free = result } }
    {
        self.relay.clear(rt, tray)
    }

    /// Hands a chapter in; where there is no memory it lies on the tray, until that is cleared.
    pub(crate) fn put_chapter(
        &self,
        rt: &impl Wait,
        tray: &mut Tray<Parcel<N>>,
        chapter: Chapter<N>,
    )
        requires relay { tray.old.relay ≡ M.relay }
        requires free { tray.old.is_free ≡ true }
        ensures put { tray.new.put ≡ tray.old.put ++ parcel_of_chapter chapter ∷ [] }
        ensures same { (tray.new.relay ≡ tray.old.relay) × (tray.new.tag ≡ tray.old.tag) }
    {
        let counted = self.lag.rise(rt);
        let parcel = Parcel::of_chapter(chapter, counted);
        self.relay.put(rt, tray, parcel);
    }

    /// Hands a sheaf in; where there is no memory it lies on the tray, until that is cleared.
    pub(crate) fn put_sheaf(&self, rt: &impl Wait, tray: &mut Tray<Parcel<N>>, sheaf: Sheaf<N>)
        requires relay { tray.old.relay ≡ M.relay }
        requires free { tray.old.is_free ≡ true }
        ensures put { tray.new.put ≡ tray.old.put ++ parcel_of_sheaf sheaf ∷ [] }
        ensures same { (tray.new.relay ≡ tray.old.relay) × (tray.new.tag ≡ tray.old.tag) }
    {
        self.relay.put(rt, tray, Parcel::of_sheaf(sheaf));
    }

    /// Waits for the next parcel, and takes it. `None` where the post is closed, and nothing lay there at one moment since.
    pub(crate) fn take(
        &self,
        rt: &impl Wait,
        taker: &mut Taker<Parcel<N>>,
    ) -> Option<(u16, Parcel<N>)>
        requires relay { taker.old.relay ≡ M.relay }
        ensures taken { MatchOption result
            (taker.new ≡ taker.old)
            (λ x. taker.new ≡ record taker.old { taken = taker.old.taken ++ x ∷ [] }) }
    {
        let (tag, parcel) = self.relay.wait_and_take(rt, taker)?;
        let Parcel {
            chapter,
            sheaf,
            counted,
        } = parcel;
        if let Some(counted) = counted {
            self.lag.fall(rt, counted);
        }
        let parcel = Parcel {
            chapter,
            sheaf,
            counted: None,
        };
        Some((tag, parcel))
    }

    /// Whether nothing lay there at one moment of the call. Then all that this giver handed in was taken, in order.
    pub(crate) fn meets(&self, giver: &mut Giver<Parcel<N>>, taker: &mut Taker<Parcel<N>>) -> bool
        requires relay { (giver.old.relay ≡ M.relay) × (taker.old.relay ≡ M.relay) }
        ensures meets { result ≡ true → IsAllTaken giver.new taker.new }
        ensures same { (giver.new ≡ giver.old) × (taker.new ≡ taker.old) }
    {
        self.relay.meets(giver, taker)
    }

    /// The keeper says that these lie on the shelf.
    pub(crate) fn shelve(&self, rt: &impl Wait, shelved: Shelved<N>) {
        *self.shelved.lock(rt) = shelved;
    }

    /// What the keeper said last that lies on the shelf, while it is held.
    pub(crate) fn shelved<W: Wait>(&self, rt: &W) -> MutexGuard<'_, Shelved<N>> {
        self.shelved.lock(rt)
    }

    /// Whether a chapter lies there that the keeper has not taken yet. It may take it at once.
    pub fn is_behind(&self, rt: &impl Wait) -> bool {
        self.lag.is_behind(rt)
    }

    /// Waits while two or more chapters lie there, until the post is closed. So who makes calls faster than the keeper settles
    /// them can't make the journal grow without bounds.
    pub fn wait_for_keeper(&self, rt: &impl Wait) {
        self.lag.wait(rt);
    }

    /// Tells the keeper that it need not wait any more. What was handed in can still be taken.
    pub fn close(&self, rt: &impl Wait) {
        self.lag.close(rt);
        self.relay.close(rt);
    }
}
