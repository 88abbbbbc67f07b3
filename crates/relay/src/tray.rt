//! A place for an item that can't be handed in yet.
ghost use Rattle.std.specs.Prelude.{◌≡◌, [], ◌∷◌, ◌++◌, true, false, MatchResult};

use crate::ends::Giver;
use crate::relay::Relay;
use std::marker::Model;
use std::sync::Wait;

/// A giver with a place for one item. So there is room for an item before it is made, and it isn't refused: where there is no memory,
/// it waits on the tray. Contracts see all items that were put, in order, the one on the tray among them.
#[derive(Drop)]
pub struct Tray<T> {
    giver: Giver<T>,
    item: Option<T>,
}

impl<T> Model for Tray<T> {
    ghost use Rattle.std.specs.Prelude.{◌++◌, is_none, option_to_list};
    ghost use Rattle.relay.specs.Ends.{TrayValue};

    ghost Value = { TrayValue T };

    ghost view = { λ t. record { relay = t.giver.relay; tag = t.giver.tag; put = t.giver.given ++ option_to_list t.item; is_free = is_none t.item } };
}

impl<T> Tray<T> {
    /// A tray on which nothing lies.
    pub fn new(giver: Giver<T>) -> Tray<T>
        ensures { result ≡ record { relay = giver.relay; tag = giver.tag; put = giver.given; is_free = true } }
    {
        Tray { giver, item: None }
    }

    /// The giver, which has handed in all that was put. The tray comes back where an item lies on it.
    pub fn into_giver(self) -> Result<Giver<T>, Tray<T>>
        ensures { MatchResult result
            (λ g. (self.is_free ≡ true) × (g ≡ record { relay = self.relay; tag = self.tag; given = self.put }))
            (λ back. (self.is_free ≡ false) × (back ≡ self)) }
    {
        let Tray { giver, item } = self;
        match item {
            None => Ok(giver),
            Some(item) => {
                let item = Some(item);
                Err(Tray { giver, item })
            }
        }
    }
}

impl<T: Drop> Relay<T> {
    /// Hands in what lies on the tray, if there is memory, and tells whether nothing lies there now.
    pub fn clear<R: Wait>(&self, rt: &R, tray: &mut Tray<T>) -> bool
        requires relay { tray.old.relay ≡ self.now }
        ensures { tray.new ≡ record tray.old { is_free = result } }
    {
        let Some(item) = tray.item.take() else {
            return true;
        };
        let Err(back) = self.give(rt, &mut tray.giver, item) else {
            return true;
        };
        tray.item = Some(back);
        false
    }

    /// Hands an item in; where there is no memory it lies on the tray, until that is cleared.
    pub fn put<R: Wait>(&self, rt: &R, tray: &mut Tray<T>, item: T)
        requires relay { tray.old.relay ≡ self.now }
        requires free { tray.old.is_free ≡ true }
        ensures put { tray.new.put ≡ tray.old.put ++ item ∷ [] }
        ensures same { (tray.new.relay ≡ tray.old.relay) × (tray.new.tag ≡ tray.old.tag) }
    {
        if let Err(back) = self.give(rt, &mut tray.giver, item) {
            tray.item = Some(back);
        }
    }
}
