//! A shelf whose calls contracts see.
ghost use Rattle.std.specs.Prelude.{◌≡◌, ◌++◌, [], ◌∷◌, List, ℕ, true, false};
ghost use Rattle.xcp_scribe.specs.ShelfCalls.{Asked, Shelved};

use crate::asking::{Asking, Call};
use crate::shelf::Shelf;
use std::marker::Model;

/// Passes calls on to a shelf. Contracts alone see for which content each was, and whether it failed: at run time it is the shelf.
#[derive(Drop)]
pub(crate) struct WatchedShelf<F> {
    inner: F,
    calls: Asking,
}

impl<F> Model for WatchedShelf<F> {
    ghost use Rattle.xcp_scribe.specs.ShelfCalls.{Shelved, shelved_code};

    ghost Value = { Shelved F };

    ghost coded = { shelved_code F.code };

    ghost view = { λ s. record { inner = s.inner; asked = s.calls.asked } };
}

impl<F> WatchedShelf<F> {
    /// Watches the shelf from now on.
    pub(crate) fn new(inner: F) -> Self
        ensures { result ≡ record { inner = inner; asked = [] } }
    {
        WatchedShelf {
            inner,
            calls: Asking::new(),
        }
    }

    /// The shelf itself, watched no more.
    pub(crate) fn into_inner(self) -> F
        ensures { result ≡ self.inner }
    {
        let WatchedShelf { inner, calls: _ } = self;
        inner
    }
}

impl<F: Shelf> WatchedShelf<F> {
    /// One call of the shelf.
    pub(crate) fn replace(&mut self, file: &[u8]) -> bool
        ensures put { result ≡ true → F.holds self.new.inner file.now }
        ensures kept { result ≡ false → (bytes : List ℕ) → F.holds self.old.inner bytes → F.holds self.new.inner bytes }
        ensures asked { self.new.asked ≡ self.old.asked ++ record { file = file.now; put = result } ∷ [] }
    {
        let put = self.inner.replace(file);
        let call = Call { file, put };
        self.calls = Asking::more(&self.calls, &call);
        put
    }
}
