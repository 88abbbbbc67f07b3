// What one reader knows, and how its own events change that.
ghost use Rattle.std.specs.Prelude.{◌≡◌, ◌≢◌, ◌↔◌, ◌⊎◌, ◌-◌, ◌<◌, ◌||◌, true, IsTrue, if◌then◌else◌, Some, None};
ghost use Rattle.pin_core.specs.State.{newcomer};
ghost use Rattle.pin_core.specs.Effects.{looking, pinning, leaving};
ghost use Rattle.pin_core.specs.StateInvariant.{at_buffer};

use std::marker::Model;

/// Contracts see it as the reader's part of the state.
#[derive(Drop)]
pub(crate) struct Reader {
    held: Option<(u8, usize)>,
    looked: u8,
    seen: usize,
    gone: bool,
}

impl Model for Reader {
    ghost use Rattle.pin_core.specs.State.{Reader as Knows};

    ghost Value = { Knows };

    ghost view = { λ r. record { held = r.held; looked = r.looked; seen = r.seen; gone = r.gone } };
}

impl Reader {
    pub(crate) fn new() -> Reader
        ensures { result ≡ newcomer }
    {
        Reader {
            held: None,
            looked: 0,
            seen: 1,
            gone: false,
        }
    }

    pub(crate) fn is_gone(&self) -> bool
        ensures { result ≡ self.now.gone }
    {
        self.gone
    }

    /// The buffer that it holds, and the number of the publication there.
    pub(crate) fn held(&self) -> Option<(u8, usize)>
        ensures { result ≡ self.now.held }
    {
        self.held
    }

    pub(crate) fn holds(&self, b: u8) -> bool
        ensures { (if result then 1 else 0) ≡ at_buffer b self.now.held }
    {
        match self.held {
            Some((held, _)) => held == b,
            None => false,
        }
    }

    /// It may give buffer `b` back: it has seen that another one is current, or it leaves for good.
    pub(crate) fn can_leave(&self, b: u8, last: bool) -> bool
        ensures { IsTrue result ↔ ((self.now.looked ≢ b) ⊎ (last ≡ true)) }
    {
        self.looked != b || last
    }

    /// This reader once it has seen the current buffer, with so many publications.
    pub(crate) fn looking(&self, index: u8, published: usize) -> Reader
        ensures { result ≡ looking index published self.now }
    {
        Reader {
            held: self.held,
            looked: index,
            seen: published,
            gone: self.gone,
        }
    }

    /// This reader once it holds the current buffer, with the last of so many publications.
    pub(crate) fn pinning(&self, index: u8, published: usize) -> Reader
        requires { 0 < published }
        ensures { result ≡ pinning index published self.now }
    {
        Reader {
            held: Some((index, published - 1)),
            looked: index,
            seen: published,
            gone: self.gone,
        }
    }

    /// This reader once it holds nothing, and where this was its last event, is gone.
    pub(crate) fn leaving(&self, last: bool) -> Reader
        ensures { result ≡ leaving last self.now }
    {
        Reader {
            held: None,
            looked: self.looked,
            seen: self.seen,
            gone: self.gone || last,
        }
    }
}
