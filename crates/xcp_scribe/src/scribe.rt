//! What is given the chapters of a journal.
ghost use Rattle.std.specs.Prelude.{◌≡◌, ◌≤◌, ◌++◌, [], ◌∷◌, List, ⊤, length, true, MatchOption};
ghost use Rattle.xcp_record.specs.FileFormat.{most_calls};
ghost use Rattle.xcp_scribe.specs.Given.{Given};

use xcp_slave::Slave;
use xcp_trace::Entries;

/// Is given the chapters of a journal to write down, in order: of each its calls, and the slave with which it ends.
pub trait Scribe: Drop {
    /// It was given these chapters, in this order, and no others.
    ghost wrote: { Self → List Given → Type 0 };

    /// What tools asked to have stored, up to the end of the last of these chapters, is where it has to be, if it keeps such.
    ghost shelved: { Self → List Given → Type 0 };

    /// Writes the next chapter down. Where that can't be done, it is kept in mind, and whoever gives them goes on.
    fn write(&mut self, calls: Entries<'_>, last: &Slave)
        requires { length calls ≤ most_calls }
        ensures { (given : List Given) → wrote self.old given
            → wrote self.new (given ++ record { calls = calls.entry; last = last.now } ∷ []) };

    /// Whether what tools asked to have stored is where it has to be, so that they may be told.
    fn is_shelved(&self) -> bool
        ensures { result ≡ true → (given : List Given) → wrote self.now given → shelved self.now given };
}

/// Nobody writes anything down.
impl Scribe for () {
    ghost wrote = { λ _ _. ⊤ };

    ghost shelved = { λ _ _. ⊤ };

    fn write(&mut self, _calls: Entries<'_>, _last: &Slave) {}

    fn is_shelved(&self) -> bool {
        true
    }
}

/// Without a scribe nothing is written down.
impl<S: Scribe> Scribe for Option<S> {
    ghost wrote = { λ s given. MatchOption s ⊤ (λ scribe. S.wrote scribe given) };

    ghost shelved = { λ s given. MatchOption s ⊤ (λ scribe. S.shelved scribe given) };

    fn write(&mut self, calls: Entries<'_>, last: &Slave) {
        if let Some(scribe) = self {
            scribe.write(calls, last);
        }
    }

    fn is_shelved(&self) -> bool {
        match self {
            Some(scribe) => scribe.is_shelved(),
            None => true,
        }
    }
}
