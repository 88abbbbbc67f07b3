//! What of a chapter is written down.
ghost use Rattle.std.specs.Prelude.{◌≡◌, ◌≤◌, IfOk, length};
ghost use Rattle.xcp_locked.specs.Excerpts.{excerpt_of};
ghost use Rattle.xcp_locked.specs.Journal.{journal_limit};

use crate::{Chapter, Name};
use std::alloc::AllocError;
use std::marker::Model;
use std::sync::Arc;
use xcp_slave::Slave;
use xcp_trace::{Entries, Journal};

/// A chapter's calls and the slave with which it ends, which its chapter has too.
#[derive(Drop)]
pub struct Excerpt {
    calls: Arc<Journal>,
    last: Arc<Slave>,
}

impl Model for Excerpt {
    ghost use Rattle.std.specs.Prelude.{◌≤◌, length};
    ghost use Rattle.std.specs.Arc.{arc_value};
    ghost use Rattle.xcp_locked.specs.Excerpts.{ExcerptValue};
    ghost use Rattle.xcp_locked.specs.Journal.{journal_limit};

    ghost Value = { ExcerptValue };

    ghost view = { λ e. record { calls = (arc_value e.calls).entries; last = arc_value e.last } };

    ghost invariant = { λ e. length (arc_value e.calls).entries ≤ journal_limit };
}

impl Excerpt {
    /// The chapter's calls, from the first one on.
    pub fn entries(&self) -> Entries<'_>
        ensures { result ≡ self.now.calls }
    {
        self.calls.entries()
    }

    /// The slave where the chapter ends.
    pub fn last(&self) -> &Slave
        ensures { result.now ≡ self.now.last }
    {
        &self.last
    }

    /// Does nothing: its contract says what the type keeps.
    pub fn known(&self)
        ensures few { length self.now.calls ≤ journal_limit }
    {
        let _ = &self.last;
    }
}

impl<N: Name> Chapter<N> {
    /// An excerpt of it. Nothing is copied.
    pub fn excerpt(&self) -> Result<Excerpt, AllocError>
        ensures { IfOk result (λ e. e ≡ excerpt_of self.now) }
    {
        Ok(Excerpt {
            calls: Arc::try_clone(&self.cut.entries)?,
            last: Arc::try_clone(&self.cut.last)?,
        })
    }
}
