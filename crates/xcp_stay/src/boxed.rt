//! A scribe in a box.

use std::boxed::Box;
use xcp_scribe::Scribe;
use xcp_slave::Slave;
use xcp_trace::Entries;

/// A scribe whose size nobody has to know through whose hands it goes.
#[derive(Drop)]
pub(crate) struct Boxed<S: Scribe> {
    pub(crate) scribe: Box<S>,
}

impl<S: Scribe> Scribe for Boxed<S> {
    ghost wrote = { λ b given. S.wrote b.scribe.value given };

    ghost shelved = { λ b given. S.shelved b.scribe.value given };

    fn write(&mut self, calls: Entries<'_>, last: &Slave) {
        self.scribe.as_mut().write(calls, last);
    }

    fn is_shelved(&self) -> bool {
        self.scribe.as_ref().is_shelved()
    }
}
