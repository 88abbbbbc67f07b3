//! Two scribes as one.

use crate::scribe::Scribe;
use xcp_slave::Slave;
use xcp_trace::Entries;

/// Two scribes that are given the same chapters, the first one of each before the second.
#[derive(Drop)]
pub struct Both<A: Scribe, B: Scribe> {
    pub first: A,
    pub second: B,
}

impl<A: Scribe, B: Scribe> Scribe for Both<A, B> {
    ghost wrote = { λ s given. A.wrote s.first given × B.wrote s.second given };

    ghost shelved = { λ s given. A.shelved s.first given × B.shelved s.second given };

    fn write(&mut self, calls: Entries<'_>, last: &Slave) {
        let again = calls.again();
        self.first.write(calls, last);
        self.second.write(again, last);
    }

    fn is_shelved(&self) -> bool {
        self.first.is_shelved() && self.second.is_shelved()
    }
}
