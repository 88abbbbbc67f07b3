//! How many buffers of the bank readers hold.
ghost use Rattle.std.specs.Prelude.{◌≡◌, ◌≤◌};
ghost use Rattle.xcp_bank.specs.BankEnds.{HeldDoes};

use crate::{Locked, Name};

impl<N: Name> Locked<N> {
    /// How many of the seven buffers that aren't current readers still hold, those included that were
    /// dropped while they held one: at most six. Nothing is executed or published.
    pub fn held(&mut self) -> u8
        ensures most { result ≤ 6 }
        ensures same { (self.new.slave ≡ self.old.slave) × (self.new.journal ≡ self.old.journal)
            × (self.new.writer.publications ≡ self.old.writer.publications) }
        ensures does { HeldDoes result self.old.writer self.new.writer }
    {
        self.publisher.writer.held()
    }
}
