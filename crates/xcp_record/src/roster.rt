//! Who the callers of a journal are.
ghost use Rattle.std.specs.Prelude.{◌≡◌};
ghost use Rattle.xcp_record.specs.FileFormat.{roster_bytes};

/// How many callers of each kind a server has, which numbers them from 0: first those that ask for its tools, then its tasks, then those
/// that pump the tools' DTOs out, and at last the one that tells the time, in a server that has it.
#[derive(Clone, Copy, Debug, PartialEq, Eq)]
pub struct Roster {
    /// Those that ask for tools.
    pub tools: u8,
    /// Those that give events.
    pub tasks: u8,
    /// Those that take DTOs for tools.
    pub pumps: u8,
    /// Those that tell the time, 0 or 1.
    pub clocks: u8,
}

impl Roster {
    /// The bytes of a file's head that say it.
    pub(crate) fn bytes(self) -> [u8; 4]
        ensures { result ≡ roster_bytes self }
    {
        [self.tools, self.tasks, self.pumps, self.clocks]
    }
}
