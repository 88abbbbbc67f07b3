// A buffer that a writer could take.
ghost use Rattle.std.specs.Prelude.{ℕ, ◌<◌, ◌↔◌, IsTrue};
ghost use Rattle.pin_core.specs.StateInvariant.{holders, IsIdle};

use crate::pins::Core;
use crate::reader::Reader;

impl Core {
    /// The least buffer that is not current and that nobody holds. There always is one: the six readers
    /// hold six buffers at most.
    pub fn idle(&self) -> u8
        ensures idle { IsIdle self.now result }
        ensures least { (b : ℕ) → b < result → ¬ IsIdle self.now b }
    {
        for b in 0..7 {
            if b != self.index && !is_held(&self.readers, b) {
                return b;
            }
        }
        7
    }
}

fn is_held(readers: &[Reader], b: u8) -> bool
    ensures { IsTrue result ↔ (0 < holders b readers.now) }
{
    for reader in readers {
        if reader.holds(b) {
            return true;
        }
    }
    false
}
