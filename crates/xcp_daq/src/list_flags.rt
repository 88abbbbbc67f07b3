//! The mode byte of GET_DAQ_LIST_MODE.
ghost use Rattle.std.specs.Prelude.{⊤, ◌≡◌, ◌+◌, if◌then◌else◌, [], ◌∷◌, codes};

use bitflags::{Flag, Flags, bitflag_items};

/// The mode of a DAQ list as GET_DAQ_LIST_MODE is told it, a set of bits.
#[derive(Clone, Copy, Debug, PartialEq, Eq)]
pub(crate) struct ListFlags(u8);

bitflag_items! {
    impl ListFlags: u8 {
        /// The list is selected.
        const SELECTED = 0x01;
        /// Its samples have a time stamp.
        const TIMESTAMP = 0x10;
        /// The list runs.
        const RUNNING = 0x40;
    }
}

impl Flags for ListFlags {
    type Bits = u8;

    ghost exact = { ⊤ };

    ghost table = { (codes "SELECTED", 0x01) ∷ (codes "TIMESTAMP", 0x10) ∷ (codes "RUNNING", 0x40) ∷ [] };

    ghost set_of = { λ s. s.0 };

    fn flags<'a>() -> &'a [Flag<ListFlags>] {
        ListFlags::FLAGS
    }

    fn bits(&self) -> u8 {
        self.0
    }

    fn from_bits_retain(bits: u8) -> ListFlags {
        ListFlags(bits)
    }
}

impl ListFlags {
    /// The bits of a list that is selected, that has time stamps, that runs.
    pub(crate) fn bits_of(selected: bool, stamped: bool, running: bool) -> u8
        ensures { result ≡ (if selected then 0x01 else 0) + (if stamped then 0x10 else 0) + (if running then 0x40 else 0) }
    {
        let mut flags = ListFlags(0);
        if selected {
            flags.insert(ListFlags::SELECTED);
        }
        if stamped {
            flags.insert(ListFlags::TIMESTAMP);
        }
        if running {
            flags.insert(ListFlags::RUNNING);
        }
        flags.0
    }
}
