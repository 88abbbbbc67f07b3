//! The mode of a segment.
ghost use Rattle.std.specs.Prelude.{⊤, ◌≡◌, [], ◌∷◌, codes, true, false, IfSome, IfNone};
ghost use Rattle.xcp_memory.specs.Freeze.{is_segment_mode};

use bitflags::{Flag, Flags, bitflag_items};

/// A mode of SET_SEGMENT_MODE, a set of bits.
#[derive(Clone, Copy, Debug, PartialEq, Eq)]
pub(crate) struct SegmentMode(u8);

bitflag_items! {
    impl SegmentMode: u8 {
        /// What stands on the tool's page is kept by a store.
        const FREEZE = 0x01;
    }
}

impl Flags for SegmentMode {
    type Bits = u8;

    ghost exact = { ⊤ };

    ghost table = { (codes "FREEZE", 0x01) ∷ [] };

    ghost set_of = { λ s. s.0 };

    fn flags<'a>() -> &'a [Flag<SegmentMode>] {
        SegmentMode::FLAGS
    }

    fn bits(&self) -> u8 {
        self.0
    }

    fn from_bits_retain(bits: u8) -> SegmentMode {
        SegmentMode(bits)
    }
}

impl SegmentMode {
    /// The mode of these bits, if there is one: no bit but FREEZE is set.
    pub(crate) fn of(bits: u8) -> Option<SegmentMode>
        ensures some { IfSome result (λ mode. (is_segment_mode bits ≡ true) × (mode.0 ≡ bits)) }
        ensures none { IfNone result (is_segment_mode bits ≡ false) }
    {
        SegmentMode::from_bits(bits)
    }
}
