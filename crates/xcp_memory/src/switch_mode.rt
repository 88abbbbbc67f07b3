//! The mode of SET_CAL_PAGE.
ghost use Rattle.std.specs.Prelude.{⊤, ◌≡◌, [], ◌∷◌, codes, true, false, IfSome, IfNone};
ghost use Rattle.xcp_memory.specs.PageSwitch.{is_switch_mode};

use bitflags::{Flag, Flags, bitflag_items};

/// A mode of SET_CAL_PAGE, a set of bits.
#[derive(Clone, Copy, Debug, PartialEq, Eq)]
pub(crate) struct SwitchMode(u8);

bitflag_items! {
    impl SwitchMode: u8 {
        /// The controller gets the page.
        const ECU = 0x01;
        /// The tool gets the page.
        const XCP = 0x02;
        /// All segments are concerned.
        const ALL = 0x80;
    }
}

impl Flags for SwitchMode {
    type Bits = u8;

    ghost exact = { ⊤ };

    ghost table = { (codes "ECU", 0x01) ∷ (codes "XCP", 0x02) ∷ (codes "ALL", 0x80) ∷ [] };

    ghost set_of = { λ s. s.0 };

    fn flags<'a>() -> &'a [Flag<SwitchMode>] {
        SwitchMode::FLAGS
    }

    fn bits(&self) -> u8 {
        self.0
    }

    fn from_bits_retain(bits: u8) -> SwitchMode {
        SwitchMode(bits)
    }
}

impl SwitchMode {
    /// The mode of these bits, if there is one: it names a side, and has no bit without a meaning.
    pub(crate) fn of(bits: u8) -> Option<SwitchMode>
        ensures some { IfSome result (λ mode. (is_switch_mode bits ≡ true) × (mode.0 ≡ bits)) }
        ensures none { IfNone result (is_switch_mode bits ≡ false) }
    {
        let mode = SwitchMode::from_bits(bits)?;
        if mode.contains(SwitchMode::ECU) || mode.contains(SwitchMode::XCP) {
            return Some(mode);
        }
        None
    }
}
