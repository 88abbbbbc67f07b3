//! The properties of a page.
ghost use Rattle.std.specs.Prelude.{⊤, ◌≡◌, [], ◌∷◌, codes};
ghost use Rattle.xcp_slave.specs.PageRows.{page_properties};

use bitflags::{Flag, Flags, bitflag_items};

/// The properties of a page as GET_PAGE_INFO tells them, a set of bits.
#[derive(Clone, Copy, Debug, PartialEq, Eq)]
pub struct PageProperties(u8);

bitflag_items! {
    impl PageProperties: u8 {
        /// The controller has the page while the tool has another.
        const ECU_WITHOUT_XCP = 0x01;
        /// The controller has the page while the tool has it.
        const ECU_WITH_XCP = 0x02;
        /// The tool reads the page while the controller has another.
        const XCP_READ_WITHOUT_ECU = 0x04;
        /// The tool reads the page while the controller has it.
        const XCP_READ_WITH_ECU = 0x08;
        /// The tool writes the page while the controller has another.
        const XCP_WRITE_WITHOUT_ECU = 0x10;
        /// The tool writes the page while the controller has it.
        const XCP_WRITE_WITH_ECU = 0x20;
    }
}

impl Flags for PageProperties {
    type Bits = u8;

    ghost exact = { ⊤ };

    ghost table = { (codes "ECU_WITHOUT_XCP", 0x01) ∷ (codes "ECU_WITH_XCP", 0x02) ∷ (codes "XCP_READ_WITHOUT_ECU", 0x04) ∷ (codes "XCP_READ_WITH_ECU", 0x08) ∷ (codes "XCP_WRITE_WITHOUT_ECU", 0x10) ∷ (codes "XCP_WRITE_WITH_ECU", 0x20) ∷ [] };

    ghost set_of = { λ s. s.0 };

    fn flags<'a>() -> &'a [Flag<PageProperties>] {
        PageProperties::FLAGS
    }

    fn bits(&self) -> u8 {
        self.0
    }

    fn from_bits_retain(bits: u8) -> PageProperties {
        PageProperties(bits)
    }
}

impl PageProperties {
    /// The properties of page 0, which nobody writes, or of any other.
    pub(crate) fn bits_of(page: u8) -> u8
        ensures { result ≡ page_properties page }
    {
        let mut properties = PageProperties(0);
        properties.insert(PageProperties::ECU_WITHOUT_XCP);
        properties.insert(PageProperties::ECU_WITH_XCP);
        properties.insert(PageProperties::XCP_READ_WITHOUT_ECU);
        properties.insert(PageProperties::XCP_READ_WITH_ECU);
        if page != 0 {
            properties.insert(PageProperties::XCP_WRITE_WITHOUT_ECU);
            properties.insert(PageProperties::XCP_WRITE_WITH_ECU);
        }
        properties.0
    }
}
