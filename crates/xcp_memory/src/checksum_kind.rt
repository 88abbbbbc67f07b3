//! The types of checksums.
ghost use Rattle.std.specs.Prelude.{◌≡◌, ◌≤◌, ◌<◌, Bool, not, [], ◌∷◌, Some, OnOk, IfErr};
ghost use Rattle.xcp_packet.specs.Rows.{first_holding};
ghost use Rattle.xcp_memory.specs.Checksum.{checksum_number, unit, sum_refusal};
ghost use Rattle.xcp_memory.specs.LayoutParts.{kind_numbered};

use xcp_packet::Code;

/// The type of a checksum: which numbers are added, and how wide their sum is.
///
/// ASAM MCD-1 XCP, protocol layer, description of commands: BUILD_CHECKSUM.
#[derive(Clone, Copy, Debug, PartialEq, Eq)]
pub enum ChecksumKind {
    /// XCP_ADD_11: bytes are added into a byte.
    Add11 = 1,
    /// XCP_ADD_12: bytes are added into a word.
    Add12 = 2,
    /// XCP_ADD_14: bytes are added into a double word.
    Add14 = 3,
    /// XCP_ADD_22: words are added into a word.
    Add22 = 4,
    /// XCP_ADD_24: words are added into a double word.
    Add24 = 5,
    /// XCP_ADD_44: double words are added into a double word.
    Add44 = 6,
}

impl ChecksumKind {
    /// The number that stands in the answer to BUILD_CHECKSUM.
    pub fn number(self) -> u8
        ensures value { result ≡ checksum_number self }
        ensures least { 1 ≤ result }
        ensures most { result ≤ 6 }
        ensures kind { kind_numbered result ≡ self }
    {
        self as u8
    }

    /// The type with a number from 1 to 6.
    pub(crate) fn of_number(number: u8) -> ChecksumKind
        ensures { result ≡ kind_numbered number }
    {
        match number {
            1 => ChecksumKind::Add11,
            2 => ChecksumKind::Add12,
            3 => ChecksumKind::Add14,
            4 => ChecksumKind::Add22,
            5 => ChecksumKind::Add24,
            _ => ChecksumKind::Add44,
        }
    }

    /// Whether so many bytes can be summed up: `OutOfRange` for none, then where they are no whole
    /// number of words or double words.
    ///
    /// ASAM MCD-1 XCP, protocol layer, description of commands: BUILD_CHECKSUM.
    pub fn check_size(self, size: u32) -> Result<(), Code>
        ensures ok { OnOk result ((lies : Bool) → sum_refusal self lies size ≡ first_holding ((not lies, Code.AccessDenied) ∷ [])) }
        ensures refused { IfErr result (λ code. (lies : Bool) → sum_refusal self lies size ≡ Some code) }
    {
        if size == 0 || size % self.unit() != 0 {
            return Err(Code::OutOfRange);
        }
        Ok(())
    }

    /// How many bytes each of the numbers has that are added.
    fn unit(self) -> u32
        ensures value { result ≡ unit self }
        ensures some { 0 < result }
    {
        match self {
            ChecksumKind::Add11 | ChecksumKind::Add12 | ChecksumKind::Add14 => 1,
            ChecksumKind::Add22 | ChecksumKind::Add24 => 2,
            ChecksumKind::Add44 => 4,
        }
    }
}
