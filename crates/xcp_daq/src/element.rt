//! What an ODT entry reads.
ghost use Rattle.std.specs.Prelude.{◌≡◌};
ghost use Rattle.xcp_memory.specs.ComputedAccess.{lies_inside};

use xcp_memory::Layout;

/// An element of the controller's memory, which an ODT entry reads.
///
/// ASAM MCD-1 XCP, protocol layer, description of commands: WRITE_DAQ.
#[derive(Clone, Copy, Debug, PartialEq, Eq)]
pub struct Element {
    /// How many bytes it has: 1 to MAX_DTO - 1.
    pub size: u8,
    /// The address of its first byte.
    pub address: u32,
}

/// Whether a range lies in one area of the layout.
pub(crate) fn lies_inside(layout: &Layout, address: u32, size: u8) -> bool
    ensures { result ≡ lies_inside layout.now address size }
{
    layout.segment_of(address, size as usize).is_some()
        || layout.is_in_signals(address, size as usize)
}
