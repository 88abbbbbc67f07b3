//! What a WRITE_DAQ asks for.
ghost use Rattle.std.specs.Prelude.{◌≡◌, ◌≤◌, length};
ghost use Rattle.xcp_daq.specs.Configuring.{element_in};

use xcp_packet::Order;

/// A DAQ element, as WRITE_DAQ and WRITE_DAQ_MULTIPLE have it.
///
/// ASAM MCD-1 XCP, protocol layer, description of commands: WRITE_DAQ, WRITE_DAQ_MULTIPLE.
#[derive(Clone, Copy, Debug, PartialEq, Eq)]
pub struct DaqElement {
    /// BIT_OFFSET: 0xFF, since all bits of the element are measured.
    pub offset: u8,
    /// How many bytes it has.
    pub size: u8,
    /// The address extension.
    pub extension: u8,
    /// The address.
    pub address: u32,
}

impl DaqElement {
    /// The element in the first eight bytes, the last of which is a dummy.
    pub(crate) fn read(bytes: &[u8], order: Order) -> DaqElement
        requires { 8 ≤ length bytes.now }
        ensures { result ≡ element_in order bytes.now }
    {
        DaqElement {
            offset: bytes[0],
            size: bytes[1],
            extension: bytes[6],
            address: order.double_at(bytes, 2),
        }
    }
}
