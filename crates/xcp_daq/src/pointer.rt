//! The DAQ pointer.

/// The DAQ pointer: the ODT entry that WRITE_DAQ writes and READ_DAQ reads next.
///
/// ASAM MCD-1 XCP, protocol layer, description of commands: SET_DAQ_PTR.
#[derive(Clone, Copy, Debug, PartialEq, Eq)]
pub struct Pointer {
    /// The number of the DAQ list.
    pub list: u16,
    /// The number of the ODT in its list.
    pub odt: u8,
    /// The number of the entry in its ODT. SET_DAQ_PTR can name one of the first 256; the pointer moves on to those behind.
    pub entry: u16,
}
