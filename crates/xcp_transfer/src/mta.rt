//! The memory transfer address.

/// A text that a tool can upload.
#[derive(Clone, Copy, Debug, PartialEq, Eq)]
pub enum TextId {
    /// The identification, which GET_ID tells of.
    Id,
    /// The name of the event channel with this number, which GET_DAQ_EVENT_INFO tells of.
    Name(u8),
    /// The name of the A2L file, of which GET_ID tells.
    A2lName,
    /// The A2L file itself, of which GET_ID tells.
    A2lFile,
    /// What identifies the A2L file, its EPK, of which GET_ID tells.
    Epk,
}

/// The memory transfer address (MTA): where the next transfer begins.
///
/// ASAM MCD-1 XCP, protocol layer, description of commands: SET_MTA.
#[derive(Clone, Copy, Debug, PartialEq, Eq)]
pub enum Mta {
    /// No address was set since the session began.
    Nowhere,
    /// An address, of any value: the access checks it.
    Memory(u32),
    /// A text, and the place in it; the first byte has place 0.
    Text(TextId, u32),
}
