//! The order of the bytes of a number. This file alone knows where the lowest byte stands.
ghost use Rattle.std.specs.Prelude.{◌≡◌, ◌≤◌, ◌+◌, length};
ghost use Rattle.xcp_packet.specs.ByteOrder.{byte_order, word_at, double_at, word_bytes, double_bytes};

use byteorder::{BigEndian, ByteOrder, LittleEndian};

/// The byte order of words (two bytes) and double words (four bytes) in packets.
///
/// ASAM MCD-1 XCP, protocol layer, description of commands: CONNECT, BYTE_ORDER of COMM_MODE_BASIC.
#[derive(Clone, Copy, Debug, PartialEq, Eq)]
pub enum Order {
    /// The lowest byte first.
    Intel,
    /// The highest byte first.
    Motorola,
}

impl Order {
    /// BYTE_ORDER, bit 0 of COMM_MODE_BASIC in the answer to CONNECT: 1 for Motorola.
    pub fn bit(self) -> u8
        ensures value { result ≡ byte_order self }
        ensures range { result ≤ 1 }
    {
        match self {
            Order::Intel => 0,
            Order::Motorola => 1,
        }
    }

    /// The word whose first byte has this place; the first of the bytes has place 0.
    pub fn word_at(self, bytes: &[u8], place: usize) -> u16
        requires { place + 2 ≤ length bytes.now }
        ensures { result ≡ word_at self place bytes.now }
    {
        match self {
            Order::Intel => LittleEndian::read_u16(&bytes[place..]),
            Order::Motorola => BigEndian::read_u16(&bytes[place..]),
        }
    }

    /// The double word whose first byte has this place; the first of the bytes has place 0.
    pub fn double_at(self, bytes: &[u8], place: usize) -> u32
        requires { place + 4 ≤ length bytes.now }
        ensures { result ≡ double_at self place bytes.now }
    {
        match self {
            Order::Intel => LittleEndian::read_u32(&bytes[place..]),
            Order::Motorola => BigEndian::read_u32(&bytes[place..]),
        }
    }

    /// The two bytes of a word.
    pub(crate) fn word_bytes(self, value: u16) -> [u8; 2]
        ensures { result ≡ word_bytes self value }
    {
        let mut bytes = [0; 2];
        match self {
            Order::Intel => LittleEndian::write_u16(&mut bytes, value),
            Order::Motorola => BigEndian::write_u16(&mut bytes, value),
        }
        bytes
    }

    /// The four bytes of a double word.
    pub fn double_bytes(self, value: u32) -> [u8; 4]
        ensures { result ≡ double_bytes self value }
    {
        let mut bytes = [0; 4];
        match self {
            Order::Intel => LittleEndian::write_u32(&mut bytes, value),
            Order::Motorola => BigEndian::write_u32(&mut bytes, value),
        }
        bytes
    }
}
