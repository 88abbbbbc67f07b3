//! A block under way.
ghost use Rattle.std.specs.Prelude.{◌≡◌, ◌≢◌, MatchBool, ◌≤◌, ◌+◌, length};
ghost use Rattle.xcp_transfer.specs.Downloads.{block_with};

use std::marker::Model;
use xcp_packet::Data;

/// The block that a DOWNLOAD began: its first address, how many bytes are still expected, and the
/// bytes that have come so far.
#[derive(Drop)]
pub(crate) struct Block {
    address: u32,
    expected: u8,
    bytes: Data,
}

impl Model for Block {
    ghost use Rattle.xcp_transfer.specs.TransferValue.{BlockValue};

    ghost Value = { BlockValue };

    ghost view = { λ b. record { address = b.address; expected = b.expected; bytes = b.bytes.items } };
}

impl Block {
    /// A block that has begun with these bytes.
    pub(crate) fn begin(address: u32, expected: u8, bytes: &[u8]) -> Block
        requires { length bytes.now ≤ 255 }
        ensures { result ≡ record { address = address; expected = expected; bytes = bytes.now } }
    {
        let mut begun = Data::new();
        let _ = begun.try_extend_from_slice(bytes);
        Block {
            address,
            expected,
            bytes: begun,
        }
    }

    /// An equal block.
    pub(crate) fn copy(&self) -> Block
        ensures { result ≡ self.now }
    {
        Block::begin(self.address, self.expected, &self.bytes)
    }

    /// Whether both blocks are equal.
    pub(crate) fn same(&self, other: &Block) -> bool
        ensures { MatchBool result (self.now ≡ other.now) (self.now ≢ other.now) }
    {
        self.address == other.address
            && self.expected == other.expected
            && self.bytes.as_slice() == other.bytes.as_slice()
    }

    /// The first address.
    pub(crate) fn address(&self) -> u32
        ensures { result ≡ self.now.address }
    {
        self.address
    }

    /// How many bytes are still expected.
    pub(crate) fn expected(&self) -> u8
        ensures { result ≡ self.now.expected }
    {
        self.expected
    }

    /// The bytes so far.
    pub(crate) fn bytes(&self) -> &[u8]
        ensures { result.now ≡ self.now.bytes }
    {
        &self.bytes
    }

    /// Adds bytes that were expected.
    pub(crate) fn add(&mut self, bytes: &[u8])
        requires expected { length bytes.now ≤ self.old.expected }
        requires room { length self.old.bytes + length bytes.now ≤ 255 }
        ensures { self.new ≡ block_with self.old bytes.now }
    {
        self.expected -= bytes.len() as u8;
        let _ = self.bytes.try_extend_from_slice(bytes);
    }
}
