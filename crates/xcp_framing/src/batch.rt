//! Packets that go from one thread to another together.
ghost use Rattle.std.specs.Prelude.{◌≡◌, ◌≤◌, [], ◌∷◌, ◌++◌, MatchOption, OnOk, OnErr, true, length};

use std::alloc::{AllocError, Global};
use std::marker::Model;
use xcp_packet::Packet;
use xcp_trace::{Strings, Tape};

/// The bytes that a batch takes at once.
const BATCH_SIZE: usize = 4096;

/// The bytes beside a packet's own that it takes in a batch.
const LENGTH_SIZE: usize = 2;

/// The most bytes that the packets of one answer take in a batch: 37 packets with 255 bytes of data,
/// a byte before the data of each, and their lengths.
const ANSWER_SIZE: usize = 366;

/// Packets, one behind another in one piece of memory. It moves by its pointer, however many they
/// are.
#[derive(Drop)]
pub struct Batch {
    tape: Tape,
    // How many bytes are free of those that were taken at once.
    free: usize,
}

impl Model for Batch {
    ghost use Rattle.std.specs.Prelude.{◌≤◌, ℕ, List, All, length};

    ghost Value = { List (List ℕ) };

    ghost view = { λ b. b.tape.strings };

    ghost invariant = { λ b. All (λ packet. length packet ≤ 255) b.tape.strings };
}

impl Batch {
    /// A batch of no packet. It takes no memory yet.
    pub fn new(alloc: Global) -> Batch
        ensures { result ≡ [] }
    {
        Batch {
            tape: Tape::new(alloc),
            free: 0,
        }
    }

    /// Takes memory for packets of 4,096 bytes with their lengths.
    pub fn take_room(&mut self) -> Result<(), AllocError>
        ensures { self.new ≡ self.old }
    {
        self.tape.reserve(BATCH_SIZE)?;
        self.free = BATCH_SIZE;
        Ok(())
    }

    /// Whether the packets of one more answer find room without more memory.
    pub(crate) fn has_room(&self) -> bool {
        ANSWER_SIZE <= self.free
    }

    /// How many packets it has.
    pub fn len(&self) -> usize
        ensures { result ≡ length self.now }
    {
        self.tape.len()
    }

    /// Whether it has no packet.
    pub fn is_empty(&self) -> bool
        ensures none { result ≡ true → self.now ≡ [] }
        ensures some { self.now ≡ [] → result ≡ true }
    {
        self.len() == 0
    }

    /// Puts a packet behind the others. Where there is no memory for it, it leaves the batch as it
    /// was.
    pub fn push(&mut self, packet: &Packet) -> Result<(), AllocError>
        ensures ok { OnOk result (self.new ≡ self.old ++ packet.now.items ∷ []) }
        ensures err { OnErr result (self.new ≡ self.old) }
    {
        self.tape.reserve(packet.len())?;
        self.tape.push_whole(packet.as_slice());
        self.free = self.free.saturating_sub(LENGTH_SIZE + packet.len());
        Ok(())
    }

    /// The packets, from the first one on.
    pub fn packets(&self) -> Packets<'_>
        ensures { result ≡ self.now }
    {
        Packets {
            strings: self.tape.strings(),
        }
    }
}

/// The packets of a batch that are still to be read.
#[derive(Drop)]
pub struct Packets<'a> {
    strings: Strings<'a>,
}

impl<'a> Model for Packets<'a> {
    ghost use Rattle.std.specs.Prelude.{◌≤◌, ℕ, List, All, length};

    ghost Value = { List (List ℕ) };

    ghost view = { λ p. p.strings };

    ghost invariant = { λ p. All (λ packet. length packet ≤ 255) p.strings };
}

impl<'a> Packets<'a> {
    /// The next packet, if there is one, where it stands.
    pub fn next(&mut self) -> Option<&'a [u8]>
        ensures { MatchOption result ((self.old ≡ []) × (self.new ≡ []))
            (λ packet. (self.old ≡ packet.now ∷ self.new) × (length packet.now ≤ 255)) }
    {
        let Some(packet) = self.strings.next() else {
            return None;
        };
        Some(packet)
    }
}
