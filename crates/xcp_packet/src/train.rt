//! The packets of one answer: one, or a block of data bytes in several.
ghost use Rattle.std.specs.Prelude.{◌≡◌, ◌≢◌, ◌≤◌, ◌<◌, [], ◌∷◌, drop, length, slice_get, take, IfSome, MatchBool, MatchOption, Some};
ghost use Rattle.xcp_packet.specs.PacketTrains.{block_packets, packets_in};

use crate::replying::write_bytes;
use crate::words::append;
use crate::{Data, Packet};
use std::marker::Model;

/// How many data bytes stand in each packet of a block but the last: MAX_CTO - 1, which is 7 to 254.
#[derive(Clone, Copy, Debug, PartialEq, Eq)]
pub struct Width {
    bytes: u8,
}

impl Model for Width {
    ghost use Rattle.std.specs.Prelude.{ℕ, ◌≤◌};

    ghost Value = { ℕ };

    ghost view = { λ w. w.bytes };

    ghost inverse = { λ n. record { bytes = n } };

    ghost invariant = { λ w. (7 ≤ w.bytes) × (w.bytes ≤ 254) };
}

impl Width {
    /// So many data bytes in each packet.
    pub fn new(bytes: u8) -> Width
        requires least { 7 ≤ bytes }
        requires most { bytes ≤ 254 }
        ensures { result ≡ bytes }
    {
        Width { bytes }
    }

    /// Writes the first packet of a block's bytes into the packet that is lent, and answers the bytes
    /// of those behind it, or none where it is the last.
    #[tactic(auto, using(crate::specs::BlockPacketLemmas::block_of_one, crate::specs::BlockPacketLemmas::block_of_more))]
    pub fn cut<'a>(self, bytes: &'a [u8], packet: &mut Packet) -> Option<&'a [u8]>
        requires { length bytes.now ≤ 255 }
        ensures cut { MatchOption result
            (block_packets self bytes.now ≡ packet.new.items ∷ [])
            (λ rest. block_packets self bytes.now ≡ packet.new.items ∷ block_packets self rest.now) }
        ensures less { IfSome result (λ rest. length rest.now < length bytes.now) }
    {
        let width = self.size() as usize;
        if bytes.len() <= width {
            write_bytes(packet, bytes);
            return None;
        }
        let (first, rest) = bytes.split_at(width);
        write_bytes(packet, first);
        Some(rest)
    }

    /// How many data bytes that are.
    pub fn size(self) -> u8
        ensures value { result ≡ self }
        ensures least { 7 ≤ result }
        ensures most { result ≤ 254 }
    {
        self.bytes
    }
}

/// The packets of one answer: 1 to 37 of them.
///
/// The bytes of a block stand in it once, and its packets are made of them as they are asked for.
#[derive(Debug, PartialEq, Eq, Drop)]
pub struct Train {
    bytes: Packet,
    width: Option<Width>,
}

impl Model for Train {
    ghost use Rattle.std.specs.Prelude.{ℕ, List};

    ghost Value = { List (List ℕ) };

    ghost use Rattle.xcp_packet.specs.PacketTrains.{packets_in};
    ghost use Rattle.xcp_packet.specs.private.TrainParts.{IsTrain, parts_again, parts_of};

    ghost view = { λ t. packets_in t.width t.bytes.items };

    ghost inverse = { parts_of };

    ghost invariant = { λ t. IsTrain t.width t.bytes.items };

    ghost inverse_ok = { λ t h. parts_again t.width t.bytes h };
}

impl Train {
    /// One packet.
    pub fn one(packet: Packet) -> Train
        ensures { result ≡ packet.items ∷ [] }
    {
        Train {
            bytes: packet,
            width: None,
        }
    }

    /// The packets of a block: FF and `width` of the bytes each, and FF and the rest in the last.
    ///
    /// ASAM MCD-1 XCP, protocol layer: slave block transfer mode.
    pub fn block(bytes: &Data, width: u8) -> Train
        requires some { 0 < length bytes.now.items }
        requires least { 7 ≤ width }
        requires most { width ≤ 254 }
        ensures { result ≡ block_packets width bytes.now.items }
    {
        Train::cut(bytes, Width::new(width))
    }

    /// The packets of a block, as `block` gives them; without a byte, FF alone.
    pub fn cut(bytes: &[u8], width: Width) -> Train
        requires { length bytes.now ≤ 255 }
        ensures { result ≡ block_packets width bytes.now }
    {
        let mut packet = Packet::new();
        if bytes.len() <= width.size() as usize {
            write_bytes(&mut packet, bytes);
            return Train::one(packet);
        }
        append(&mut packet, bytes);
        Train {
            bytes: packet,
            width: Some(width),
        }
    }

    /// How many packets there are, 1 to 37.
    pub fn count(&self) -> u8
        ensures count { result ≡ length self.now }
        ensures some { 1 ≤ result }
        ensures most { result ≤ 37 }
    {
        match self.width {
            None => 1,
            Some(width) => {
                let full = (self.bytes.len() - 1) / width.size() as usize;
                full as u8 + 1
            }
        }
    }

    /// The packet at an index from 0 on.
    pub fn at(&self, i: u8) -> Packet
        requires { i < length self.now }
        ensures { slice_get self.now i ≡ Some result.items }
    {
        let mut packet = Packet::new();
        match self.width {
            None => append(&mut packet, &self.bytes),
            Some(width) => write_piece(&mut packet, &self.bytes, width, i),
        }
        packet
    }

    /// What the packets are made of: without a width the bytes of one packet, and else the data bytes
    /// of a block.
    pub fn parts(&self) -> (Option<Width>, &[u8])
        ensures parts { self.now ≡ packets_in result.0 result.1.now }
        ensures short { length result.1.now ≤ 255 }
    {
        (self.width, self.bytes.as_slice())
    }

    /// Whether the packets are the same.
    pub fn same(&self, other: &Train) -> bool
        ensures { MatchBool result (self.now ≡ other.now) (self.now ≢ other.now) }
    {
        if !same_width(self.width, other.width) {
            return false;
        }
        same_packet(&self.bytes, &other.bytes)
    }

    /// An equal train. It takes no memory.
    pub fn copy(&self) -> Train
        ensures { result ≡ self.now }
    {
        let mut bytes = Packet::new();
        append(&mut bytes, &self.bytes);
        Train {
            bytes,
            width: self.width,
        }
    }
}

fn same_width(a: Option<Width>, b: Option<Width>) -> bool
    ensures { MatchBool result (a ≡ b) (a ≢ b) }
{
    a == b
}

fn same_packet(a: &Packet, b: &Packet) -> bool
    ensures { MatchBool result (a.now ≡ b.now) (a.now ≢ b.now) }
{
    a == b
}

/// The bytes from a place on, at most so many.
fn piece_at(bytes: &[u8], place: usize, most: usize) -> &[u8]
    requires { place ≤ length bytes.now }
    ensures piece { result.now ≡ take most (drop place bytes.now) }
    ensures short { length result.now ≤ most }
{
    let left = &bytes[place..];
    if left.len() <= most {
        left
    } else {
        &left[..most]
    }
}

/// FF and the data bytes of the packet at an index of a block.
fn write_piece(packet: &mut Packet, bytes: &[u8], width: Width, i: u8)
    requires short { length bytes.now ≤ 255 }
    requires index { i < length (block_packets width bytes.now) }
    ensures { slice_get (block_packets width bytes.now) i ≡ Some packet.new.items }
{
    let width = width.size() as usize;
    write_bytes(packet, piece_at(bytes, i as usize * width, width));
}
