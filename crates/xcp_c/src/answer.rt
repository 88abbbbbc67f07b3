//! An answer as C reads it.
ghost use Rattle.std.specs.Prelude.{◌≡◌, ◌≤◌, ◌⊎◌, IsTrue, Some, false, length, slice_get, take};
ghost use Rattle.xcp_packet.specs.PacketTrains.{block_packets};
ghost use Rattle.xcp_slave.specs.AnswerInBytes.{answer_in};
ghost use Rattle.xcp_c.specs.Answered.{IsAnswerInC, HasNoWidth, packets_told};

use xcp_packet::{Packet, Train, Width};
use xcp_slave::{Cut, Told};

/// The number that says that there are packets for the tool.
const PACKETS: u8 = 1;

/// What a slave answers: a number that says what it is, a count where it has one, and the bytes of its
/// packets. Without a width they are one packet, and else the data bytes of a block, so many to a
/// packet.
#[repr(C)]
#[derive(Drop)]
pub struct XcpAnswer {
    pub told: u8,
    pub count: u8,
    pub width: u8,
    pub length: u8,
    pub bytes: [u8; 255],
}

/// A packet.
#[repr(C)]
#[derive(Drop)]
pub struct XcpPacket {
    pub length: u8,
    pub bytes: [u8; 255],
}

impl XcpPacket {
    fn lay(&mut self, bytes: &[u8])
        requires { length bytes.now ≤ 255 }
        ensures { take self.new.length self.new.bytes ≡ bytes.now }
    {
        self.length = bytes.len() as u8;
        self.bytes[..bytes.len()].copy_from_slice(bytes);
    }
}

impl XcpAnswer {
    pub(crate) fn put_told(&mut self, told: Told, packet: &Packet)
        ensures { IsAnswerInC (answer_in told packet.now) self.new }
    {
        match &told {
            Told::Silent => self.tell_count(0, 0),
            Told::Packets(Cut::Whole) => self.tell_packets(packet, 0, 1),
            Told::Packets(Cut::Block(width)) => {
                self.tell_packets(packet, width.size(), count_of(packet, *width));
            }
            Told::Sampled(count) => self.tell_count(2, *count),
            Told::Overrun => self.tell_count(3, 0),
            Told::NoChannel => self.tell_count(4, 0),
            Told::BadSignals => self.tell_count(5, 0),
            Told::Nothing => self.tell_count(6, 0),
            Told::Stored(count) => self.tell_count(7, *count),
            Told::NoStore => self.tell_count(8, 0),
            Told::Later => self.tell_count(9, 0),
        }
    }

    fn tell_count(&mut self, told: u8, count: u8)
        ensures { (self.new.told ≡ told) × (self.new.count ≡ count) }
    {
        self.told = told;
        self.count = count;
        self.width = 0;
        self.length = 0;
    }

    fn tell_packets(&mut self, bytes: &[u8], width: u8, count: u8)
        requires { length bytes.now ≤ 255 }
        ensures { (self.new.told ≡ 1) × (self.new.width ≡ width) × (self.new.count ≡ count)
            × (take self.new.length self.new.bytes ≡ bytes.now) }
    {
        self.told = PACKETS;
        self.width = width;
        self.count = count;
        self.length = bytes.len() as u8;
        self.bytes[..bytes.len()].copy_from_slice(bytes);
    }
}

/// How many packets a block of these bytes has.
fn count_of(bytes: &[u8], width: Width) -> u8
    requires { length bytes.now ≤ 255 }
    ensures { result ≡ length (block_packets width bytes.now) }
{
    let full = bytes.len().saturating_sub(1) / width.size() as usize;
    full as u8 + 1
}

/// Writes the packet at an index of an answer's packets, from 0 on. False where there is none, or where
/// no slave told this width: then nothing is written.
#[unsafe(no_mangle)]
pub extern "C" fn xcp_packet(answer: &XcpAnswer, index: u8, packet: &mut XcpPacket) -> bool
    ensures packet { IsTrue result → slice_get (packets_told answer.now) index
        ≡ Some (take packet.new.length packet.new.bytes) }
    ensures none { result ≡ false → ((length (packets_told answer.now) ≤ index)
        ⊎ HasNoWidth answer.now) × (packet.new ≡ packet.old) }
{
    if answer.told != PACKETS {
        return false;
    }
    let bytes = &answer.bytes[..answer.length as usize];
    if answer.width == 0 {
        return lay_one(bytes, index, packet);
    }
    if answer.width < 7 || answer.width == 255 {
        return false;
    }
    lay_piece(bytes, Width::new(answer.width), index, packet)
}

/// Writes the one packet, which has the index 0.
fn lay_one(bytes: &[u8], index: u8, packet: &mut XcpPacket) -> bool
    requires { length bytes.now ≤ 255 }
    ensures packet { IsTrue result → (index ≡ 0)
        × (take packet.new.length packet.new.bytes ≡ bytes.now) }
    ensures none { result ≡ false → (1 ≤ index) × (packet.new ≡ packet.old) }
{
    if index != 0 {
        return false;
    }
    packet.lay(bytes);
    true
}

/// Writes the packet at an index of a block.
fn lay_piece(bytes: &[u8], width: Width, index: u8, packet: &mut XcpPacket) -> bool
    requires { length bytes.now ≤ 255 }
    ensures packet { IsTrue result → slice_get (block_packets width bytes.now) index
        ≡ Some (take packet.new.length packet.new.bytes) }
    ensures none { result ≡ false → (length (block_packets width bytes.now) ≤ index)
        × (packet.new ≡ packet.old) }
{
    let train = Train::cut(bytes, width);
    if index >= train.count() {
        return false;
    }
    packet.lay(&train.at(index));
    true
}
