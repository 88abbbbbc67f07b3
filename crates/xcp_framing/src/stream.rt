//! Laws of frames on a stream, and a plain program for their definition.
ghost use Rattle.std.specs.Prelude.{◌≡◌, ◌≤◌, ◌+◌, ◌++◌, IfOk, IfSome, IfNone, OnOk, length, drop, map};
ghost use Rattle.xcp_framing.specs.Frames.{CutsAlike, FramesAreFramed, WireComesBack};
ghost use Rattle.xcp_framing.specs.Wire.{len_of, packet_in, Framed, IsUnfinished};

use crate::wire::{FRAME_SIZE, HEADER_SIZE};
use byteorder::{ByteOrder, LittleEndian};
use std::alloc::{AllocError, Global};
use xcp_packet::Packet;

/// Does nothing: its contract says that however a stream is cut, its frames and its rest are the
/// same.
pub fn any_cutting_gives_the_same_frames()
    ensures { CutsAlike }
{}

/// Does nothing: its contract says that each stream is whole frames and a rest in exactly one way.
pub fn each_stream_has_its_frames()
    ensures { FramesAreFramed }
{}

/// Does nothing: its contract says that the frames of packets give a receiver the same packets.
pub fn the_wire_gives_its_packets_back()
    ensures { WireComesBack }
{}

/// The packets of a whole stream, and the place where its rest begins. It is plain and slow: the
/// definition of a stream's frames is tested by it.
pub fn plain_frames(
    alloc: Global,
    max_cto: u8,
    stream: &[u8],
) -> Result<(Vec<Packet>, usize), AllocError>
    ensures { IfOk result (λ found. Framed max_cto stream.now
        (map (λ packet. packet.items) found.0.items) (drop found.1 stream.now)) }
{
    let mut packets = Vec::new(alloc);
    let mut at = 0;
    while let Some(length) = whole_frame(max_cto, &stream[at..]) {
        let end = at + HEADER_SIZE + length;
        keep_packet(&mut packets, &stream[at..end])?;
        at = end;
    }
    Ok((packets, at))
}

/// LEN of the whole frame at the head, if there is one.
fn whole_frame(max_cto: u8, bytes: &[u8]) -> Option<usize>
    ensures length { IfSome result (λ n. n ≡ len_of bytes.now) }
    ensures allowed { IfSome result (λ n. n ≤ max_cto) }
    ensures whole { IfSome result (λ n. HEADER_SIZE + n ≤ length bytes.now) }
    ensures none { IfNone result (IsUnfinished max_cto bytes.now) }
{
    if bytes.len() < HEADER_SIZE {
        return None;
    }
    let length = LittleEndian::read_u16(bytes) as usize;
    if length > max_cto as usize || bytes.len() < HEADER_SIZE + length {
        return None;
    }
    Some(length)
}

/// Keeps the packet of a frame, unless it is empty.
fn keep_packet(packets: &mut Vec<Packet>, frame: &[u8]) -> Result<(), AllocError>
    requires most { length frame.now ≤ FRAME_SIZE }
    requires least { HEADER_SIZE ≤ length frame.now }
    ensures { OnOk result (map (λ packet. packet.items) packets.new.items
        ≡ map (λ packet. packet.items) packets.old.items ++ packet_in frame.now) }
{
    if frame.len() <= HEADER_SIZE {
        return Ok(());
    }
    let mut packet = Packet::new();
    let _ = packet.try_extend_from_slice(&frame[HEADER_SIZE..]);
    packets.push(packet)?;
    Ok(())
}
