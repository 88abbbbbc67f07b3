//! The frame of a packet.
ghost use Rattle.std.specs.Prelude.{◌≡◌, ◌++◌};
ghost use Rattle.byteorder.specs.Endian.{little_bytes};
ghost use Rattle.xcp_framing.specs.Wire.{frame_bytes};

use arrayvec::ArrayVec;
use byteorder::{ByteOrder, LittleEndian};
use xcp_packet::Packet;

/// The bytes of LEN, a frame's first word, which says how many bytes its packet has.
pub(crate) const LEN_SIZE: usize = 2;

/// The bytes of LEN and CTR, which stand before the packet.
pub(crate) const HEADER_SIZE: usize = 4;

/// The bytes of the longest frame: LEN, CTR and a packet of 255 bytes.
pub const FRAME_SIZE: usize = 259;

/// One frame (XCP on Ethernet): LEN, CTR and the packet, with `ctr` as the CTR. Both words have
/// their low byte first.
pub fn frame(ctr: u16, packet: &Packet) -> ArrayVec<u8, FRAME_SIZE>
    ensures { result.items ≡ frame_bytes ctr packet.now.items }
{
    let header = header(packet.len() as u16, ctr);
    let mut frame = ArrayVec::new();
    let _ = frame.try_extend_from_slice(&header);
    let _ = frame.try_extend_from_slice(packet);
    frame
}

/// LEN and CTR, each with its low byte first.
#[inline(always)]
pub(crate) fn header(len: u16, ctr: u16) -> [u8; HEADER_SIZE]
    ensures { result ≡ little_bytes 2 len ++ little_bytes 2 ctr }
{
    let mut header = [0; HEADER_SIZE];
    LittleEndian::write_u16(&mut header, len);
    LittleEndian::write_u16(&mut header[LEN_SIZE..], ctr);
    header
}
