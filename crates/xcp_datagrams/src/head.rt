//! The frame at the head of bytes.
ghost use Rattle.std.specs.Prelude.{◌≡◌, ◌≤◌, ◌+◌, IfNone, IfSome, length};
ghost use Rattle.xcp_framing.specs.Wire.{IsUnfinished, len_of};

use byteorder::{ByteOrder, LittleEndian};

/// The bytes of LEN and CTR, which stand before the packet.
pub(crate) const HEADER_SIZE: usize = 4;

/// Where CTR stands in a frame.
pub(crate) const CTR_PLACE: usize = 2;

/// How many bytes the whole frame at the head has, if one stands there.
pub(crate) fn head(max_cto: u8, bytes: &[u8]) -> Option<usize>
    ensures size { IfSome result (λ n. n ≡ 4 + len_of bytes.now) }
    ensures allowed { IfSome result (λ n. len_of bytes.now ≤ max_cto) }
    ensures whole { IfSome result (λ n. n ≤ length bytes.now) }
    ensures none { IfNone result (IsUnfinished max_cto bytes.now) }
{
    if bytes.len() < HEADER_SIZE {
        return None;
    }
    let length = LittleEndian::read_u16(bytes) as usize;
    if length > max_cto as usize || bytes.len() < HEADER_SIZE + length {
        return None;
    }
    Some(HEADER_SIZE + length)
}
