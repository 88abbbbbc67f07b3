//! Bytes, words and double words at the end of a packet.
ghost use Rattle.std.specs.Prelude.{◌≡◌, ◌≤◌, ◌+◌, ◌++◌, length};
ghost use Rattle.arrayvec.specs.ArrayVec.{array_vec_len};
ghost use Rattle.xcp_packet.specs.ByteOrder.{word_bytes, double_bytes};

use crate::{Order, Packet};

/// Writes bytes behind the packet.
pub(crate) fn append(packet: &mut Packet, bytes: &[u8])
    requires { array_vec_len packet.old + length bytes.now ≤ 255 }
    ensures items { packet.new.items ≡ packet.old.items ++ bytes.now }
    ensures length { array_vec_len packet.new ≡ array_vec_len packet.old + length bytes.now }
{
    let _ = packet.try_extend_from_slice(bytes);
}

/// Writes a word behind the packet.
pub(crate) fn append_word(packet: &mut Packet, value: u16, order: Order)
    requires { array_vec_len packet.old + 2 ≤ 255 }
    ensures items { packet.new.items ≡ packet.old.items ++ word_bytes order value }
    ensures length { array_vec_len packet.new ≡ array_vec_len packet.old + 2 }
{
    append(packet, &order.word_bytes(value));
}

/// Writes a double word behind the packet.
pub(crate) fn append_double(packet: &mut Packet, value: u32, order: Order)
    requires { array_vec_len packet.old + 4 ≤ 255 }
    ensures items { packet.new.items ≡ packet.old.items ++ double_bytes order value }
    ensures length { array_vec_len packet.new ≡ array_vec_len packet.old + 4 }
{
    append(packet, &order.double_bytes(value));
}
