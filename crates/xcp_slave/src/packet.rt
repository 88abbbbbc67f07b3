//! Copies of packets.
ghost use Rattle.std.specs.Prelude.{◌≡◌, ◌≤◌, length};

use arrayvec::ArrayVec;

/// Makes a packet equal to another, in place: no memory is taken.
pub(crate) fn copy_into<const N: usize>(bytes: &ArrayVec<u8, N>, packet: &mut ArrayVec<u8, N>)
    ensures { packet.new ≡ bytes.now }
{
    packet.clear();
    let _ = packet.try_extend_from_slice(bytes.as_slice());
}

/// These bytes, in place: no memory is taken.
pub(crate) fn taken<const N: usize>(bytes: &[u8]) -> ArrayVec<u8, N>
    requires { length bytes.now ≤ N }
    ensures { result ≡ record { items = bytes.now } }
{
    let mut packet = ArrayVec::new();
    let _ = packet.try_extend_from_slice(bytes);
    packet
}

/// Equal bytes, in place: no memory is taken.
pub(crate) fn copied<const N: usize>(bytes: &ArrayVec<u8, N>) -> ArrayVec<u8, N>
    ensures { result ≡ bytes.now }
{
    let mut copy = ArrayVec::new();
    copy_into(bytes, &mut copy);
    copy
}
