//! Time stamps: the lowest bytes of a time.
ghost use Rattle.std.specs.Prelude.{◌≡◌, ◌≤◌, ◌+◌, ◌++◌};
ghost use Rattle.arrayvec.specs.ArrayVec.{array_vec_len};
ghost use Rattle.xcp_packet.specs.TimeStamps.{stamp_size, stamp_bytes};

use crate::words::{append_double, append_word};
use crate::{Order, Packet};

/// How much of a time a time stamp has.
///
/// ASAM MCD-1 XCP, protocol layer, description of commands: GET_DAQ_RESOLUTION_INFO, TIMESTAMP_MODE.
#[derive(Clone, Copy, Debug, PartialEq, Eq, Default)]
pub enum Stamp {
    /// Nothing: there is no time stamp.
    #[default]
    Without,
    /// Its lowest byte.
    Byte,
    /// Its lowest two bytes, a word.
    Word,
    /// Its lowest four bytes, a double word.
    Double,
}

impl Stamp {
    /// How many bytes the time stamp has: 0, 1, 2 or 4.
    pub fn size(self) -> u8
        ensures value { result ≡ stamp_size self }
        ensures most { result ≤ 4 }
    {
        match self {
            Stamp::Without => 0,
            Stamp::Byte => 1,
            Stamp::Word => 2,
            Stamp::Double => 4,
        }
    }

    /// Writes the time stamp of a time behind the packet.
    pub fn append(self, packet: &mut Packet, time: u64, order: Order)
        requires { array_vec_len packet.old + stamp_size self ≤ 255 }
        ensures items { packet.new.items ≡ packet.old.items ++ stamp_bytes order self time }
        ensures length { array_vec_len packet.new ≡ array_vec_len packet.old + stamp_size self }
    {
        match self {
            Stamp::Without => {}
            Stamp::Byte => packet.push((time % 0x100) as u8),
            Stamp::Word => append_word(packet, (time % 0x1_0000) as u16, order),
            Stamp::Double => append_double(packet, (time % 0x1_0000_0000) as u32, order),
        }
    }
}
