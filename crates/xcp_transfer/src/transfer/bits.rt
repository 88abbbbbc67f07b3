//! MODIFY_BITS.
ghost use Rattle.std.specs.Prelude.{◌≡◌, ◌≤◌, None, Some};
ghost use Rattle.xcp_transfer.specs.Downloads.{modify_bits_row, modified};
ghost use Rattle.xcp_packet.specs.Rows.{Tells};
ghost use Rattle.xcp_transfer.specs.TransferValue.{response_room, without_block};

use super::Transfer;
use crate::access::{read_double, writable, write_double};
use xcp_packet::{Code, CommandError, Packet, Sent, write_done};

/// How many bytes a double word has.
const DOUBLE: u8 = 4;

impl Transfer {
    /// MODIFY_BITS: in the double word at the MTA, in the layout's byte order, clears the bits that are 0 in the AND mask
    /// `ma`, and then changes those that are 1 in the XOR mask `mx`, both masks shifted up by s, 0
    /// to 31. The MTA stays.
    ///
    /// `OutOfRange` for s, then `AccessDenied`, then `WriteProtected`.
    /// ASAM MCD-1 XCP, protocol layer, description of commands: MODIFY_BITS.
    pub fn modify_bits(
        &mut self,
        s: u8,
        ma: u16,
        mx: u16,
        packet: &mut Packet,
    ) -> Result<Sent, CommandError>
        ensures { Tells self.old.pages.layout.order (response_room self.old.pages.layout) (modify_bits_row s ma mx self.old) (without_block self.old) result packet.new.items self.new }
    {
        self.give_up_block();
        if s > 31 {
            return Err(CommandError::Code(Code::OutOfRange));
        }
        let address = writable(&self.pages, self.mta, DOUBLE)?;
        let old = read_double(&self.pages, address);
        let new = modified(s, ma, mx, old);
        write_double(&mut self.pages, address, new);
        write_done(packet);
        Ok(Sent::Lent)
    }
}

/// The double word after MODIFY_BITS.
fn modified(s: u8, ma: u16, mx: u16, old: u32) -> u32
    requires { s ≤ 31 }
    ensures { result ≡ modified s ma mx old }
{
    (old & !(u32::from(!ma) << s)) ^ (u32::from(mx) << s)
}
