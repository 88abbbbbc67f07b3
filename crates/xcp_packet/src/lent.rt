//! What comes of a command whose reply is written where it is sent from: into a packet that the
//! caller lends.
ghost use Rattle.std.specs.Prelude.{◌≡◌};
ghost use Rattle.xcp_packet.specs.ReplyPacket.{layout};
ghost use Rattle.xcp_packet.specs.ReplyInBytes.{fault_reply};

use crate::replying::{write_error, write_error_block_size, write_error_count};
use crate::{Code, Order, Packet, Width};

/// What is sent of a command that was not refused.
#[derive(Clone, Copy, Debug, PartialEq, Eq)]
pub enum Sent {
    /// The packet that was lent, in which the reply now stands.
    Lent,
    /// A block: the data bytes that now stand in the packet that was lent, so many to a packet.
    Block(Width),
    /// Nothing.
    Nothing,
}

/// Why a command is refused, as its error packet tells it.
#[derive(Clone, Copy, Debug, PartialEq, Eq)]
pub enum CommandError {
    /// An error code.
    Code(Code),
    /// An error code, and the number of data elements that DOWNLOAD_NEXT was expected to tell.
    Count(Code, u8),
    /// An error code, and the greatest number of bytes that BUILD_CHECKSUM sums up in one call.
    BlockSize(Code, u32),
}

impl From<Code> for CommandError {
    ghost use Rattle.xcp_packet.specs.declared.lent.CommandError.TheVariants as faults;

    ghost from_gives = { λ code fault. fault ≡ faults.Code code };

    fn from(code: Code) -> CommandError {
        CommandError::Code(code)
    }
}

/// Makes the error packet of a refusal the packet's bytes.
pub fn write_fault(packet: &mut Packet, fault: CommandError, order: Order)
    ensures { packet.new.items ≡ layout order (fault_reply fault) }
{
    match fault {
        CommandError::Code(code) => write_error(packet, code),
        CommandError::Count(code, count) => write_error_count(packet, code, count),
        CommandError::BlockSize(code, size) => write_error_block_size(packet, code, size, order),
    }
}
