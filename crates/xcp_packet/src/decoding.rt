//! From bytes to a command.
ghost use Rattle.std.specs.Prelude.{◌≡◌, ◌≤◌, ◌↔◌, length, drop};
ghost use Rattle.xcp_packet.specs.private.DecodeByCode.{ReadsCode};
ghost use Rattle.xcp_packet.specs.Decoding.{Refused};
ghost use Rattle.xcp_packet.specs.CommandSpelling.{spells};

use crate::{Command, Data, Order, Refuse, commands, parameter};

fn data_from(bytes: &[u8], place: usize) -> Data
    requires fits { length bytes.now ≤ 255 }
    requires in_range { place ≤ length bytes.now }
    ensures { result.items ≡ drop place bytes.now }
{
    let mut data = Data::new();
    let _ = data.try_extend_from_slice(&bytes[place..]);
    data
}

macro_rules! read_by_code {
    ([$bytes:ident $order:ident $code:ident] $($variant:ident $handler:ident $value:literal $least:literal { $($name:ident: $kind:ident $place:literal),* })*) => {
        match $code {
            $($value => {
                if $bytes.len() < $least {
                    return Err(Refuse::Short);
                }
                Ok(Command::$variant { $($name: parameter!(data_from $bytes $order $kind $place)),* })
            })*
            _ => Err(Refuse::Unknown),
        }
    };
}

fn read(bytes: &[u8], order: Order) -> Result<Command, Refuse>
    requires { length bytes.now ≤ 255 }
    ensures { ReadsCode order bytes.now result }
{
    let Some(&code) = bytes.first() else {
        return Err(Refuse::Empty);
    };
    commands!(read_by_code [bytes order code])
}

/// The command that the bytes of a packet spell, its words and double words in this byte order.
///
/// Empty comes for no bytes, Unknown for a first byte that is no command's code, and then Short for
/// fewer bytes than the command wants. Bytes behind the last parameter are no fault.
/// ASAM MCD-1 XCP, protocol layer, description of commands.
pub fn decode(bytes: &[u8], order: Order) -> Result<Command, Refuse>
    requires { length bytes.now ≤ 255 }
    ensures spelt { (c : Command) → (result ≡ Ok c) ↔ spells order c bytes.now }
    ensures refused { (e : Refuse) → (result ≡ Err e) ↔ Refused e bytes.now }
{
    read(bytes, order)
}
