//! From a command to bytes.
ghost use Rattle.std.specs.Prelude.{◌≡◌, ◌≤◌, ◌<◌, ◌+◌, ◌↔◌, length, IsTrue, [], ◌∷◌};
ghost use Rattle.arrayvec.specs.ArrayVec.{array_vec_len};
ghost use Rattle.xcp_packet.specs.private.EncodeByParameter.{built, put, start, up_to};
ghost use Rattle.xcp_packet.specs.ByteOrder.{word_bytes, double_bytes};
ghost use Rattle.xcp_packet.specs.PlainSpelling.{plain, OnePacket, HasWidths};
ghost use Rattle.xcp_packet.specs.CommandSpelling.{spells};

use crate::words::{append, append_double, append_word};
use crate::{Command, Order, Packet, Refuse, commands, decode};

/// Makes the packet longer by zeros.
fn pad(packet: &mut Packet, len: usize)
    requires from { array_vec_len packet.old ≤ len }
    requires to { len ≤ 255 }
    ensures items { packet.new.items ≡ up_to len packet.old.items }
    ensures length { array_vec_len packet.new ≡ len }
{
    for _ in packet.len()..len {
        packet.push(0);
    }
}

#[tactic(auto, unfolding(crate::specs::private::EncodeByParameter::start))]
fn started(code: u8) -> Packet
    ensures items { result.items ≡ start code }
    ensures length { array_vec_len result ≡ 1 }
{
    let mut packet = Packet::new();
    packet.push(code);
    packet
}

#[tactic(auto, unfolding(crate::specs::private::EncodeByParameter::put))]
fn put_byte(packet: &mut Packet, place: usize, value: u8)
    requires from { array_vec_len packet.old ≤ place }
    requires to { place < 255 }
    ensures items { packet.new.items ≡ put packet.old.items place (value ∷ []) }
    ensures length { array_vec_len packet.new ≡ place + 1 }
{
    pad(packet, place);
    packet.push(value);
}

#[tactic(auto, unfolding(crate::specs::private::EncodeByParameter::put))]
fn put_word(packet: &mut Packet, place: usize, value: u16, order: Order)
    requires from { array_vec_len packet.old ≤ place }
    requires to { place + 2 ≤ 255 }
    ensures items { packet.new.items ≡ put packet.old.items place (word_bytes order value) }
    ensures length { array_vec_len packet.new ≡ place + 2 }
{
    pad(packet, place);
    append_word(packet, value, order);
}

#[tactic(auto, unfolding(crate::specs::private::EncodeByParameter::put))]
fn put_double(packet: &mut Packet, place: usize, value: u32, order: Order)
    requires from { array_vec_len packet.old ≤ place }
    requires to { place + 4 ≤ 255 }
    ensures items { packet.new.items ≡ put packet.old.items place (double_bytes order value) }
    ensures length { array_vec_len packet.new ≡ place + 4 }
{
    pad(packet, place);
    append_double(packet, value, order);
}

#[tactic(auto, unfolding(crate::specs::private::EncodeByParameter::put))]
fn put_data(packet: &mut Packet, place: usize, bytes: &[u8])
    requires from { array_vec_len packet.old ≤ place }
    requires to { place + length bytes.now ≤ 255 }
    ensures items { packet.new.items ≡ put packet.old.items place bytes.now }
    ensures length { array_vec_len packet.new ≡ place + length bytes.now }
{
    pad(packet, place);
    append(packet, bytes);
}

macro_rules! put {
    ($packet:ident $order:ident byte $place:literal $value:ident) => {
        put_byte(&mut $packet, $place, *$value)
    };
    ($packet:ident $order:ident word $place:literal $value:ident) => {
        put_word(&mut $packet, $place, *$value, $order)
    };
    ($packet:ident $order:ident double $place:literal $value:ident) => {
        put_double(&mut $packet, $place, *$value, $order)
    };
    ($packet:ident $order:ident data $place:literal $value:ident) => {
        put_data(&mut $packet, $place, $value)
    };
}

macro_rules! write_by_variant {
    ([$command:ident $order:ident] $($variant:ident $handler:ident $value:literal $least:literal { $($name:ident: $kind:ident $place:literal),* })*) => {
        match $command {
            $(Command::$variant { $($name),* } => {
                let mut packet = started($value);
                $(put!(packet $order $kind $place $name);)*
                packet
            })*
        }
    };
}

fn written(command: &Command, order: Order) -> Packet
    requires { OnePacket command.now }
    ensures items { result.items ≡ built order command.now }
    ensures widths { HasWidths command.now }
{
    commands!(write_by_variant[command order])
}

/// The plain spelling of a command: zeros as reserved bytes, and nothing behind the last parameter.
/// Words and double words stand in this byte order.
///
/// ASAM MCD-1 XCP, protocol layer, description of commands.
pub fn encode_command(command: &Command, order: Order) -> Packet
    requires { OnePacket command.now }
    ensures plain { result.items ≡ plain order command.now }
    ensures spelt { spells order command.now result.items }
{
    written(command, order)
}

/// Encodes a command and decodes the bytes again in the same byte order, which gives the command.
pub fn decode_encoded(command: &Command, order: Order) -> Result<Command, Refuse>
    requires { OnePacket command.now }
    ensures { result ≡ Ok command.now }
{
    decode(&encode_command(command, order), order)
}

impl Command {
    /// Whether one packet holds the plain spelling, which has at most 255 bytes then.
    pub fn fits(&self) -> bool
        ensures { IsTrue result ↔ OnePacket self.now }
    {
        match self {
            Command::Download { bytes, .. } | Command::DownloadNext { bytes, .. } => {
                bytes.len() <= 253
            }
            Command::DownloadMax { bytes }
            | Command::GetVersion { bytes }
            | Command::WriteDaqMultiple { bytes } => bytes.len() <= 254,
            Command::ShortDownload { bytes, .. } => bytes.len() <= 247,
            _ => true,
        }
    }
}
