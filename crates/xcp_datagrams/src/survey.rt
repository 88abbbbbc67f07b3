//! What the frames of a datagram say of who has the slave.
ghost use Rattle.std.specs.Prelude.{◌≡◌, ◌≤◌};
ghost use Rattle.xcp_framing.specs.Frames.{frames};
ghost use Rattle.xcp_datagrams.specs.Datagrams.{begins_with_connect, gone_by, is_connect_packet, leaves};

use crate::head::{HEADER_SIZE, head};

/// The code of CONNECT.
const CONNECT: u8 = 0xFF;

/// The code of DISCONNECT.
const DISCONNECT: u8 = 0xFE;

/// Whether the first packet of these frames is a CONNECT, with its mode.
pub fn connects(max_cto: u8, bytes: &[u8]) -> bool
    ensures { result ≡ begins_with_connect (frames max_cto bytes.now) }
{
    let mut at = 0;
    while let Some(size) = head(max_cto, &bytes[at..]) {
        if size > HEADER_SIZE {
            return is_connect(&bytes[at + HEADER_SIZE..at + size]);
        }
        at += size;
    }
    false
}

/// Whether the tool goes with these frames: one is a DISCONNECT, and no CONNECT stands behind the last such.
pub fn leaves(max_cto: u8, bytes: &[u8]) -> bool
    ensures { result ≡ leaves (frames max_cto bytes.now) }
{
    let mut at = 0;
    let mut gone = false;
    while let Some(size) = head(max_cto, &bytes[at..]) {
        if size > HEADER_SIZE {
            gone = gone_by(gone, &bytes[at + HEADER_SIZE..at + size]);
        }
        at += size;
    }
    gone
}

/// Whether a packet is a CONNECT.
fn is_connect(packet: &[u8]) -> bool
    ensures { result ≡ is_connect_packet packet.now }
{
    packet.len() >= 2 && packet[0] == CONNECT
}

/// Whether the tool has gone with a packet, as it was before.
fn gone_by(before: bool, packet: &[u8]) -> bool
    ensures { result ≡ gone_by before packet.now }
{
    if packet.first() == Some(&DISCONNECT) {
        return true;
    }
    !is_connect(packet) && before
}
