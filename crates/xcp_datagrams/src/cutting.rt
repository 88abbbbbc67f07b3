//! A datagram that came, and its whole frames.
ghost use Rattle.std.specs.Prelude.{◌≡◌, ◌≤◌, IfSome, IfNone, drop, false, length, take, true};
ghost use Rattle.xcp_framing.specs.Frames.{rest};
ghost use Rattle.xcp_datagrams.specs.Datagrams.{fits, front};

use crate::head::head;

/// The most bytes of a datagram: those of an Ethernet packet, less the headers of IP and UDP.
pub const LONGEST: usize = 1_472;

/// How many bytes the whole frames have that stand at the front of a datagram, one behind another. `None` where it has no byte, or more
/// than 1,472.
pub fn whole_front(max_cto: u8, datagram: &[u8]) -> Option<usize>
    ensures within { IfSome result (λ n. n ≤ length datagram.now) }
    ensures front { IfSome result (λ n. take n datagram.now ≡ front max_cto datagram.now) }
    ensures left { IfSome result (λ n. drop n datagram.now ≡ rest max_cto datagram.now) }
    ensures fits { IfSome result (λ n. fits datagram.now ≡ true) }
    ensures none { IfNone result (fits datagram.now ≡ false) }
{
    if datagram.is_empty() || datagram.len() > LONGEST {
        return None;
    }
    let mut at = 0;
    while let Some(size) = head(max_cto, &datagram[at..]) {
        at += size;
    }
    Some(at)
}
