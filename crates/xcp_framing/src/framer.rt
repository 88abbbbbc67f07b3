//! The packets of a stream that comes in pieces.
ghost use Rattle.std.specs.Prelude.{◌≡◌, ◌≢◌, ◌<◌, ◌≤◌, ◌+◌, ◌↔◌, [], ◌∷◌, IsTrue, IfSome, IfNone, ℕ, length};
ghost use Rattle.xcp_framing.specs.Wire.{IsBadLength, len_of};
ghost use Rattle.xcp_framing.specs.Frames.{frames, rest};
ghost use Rattle.xcp_framing.specs.FramerInput.{Feeds, got_in, packets_given};
ghost use Rattle.xcp_framing.specs.private.MissingBytes.{missing_of};

use crate::wire::{FRAME_SIZE, HEADER_SIZE, LEN_SIZE};
use arrayvec::ArrayVec;
use byteorder::{ByteOrder, LittleEndian};
use std::marker::Model;
use xcp_packet::Packet;

/// What a piece brought.
#[derive(Debug, PartialEq, Eq, Drop)]
pub enum Got {
    /// No packet yet.
    More,
    /// The packet of a frame that is whole.
    Packet(Packet),
    /// A LEN above MAX_CTO. Nothing is read behind it.
    BadLength(u16),
}

/// How many bytes of a piece were used, and what they brought.
#[derive(Debug, PartialEq, Eq, Drop)]
pub struct Fed {
    pub used: usize,
    pub got: Got,
}

/// What a piece brought, beside a packet that was lent to it.
#[derive(Clone, Copy, Debug, PartialEq, Eq)]
pub enum Brought {
    /// No packet yet.
    More,
    /// The packet of a frame that is whole: it stands in the lent one.
    Packet,
    /// A LEN above MAX_CTO. Nothing is read behind it.
    BadLength(u16),
}

impl Brought {
    /// What was brought, where this is the packet that was lent.
    pub fn with(self, packet: Packet) -> Got
        ensures { result ≡ got_in self packet }
    {
        match self {
            Brought::More => Got::More,
            Brought::Packet => Got::Packet(packet),
            Brought::BadLength(length) => Got::BadLength(length),
        }
    }
}

/// How many bytes of a piece were used, and what they brought beside a packet that was lent.
#[derive(Clone, Copy, Debug, PartialEq, Eq)]
pub struct FedInto {
    pub used: usize,
    pub brought: Brought,
}

/// Takes a stream piece by piece, and gives the packets of its frames (XCP on Ethernet, TCP). It
/// holds the bytes of the frame that has begun.
#[derive(Debug, Drop)]
pub struct Framer {
    max_cto: u8,
    held: ArrayVec<u8, FRAME_SIZE>,
}

impl Model for Framer {
    ghost use Rattle.xcp_framing.specs.FramerInput.{FramerValue};
    ghost use Rattle.xcp_framing.specs.Wire.{IsUnfinished};

    ghost Value = { FramerValue };

    ghost view = { λ f. record { max_cto = f.max_cto; held = f.held.items } };

    ghost invariant = { λ f. IsUnfinished f.max_cto f.held.items };
}

impl Framer {
    /// A framer at the start of a stream, whose packets have at most max_cto bytes.
    pub fn new(max_cto: u8) -> Framer
        ensures { result ≡ record { max_cto = max_cto; held = [] } }
    {
        Framer {
            max_cto,
            held: ArrayVec::new(),
        }
    }

    /// Whether a frame has begun.
    pub fn inside(&self) -> bool
        ensures { IsTrue result ↔ (self.now.held ≢ []) }
    {
        !self.held.is_empty()
    }

    /// Uses a front of the piece: up to the end of the first frame that holds a packet, or to a LEN
    /// above MAX_CTO, or all of it. From a LEN above MAX_CTO on it uses nothing and answers
    /// `BadLength` for good.
    pub fn feed(&mut self, piece: &[u8]) -> Fed
        ensures feeds { Feeds self.old.max_cto self.old.held piece.now
            result.used (packets_given result.got) self.new.held }
        ensures more { result.got ≡ Got.More
            → (result.used ≡ length piece.now) × ¬ IsBadLength self.new.max_cto self.new.held }
        ensures bad { (n : ℕ) → result.got ≡ Got.BadLength n
            → (n ≡ len_of self.new.held) × IsBadLength self.new.max_cto self.new.held }
        ensures moves { packets_given result.got ≢ [] → 0 < result.used }
        ensures kept { self.new.max_cto ≡ self.old.max_cto }
    {
        let mut packet = Packet::new();
        let FedInto { used, brought } = self.feed_into(piece, &mut packet);
        Fed {
            used,
            got: brought.with(packet),
        }
    }

    /// Uses a front of the piece, as `feed` does. The packet of a whole frame stands in the lent
    /// one, which has any bytes otherwise.
    pub fn feed_into(&mut self, piece: &[u8], packet: &mut Packet) -> FedInto
        ensures feeds { Feeds self.old.max_cto self.old.held piece.now
            result.used (packets_given (got_in result.brought packet.new)) self.new.held }
        ensures more { result.brought ≡ Brought.More
            → (result.used ≡ length piece.now) × ¬ IsBadLength self.new.max_cto self.new.held }
        ensures bad { (n : ℕ) → result.brought ≡ Brought.BadLength n
            → (n ≡ len_of self.new.held) × IsBadLength self.new.max_cto self.new.held }
        ensures moves { result.brought ≡ Brought.Packet → 0 < result.used }
        ensures kept { self.new.max_cto ≡ self.old.max_cto }
    {
        if let Some(used) = self.whole(piece, packet) {
            return FedInto {
                used,
                brought: Brought::Packet,
            };
        }
        let mut cut = self.gather(piece, packet);
        while let Brought::More = cut.brought {
            if cut.used == piece.len() {
                break;
            }
            let next = self.gather(&piece[cut.used..], packet);
            cut = FedInto {
                used: cut.used + next.used,
                brought: next.brought,
            };
        }
        cut
    }

    /// Where nothing is held, and a whole frame with a packet stands at the head of the piece: how many bytes it has. Its packet is
    /// laid into the lent one.
    fn whole(&self, piece: &[u8], packet: &mut Packet) -> Option<usize>
        ensures feeds { IfSome result (λ used. Feeds self.now.max_cto self.now.held piece.now
            used (packet.new.items ∷ []) []) }
        ensures held { IfSome result (λ used. self.now.held ≡ []) }
        ensures moves { IfSome result (λ used. 0 < used) }
    {
        if !self.held.is_empty() {
            return None;
        }
        let length = length(piece)?;
        let used = HEADER_SIZE + length as usize;
        if length == 0 || length > u16::from(self.max_cto) || piece.len() < used {
            return None;
        }
        let frame = &piece[..used];
        packet.clear();
        let _ = packet.try_extend_from_slice(&frame[HEADER_SIZE..]);
        Some(used)
    }

    /// Goes on to the end of LEN or of the frame, or to the end of the piece.
    fn gather(&mut self, piece: &[u8], packet: &mut Packet) -> FedInto
        ensures feeds { Feeds self.old.max_cto self.old.held piece.now
            result.used (packets_given (got_in result.brought packet.new)) self.new.held }
        ensures more { result.brought ≡ Brought.More
            → ¬ IsBadLength self.new.max_cto self.new.held }
        ensures packet_moves { result.brought ≡ Brought.Packet → 0 < result.used }
        ensures moves { ¬ IsBadLength self.old.max_cto self.old.held
            → 0 < length piece.now → 0 < result.used }
        ensures bad { (n : ℕ) → result.brought ≡ Brought.BadLength n
            → (n ≡ len_of self.new.held) × IsBadLength self.new.max_cto self.new.held }
        ensures kept { self.new.max_cto ≡ self.old.max_cto }
    {
        let used = missing(&self.held, self.max_cto).min(piece.len());
        let _ = self.held.try_extend_from_slice(&piece[..used]);
        let brought = take_packet(&mut self.held, packet, self.max_cto);
        FedInto { used, brought }
    }
}

/// LEN, once both its bytes are there.
fn length(frame: &[u8]) -> Option<u16>
    ensures there { IfSome result (λ n. (n ≡ len_of frame.now) × (2 ≤ length frame.now)) }
    ensures none { IfNone result (length frame.now < 2) }
{
    if frame.len() < LEN_SIZE {
        return None;
    }
    Some(LittleEndian::read_u16(frame))
}

/// How many bytes a frame that has begun wants next: those of LEN, then those that LEN tells of.
fn missing(held: &[u8], max_cto: u8) -> usize
    requires { length held.now ≤ FRAME_SIZE }
    ensures { result ≡ missing_of max_cto held.now }
{
    match length(held) {
        None => LEN_SIZE - held.len(),
        Some(length) if length > u16::from(max_cto) => 0,
        Some(length) => (HEADER_SIZE + length as usize).saturating_sub(held.len()),
    }
}

/// What the bytes gathered so far are. A whole frame is taken out, and its packet laid into the
/// lent one.
fn take_packet(held: &mut ArrayVec<u8, FRAME_SIZE>, packet: &mut Packet, max_cto: u8) -> Brought
    requires { len_of held.old.items ≤ max_cto → length held.old.items ≤ 4 + len_of held.old.items }
    ensures brings { frames max_cto held.old.items ≡ packets_given (got_in result packet.new) }
    ensures leaves { held.new.items ≡ rest max_cto held.old.items }
    ensures more { result ≡ Brought.More → ¬ IsBadLength max_cto held.new.items }
    ensures bad { (n : ℕ) → result ≡ Brought.BadLength n
        → (n ≡ len_of held.new.items) × IsBadLength max_cto held.new.items }
{
    let Some(length) = length(held) else {
        return Brought::More;
    };
    if length > u16::from(max_cto) {
        return Brought::BadLength(length);
    }
    if held.len() < HEADER_SIZE + length as usize {
        return Brought::More;
    }
    packet.clear();
    let _ = packet.try_extend_from_slice(&held[HEADER_SIZE..]);
    held.clear();
    if packet.is_empty() {
        return Brought::More;
    }
    Brought::Packet
}
