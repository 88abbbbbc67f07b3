//! What a line of a script says, and where the bytes of its request stand.
ghost use Rattle.std.specs.Prelude.{◌≡◌};
ghost use Rattle.xcp_script.specs.private.LineInSlot.{line_in};

use crate::Line;
use arrayvec::ArrayVec;
use xcp_packet::Packet;
use xcp_slave::Request;

/// The most bytes of an event's signals.
pub(crate) const SIGNAL_BYTES: usize = 64;

/// The most bytes of signals that are handed over by themselves.
pub(crate) const PART_BYTES: usize = 255;

/// What a line says, beside the slot that was lent to it.
#[derive(Clone, Copy)]
pub(crate) enum Parsed {
    /// Nothing.
    Skip,
    /// The slot's command packet.
    Command,
    /// An event on this channel, with the slot's signals.
    Event(u16),
    /// `drain`.
    Drain,
    /// `store`.
    FinishStore,
    /// `hangup`.
    Hangup,
    /// `time T`.
    Time(u64),
    /// Signals from this place on, which stand where the slot's command packet does.
    Signals(u16),
    /// No request.
    Faulty,
}

/// Room for the bytes of a line's request, and for the packet of its answer, so that none is made anew for
/// it.
#[derive(Drop)]
pub(crate) struct Slot {
    pub(crate) command: Packet,
    pub(crate) signals: ArrayVec<u8, SIGNAL_BYTES>,
    pub(crate) packet: Packet,
}

impl Slot {
    pub(crate) fn new() -> Slot {
        Slot {
            command: Packet::new(),
            signals: ArrayVec::new(),
            packet: Packet::new(),
        }
    }

    /// What the line says, with its request.
    pub(crate) fn with(self, parsed: Parsed) -> Line
        ensures { result ≡ line_in parsed self.command self.signals }
    {
        match parsed {
            Parsed::Skip => Line::Skip,
            Parsed::Command => Line::Ask(Request::Command(self.command)),
            Parsed::Event(channel) => Line::Ask(Request::Event(channel, self.signals)),
            Parsed::Drain => Line::Ask(Request::Drain),
            Parsed::FinishStore => Line::Ask(Request::FinishStore),
            Parsed::Hangup => Line::Ask(Request::Hangup),
            Parsed::Time(time) => Line::Ask(Request::Time(time)),
            Parsed::Signals(place) => Line::Ask(Request::Signals(place, self.command)),
            Parsed::Faulty => Line::Faulty,
        }
    }
}
