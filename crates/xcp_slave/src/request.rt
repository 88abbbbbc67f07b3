//! What a slave is asked.
ghost use Rattle.std.specs.Prelude.{◌≡◌};
ghost use Rattle.xcp_slave.specs.AskedRequest.{IsShort, request_asked};

use crate::Asked;
use crate::packet::copied;
use arrayvec::ArrayVec;
use xcp_packet::Packet;

/// A request to a slave: a command packet of the tool, or one of the six things that the
/// controller and the transport ask of it.
#[derive(Debug, PartialEq, Eq, Drop)]
pub enum Request {
    /// A command packet (CTO) as it came, of at most 255 bytes.
    Command(Packet),
    /// An event channel fires: its number, and the first bytes of the signals that the controller measured.
    Event(u16, ArrayVec<u8, 64>),
    /// The transport takes the first data or event packet that is ready to be sent.
    Drain,
    /// The controller has stored what SET_REQUEST asked for.
    FinishStore,
    /// The tool's connection is gone: the session ends.
    Hangup,
    /// The clock stands at this time, in ticks of the layout's clock.
    Time(u64),
    /// The controller hands signals over by themselves: from this place on, these bytes. What isn't handed over stays.
    Signals(u16, ArrayVec<u8, 255>),
}

impl Request {
    /// The same request, with its bytes lent.
    pub fn lent(&self) -> Asked<'_>
        ensures request { request_asked result ≡ self.now }
        ensures short { IsShort result }
    {
        match self {
            Request::Command(packet) => Asked::Command(packet),
            Request::Event(channel, signals) => Asked::Event(*channel, signals),
            Request::Drain => Asked::Drain,
            Request::FinishStore => Asked::FinishStore,
            Request::Hangup => Asked::Hangup,
            Request::Time(time) => Asked::Time(*time),
            Request::Signals(place, bytes) => Asked::Signals(*place, bytes),
        }
    }

    /// An equal request. It takes no memory and always succeeds.
    pub fn copy(&self) -> Request
        ensures { result ≡ self.now }
    {
        match self {
            Request::Command(packet) => Request::Command(copied(packet)),
            Request::Event(channel, signals) => Request::Event(*channel, copied(signals)),
            Request::Drain => Request::Drain,
            Request::FinishStore => Request::FinishStore,
            Request::Hangup => Request::Hangup,
            Request::Time(time) => Request::Time(*time),
            Request::Signals(place, bytes) => Request::Signals(*place, copied(bytes)),
        }
    }
}
