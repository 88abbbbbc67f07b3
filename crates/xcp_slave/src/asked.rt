//! What a slave is asked, where its bytes are lent.
ghost use Rattle.std.specs.Prelude.{◌≡◌};
ghost use Rattle.xcp_slave.specs.AskedRequest.{IsShort, request_asked};

use crate::Request;
use crate::packet::taken;

/// A request whose bytes stand elsewhere, as in the buffer that they were read into.
#[derive(Clone, Copy, Debug, PartialEq, Eq)]
pub enum Asked<'a> {
    /// A command packet (CTO) as it came, of at most 255 bytes.
    Command(&'a [u8]),
    /// An event channel fires: its number, and the first bytes of the signals that the controller measured, at most 64.
    Event(u16, &'a [u8]),
    /// The transport takes the first data or event packet that is ready to be sent.
    Drain,
    /// The controller has stored what SET_REQUEST asked for.
    FinishStore,
    /// The tool's connection is gone: the session ends.
    Hangup,
    /// The clock stands at this time, in ticks of the layout's clock.
    Time(u64),
    /// The controller hands signals over by themselves: from this place on, these bytes, at most 255.
    Signals(u16, &'a [u8]),
}

impl Asked<'_> {
    /// The same request, with bytes of its own.
    pub fn request(self) -> Request
        requires { IsShort self }
        ensures { result ≡ request_asked self.entry }
    {
        match self {
            Asked::Command(bytes) => Request::Command(taken(bytes)),
            Asked::Event(channel, signals) => Request::Event(channel, taken(signals)),
            Asked::Drain => Request::Drain,
            Asked::FinishStore => Request::FinishStore,
            Asked::Hangup => Request::Hangup,
            Asked::Time(time) => Request::Time(time),
            Asked::Signals(place, bytes) => Request::Signals(place, taken(bytes)),
        }
    }
}
