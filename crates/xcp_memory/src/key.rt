//! Where a layout breaks a limit.
ghost use Rattle.std.specs.Prelude.{◌≡◌};
ghost use Rattle.xcp_memory.specs.FaultNumbers.{number_of};

use thiserror::Error;

/// A value of a layout. The number is that of its segment or of its event channel, from 0.
#[derive(Clone, Copy, Debug, PartialEq, Eq)]
pub enum Key {
    /// The identification of the slave.
    Id,
    /// The greatest length of a command packet, MAX_CTO.
    MaxCto,
    /// The greatest length of a data packet, MAX_DTO.
    MaxDto,
    /// The byte order.
    ByteOrder,
    /// The type of checksums.
    Checksum,
    /// The name of the A2L file.
    A2l,
    /// Whether tools get the A2L file from the slave.
    UploadA2l,
    /// How a lost sample is told.
    Overload,
    /// The clock.
    Clock,
    /// How many bytes a time stamp has.
    ClockSize,
    /// The unit of time.
    ClockUnit,
    /// How many units a tick has.
    ClockTicks,
    /// Which limits hold.
    Class,
    /// The segments.
    Segment,
    /// The first address of a segment.
    Address(u8),
    /// The bytes of a segment's reference page.
    Data(u8),
    /// How many pages a segment has.
    Pages(u8),
    /// The signals.
    Signals,
    /// The first address of the signals.
    SignalsAddress,
    /// How many bytes of signals there are.
    SignalsLength,
    /// The event channels.
    Event,
    /// The name of an event channel.
    Name(u8),
    /// The time cycle of an event channel.
    Cycle(u8),
    /// The time unit of an event channel.
    Unit(u8),
    /// The priority of an event channel.
    Priority(u8),
}

/// An area of addresses.
#[derive(Clone, Copy, Debug, PartialEq, Eq)]
pub enum Area {
    /// A segment, by its number from 0.
    Segment(u8),
    /// The signals.
    Signals,
}

/// A limit that parts of a layout break.
#[derive(Clone, Copy, Debug, PartialEq, Eq, Error)]
pub enum LayoutFault {
    /// A value out of its range.
    #[error("{0:?} is out of its range")]
    Range(Key),
    /// Two areas that share an address.
    #[error("{0:?} and {1:?} share an address")]
    Overlap(Area, Area),
    /// More than there is room for.
    #[error("too many: {0:?}")]
    TooMany(Key),
}

impl LayoutFault {
    /// The fault's number: 1 Range, 2 Overlap, 3 TooMany.
    pub fn number(&self) -> u8
        ensures { result ≡ number_of self.now }
    {
        match self {
            LayoutFault::Range(_) => 1,
            LayoutFault::Overlap(_, _) => 2,
            LayoutFault::TooMany(_) => 3,
        }
    }
}
