//! The parts that a layout is made of.
use crate::{Class, ClockPart, ExtrasPart};
use xcp_packet::Order;

/// What a layout is made of, as it was read: no limit has been checked.
#[derive(Debug, PartialEq, Drop)]
pub struct Parts {
    /// Which limits hold.
    pub class: Class,
    /// The identification: 1 to 64 printable ASCII bytes.
    pub id: Vec<u8>,
    /// MAX_CTO, in bytes: 8 to 255.
    pub max_cto: i64,
    /// MAX_DTO, in bytes: 8 to 255.
    pub max_dto: i64,
    /// The number of the type of checksums: 1 to 6.
    pub checksum: i64,
    /// The byte order of words and double words in packets.
    pub order: Order,
    /// The clock.
    pub clock: ClockPart,
    /// The segments: one at least, and at most as many, with as many bytes in all, as the class has, whatever number of pages they
    /// have.
    pub segments: Vec<SegmentPart>,
    /// The first address of the signals: 0 to 0xFFFF_FFFE, and so for their last address.
    pub signals_address: i64,
    /// How many bytes of signals there are: 1 to as many as the class has.
    pub signals_length: i64,
    /// The event channels: 1 to 8.
    pub events: Vec<EventPart>,
    /// What the slave has beyond others.
    pub extras: ExtrasPart,
}

/// A segment.
#[derive(Debug, PartialEq, Drop)]
pub struct SegmentPart {
    /// The first address: 0 to 0xFFFF_FFFE, and so for the last address.
    pub address: i64,
    /// The bytes of the reference page: at least one.
    pub bytes: Vec<u8>,
    /// How many pages there are: 2 to 4. All of them begin with these bytes.
    pub pages: i64,
}

/// An event channel.
#[derive(Debug, PartialEq, Drop)]
pub struct EventPart {
    /// The name: 1 to 32 printable ASCII bytes.
    pub name: Vec<u8>,
    /// The time cycle: 0 to 255.
    pub cycle: i64,
    /// The time unit: 0 to 255.
    pub unit: i64,
    /// The priority: 0 to 255.
    pub priority: i64,
}
