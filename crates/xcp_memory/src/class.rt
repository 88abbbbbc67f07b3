//! The classes of layouts: how much there may be of one.
ghost use Rattle.std.specs.Prelude.{◌≡◌, ◌≤◌};
ghost use Rattle.xcp_memory.specs.ClassLimits.{limits_of};

use crate::limits::{IMAGE_SIZE, MAX_BYTES, MAX_EVENTS, MAX_SEGMENTS, MAX_SIGNALS};

/// Which limits a layout is held to.
#[derive(Clone, Copy, Debug, PartialEq, Eq)]
pub enum Class {
    /// The limits in which the slave was first specified, and those of a layout that names no class. An image has 2,040
    /// bytes, with zeros behind the pages.
    Papers,
    /// The limits of a large controller. An image has as many bytes as the segments, and zeros up to a multiple of eight.
    Large,
}

/// The limits of a class.
#[derive(Clone, Copy, Debug, PartialEq, Eq)]
pub struct ClassLimits {
    /// How many bytes the segments have at most, in all, whatever number of pages they have.
    pub bytes: usize,
    /// How many segments there are at most.
    pub segments: usize,
    /// How many bytes of signals there are at most.
    pub signals: u32,
    /// How many event channels there are at most.
    pub events: usize,
    /// How many DAQ lists a tool allocates at most.
    pub lists: usize,
    /// How many ODTs it allocates at most, in all lists: the number of one is its PID.
    pub odts: usize,
    /// How many ODT entries it allocates at most, in all ODTs.
    pub entries: usize,
    /// How many packets wait for the tool at most.
    pub packets: usize,
    /// How many bytes BUILD_CHECKSUM sums up at most in one call.
    pub checksum: u32,
}

/// The limits of the class `Papers`.
const PAPERS: ClassLimits = ClassLimits {
    bytes: IMAGE_SIZE,
    segments: 4,
    signals: 64,
    events: 8,
    lists: 16,
    odts: 64,
    entries: 256,
    packets: 64,
    checksum: u32::MAX,
};

/// The limits of the class `Large`.
const LARGE: ClassLimits = ClassLimits {
    bytes: MAX_BYTES,
    segments: MAX_SEGMENTS,
    signals: MAX_SIGNALS,
    events: MAX_EVENTS,
    lists: 64,
    odts: 252,
    entries: 4096,
    packets: 512,
    checksum: 0x1_0000,
};

impl Class {
    /// The limits of the class. (Inlined, so that whoever wants one of them reads no other.)
    #[inline(always)]
    pub fn limits(self) -> ClassLimits
        ensures value { result ≡ limits_of self }
        ensures bytes { (2040 ≤ result.bytes) × (result.bytes ≤ 1048576) }
        ensures segments { (4 ≤ result.segments) × (result.segments ≤ 16) }
        ensures signals { (64 ≤ result.signals) × (result.signals ≤ 16384) }
        ensures events { (8 ≤ result.events) × (result.events ≤ 64) }
        ensures lists { (16 ≤ result.lists) × (result.lists ≤ 64) }
        ensures odts { (64 ≤ result.odts) × (result.odts ≤ 252) }
        ensures entries { (256 ≤ result.entries) × (result.entries ≤ 4096) }
        ensures packets { (64 ≤ result.packets) × (result.packets ≤ 512) }
        ensures sample { result.odts ≤ result.packets }
    {
        match self {
            Class::Papers => PAPERS,
            Class::Large => LARGE,
        }
    }
}
