//! The limits of a layout. Whoever reads the parts of one from a file checks by the same.

/// How many segments there are at most, in the class that has the most.
pub const MAX_SEGMENTS: usize = 16;

/// How many bytes an image has in the class `Papers`, and how many bytes its segments have at most, in all.
pub const IMAGE_SIZE: usize = 2040;

/// How many bytes the segments have at most in all, in the class that has the most.
pub const MAX_BYTES: usize = 1_048_576;

/// How many pages a segment has at least: the reference page and a working page.
pub const MIN_PAGES: u8 = 2;

/// How many pages a segment has at most.
pub const MAX_PAGES: u8 = 4;

/// How many event channels there are at most, in the class that has the most.
pub const MAX_EVENTS: usize = 64;

/// How many areas there are at most: the segments and the signals.
pub const MAX_AREAS: usize = 17;

/// How many bytes of signals there are at most, in the class that has the most.
pub const MAX_SIGNALS: u32 = 16_384;

/// How long the identification is at most.
pub const MAX_ID: usize = 64;

/// How long the name of the A2L file is at most.
pub const MAX_A2L: usize = 64;

/// How long what identifies the A2L file is at most.
pub const MAX_EPK: usize = 64;

/// How long the A2L file is at most.
pub const MAX_DESCRIPTION: usize = 1_048_576;

/// How long the name of an event channel is at most.
pub const MAX_NAME: usize = 32;

/// What MAX_CTO and MAX_DTO are at least.
pub const MIN_PACKET: u8 = 8;

/// How many bytes a time stamp has at most.
pub const MAX_STAMP: u8 = 4;

/// The last code of a unit of time.
pub const MAX_UNIT: u8 = 12;

/// How many units a tick of the clock has at most.
pub const MAX_TICKS: u16 = 65_535;

/// The last address that an area may have.
pub const LAST_ADDRESS: u32 = 0xFFFF_FFFE;
