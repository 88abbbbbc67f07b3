//! The clock of a layout: the time stamps of data packets.
ghost use Rattle.std.specs.Prelude.{◌≡◌, Some, None, IfOk, IfErr};
ghost use Rattle.xcp_packet.specs.Rows.{first_holding};
ghost use Rattle.xcp_memory.specs.LayoutParts.{clock_of, stamp_sized};
ghost use Rattle.xcp_memory.specs.Limits.{clock_limits};

use crate::limits::{MAX_STAMP, MAX_TICKS, MAX_UNIT};
use crate::{Key, LayoutFault, checks};
use xcp_packet::Stamp;

/// What a clock is made of, as it was read: no limit has been checked.
#[derive(Clone, Copy, Debug, PartialEq, Eq)]
pub struct ClockPart {
    /// How many bytes a time stamp has: 0 (there are none), 1, 2 or 4.
    pub size: i64,
    /// The unit of time, by the code of TIMESTAMP_MODE: 0 (a nanosecond) to 12 (100 picoseconds).
    pub unit: i64,
    /// How many units a tick of the clock has: 1 to 65,535.
    pub ticks: i64,
}

/// No time stamps.
pub const NO_CLOCK: ClockPart = ClockPart {
    size: 0,
    unit: 0,
    ticks: 1,
};

/// The clock of a slave.
///
/// ASAM MCD-1 XCP, protocol layer, description of commands: GET_DAQ_RESOLUTION_INFO.
#[derive(Clone, Copy, Debug, PartialEq, Eq)]
pub struct Clock {
    /// How much of the time a time stamp has.
    pub stamp: Stamp,
    /// The unit of time, by the code of TIMESTAMP_MODE.
    pub unit: u8,
    /// How many units a tick has, TIMESTAMP_TICKS.
    pub ticks: u16,
}

/// The time stamp with so many bytes.
fn stamp_of_size(size: u8) -> Stamp
    ensures { result ≡ stamp_sized size }
{
    match size {
        0 => Stamp::Without,
        1 => Stamp::Byte,
        2 => Stamp::Word,
        _ => Stamp::Double,
    }
}

impl Clock {
    /// The clock of this part, or the first limit that it breaks.
    pub(crate) fn read(part: ClockPart) -> Result<Clock, LayoutFault>
        ensures ok { IfOk result (λ c. (first_holding (clock_limits part) ≡ None) × (c ≡ clock_of part)) }
        ensures refused { IfErr result (λ e. first_holding (clock_limits part) ≡ Some e) }
    {
        let size = checks::byte(part.size, 0, MAX_STAMP, Key::ClockSize)?;
        if size == 3 {
            return Err(LayoutFault::Range(Key::ClockSize));
        }
        let unit = checks::byte(part.unit, 0, MAX_UNIT, Key::ClockUnit)?;
        let ticks = checks::number(part.ticks, 1, u32::from(MAX_TICKS), Key::ClockTicks)?;
        Ok(Clock {
            stamp: stamp_of_size(size),
            unit,
            ticks: ticks as u16,
        })
    }
}
