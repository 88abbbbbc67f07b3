//! How long the tasks of a controller wait from one cycle to the next.
ghost use Rattle.std.specs.Prelude.{◌≡◌, ◌<◌, ◌≤◌, IfSome, length, slice_index_or as get_or};
ghost use Rattle.xcp_program.specs.Periods.{cycle_time, period_of, periods_of, unit_time};
ghost use Rattle.xcp_memory.specs.Layout.{no_event};

use xcp_memory::Layout;

/// The nanoseconds of a millisecond.
const MILLISECOND: u64 = 1_000_000;

/// The nanoseconds from one cycle of each task to its next, 0 where cycles follow at once; tasks are numbered from 0. At a pace a
/// task has the time that the event channel says which it raises, where the channel says one, else so many milliseconds.
pub fn periods_of(layout: &Layout, pace: bool, period: u32) -> [u64; 6]
    ensures { result ≡ periods_of layout.now pace period }
{
    [
        period_of(layout, pace, period, 0),
        period_of(layout, pace, period, 1),
        period_of(layout, pace, period, 2),
        period_of(layout, pace, period, 3),
        period_of(layout, pace, period, 4),
        period_of(layout, pace, period, 5),
    ]
}

/// The nanoseconds from one cycle of a task to its next.
fn period_of(layout: &Layout, pace: bool, period: u32, task: usize) -> u64
    ensures { result ≡ period_of layout.now pace period task }
{
    match cycle_time(layout, task % layout.event_count()) {
        Some(time) if pace => time,
        _ => u64::from(period) * MILLISECOND,
    }
}

/// The nanoseconds that an event channel's cycle and unit say, if they say any.
fn cycle_time(layout: &Layout, channel: usize) -> Option<u64>
    requires { channel < length layout.now.events }
    ensures { result ≡ cycle_time (get_or layout.now.events channel no_event) }
{
    let cycle = layout.event_cycle(channel);
    if cycle == 0 {
        return None;
    }
    Some(u64::from(cycle) * unit_time(layout.event_unit(channel))?)
}

/// The nanoseconds of a time unit, 0 to 9.
fn unit_time(unit: u8) -> Option<u64>
    ensures value { result ≡ unit_time unit }
    ensures most { IfSome result (λ n. n ≤ 1000000000) }
{
    match unit {
        0 => Some(1),
        1 => Some(10),
        2 => Some(100),
        3 => Some(1_000),
        4 => Some(10_000),
        5 => Some(100_000),
        6 => Some(MILLISECOND),
        7 => Some(10_000_000),
        8 => Some(100_000_000),
        9 => Some(1_000_000_000),
        _ => None,
    }
}
