//! The gate of a server.

use std::thread;
use std::time::{Clock, Duration, Instant};
use xcp_locked::Gate;

/// A gate that lets a task begin its cycle n once n of its periods have passed since the server began, or at once
/// where its period is 0. It ends no task.
#[derive(Drop)]
pub(crate) struct Timetable<'a, R> {
    clock: &'a R,
    /// When the server began, if the clock could be read.
    began: Option<Instant>,
    /// The period of each task, in nanoseconds.
    periods: [u64; 6],
}

impl<'a, R: Clock> Timetable<'a, R> {
    /// The gate of a server that begins now.
    pub(crate) fn new(clock: &'a R, periods: [u64; 6]) -> Timetable<'a, R> {
        Timetable {
            clock,
            began: Instant::now(clock).ok(),
            periods,
        }
    }

    /// How long a task of this period still has to wait for this cycle. Where the clock can't be read it is a period.
    fn left(&self, period: u64, cycle: u32) -> Duration {
        let due = Duration::from_nanos(u64::from(cycle).saturating_mul(period));
        match self.passed() {
            Some(passed) => due.saturating_sub(passed),
            None => Duration::from_nanos(period),
        }
    }

    /// The time since the server began.
    fn passed(&self) -> Option<Duration> {
        self.began?.elapsed(self.clock).ok()
    }
}

impl<R: Clock> Gate for Timetable<'_, R> {
    ghost may_end = { ⊥ };

    fn before(&self, task: u8, cycle: u32) -> bool {
        match self.periods.get(usize::from(task)) {
            Some(0) | None => {}
            Some(period) => thread::sleep(self.clock, self.left(*period, cycle)),
        }
        true
    }

    fn after(&self, _task: u8, _cycle: u32) -> bool {
        true
    }
}
