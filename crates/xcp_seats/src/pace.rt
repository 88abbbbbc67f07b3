//! When the tasks' cycles begin.
ghost use Rattle.std.specs.Prelude.{◌≡◌, ◌<◌, ◌≤◌};

use crate::halt::Halt;
use std::sync::Wait;
use std::time::{Clock, Duration, Instant};

/// Lets a task begin a cycle at each step of its period since its first, or at once where its period is 0. The first begins so many sixths of
/// the period after the server as the task's number says, so that tasks of one period don't all begin at the same instant.
#[derive(Drop)]
pub struct Pace<'a, R> {
    clock: &'a R,
    /// When the server began, if the clock could be read.
    began: Option<Instant>,
    /// The period of each task, in nanoseconds.
    periods: [u64; 6],
}

impl<'a, R: Clock + Wait> Pace<'a, R> {
    /// The pace of a server that begins now.
    pub fn new(clock: &'a R, periods: [u64; 6]) -> Pace<'a, R> {
        Pace {
            clock,
            began: Instant::now(clock).ok(),
            periods,
        }
    }

    /// Waits until this step of a task is due, or the server is asked to end. Answers the step that is due then: it is a later one where the
    /// task is late by a period or more, as where the program was stopped for a while.
    pub fn wait(&self, task: u8, step: u64, halt: &Halt) -> u64
        ensures { step ≤ result }
    {
        let period = self.period(task);
        if period == 0 {
            return step;
        }
        let phase = phase(period, task);
        let passed = self.passed();
        let left = left(period, phase, step, passed);
        if left.is_zero() {
            return due(period, phase, step, passed);
        }
        halt.wait_for(self.clock, left);
        step
    }

    /// The clock that it reads.
    pub fn time_source(&self) -> &'a R {
        self.clock
    }

    /// Whether a cycle of a task begins at once behind the one before it.
    pub fn is_free(&self, task: u8) -> bool {
        self.period(task) == 0
    }

    /// The period of a task.
    fn period(&self, task: u8) -> u64 {
        self.periods.get(usize::from(task)).copied().unwrap_or(0)
    }

    /// The time since the server began.
    fn passed(&self) -> Option<Duration> {
        self.began?.elapsed(self.clock).ok()
    }
}

/// How long after the server's beginning the first cycle of a task of this period begins, in nanoseconds: so many sixths of the period as
/// the task's number says.
fn phase(period: u64, task: u8) -> u64
    ensures within { task < 6 → result ≤ period }
    ensures first { task ≡ 0 → result ≡ 0 }
{
    period / 6 * u64::from(task.min(5))
}

/// How long a task of this period and phase still has to wait for this step, so long after the server began. Where the clock couldn't be
/// read it is a period.
fn left(period: u64, phase: u64, step: u64, passed: Option<Duration>) -> Duration {
    let begins = step.saturating_mul(period).saturating_add(phase);
    match passed {
        Some(passed) => Duration::from_nanos(begins).saturating_sub(passed),
        None => Duration::from_nanos(period),
    }
}

/// The step of a task of this period and phase that is due so long after the server began, where this one was due by then.
fn due(period: u64, phase: u64, step: u64, passed: Option<Duration>) -> u64
    ensures { step ≤ result }
{
    let nanos = passed.map_or(0, |passed| passed.as_nanos());
    let latest = nanos.saturating_sub(u128::from(phase)) / u128::from(period.max(1));
    step.max(u64::try_from(latest).unwrap_or(u64::MAX))
}
