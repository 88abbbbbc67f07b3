//! What the threads share, and what each has of its own.
use crate::model::Engine;
use crate::tasks::run_task;
use crate::tool::calibrate;
use std::sync::{Barrier, Mutex, Wait};
use together::Work;
use xcp_locked::{Caller, Locked, Name, Reader};

/// How many turns the engine is run for.
pub const TURNS: u32 = 900;

/// The slave and the engine under one lock, and where all threads meet before each turn, in place of a controller's
/// timers.
#[derive(Drop)]
pub struct Bench<N: Name> {
    pub lock: Mutex<(Locked<N>, Engine)>,
    pub turn: Barrier,
}

/// A thread: 0 and 1 are the tasks of these event channels, 2 is the tool, which measures lambda, times 10,000.
#[derive(Drop)]
pub struct Part<'a, N: Name> {
    pub number: u16,
    pub caller: Caller<N>,
    pub reader: Reader<N>,
    pub bench: &'a Bench<N>,
    pub lambdas: [u16; 3],
}

impl<'a, N: Name + Send + Sync> Work<Part<'a, N>> for Part<'a, N> {
    ghost use Rattle.std.specs.Prelude.{⊤};

    ghost gives = { λ before after. ⊤ };

    fn run<R: Wait>(mut self, rt: &R) -> Part<'a, N> {
        if self.number < 2 {
            run_task(rt, &mut self);
        } else {
            self.lambdas = calibrate(rt, &mut self);
        }
        self
    }

    fn leave(self) -> Part<'a, N> {
        self
    }
}
