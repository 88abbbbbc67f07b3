//! Who says when a task may go on.
ghost use Rattle.std.specs.Prelude.{◌≡◌, false};

/// What is asked before and after each cycle of a task: false ends the task. Both may wait, as long
/// as they end.
pub trait Gate {
    /// That such a gate may end a task at all: ⊥ for one that always answers true.
    ghost may_end: { Type 0 };

    fn before(&self, task: u8, cycle: u32) -> bool
        ensures { result ≡ false → may_end };

    fn after(&self, task: u8, cycle: u32) -> bool
        ensures { result ≡ false → may_end };
}
