//! How much waits to be written, and what is always true of it.
//!
//! Its methods stand in `taking_in.rt`: what is true of a type can't be said in words that name the type, and their contracts do.
ghost use Rattle.std.specs.Prelude.{◌≤◌};
ghost use Rattle.xcp_behind.specs.Bounds.{most_bytes, most_pieces};

/// How far the writing is.
#[derive(Clone, Copy, Debug, PartialEq, Eq)]
pub enum Progress {
    /// All that was taken in is written.
    Written,
    /// Something waits to be written.
    Pending,
    /// Something was not written, and never will be.
    Stopped,
}

/// How much waits to be written, and whether more is taken in.
#[derive(Drop)]
pub struct WaitingRoom {
    /// The pieces that were taken in and aren't written, and their bytes.
    pub(crate) pieces: usize,
    pub(crate) bytes: usize,
    /// How many were written, 2^64 - 1 at most.
    pub(crate) written: u64,
    /// No more are taken in.
    pub(crate) given_up: bool,
    /// No more are written.
    pub(crate) stopped: bool,
    ghost few_pieces: { pieces ≤ most_pieces },
    ghost few_bytes: { bytes ≤ most_bytes },
}
