//! What finds room among that which waits to be written.
ghost use Rattle.std.specs.Prelude.{◌≡◌, ◌+◌, ◌-◌, ◌^◌, ◌<◌, ◌≤◌, ◌⊎◌, MatchBool, min, true, false};
ghost use Rattle.xcp_behind.specs.Room.{HasRoom, IsFull, IsProgress};

use crate::room::{Progress, WaitingRoom};

/// The most pieces that wait, the one that is being written among them.
const MOST_PIECES: usize = 512;

/// The most bytes of these pieces: 18 MiB.
const MOST_BYTES: usize = 18_874_368;

impl WaitingRoom {
    /// Nothing was taken in yet.
    pub fn new() -> WaitingRoom
        ensures { (result.pieces ≡ 0) × (result.bytes ≡ 0) × (result.written ≡ 0) × (result.given_up ≡ false)
            × (result.stopped ≡ false) }
    {
        WaitingRoom {
            pieces: 0,
            bytes: 0,
            written: 0,
            given_up: false,
            stopped: false,
        }
    }

    /// Whether a piece of so many bytes finds room.
    fn has_room(&self, size: usize) -> bool
        ensures { MatchBool result (HasRoom self.now size) (IsFull self.now size) }
    {
        if self.given_up || self.pieces >= MOST_PIECES {
            return false;
        }
        size <= MOST_BYTES - self.bytes
    }

    /// Takes a piece of so many bytes in, where it finds room. Where it finds none, no piece is taken in any more.
    pub fn take_in(&mut self, size: usize) -> bool
        ensures room { MatchBool result (HasRoom self.old size) (IsFull self.old size) }
        ensures taken { result ≡ true → (self.new.pieces ≡ self.old.pieces + 1) × (self.new.bytes ≡ self.old.bytes + size)
            × (self.new.given_up ≡ false) }
        ensures refused { result ≡ false → (self.new.pieces ≡ self.old.pieces) × (self.new.bytes ≡ self.old.bytes)
            × (self.new.given_up ≡ true) }
        ensures kept { (self.new.written ≡ self.old.written) × (self.new.stopped ≡ self.old.stopped) }
    {
        if !self.has_room(size) {
            self.give_up();
            return false;
        }
        self.pieces += 1;
        self.bytes += size;
        true
    }

    /// Whether more than so many pieces wait, and none was refused.
    pub fn has_more(&self, pieces: usize) -> bool
        ensures { MatchBool result
            ((pieces < self.now.pieces) × (self.now.given_up ≡ false))
            ((self.now.pieces ≤ pieces) ⊎ (self.now.given_up ≡ true)) }
    {
        !self.given_up && self.pieces > pieces
    }

    /// So many pieces, of so many bytes, are written.
    pub fn note_written(&mut self, pieces: usize, bytes: usize)
        ensures less { (self.new.pieces ≡ self.old.pieces - pieces) × (self.new.bytes ≡ self.old.bytes - bytes) }
        ensures more { self.new.written ≡ min (self.old.written + pieces) (2 ^ 64 - 1) }
        ensures kept { (self.new.given_up ≡ self.old.given_up) × (self.new.stopped ≡ self.old.stopped) }
    {
        self.pieces = self.pieces.saturating_sub(pieces);
        self.bytes = self.bytes.saturating_sub(bytes);
        self.written = self.written.saturating_add(pieces as u64);
    }

    /// No piece is taken in any more.
    pub fn give_up(&mut self)
        ensures up { self.new.given_up ≡ true }
        ensures kept { (self.new.pieces ≡ self.old.pieces) × (self.new.bytes ≡ self.old.bytes)
            × (self.new.written ≡ self.old.written) × (self.new.stopped ≡ self.old.stopped) }
    {
        self.given_up = true;
    }

    /// No piece is taken in any more, and none is written.
    pub fn stop(&mut self)
        ensures up { (self.new.given_up ≡ true) × (self.new.stopped ≡ true) }
        ensures kept { (self.new.pieces ≡ self.old.pieces) × (self.new.bytes ≡ self.old.bytes)
            × (self.new.written ≡ self.old.written) }
    {
        self.give_up();
        self.stopped = true;
    }

    /// How many pieces were written, 2^64 - 1 at most.
    pub fn written(&self) -> u64
        ensures { result ≡ self.now.written }
    {
        self.written
    }

    /// How far the writing is.
    pub fn progress(&self) -> Progress
        ensures { IsProgress self.now result }
    {
        if self.pieces == 0 {
            return Progress::Written;
        }
        if self.stopped {
            return Progress::Stopped;
        }
        Progress::Pending
    }
}
