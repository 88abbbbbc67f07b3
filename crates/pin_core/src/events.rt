// What can happen, and what each says. By field, `r` is a reader, `b` a buffer, `k` a place among a
// buffer's words, each numbered from 0.
ghost use Rattle.std.specs.Prelude.{◌≡◌};
ghost use Rattle.pin_core.specs.FaultNumbers.{number_of};

/// One atomic step of one actor: the first four are a reader's, the others the writer's.
#[derive(Clone, Copy, PartialEq, Eq, Debug)]
pub enum Event {
    /// Reader `r` asks which buffer is current. Answered by `Index`.
    Look(u8),
    /// Reader `r` gives back the buffer that it holds; with true it leaves for good. Answered by `Done`.
    Unpin(u8, bool),
    /// Reader `r` takes hold of the current buffer. Answered by its `Index`.
    Pin(u8),
    /// Reader `r` reads word `k` of the buffer that it holds. Answered by `Word`.
    Read(u8, usize),
    /// The writer looks how many have left buffer `b`. Answered by `Leavings`.
    Scan(u8),
    /// The writer takes the quiet buffer `b` to build the next image in it. Answered by `Done`.
    Reset(u8),
    /// The writer writes the next word, number `k`, of the buffer that is being built. Answered by `Done`.
    Write(usize, u64),
    /// The buffer that was built becomes the current one. Answered by `Done`.
    Publish,
}

/// The answer to an event.
#[derive(Clone, Copy, PartialEq, Eq, Debug)]
pub enum Seen {
    /// The current buffer.
    Index(u8),
    /// The word that was read.
    Word(u64),
    /// How many pins of the scanned buffer were given back.
    Leavings(u64),
    /// To an event that tells nothing.
    Done,
}

/// Why a core refused an event. It is as it was before.
#[derive(Clone, Copy, PartialEq, Eq, Debug)]
pub enum StepError {
    /// The event's condition doesn't hold.
    NotEnabled,
    /// The condition holds, and memory was refused: for `Publish` alone, which copies an image.
    Memory,
}

impl StepError {
    /// The refusal's number: 1 NotEnabled, 2 Memory.
    pub fn number(&self) -> u8
        ensures { result ≡ number_of self.now }
    {
        match self {
            StepError::NotEnabled => 1,
            StepError::Memory => 2,
        }
    }
}

/// Why a run stopped.
#[derive(Clone, Copy, PartialEq, Eq, Debug)]
pub enum RunError {
    /// The event at this index, from 0, was refused; the ones before it have happened.
    Refused { index: usize, error: StepError },
    /// Memory was refused for the answers; nothing has happened.
    Memory,
}
