//! Streams that come in passages, and readers that know where they stand.
ghost use Rattle.std.specs.Prelude.{◌≡◌, true, false};

use std::io::Read;

/// Who knows whether the stream of a reader goes on where it has just ended, and tells the reader where its next read begins. Each passage
/// ends between two frames: so whoever counts reads can begin to count again.
pub trait Passages<I: Read> {
    ghost use Rattle.std.specs.Prelude.{Bool};

    /// What is so where a stream goes on.
    ghost goes_on: { Type 0 };

    /// The reader was told last that its next read begins inside a frame, or between two.
    ghost knows: { I → Bool → Type 0 };

    /// Tells the reader whether its next read begins inside a frame, of which a part was read. It reads nothing.
    fn stand(&self, reader: &mut I, inside: bool)
        ensures left { I.remaining reader.new ≡ I.remaining reader.old }
        ensures knows { knows reader.new inside };

    /// Whether another passage begins behind the end that was just read. It reads nothing.
    fn begin_again(&self, reader: &mut I) -> bool
        ensures left { I.remaining reader.new ≡ I.remaining reader.old }
        ensures more { result ≡ true → goes_on }
        ensures none { result ≡ false → reader.new ≡ reader.old };
}

/// A stream is one passage: its end is its end. Its reader needs to know nothing.
#[derive(Clone, Copy, Debug, Drop)]
pub struct Whole;

impl<I: Read> Passages<I> for Whole {
    ghost use Rattle.std.specs.Prelude.{⊤};

    ghost goes_on = { ⊥ };

    ghost knows = { λ _ _. ⊤ };

    fn stand(&self, _reader: &mut I, _inside: bool) {}

    fn begin_again(&self, _reader: &mut I) -> bool {
        false
    }
}
