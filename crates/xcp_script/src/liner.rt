//! The lines of a text that comes in pieces.
ghost use Rattle.std.specs.Prelude.{◌≡◌, ◌<◌, ◌+◌, ◌++◌, ◌∷◌, [], MatchBool, MatchOption, drop, length, take};
ghost use Rattle.xcp_script.specs.Lines.{HasNoFeed, without_return};
ghost use Rattle.xcp_script.specs.private.LineReading.{LineCut, whole_line};

use arrayvec::ArrayVec;
use memchr::memchr;

/// The most bytes before a line feed that can be a line that is not faulty: 1,024 and a carriage
/// return. A line that has more is faulty whatever follows, so no more of it is kept.
const KEPT_BYTES: usize = 1025;

/// What a piece brought.
#[derive(Clone, Copy, Debug, PartialEq, Eq)]
pub(crate) enum Lined {
    /// No line feed.
    More,
    /// A line feed: it stands behind so many bytes of the piece.
    Line(usize),
    /// More bytes of the line that has begun than one can have.
    TooLong,
}

/// Takes a text piece by piece, and finds the ends of its lines. It holds the bytes of the line that
/// has begun, but for those of a line that lies in one piece.
#[derive(Drop)]
pub(crate) struct Liner {
    pub(crate) held: ArrayVec<u8, KEPT_BYTES>,
}

impl Liner {
    pub(crate) fn new() -> Liner
        ensures { result.held.items ≡ [] }
    {
        Liner {
            held: ArrayVec::new(),
        }
    }

    /// Uses a piece up to its first line feed, or all of it.
    pub(crate) fn feed(&mut self, piece: &[u8]) -> Lined
        ensures { LineCut self.old.held.items piece.now result self.new.held.items }
    {
        let Some(end) = first_feed(piece) else {
            if !self.keep(piece) {
                return Lined::TooLong;
            }
            return Lined::More;
        };
        if self.held.is_empty() {
            return Lined::Line(end);
        }
        if !self.keep(&piece[..end]) {
            return Lined::TooLong;
        }
        Lined::Line(end)
    }

    /// The line that has ended, of which these are the last bytes in the piece, without the carriage
    /// return at its end.
    pub(crate) fn line<'a>(&'a self, last: &'a [u8]) -> &'a [u8]
        ensures { result.now ≡ whole_line self.now.held.items last.now }
    {
        if self.held.is_empty() {
            return without_return(last);
        }
        without_return(&self.held)
    }

    /// The next line begins.
    pub(crate) fn begin(&mut self)
        ensures { self.new.held.items ≡ [] }
    {
        self.held.clear();
    }

    /// Keeps the next bytes of a line, if one can have so many.
    fn keep(&mut self, more: &[u8]) -> bool
        ensures { MatchBool result (self.new.held.items ≡ self.old.held.items ++ more.now)
            (KEPT_BYTES < length (self.old.held.items ++ more.now)) }
    {
        self.held.try_extend_from_slice(more).is_ok()
    }
}

/// How many bytes stand before the first line feed.
fn first_feed(bytes: &[u8]) -> Option<usize>
    ensures { MatchOption result (HasNoFeed bytes.now) (λ end. HasNoFeed (take end bytes.now)
        × (bytes.now ≡ take end bytes.now ++ 10 ∷ drop (end + 1) bytes.now)
        × (end < length bytes.now)) }
{
    memchr(b'\n', bytes)
}

/// A line that a line feed ended, without the carriage return before that.
#[tactic(auto, unfolding(crate::specs::Lines::without_return))]
pub(crate) fn without_return(line: &[u8]) -> &[u8]
    ensures { result.now ≡ without_return line.now }
{
    match line {
        [front @ .., b'\r'] => front,
        _ => line,
    }
}
