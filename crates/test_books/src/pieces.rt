//! Streams that come in pieces: what they are answered may not hang on where they are cut.
use crate::frames::found;
use crate::script::replayed;
use crate::serves::served;
use std::alloc::Global;
use std::io::{self, Read};
use test_playing::{Section, Trouble};

/// So many bytes or fewer are cut at each place.
const EACH: usize = 2_000;

/// Bytes that come in pieces, one a read.
#[derive(Clone, Copy)]
pub struct Pieces<'a> {
    pub left: &'a [u8],
    /// How many come first.
    pub first: usize,
    /// The most that come at a time behind those.
    pub most: usize,
}

impl Read for Pieces<'_> {
    fn read(&mut self, buf: &mut [u8]) -> io::Result<usize> {
        let most = if self.first > 0 {
            self.first
        } else {
            self.most
        };
        let count = buf.len().min(most);
        let count = self.left.read(&mut buf[..count])?;
        self.first = self.first.saturating_sub(count);
        Ok(count)
    }
}

/// What a stream of a section's kind is answered.
fn told(alloc: Global, section: &Section<'_>, stream: Pieces<'_>) -> Result<String, Trouble> {
    match section.kind {
        "frames" => found(alloc, section, stream),
        "serves" => served(alloc, section, stream),
        _ => replayed(alloc, section.layout()?, section.pages, stream),
    }
}

/// How many ways there are to cut a section's stream of so many bytes: that of `lines` is left in one piece.
fn cuttings(section: &Section<'_>, length: usize) -> usize {
    if section.kind == "lines" {
        return 1;
    }
    length.min(EACH).saturating_add(3)
}

/// The stream as it is cut the way of this number: it comes in one piece; byte by byte; or in two, cut at each place in turn, but in
/// steps where it is long.
fn cut(left: &[u8], number: usize) -> Pieces<'_> {
    let (first, most) = match number {
        0 => (left.len(), usize::MAX),
        1 => (1, 1),
        _ => (
            (number - 2).saturating_mul(left.len() / EACH + 1),
            usize::MAX,
        ),
    };
    Pieces { left, first, most }
}

/// What a stream is answered that comes in one piece; or, where it is answered otherwise in pieces, this.
pub fn in_pieces(alloc: Global, section: &Section<'_>, left: &[u8]) -> Result<String, Trouble> {
    let mut whole = String::new(alloc);
    for number in 0..cuttings(section, left.len()) {
        let pieces = cut(left, number);
        let came = told(alloc, section, pieces)?;
        if number == 0 {
            whole = came;
        } else if came.as_str() != whole.as_str() {
            let (first, most) = (pieces.first, pieces.most.min(left.len()));
            return Ok(format!(in alloc; "{came}, in pieces of {first} bytes and of {most}")?);
        }
    }
    Ok(whole)
}
