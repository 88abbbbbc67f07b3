//! How a book is cut: `=== NAME` begins a part, `--- KIND` a section of it. The line feed before such a line belongs to neither, so a
//! text ends with its last character. Lines that begin with `#` may stand before the first part.
use crate::trouble::Trouble;
use std::alloc::{AllocError, Global};

/// What stands before a part's name.
const PART: &str = "\n=== ";

/// What stands before a section's kind.
pub const SECTION: &str = "\n--- ";

/// A part of a book, or a section of a part.
#[derive(Clone, Copy)]
pub struct Piece<'a> {
    /// The number of its first line in the book, from 1.
    pub line: usize,
    /// From its name, or its kind, on.
    pub text: &'a str,
}

impl<'a> Piece<'a> {
    /// Its first line, and what stands behind that.
    pub fn cut(&self) -> (&'a str, &'a str) {
        self.text.split_once('\n').unwrap_or((self.text, ""))
    }
}

/// What stands before the first such mark, and the pieces behind each.
pub fn pieces<'a>(
    alloc: Global,
    whole: Piece<'a>,
    mark: &str,
) -> Result<Vec<Piece<'a>>, AllocError> {
    let mut pieces = Vec::new(alloc);
    let mut line = whole.line;
    for text in whole.text.split(mark) {
        pieces.push(Piece { line, text })?;
        line = line.saturating_add(text.split('\n').count());
    }
    Ok(pieces)
}

/// The text behind the name, of the one of these pieces that has it.
pub fn named<'a>(pieces: &[Piece<'a>], name: &str) -> Option<&'a str> {
    for piece in pieces {
        let (other, text) = piece.cut();
        if other == name {
            return Some(text);
        }
    }
    None
}

/// Fails where what stands before the first part is no comment.
fn check_comments(head: &Piece<'_>) -> Result<(), Trouble> {
    for (number, text) in head.text.split('\n').enumerate() {
        if !text.is_empty() && !text.starts_with('#') {
            let line = head.line.saturating_add(number);
            return Err(Trouble::at(line, "what stands before the first part is no comment"));
        }
    }
    Ok(())
}

/// The parts of a book, in order, from a line feed and its text. Each has a name of its own.
pub(crate) fn parts(alloc: Global, book: &str) -> Result<Vec<Piece<'_>>, Trouble> {
    let text = book.strip_suffix('\n').unwrap_or(book);
    let all = pieces(alloc, Piece { line: 0, text }, PART)?;
    let mut parts = Vec::new(alloc);
    for piece in all.iter() {
        if piece.line == 0 {
            check_comments(piece)?;
            continue;
        }
        let (name, _) = piece.cut();
        if named(parts.as_slice(), name).is_some() {
            return Err(Trouble::at(piece.line, "a part before has this name"));
        }
        parts.push(*piece)?;
    }
    if parts.is_empty() {
        return Err(Trouble::at(1, "no part begins"));
    }
    Ok(parts)
}
