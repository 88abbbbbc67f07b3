//! A section of rows, and what they are played on.
use crate::book::{Piece, named};
use crate::escapes::bytes_of;
use crate::trouble::Trouble;
use std::alloc::Global;

/// What the rows of a part are played on: the sections `layout`, `stored pages` and `journal` before them, the last of each.
#[derive(Drop)]
pub struct Ground {
    layout: Option<String>,
    pages: Option<Vec<u8>>,
    journal: Option<Vec<u8>>,
}

impl Ground {
    /// Nothing yet.
    pub fn new() -> Ground {
        Ground {
            layout: None,
            pages: None,
            journal: None,
        }
    }

    /// Takes a section, if it is one of the ground, and tells whether it is.
    pub fn take(
        &mut self,
        alloc: Global,
        layouts: &[Piece<'_>],
        section: &Piece<'_>,
    ) -> Result<bool, Trouble> {
        let (kind, text) = section.cut();
        let line = section.line.saturating_add(1);
        match kind {
            "layout" => self.layout = Some(String::from_str(alloc, text)?),
            "stored pages" => self.pages = Some(bytes_of(alloc, line, text)?),
            "journal" => self.journal = Some(bytes_of(alloc, line, text)?),
            _ if kind.starts_with("layout ") => match named(layouts, kind) {
                Some(text) => self.layout = Some(String::from_str(alloc, text)?),
                None => return Err(Trouble::at(line, "no layout has this name")),
            },
            _ => return Ok(false),
        }
        Ok(true)
    }
}

/// What the rows of a section are asked of.
#[derive(Clone, Copy)]
pub struct Section<'a> {
    /// The number of its line in the book, from 1.
    pub line: usize,
    /// The first word behind `---`, and the others.
    pub kind: &'a str,
    pub words: &'a str,
    /// The text of the layout file, and the bytes of the file of stored pages and of that of a journal, as far as they stand before it.
    pub layout: Option<&'a str>,
    pub pages: Option<&'a [u8]>,
    pub journal: Option<&'a [u8]>,
}

impl<'a> Section<'a> {
    /// The section that a piece is, on this ground.
    pub(crate) fn new(ground: &'a Ground, piece: &Piece<'a>) -> Section<'a> {
        let (head, _) = piece.cut();
        let (kind, words) = head.split_once(' ').unwrap_or((head, ""));
        Section {
            line: piece.line,
            kind,
            words,
            layout: ground.layout.as_deref(),
            pages: ground.pages.as_deref(),
            journal: ground.journal.as_deref(),
        }
    }

    /// What has to be there for its rows to be played, and why they aren't where it isn't.
    pub fn wanted<T>(&self, stands: Option<T>, why: &'static str) -> Result<T, Trouble> {
        match stands {
            Some(it) => Ok(it),
            None => Err(Trouble::at(self.line, why)),
        }
    }

    /// The text of the layout file, which has to be there.
    pub fn layout(&self) -> Result<&'a str, Trouble> {
        self.wanted(self.layout, "no layout stands before these rows")
    }

    /// The number that the words of its line are.
    pub fn number(&self) -> Result<u8, Trouble> {
        self.wanted(self.words.parse().ok(), "no number stands in this line")
    }
}
