//! A row as it was played.
use crate::rows::Row;
use std::alloc::{AllocError, Global};

/// A row as it was played: where it stands in the book, the answer that stands there, and the one that came. Where an answer has
/// several lines, there are line feeds between them, and none behind the last.
#[derive(Drop)]
pub struct Answer<'a> {
    /// The numbers of the question's line, and of the answer's first and last one.
    pub line: usize,
    pub first: usize,
    pub last: usize,
    pub question: &'a str,
    pub stands: String,
    pub came: String,
}

impl<'a> Answer<'a> {
    /// The answer to a row, of which this stands there and that came.
    pub fn new(row: &Row<'a>, stands: String, came: String) -> Answer<'a> {
        Answer {
            line: row.line,
            first: row.first,
            last: row.last,
            question: row.question,
            stands,
            came,
        }
    }

    /// What came behind the rows of the section of this line, where no more was to come.
    pub fn no_more(alloc: Global, line: usize, came: String) -> Result<Answer<'a>, AllocError> {
        Ok(Answer {
            line,
            first: line,
            last: line,
            question: "behind the last row",
            stands: String::from_str(alloc, "no more")?,
            came,
        })
    }

    /// Whether what stands there came.
    pub fn is_right(&self) -> bool {
        self.stands.as_str() == self.came.as_str()
    }

    /// The first lines that differ of what stands there, and of what came: `nothing` where one ends.
    pub fn first_apart(&self) -> (&str, &str) {
        let mut others = self.came.as_str().split('\n');
        for line in self.stands.as_str().split('\n') {
            let other = others.next().unwrap_or("nothing");
            if line != other {
                return (line, other);
            }
        }
        ("nothing", others.next().unwrap_or("nothing"))
    }
}
