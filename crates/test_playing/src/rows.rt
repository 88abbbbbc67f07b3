//! The rows of a section.
//!
//! A row is `QUESTION > ANSWER`, parted at the last ` > `, or a question alone, which isn't answered. Where an answer has several
//! lines, the row is `QUESTION >`, and they stand behind it, each behind `| `, an empty one as `|`. `N*` alone on a line repeats the
//! lines behind it that begin with four blanks, N times in all.
use crate::trouble::Trouble;
use std::alloc::{AllocError, Global};

/// What is asked, and what is answered.
#[derive(Drop)]
pub struct Row<'a> {
    /// The number of its line in the book, from 1.
    pub line: usize,
    /// The first and the last line of its answer.
    pub first: usize,
    pub last: usize,
    /// Empty where the row is an answer alone.
    pub question: &'a str,
    /// Where it has several lines, there are line feeds between them.
    pub answer: Option<String>,
}

/// The rows so far.
#[derive(Drop)]
struct Reading<'a> {
    alloc: Global,
    rows: Vec<Row<'a>>,
    /// How often the rows from `from` on stand there in all; 0 where none is repeated.
    times: u32,
    from: usize,
}

/// The row that a line is, without the further lines of its answer.
fn row_of<'a>(alloc: Global, line: usize, text: &'a str) -> Result<Row<'a>, AllocError> {
    let several = text.strip_suffix(" >");
    let (question, answer) = match (text.strip_prefix("> "), several, text.rsplit_once(" > ")) {
        (Some(answer), _, _) => ("", Some(answer)),
        (None, Some(question), _) => (question, Some("")),
        (None, None, Some((question, answer))) => (question, Some(answer)),
        (None, None, None) => (text, None),
    };
    let answer = match answer {
        Some(answer) => Some(String::from_str(alloc, answer)?),
        None => None,
    };
    Ok(Row {
        line,
        first: line.saturating_add(usize::from(several.is_some())),
        last: line,
        question,
        answer,
    })
}

impl<'a> Row<'a> {
    /// The answer that stands there, which has to be there.
    pub fn stands(&self) -> Result<&str, Trouble> {
        match &self.answer {
            Some(answer) => Ok(answer.as_str()),
            None => Err(Trouble::at(self.line, "this is no row")),
        }
    }

    /// Another such row.
    fn again(&self) -> Result<Row<'a>, AllocError> {
        let answer = match &self.answer {
            Some(answer) => Some(answer.clone()?),
            None => None,
        };
        Ok(Row { answer, ..*self })
    }
}

impl<'a> Reading<'a> {
    /// Adds a line to the last answer, which has to be one of several lines.
    fn read_more(&mut self, line: usize, text: &str) -> Result<(), Trouble> {
        if let Some(row) = self.rows.last_mut() {
            if row.line < row.first {
                if let Some(answer) = &mut row.answer {
                    if row.first <= row.last {
                        answer.push_str("\n")?;
                    }
                    answer.push_str(text)?;
                    row.last = line;
                    return Ok(());
                }
            }
        }
        Err(Trouble::at(line, "no answer of several lines begins before"))
    }

    /// Reads a line that isn't repeated, or whose blanks are taken off.
    fn read(&mut self, line: usize, text: &'a str) -> Result<(), Trouble> {
        if text == "|" {
            return self.read_more(line, "");
        }
        if let Some(more) = text.strip_prefix("| ") {
            return self.read_more(line, more);
        }
        self.rows.push(row_of(self.alloc, line, text)?)?;
        Ok(())
    }

    /// Repeats the rows that are to be repeated.
    fn repeat(&mut self) -> Result<(), Trouble> {
        let end = self.rows.len();
        for _ in 1..self.times {
            for place in self.from..end {
                if let Some(row) = self.rows.get(place) {
                    let again = row.again()?;
                    self.rows.push(again)?;
                }
            }
        }
        self.times = 0;
        Ok(())
    }

    /// Reads a line of the section.
    fn take(&mut self, line: usize, text: &'a str) -> Result<(), Trouble> {
        if self.times > 0 {
            if let Some(inner) = text.strip_prefix("    ") {
                return self.read(line, inner);
            }
            self.repeat()?;
        }
        match text.strip_suffix('*').unwrap_or("").parse::<u32>() {
            Ok(times) => {
                self.times = times;
                self.from = self.rows.len();
                Ok(())
            }
            Err(_) => self.read(line, text),
        }
    }
}

/// The rows of a section's text that begins at this line, in order, with those that are repeated.
pub fn rows(alloc: Global, line: usize, text: &str) -> Result<Vec<Row<'_>>, Trouble> {
    let mut reading = Reading {
        alloc,
        rows: Vec::new(alloc),
        times: 0,
        from: 0,
    };
    for (number, text) in text.split('\n').enumerate() {
        reading.take(line.saturating_add(number), text)?;
    }
    reading.repeat()?;
    Ok(reading.rows)
}
