//! Rows of kind `words`: what the program is asked by the words that it is started with; and of kind `numbers`: the number of their
//! fault, or 0.
//!
//! A question is these words, with a blank between them: `''` is a word without a character, and each word may have escapes. The
//! answer is what they ask for (`asked.rt`), or the status and what the program tells.
use crate::asked::shown;
use crate::output::text_of;
use std::alloc::{AllocError, Global};
use std::env::FillError;
use std::rt::Env;
use test_playing::{Row, Trouble, unescaped};
use xcp_program::{Fault, asked, options, read_words};

/// The words that a program was started with.
#[derive(Drop)]
struct Started {
    words: Vec<Vec<u8>>,
}

impl Env for Started {
    fn arg(&self, i: usize, buf: &mut [u8]) -> Result<usize, FillError> {
        let Some(word) = self.words.get(i) else {
            return Err(FillError::NotPresent);
        };
        let length = word.len();
        match buf.get_mut(..length) {
            Some(front) => front.copy_from_slice(word.as_slice()),
            None => return Err(FillError::TooLong),
        }
        Ok(length)
    }

    fn var(&self, _name: &str, _buf: &mut [u8]) -> Result<usize, FillError> {
        Err(FillError::NotPresent)
    }

    fn var_at(&self, _i: usize, _buf: &mut [u8]) -> Result<usize, FillError> {
        Err(FillError::NotPresent)
    }
}

/// The words of a question.
fn words_of(alloc: Global, row: &Row<'_>) -> Result<Started, Trouble> {
    let mut words = Vec::new(alloc);
    for word in row.question.split(' ') {
        let word = if word == "''" { "" } else { word };
        words.push(unescaped(alloc, row.line, word)?)?;
    }
    Ok(Started { words })
}

/// What a program that was started with these words is asked, or the status and what it tells, with a line feed behind each.
fn told(alloc: Global, words: Started) -> Result<String, AllocError> {
    match asked(alloc, read_words(&(words, alloc))) {
        Ok(options) => shown(alloc, &options),
        Err(e) => format!(in alloc; "{} {e}", e.status()),
    }
}

/// The number of the fault of a row's words, or 0 where they have none.
pub fn answer_number(alloc: Global, row: &Row<'_>) -> Result<String, Trouble> {
    let Ok(words) = read_words(&(words_of(alloc, row)?, alloc)) else {
        return Err(Trouble::at(row.line, "a word is no UTF-8"));
    };
    let number = match options(alloc, &words) {
        Ok(_) => 0,
        Err(fault) => fault.number(),
    };
    Ok(format!(in alloc; "{number}")?)
}

/// What a program that is started with a row's words is asked, or the status and what it tells.
pub fn answer_words(alloc: Global, row: &Row<'_>) -> Result<String, Trouble> {
    let text = told(alloc, words_of(alloc, row)?)?;
    Ok(text_of(alloc, text.as_bytes(), Ok::<(), Fault>(()))?)
}
