//! Each line of an answer is altered once in its part's text, and the part is played again.
use crate::answer::Answer;
use crate::book::Piece;
use crate::playing::{Player, play_part};
use crate::trouble::Trouble;
use std::alloc::{AllocError, Global};

/// Adds a line whose answer is altered at its end: it has another last character, one more, or one less. Where the answer is empty, it
/// has one more.
fn push_altered(text: &mut String, line: &str, number: usize) -> Result<(), AllocError> {
    let is_empty = line.is_empty() || line.ends_with("> ") || line.ends_with("| ");
    text.push_str(line)?;
    if line.trim_start() == "|" {
        text.push_str(" 0")
    } else if is_empty || number % 3 == 1 {
        text.push('0')
    } else {
        let last = text.pop();
        match last {
            _ if number % 3 == 2 => Ok(()),
            Some('0') => text.push('1'),
            _ => text.push('0'),
        }
    }
}

/// The part's text with the answer in one of its lines altered.
fn altered(alloc: Global, part: Piece<'_>, line: usize) -> Result<String, AllocError> {
    let mut text = String::new(alloc);
    for (number, old) in part.text.split('\n').enumerate() {
        if number > 0 {
            text.push('\n')?;
        }
        if part.line.saturating_add(number) == line {
            push_altered(&mut text, old, line)?;
        } else {
            text.push_str(old)?;
        }
    }
    Ok(text)
}

/// How many answers begin in this line, if the answers that are in it are wrong, and no others.
fn wrong_at(answers: &[Answer<'_>], line: usize) -> Option<usize> {
    let mut count = 0usize;
    for answer in answers {
        let is_there = answer.first <= line && line <= answer.last;
        if is_there == answer.is_right() {
            return None;
        }
        if answer.first == line {
            count = count.saturating_add(1);
        }
    }
    Some(count)
}

/// Whether an answer is in this line.
pub fn is_answered(answers: &[Answer<'_>], line: usize) -> bool {
    for answer in answers {
        if answer.first <= line && line <= answer.last {
            return true;
        }
    }
    false
}

/// How many answers begin in this line of a part, if it is noticed that the answer in it is altered.
pub fn noticed<P: Player>(
    alloc: Global,
    player: &P,
    layouts: &[Piece<'_>],
    part: Piece<'_>,
    line: usize,
) -> Result<Option<usize>, Trouble> {
    let text = altered(alloc, part, line)?;
    let again = Piece {
        line: part.line,
        text: text.as_str(),
    };
    let answers = play_part(alloc, player, layouts, again)?;
    Ok(wrong_at(answers.as_slice(), line))
}
