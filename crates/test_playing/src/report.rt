//! What is told of the books.
use crate::answer::Answer;
use crate::book::{Piece, named, parts};
use crate::playing::{Player, play_part};
use crate::self_test::{is_answered, noticed};
use crate::trouble::Trouble;
use std::alloc::{AllocError, Global};
use std::fmt::Write;

/// What came of the books so far.
#[derive(Drop)]
pub struct Report<'a> {
    alloc: Global,
    /// The layout files that have a name.
    layouts: Vec<Piece<'a>>,
    /// Whether answers are altered too.
    pub alters: bool,
    /// How many were.
    pub altered: usize,
    /// How many parts have a wrong answer, or one that was altered and not noticed.
    pub wrong: usize,
    /// What is told of the book that is played.
    pub text: String,
}

impl<'a> Report<'a> {
    /// No book yet, and no answers altered.
    pub fn new(alloc: Global) -> Report<'a> {
        Report {
            alloc,
            layouts: Vec::new(alloc),
            alters: false,
            altered: 0,
            wrong: 0,
            text: String::new(alloc),
        }
    }

    /// Tells an answer that is wrong: of several lines those that differ first.
    fn tell_wrong(&mut self, name: &str, wrong: &Answer<'_>) -> Result<(), AllocError> {
        self.wrong = self.wrong.saturating_add(1);
        let (line, question) = (wrong.line, wrong.question);
        let (stands, came) = wrong.first_apart();
        writeln!(
            self.text,
            "{name}:{line}: {question}\n  stands {stands}\n  came {came}"
        )
    }

    /// Tells that the answer in this line was altered, and that it wasn't noticed.
    fn tell_unnoticed(&mut self, name: &str, line: usize) -> Result<(), AllocError> {
        self.wrong = self.wrong.saturating_add(1);
        let text = &mut self.text;
        writeln!(
            text,
            "{name}:{line}: this answer was altered, and it wasn't noticed"
        )
    }

    /// Alters each line of the answers of a part whose answers are right, up to the first that isn't noticed.
    fn alter<P: Player>(
        &mut self,
        player: &P,
        name: &str,
        part: Piece<'a>,
        answers: &[Answer<'a>],
    ) -> Result<(), Trouble> {
        let mut line = part.line;
        for _ in part.text.split('\n') {
            if is_answered(answers, line) {
                match noticed(self.alloc, player, self.layouts.as_slice(), part, line)? {
                    Some(count) => self.altered = self.altered.saturating_add(count),
                    None => return Ok(self.tell_unnoticed(name, line)?),
                }
            }
            line = line.saturating_add(1);
        }
        Ok(())
    }

    /// Plays a part, tells its first wrong answer, and gives how many answers it has.
    fn play<P: Player>(
        &mut self,
        player: &P,
        name: &str,
        part: Piece<'a>,
    ) -> Result<usize, Trouble> {
        let answers = play_part(self.alloc, player, self.layouts.as_slice(), part)?;
        for answer in answers.iter() {
            if !answer.is_right() {
                self.tell_wrong(name, answer)?;
                return Ok(answers.len());
            }
        }
        if self.alters {
            self.alter(player, name, part, answers.as_slice())?;
        }
        Ok(answers.len())
    }

    /// Keeps a layout file for the parts behind it. Its name may not be there yet.
    fn keep(&mut self, part: Piece<'a>) -> Result<(), Trouble> {
        let (name, _) = part.cut();
        if named(self.layouts.as_slice(), name).is_some() {
            return Err(Trouble::at(part.line, "a layout has this name already"));
        }
        self.layouts.push(part)?;
        Ok(())
    }

    /// Keeps or plays a part, and gives how many answers it has.
    fn take<P: Player>(
        &mut self,
        player: &P,
        name: &str,
        part: Piece<'a>,
    ) -> Result<usize, Trouble> {
        if part.text.starts_with("layout ") {
            self.keep(part)?;
            return Ok(0);
        }
        self.play(player, name, part)
    }

    /// Plays a book, from a line feed and its text, and tells what is wrong in it, and how many parts and answers it has.
    pub fn play_book<P: Player>(
        &mut self,
        player: &P,
        name: &str,
        book: &'a str,
    ) -> Result<(), Trouble> {
        let parts = parts(self.alloc, book)?;
        let mut answers = 0usize;
        for part in parts.iter() {
            answers = answers.saturating_add(self.take(player, name, *part)?);
        }
        let count = parts.len();
        writeln!(self.text, "{name}: {count} parts, {answers} answers")?;
        Ok(())
    }
}
