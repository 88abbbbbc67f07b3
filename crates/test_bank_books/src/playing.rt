//! What the rows of each kind of section are asked of.
use crate::controllers::Controlled;
use crate::cores::{Cores, play_events};
use crate::ends::{Banked, Ends};
use crate::locked::play_locked;
use std::alloc::{AllocError, Global};
use test_playing::{Player, Row, Section, Trouble};
use xcp_bank::IMAGE_BYTES;
use xcp_controller::Controller;
use xcp_program::layout_of;

/// What the rows of a section are asked of.
pub trait Subject {
    /// What a question is answered; none where it means nothing.
    fn told(&mut self, alloc: Global, question: &str) -> Result<Option<String>, AllocError>;
}

/// A question's first word, and the rest.
pub fn words(question: &str) -> (&str, &str) {
    question.split_once(' ').unwrap_or((question, ""))
}

/// What each row is answered.
pub fn each_told<S: Subject>(
    alloc: Global,
    subject: &mut S,
    rows: &[Row<'_>],
) -> Result<Vec<String>, Trouble> {
    let mut told = Vec::new(alloc);
    for row in rows {
        row.stands()?;
        match subject.told(alloc, row.question)? {
            Some(came) => told.push(came)?,
            None => return Err(Trouble::at(row.line, "nothing is asked so")),
        }
    }
    Ok(told)
}

/// The byte of which a bank's first image is made, and how many bytes it has: 2,040 if the line doesn't say.
fn first_image(section: &Section<'_>) -> Result<(u8, usize), Trouble> {
    let (byte, bytes) = words(section.words);
    let byte = section.wanted(byte.parse().ok(), "no byte stands in this line")?;
    if bytes.is_empty() {
        return Ok((byte, IMAGE_BYTES));
    }
    let bytes = section.wanted(bytes.parse().ok(), "no width stands in this line")?;
    Ok((byte, bytes))
}

/// Plays calls over a bank whose first image is of one byte only; and the events behind blanks over a core whose image is that byte
/// and the image's number.
fn play_calls(
    alloc: Global,
    section: &Section<'_>,
    rows: &[Row<'_>],
) -> Result<Vec<String>, Trouble> {
    let (byte, bytes) = first_image(section)?;
    let ends = section.wanted(Ends::new(alloc, byte, bytes)?, "no image is so wide")?;
    let cores = Cores::new(alloc, &[u64::from(byte), 0])?;
    let mut banked = Banked { ends, cores };
    let mut told = each_told(alloc, &mut banked, rows)?;
    banked.cores.end(&mut told)?;
    Ok(told)
}

/// Plays calls of a controller, and of its readers.
fn play_controller(
    alloc: Global,
    section: &Section<'_>,
    rows: &[Row<'_>],
) -> Result<Vec<String>, Trouble> {
    let layout = layout_of(alloc, section.layout()?)?;
    let controller = Controller::open(alloc, layout)?;
    each_told(alloc, &mut Controlled::new(alloc, controller), rows)
}

/// Plays what has readers of images.
pub struct Images;

impl Player for Images {
    fn told(
        &self,
        alloc: Global,
        section: &Section<'_>,
        rows: &[Row<'_>],
    ) -> Result<Vec<String>, Trouble> {
        match section.kind {
            "core" => play_events(alloc, section, rows),
            "bank" => play_calls(alloc, section, rows),
            "locked" => play_locked(alloc, section, rows),
            "controller" => play_controller(alloc, section, rows),
            _ => Err(Trouble::at(section.line, "there is no such kind of section")),
        }
    }
}
