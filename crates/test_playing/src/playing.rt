//! How a part is played: its sections, and the rows of each.
use crate::answer::Answer;
use crate::book::{Piece, SECTION, pieces};
use crate::rows::{Row, rows};
use crate::section::{Ground, Section};
use crate::trouble::Trouble;
use std::alloc::Global;

/// What plays sections of some kinds.
pub trait Player {
    /// What comes of the rows of a section: a text for each row that is answered, in order, and what comes behind them.
    fn told(
        &self,
        alloc: Global,
        section: &Section<'_>,
        rows: &[Row<'_>],
    ) -> Result<Vec<String>, Trouble>;
}

/// The rows of a section. One whose text is an answer has one row.
fn rows_of<'a>(alloc: Global, piece: &Piece<'a>) -> Result<Vec<Row<'a>>, Trouble> {
    let (kind, text) = piece.cut();
    let line = piece.line.saturating_add(1);
    if kind != "checks" && !kind.starts_with("describes ") {
        return rows(alloc, line, text);
    }
    let row = Row {
        line,
        first: line,
        last: piece.line.saturating_add(text.split('\n').count()),
        question: kind,
        answer: Some(String::from_str(alloc, text)?),
    };
    Ok(vec![in alloc; row]?)
}

/// Plays a section, and adds each row that is answered, and what came behind them: nothing stands for it.
fn play_section<'a, P: Player>(
    alloc: Global,
    player: &P,
    section: &Section<'_>,
    piece: &Piece<'a>,
    answers: &mut Vec<Answer<'a>>,
) -> Result<(), Trouble> {
    let rows = rows_of(alloc, piece)?;
    let mut told = player.told(alloc, section, &rows)?.into_iter();
    for row in rows.iter() {
        if row.last < row.first {
            return Err(Trouble::at(row.first, "the answer before has no line"));
        }
        if let Some(stands) = &row.answer {
            let came = match told.next() {
                Some(came) => came,
                None => String::from_str(alloc, "nothing")?,
            };
            answers.push(Answer::new(row, stands.clone()?, came))?;
        }
    }
    match told.next() {
        Some(more) => Ok(answers.push(Answer::no_more(alloc, piece.line, more)?)?),
        None => Ok(()),
    }
}

/// Fails where something stands between a part's name and its first section.
fn check_name(part: &Piece<'_>) -> Result<(), Trouble> {
    let (_, rest) = part.cut();
    if rest.is_empty() || rest.starts_with("--- ") {
        return Ok(());
    }
    Err(Trouble::at(part.line.saturating_add(1), "a part begins with a section"))
}

/// All rows of a part that are answered, in order, as they were played.
pub fn play_part<'a, P: Player>(
    alloc: Global,
    player: &P,
    layouts: &[Piece<'_>],
    part: Piece<'a>,
) -> Result<Vec<Answer<'a>>, Trouble> {
    check_name(&part)?;
    let mut answers = Vec::new(alloc);
    let mut ground = Ground::new();
    let pieces = pieces(alloc, part, SECTION)?;
    for piece in pieces.iter().skip(1) {
        if !ground.take(alloc, layouts, piece)? {
            let section = Section::new(&ground, piece);
            play_section(alloc, player, &section, piece, &mut answers)?;
        }
    }
    if answers.is_empty() {
        return Err(Trouble::at(part.line, "no row of this part has an answer"));
    }
    Ok(answers)
}
