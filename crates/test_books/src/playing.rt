//! What the rows of each kind of section are answered.
use crate::changes::changed;
use crate::files::answer_file;
use crate::findings::{check_of, description, periods_told};
use crate::frames::frame_of;
use crate::left_out::left_out;
use crate::pieces::in_pieces;
use crate::script::{image_behind, script_of};
use crate::script_lines::{barred, line_asks};
use crate::words::{answer_number, answer_words};
use std::alloc::Global;
use test_playing::{Player, Row, Section, Trouble, bytes_of, or_refusal};

/// What a row's stream is answered.
fn stream_told(alloc: Global, section: &Section<'_>, row: &Row<'_>) -> Result<String, Trouble> {
    let stream = bytes_of(alloc, row.line, row.question)?;
    in_pieces(alloc, section, stream.as_slice())
}

/// What a check says of the file with a row's change.
fn change_told(alloc: Global, section: &Section<'_>, row: &Row<'_>) -> Result<String, Trouble> {
    let file = changed(alloc, section.layout()?, row)?;
    check_of(alloc, file.as_slice(), ' ')
}

/// What a row of a section is answered, where rows of its kind are answered one by one.
fn answer(alloc: Global, section: &Section<'_>, row: &Row<'_>) -> Result<String, Trouble> {
    match section.kind {
        "line" => line_asks(alloc, section, row),
        "text" => barred(alloc, row),
        "frame" => frame_of(alloc, row),
        "frames" | "serves" => stream_told(alloc, section, row),
        "changes" => change_told(alloc, section, row),
        "checks" => check_of(alloc, section.layout()?.as_bytes(), '\n'),
        "describes" => description(alloc, section),
        "periods" => periods_told(alloc, section, row),
        "words" => answer_words(alloc, row),
        "numbers" => answer_number(alloc, row),
        "audit" | "restored" => answer_file(alloc, section, row),
        _ => Err(Trouble::at(section.line, "there is no such kind of section")),
    }
}

/// What came of a row; or what stands there, where that leaves out what `..` stands for in it.
fn left_in(section: &Section<'_>, stands: &str, came: String) -> Result<String, Trouble> {
    let leaves_out = section.kind == "changes" || section.kind == "describes";
    if leaves_out && left_out(stands, came.as_str()).is_some() {
        return Ok(String::from_str(*came.allocator(), stands)?);
    }
    Ok(came)
}

/// What each row of a section is answered.
fn each_told(
    alloc: Global,
    section: &Section<'_>,
    rows: &[Row<'_>],
) -> Result<Vec<String>, Trouble> {
    let mut told = Vec::new(alloc);
    for row in rows {
        let stands = row.stands()?;
        let came = or_refusal(alloc, answer(alloc, section, row))?;
        told.push(left_in(section, stands, came)?)?;
    }
    Ok(told)
}

/// What the lines of a script are answered, and what comes behind: a line that came for each row that has an answer, but for images.
fn script_told(
    alloc: Global,
    section: &Section<'_>,
    rows: &[Row<'_>],
) -> Result<Vec<String>, Trouble> {
    let script = script_of(alloc, rows)?;
    let text = in_pieces(alloc, section, script.as_slice())?;
    let mut lines = text.as_str().lines();
    let mut told = Vec::new(alloc);
    for (place, row) in rows.iter().enumerate() {
        if row.answer.is_some() && row.question == "image" {
            let (above, _) = rows.split_at(place);
            told.push(or_refusal(alloc, image_behind(alloc, section, above, row))?)?;
        } else if row.answer.is_some() {
            told.push(String::from_str(alloc, lines.next().unwrap_or("nothing"))?)?;
        }
    }
    if let Some(more) = lines.next() {
        told.push(String::from_str(alloc, more)?)?;
    }
    Ok(told)
}

/// Plays what the program answers.
pub struct Program;

impl Player for Program {
    fn told(
        &self,
        alloc: Global,
        section: &Section<'_>,
        rows: &[Row<'_>],
    ) -> Result<Vec<String>, Trouble> {
        match section.kind {
            "lines" | "script" => script_told(alloc, section, rows),
            _ => each_told(alloc, section, rows),
        }
    }
}
