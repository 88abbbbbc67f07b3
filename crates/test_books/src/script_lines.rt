//! Rows of kind `line M`: lines of a script, and what they ask a slave with MAX_CTO M; and of kind `text`: the lines of a text.
//!
//! Of a line the answer is `skipped`, `faulty`, `drain`, `store`, `hangup`, `time` with its ticks, `command` with the packet in hex, or
//! `event` with the channel and the signals in hex. Of a text it is the lines, each with `|` behind it, or `nothing`.
use std::alloc::{AllocError, Global};
use test_playing::{Row, Section, Trouble, request_text, unescaped};
use xcp_script::{Line, parse_line, plain_lines};

/// What a line asks, where packets have at most so many bytes.
pub fn line_asks(alloc: Global, section: &Section<'_>, row: &Row<'_>) -> Result<String, Trouble> {
    let line = unescaped(alloc, row.line, row.question)?;
    match parse_line(section.number()?, line.as_slice()) {
        Line::Skip => Ok(String::from_str(alloc, "skipped")?),
        Line::Faulty => Ok(String::from_str(alloc, "faulty")?),
        Line::Ask(request) => Ok(request_text(alloc, &request)?),
    }
}

/// Adds a line with a bar behind it, and with `\r` where a carriage return is one of its bytes.
fn push_barred(alloc: Global, barred: &mut String, line: &[u8]) -> Result<(), AllocError> {
    let line = String::from_utf8_lossy(alloc, line)?;
    let line = line.as_str().replace(alloc, '\r', "\\r")?;
    barred.push_str(line.as_str())?;
    barred.push('|')
}

/// The lines of a text.
pub fn barred(alloc: Global, row: &Row<'_>) -> Result<String, Trouble> {
    let text = unescaped(alloc, row.line, row.question)?;
    let lines = plain_lines(alloc, text.as_slice())?;
    let mut barred = String::new(alloc);
    for line in lines.iter() {
        push_barred(alloc, &mut barred, line.as_slice())?;
    }
    if barred.is_empty() {
        barred.push_str("nothing")?;
    }
    Ok(barred)
}
