//! The words of a check on one fault.
ghost use Rattle.std.specs.Prelude.{◌≡◌, IfOk, IfSome};
ghost use Rattle.xcp_telling.specs.Locating.{IsFirstLine, IsLastLine, IsWordsOn};

use std::alloc::{AllocError, Global};

/// The fault of a layout file that asks for an A2L file, if none can be made.
const NO_A2L: u8 = 7;

/// The words on the fault of this number in the lines of a check.
pub(crate) fn words_in<'a>(
    alloc: Global,
    number: u8,
    lines: &'a str,
) -> Result<Option<&'a str>, AllocError>
    ensures { IfOk result (λ told. IfSome told (λ words. IsWordsOn number lines.now words.now)) }
{
    if number == NO_A2L {
        return Ok(line_of_entry(lines));
    }
    let head = format!(in alloc; "configuration {number}")?;
    Ok(words_behind(head.as_str(), lines))
}

/// What stands behind this head and a colon in the first line.
#[tactic(auto, using(crate::proofs::LineLemmas::is_first))]
fn words_behind<'a>(head: &str, lines: &'a str) -> Option<&'a str>
    ensures { IfSome result (λ words. IsFirstLine head.now lines.now words.now) }
{
    let (line, _) = lines.split_once('\n')?;
    let (front, words) = line.split_once(": ")?;
    if front == head { Some(words) } else { None }
}

/// The last line, if it is that of an entry which is refused.
fn line_of_entry(lines: &str) -> Option<&str>
    ensures { IfSome result (λ words. IsLastLine lines.now words.now) }
{
    let words = last_line(lines)?;
    if words.starts_with("parameter ") || words.starts_with("measurement ") {
        Some(words)
    } else {
        None
    }
}

/// The last line, if the lines end with a line feed.
fn last_line(lines: &str) -> Option<&str>
    ensures { IfSome result (λ words. IsLastLine lines.now words.now) }
{
    let text = lines.strip_suffix('\n')?;
    match text.rsplit_once('\n') {
        Some((_, words)) => Some(words),
        None => Some(text),
    }
}
