//! Chapters that are cut off, and what settling says.
ghost use Rattle.std.specs.Prelude.{◌≡◌};

use crate::texts::{Said, say, say_whether};
use std::alloc::{AllocError, Global};
use std::fmt::Write;
use test_playing::request_text;
use xcp_locked::{
    Caller, Chapter, Discord, Locked, Mismatch, Name, Unsettled, check_joined, settle_chapters,
};

/// The chapter of this number, if it is among these.
pub fn numbered<'a, N: Name>(chapters: &'a [Chapter<N>], number: &str) -> Option<&'a Chapter<N>> {
    let number = number.parse::<u64>().ok()?;
    for chapter in chapters {
        if chapter.number() == number {
            return Some(chapter);
        }
    }
    None
}

/// Takes the chapter of this number out of these, if it is among them.
fn taken<N: Name>(chapters: &mut Vec<Chapter<N>>, number: &str) -> Option<Chapter<N>> {
    let number = number.parse::<u64>().ok()?;
    let place = chapters
        .iter()
        .position(|chapter| chapter.number() == number)?;
    if place < chapters.len() {
        return Some(chapters.swap_remove(place));
    }
    None
}

/// Puts these chapters with those that are set aside.
fn set_aside<N: Name>(
    chapters: &mut Vec<Chapter<N>>,
    aside: &mut Vec<Chapter<N>>,
) -> Result<(), AllocError> {
    for _ in 0..chapters.len() {
        if let Some(chapter) = chapters.pop() {
            aside.push(chapter)?;
        }
    }
    Ok(())
}

/// Takes the chapters of these numbers, in this order, out of all; the others are set aside.
pub fn order<N: Name>(
    alloc: Global,
    chapters: &mut Vec<Chapter<N>>,
    aside: &mut Vec<Chapter<N>>,
    numbers: &str,
) -> Said {
    set_aside(chapters, aside)?;
    for number in numbers.split_whitespace() {
        match taken(aside, number) {
            Some(chapter) => chapters.push(chapter)?,
            None => return Ok(None),
        }
    }
    say(alloc, "-")
}

/// Whether these chapters follow one another up to the open one.
pub fn joined<N: Name>(alloc: Global, locked: &Locked<N>, chapters: &[Chapter<N>]) -> Said {
    match check_joined(locked, chapters) {
        Ok(()) => say(alloc, "yes"),
        Err(number) => Ok(Some(format!(in alloc; "chapter {number}")?)),
    }
}

/// What settling says of a caller's receipts.
pub fn say_settled(alloc: Global, settled: Result<(), Mismatch>) -> Said {
    match settled {
        Ok(()) => say(alloc, "settled"),
        Err(Mismatch { at }) => Ok(Some(format!(in alloc; "mismatch {at}")?)),
    }
}

/// What settling says of these chapters and of all callers, of which there are so many; none where they aren't all.
fn settled<N: Name>(
    locked: &mut Locked<N>,
    chapters: &[Chapter<N>],
    callers: &mut [Caller<N>],
    parts: u8,
) -> Option<Result<u64, Discord>>
    requires { N.parts ≡ parts }
{
    if callers.is_empty() || callers.len() != usize::from(parts) {
        return None;
    }
    Some(settle_chapters(locked, chapters, callers))
}

/// The same, as a text.
pub fn say_all_settled<N: Name>(
    alloc: Global,
    locked: &mut Locked<N>,
    chapters: &[Chapter<N>],
    callers: &mut [Caller<N>],
    parts: u8,
) -> Said
    requires { N.parts ≡ parts }
{
    let text = match settled(locked, chapters, callers, parts) {
        Some(Ok(calls)) => format!(in alloc; "{calls} calls")?,
        Some(Err(Discord::Chapter(number))) => format!(in alloc; "chapter {number}")?,
        Some(Err(Discord::Receipts(number, Unsettled { caller, at }))) => {
            format!(in alloc; "mismatch {at} of caller {caller} in chapter {number}")?
        }
        None => return Ok(None),
    };
    Ok(Some(text))
}

/// The calls of a chapter: of each its caller and its request, each in a line.
fn entries_text<N: Name>(alloc: Global, chapter: &Chapter<N>) -> Result<String, AllocError> {
    let mut text = String::new(alloc);
    let mut entries = chapter.entries();
    for place in 0..chapter.len() {
        let Some(entry) = entries.next() else {
            break;
        };
        if place > 0 {
            text.push('\n')?;
        }
        let asked = request_text(alloc, &entry.exchange.request)?;
        write!(text, "{} {asked}", entry.caller)?;
    }
    Ok(text)
}

/// What a chapter is asked.
pub fn say_of<N: Name>(
    alloc: Global,
    locked: &Locked<N>,
    chapter: &Chapter<N>,
    verb: &str,
) -> Said {
    match verb {
        "unchanged" => say_whether(alloc, chapter.last().same(chapter.base())),
        "followed" => say_whether(alloc, locked.base().same(chapter.last())),
        "entries" if chapter.len() == 0 => say(alloc, "none"),
        "entries" => Ok(Some(entries_text(alloc, chapter)?)),
        _ => Ok(None),
    }
}
