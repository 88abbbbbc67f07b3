//! Receipts that are altered or lost.
use std::alloc::Global;
use test_ground::{bytes_of, lose_last, put_answer, put_chapter};
use xcp_locked::{Caller, Name};
use xcp_packet::{Packet, Train, Width};
use xcp_slave::Answer;

/// The bytes that a text says, as packets of this width; of no width they are silence.
fn answer(text: &str) -> Option<Answer> {
    if text.is_empty() {
        return Some(Answer::Silent);
    }
    let (width, bytes) = text.split_once(' ')?;
    let width = width.parse::<u8>().ok()?;
    let bytes: Packet = bytes_of(bytes)?;
    if width < 7 || width == 255 || bytes.len() > 255 {
        return None;
    }
    Some(Answer::Packets(Train::cut(&bytes, Width::new(width))))
}

/// Alters a caller's receipts, as a text says, if it says something.
pub fn altered<N: Name>(
    alloc: Global,
    caller: &mut Caller<N>,
    verb: &str,
    text: &str,
) -> Option<()> {
    if verb == "lose" {
        return lose_last(alloc, caller);
    }
    let (at, rest) = text.split_once(' ').unwrap_or((text, ""));
    let at = at.parse::<usize>().ok()?;
    match verb {
        "alter" => put_answer(alloc, caller, at, answer(rest)?),
        "move" => put_chapter(alloc, caller, at, rest.parse().ok()?),
        _ => None,
    }
}
