//! Rows of kind `serves`: streams of frames in hex, each of which a desk over a new slave is served; what is written, and how it ends.
//!
//! The answer has a line for each frame that is written, its LEN, its CTR and its packet in hex with blanks between, and then
//! `frames F sent S`, or `stream N`, the number of the fault, with the LEN that is bad.
use crate::pieces::Pieces;
use crate::script::begun;
use hex::encode_upper;
use std::alloc::{AllocError, Global};
use std::fmt::Write;
use test_playing::{Section, Trouble};
use xcp_framing::{Desk, ServeError, Served, Watched, serve};
use xcp_memory::Layout;
use xcp_slave::Slave;

/// The most reads of one stream.
const TURNS: u32 = 10_000;

/// A frame, and what stands behind it: all bytes are of it where it isn't whole.
fn cut_frame(bytes: &[u8]) -> (&[u8], &[u8]) {
    let length = match bytes {
        [low, high, ..] => usize::from(u16::from_le_bytes([*low, *high])),
        _ => 0,
    };
    bytes.split_at(length.saturating_add(4).min(bytes.len()))
}

/// Adds a frame: its LEN, its CTR and its packet in hex, with blanks between.
pub fn push_frame(alloc: Global, text: &mut String, frame: &[u8]) -> Result<(), AllocError> {
    let digits = encode_upper(alloc, frame)?;
    let (head, packet) = digits
        .as_str()
        .split_at_checked(8)
        .unwrap_or((digits.as_str(), ""));
    let (length, ctr) = head.split_at_checked(4).unwrap_or((head, ""));
    let blank = if packet.is_empty() { "" } else { " " };
    write!(text, "{length} {ctr}{blank}{packet}")
}

/// A desk over a new slave of this layout.
fn desk_of(alloc: Global, layout: Layout) -> Result<Desk, AllocError> {
    Ok(Desk::new(alloc, Slave::new(alloc, layout)?))
}

/// What a desk writes where a stream comes so, and how it ends.
fn desk_told(
    alloc: Global,
    mut desk: Desk,
    stream: Pieces<'_>,
) -> (Vec<u8>, Result<Served, ServeError>) {
    let max_cto = desk.max_cto();
    let mut reader = Watched::new(stream);
    let mut writer = Watched::new(Vec::new(alloc));
    let ended = serve(alloc, &mut reader, &mut writer, &mut desk, max_cto, TURNS);
    (writer.into_inner(), ended)
}

/// The frames of what was written, a line for each.
fn frames_of(alloc: Global, written: &[u8]) -> Result<String, AllocError> {
    let mut text = String::new(alloc);
    let mut left = written;
    for _ in 0..written.len() {
        if left.is_empty() {
            break;
        }
        let (frame, rest) = cut_frame(left);
        push_frame(alloc, &mut text, frame)?;
        text.push('\n')?;
        left = rest;
    }
    Ok(text)
}

/// Adds how a stream ended.
fn push_end(text: &mut String, ended: Result<Served, ServeError>) -> Result<(), AllocError> {
    match ended {
        Ok(served) => write!(text, "frames {} sent {}", served.frames, served.sent),
        Err(ServeError::BadLength(length)) => write!(text, "stream 3, LEN {length}"),
        Err(error) => write!(text, "stream {}", error.number()),
    }
}

/// What a desk over a new slave answers a stream that comes so, and how it ends.
pub fn served(alloc: Global, section: &Section<'_>, stream: Pieces<'_>) -> Result<String, Trouble> {
    let layout = begun(alloc, section)?;
    let (written, ended) = desk_told(alloc, desk_of(alloc, layout)?, stream);
    let mut text = frames_of(alloc, written.as_slice())?;
    push_end(&mut text, ended)?;
    Ok(text)
}
