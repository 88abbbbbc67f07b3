//! What a slave is asked, as a text.
use hex::encode_upper;
use std::alloc::{AllocError, Global};
use std::fmt::Write;
use xcp_slave::Request;

/// What is asked, as a text: `drain`, `store`, `hangup`, `time` with its ticks, `command` with the packet in hex, `event` with the
/// channel and the signals in hex, or `signals` with the place and the bytes in hex.
pub fn request_text(alloc: Global, request: &Request) -> Result<String, AllocError> {
    let (verb, bytes) = match request {
        Request::Command(packet) => ("command ", packet.as_slice()),
        Request::Event(_, signals) => ("event ", signals.as_slice()),
        Request::Drain => return String::from_str(alloc, "drain"),
        Request::FinishStore => return String::from_str(alloc, "store"),
        Request::Hangup => return String::from_str(alloc, "hangup"),
        Request::Time(time) => return format!(in alloc; "time {time}"),
        Request::Signals(_, bytes) => ("signals ", bytes.as_slice()),
    };
    let mut text = String::from_str(alloc, verb)?;
    match request {
        Request::Event(number, _) | Request::Signals(number, _) => write!(text, "{number} ")?,
        _ => {}
    }
    text.push_str(encode_upper(alloc, bytes)?.as_str())?;
    Ok(text)
}
