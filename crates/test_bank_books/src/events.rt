//! Events of the core of pins, as texts.
use crate::playing::words;
use pin_core::Event::{Look, Pin, Publish, Read, Reset, Scan, Unpin, Write};
use pin_core::{Event, Seen};
use std::alloc::{AllocError, Global};

/// An event of a reader, or of the writer at a buffer.
fn event_at(verb: &str, place: u8) -> Option<Event> {
    Some(match verb {
        "look" => Look(place),
        "unpin" => Unpin(place, false),
        "leave" => Unpin(place, true),
        "pin" => Pin(place),
        "scan" => Scan(place),
        "reset" => Reset(place),
        _ => return None,
    })
}

/// The event that a text asks for, if it asks for one.
pub fn event(question: &str) -> Option<Event> {
    let (verb, rest) = words(question);
    let (first, second) = words(rest);
    match verb {
        "publish" => Some(Publish),
        "read" => Some(Read(first.parse().ok()?, second.parse().ok()?)),
        "write" => Some(Write(first.parse().ok()?, second.parse().ok()?)),
        _ => event_at(verb, rest.parse().ok()?),
    }
}

/// The answer to an event, as a text: `-` where it tells nothing. Where it is an answer to another event, it is told whole.
pub fn said(alloc: Global, event: Event, seen: Seen) -> Result<String, AllocError> {
    match (event, seen) {
        (Look(_) | Pin(_), Seen::Index(buffer)) => format!(in alloc; "{buffer}"),
        (Read(..), Seen::Word(word)) => format!(in alloc; "{word}"),
        (Scan(_), Seen::Leavings(count)) => format!(in alloc; "{count}"),
        (Reset(_) | Write(..) | Publish | Unpin(..), Seen::Done) => { String::from_str(alloc, "-") }
        (_, seen) => format!(in alloc; "{seen:?}"),
    }
}
