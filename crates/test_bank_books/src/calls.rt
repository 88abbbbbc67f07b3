//! Calls of a slave behind its lock, and what its readers do.
use crate::texts::{Said, say, say_answer, say_image, taken_text};
use std::alloc::Global;
use xcp_bank::IMAGE_BYTES;
use xcp_locked::{Caller, HeldPublication, Locked, LockedError, Name, Reader};
use xcp_packet::Packet;
use xcp_script::{Line, parse_line};

/// Why a call was refused, by its number.
pub fn say_refused(alloc: Global, refusal: LockedError) -> Said {
    Ok(Some(format!(in alloc; "refused {}", refusal.number())?))
}

/// What a caller is answered that asks what a line of a script says, if it says something.
pub fn submitted<N: Name>(
    alloc: Global,
    locked: &mut Locked<N>,
    caller: &mut Caller<N>,
    line: &str,
) -> Said {
    let Line::Ask(request) = parse_line(locked.slave().max_cto(), line.as_bytes()) else {
        return Ok(None);
    };
    let mut packet = Packet::new();
    match locked.submit_into(caller, request.lent(), &mut packet) {
        Ok(told) => say_answer(alloc, told, &packet),
        Err(refusal) => say_refused(alloc, refusal),
    }
}

/// What a reader holds, whole, if it holds something.
fn held<N: Name>(reader: &mut Reader<N>) -> Option<[u8; IMAGE_BYTES]> {
    if !reader.holds() || reader.size() != IMAGE_BYTES {
        return None;
    }
    let mut image = [0xEE; IMAGE_BYTES];
    reader.read(0, &mut image);
    Some(image)
}

/// Which publication a reader holds, as settling says.
fn say_settled(alloc: Global, settled: Result<Option<HeldPublication>, LockedError>) -> Said {
    match settled {
        Ok(Some(held)) => {
            let HeldPublication {
                number,
                chapter,
                from,
            } = held;
            Ok(Some(format!(in alloc; "number {number} from {from} chapter {chapter}")?))
        }
        Ok(None) => say(alloc, "none"),
        Err(refusal) => say_refused(alloc, refusal),
    }
}

/// What a reader does that stays.
fn follows<N: Name>(
    alloc: Global,
    locked: &mut Locked<N>,
    reader: &mut Reader<N>,
    verb: &str,
) -> Said {
    match verb {
        "acquire" => say(alloc, taken_text(reader.acquire())),
        "read" => say_image(alloc, held(reader)),
        "settle_reader" => say_settled(alloc, locked.settle_reader(reader)),
        "tell" => {
            locked.tell(reader);
            say(alloc, "-")
        }
        _ => Ok(None),
    }
}

/// Lets a reader go that leaves, or is dropped as it is.
fn lets_go<N: Name>(verb: &str, reader: Reader<N>) {
    if verb == "leave" {
        reader.leave();
    }
}

/// What a reader does; it stays, but where it leaves or is dropped.
pub fn follows_or_goes<N: Name>(
    alloc: Global,
    locked: &mut Locked<N>,
    seat: &mut Option<Reader<N>>,
    verb: &str,
) -> Said {
    let goes = verb == "leave" || verb == "drop";
    let left = if goes { seat.take() } else { None };
    if let Some(reader) = left {
        lets_go(verb, reader);
        return say(alloc, "-");
    }
    match seat {
        Some(reader) => follows(alloc, locked, reader, verb),
        None => say(alloc, "gone"),
    }
}
