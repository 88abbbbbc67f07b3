//! Answers, as texts.
use hex::encode_upper;
use std::alloc::{AllocError, Global};
use xcp_bank::{IMAGE_BYTES, Taken};
use xcp_packet::Packet;
use xcp_script::push_text;
use xcp_slave::Told;

/// What a question is answered that means something.
pub type Said = Result<Option<String>, AllocError>;

/// These words.
pub fn say(alloc: Global, words: &str) -> Said {
    Ok(Some(String::from_str(alloc, words)?))
}

/// `yes` or `no`.
pub fn say_whether(alloc: Global, holds: bool) -> Said {
    say(alloc, if holds { "yes" } else { "no" })
}

/// `-`, if it was done.
pub fn say_done(alloc: Global, done: Option<()>) -> Said {
    match done {
        Some(()) => say(alloc, "-"),
        None => Ok(None),
    }
}

/// A number, if there is one.
pub fn say_number(alloc: Global, number: Option<u64>) -> Said {
    match number {
        Some(number) => Ok(Some(format!(in alloc; "{number}")?)),
        None => Ok(None),
    }
}

/// `newer` or `same`.
pub fn taken_text(taken: Taken) -> &'static str {
    match taken {
        Taken::Newer => "newer",
        Taken::Same => "same",
    }
}

/// The answer of a slave, as a script has it. Its packet, if it is one, stands in the one that was lent.
pub fn say_answer(alloc: Global, told: Told, packet: &Packet) -> Said {
    let mut text = Vec::new(alloc);
    push_text(&mut text, told, packet)?;
    let _ = text.pop();
    Ok(Some(String::from_utf8_lossy(alloc, text.as_slice())?))
}

/// An image in hex, without its last bytes that are 0.
pub fn image_text(alloc: Global, image: &[u8; IMAGE_BYTES]) -> Result<String, AllocError> {
    let all = encode_upper(alloc, image.as_slice())?;
    let told = all.as_str().trim_end_matches('0').len();
    let told = told.saturating_add(told % 2);
    String::from_str(alloc, all.as_str().get(..told).unwrap_or(all.as_str()))
}

/// An image that is held, as `image_text` has it, or `nothing`.
pub fn say_image(alloc: Global, image: Option<[u8; IMAGE_BYTES]>) -> Said {
    match image {
        Some(image) => Ok(Some(image_text(alloc, &image)?)),
        None => say(alloc, "nothing"),
    }
}
