//! A controller with a lock of its own, and its readers.
use crate::ends::{held_told, lets_go};
use crate::playing::{Subject, words};
use crate::texts::{
    Said, image_text, say, say_answer, say_image, say_number, say_whether, taken_text,
};
use std::alloc::{AllocError, Global};
use xcp_bank::{IMAGE_BYTES, Reader};
use xcp_controller::{Controller, keeps_image};
use xcp_script::{Line, parse_line};

/// A controller, as long as it is there, and the readers that were taken, each at its place.
#[derive(Drop)]
pub struct Controlled {
    controller: Option<Controller>,
    readers: Vec<Option<Reader>>,
}

impl Controlled {
    /// A controller, none of whose readers was taken.
    pub fn new(alloc: Global, controller: Controller) -> Controlled {
        Controlled {
            controller: Some(controller),
            readers: Vec::new(alloc),
        }
    }
}

/// What is held, whole, if something is.
fn held(reader: &mut Reader) -> Option<[u8; IMAGE_BYTES]> {
    if !reader.holds() || reader.size() != IMAGE_BYTES {
        return None;
    }
    let mut image = [0xEE; IMAGE_BYTES];
    reader.read(0, &mut image);
    Some(image)
}

/// What a reader takes: whether it is newer, its number, and the image.
fn takes(alloc: Global, reader: &mut Reader) -> Result<String, AllocError> {
    let taken = taken_text(reader.acquire());
    let mut image = [0xEE; IMAGE_BYTES];
    if reader.size() == IMAGE_BYTES {
        reader.read(0, &mut image);
    }
    let number = reader.number();
    let image = image_text(alloc, &image)?;
    format!(in alloc; "{taken} {number} {image}")
}

/// What a reader does that stays.
fn follows(alloc: Global, reader: &mut Reader, verb: &str) -> Said {
    match verb {
        "take" => Ok(Some(takes(alloc, reader)?)),
        "read" => say_image(alloc, held(reader)),
        _ => match held_told(verb, reader) {
            Some(told) => Ok(Some(told.said(alloc)?)),
            None => Ok(None),
        },
    }
}

/// What a reader does; it stays, but where it leaves or is dropped.
fn follows_or_goes(alloc: Global, seat: &mut Option<Reader>, verb: &str) -> Said {
    if verb == "leave" || verb == "drop" {
        return Ok(Some(lets_go(verb, seat).said(alloc)?));
    }
    match seat {
        Some(reader) => follows(alloc, reader, verb),
        None => say(alloc, "gone"),
    }
}

/// Takes a reader, and answers its place.
fn opens(alloc: Global, controller: &mut Controller, readers: &mut Vec<Option<Reader>>) -> Said {
    match controller.take_reader() {
        Some(reader) => {
            let place = readers.len() as u64;
            readers.push(Some(Box::into_inner(reader)))?;
            say_number(alloc, Some(place))
        }
        None => say(alloc, "none"),
    }
}

/// What is answered to what a line of a script says, or whether it keeps the image, if the line says something.
fn asks(alloc: Global, controller: &mut Controller, line: &str) -> Said {
    let asked = line.strip_prefix("keeps ").unwrap_or(line);
    let Line::Ask(request) = parse_line(controller.max_cto(), asked.as_bytes()) else {
        return Ok(None);
    };
    if asked.len() < line.len() {
        return say_whether(alloc, keeps_image(request.lent()));
    }
    let told = controller.answer(request.lent());
    say_answer(alloc, told, controller.packet())
}

impl Subject for Controlled {
    fn told(&mut self, alloc: Global, question: &str) -> Said {
        let Controlled {
            controller,
            readers,
        } = self;
        let (verb, rest) = words(question);
        if let Some(seat) = readers.get_mut(rest.parse().unwrap_or(usize::MAX)) {
            return follows_or_goes(alloc, seat, verb);
        }
        if question == "end" {
            *controller = None;
            return say(alloc, "-");
        }
        let Some(controller) = controller else {
            return say(alloc, "gone");
        };
        match question {
            "open" => opens(alloc, controller, readers),
            "held" => say_number(alloc, Some(u64::from(controller.held()))),
            "pending" => say_number(alloc, Some(u64::from(controller.pending()))),
            "max_cto" => say_number(alloc, Some(u64::from(controller.max_cto()))),
            _ => asks(alloc, controller, question),
        }
    }
}
