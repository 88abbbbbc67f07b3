//! A bank of images and its readers, and what their calls answer.
ghost use Rattle.std.specs.Prelude.{◌≡◌, All, IfSome, None};
ghost use Rattle.xcp_bank.specs.BankEnds.{Holds};

use crate::cores::Cores;
use crate::playing::{Subject, words};
use crate::texts::{Said, taken_text};
use pin_core::READERS;
use std::alloc::{AllocError, Global};
use std::marker::Model;
use xcp_bank::{Bank, MAX_IMAGE_BYTES, Reader, Taken, Writer};

/// What a call answers.
#[derive(Clone, Copy, PartialEq, Eq)]
pub enum Told {
    Took(Taken),
    Number(u64),
    Done,
    /// The image that is held is of more than one byte.
    Mixed,
    /// The reader holds no image.
    Nothing,
    /// The reader has left, or was dropped.
    Gone,
}

impl Told {
    pub fn said(&self, alloc: Global) -> Result<String, AllocError> {
        match self {
            Told::Took(taken) => String::from_str(alloc, taken_text(*taken)),
            Told::Number(number) => format!(in alloc; "{number}"),
            Told::Done => String::from_str(alloc, "-"),
            Told::Mixed => String::from_str(alloc, "mixed"),
            Told::Nothing => String::from_str(alloc, "nothing"),
            Told::Gone => String::from_str(alloc, "gone"),
        }
    }
}

/// Publishes an image, if it is as wide as those of this bank.
fn put(writer: &mut Writer, image: &[u8])
    ensures { writer.new.bank ≡ writer.old.bank }
{
    if writer.size() == image.len() {
        writer.publish(image);
    }
}

/// Reads a part of the held image, if it lies inside.
fn get(reader: &mut Reader, at: usize, out: &mut [u8]) -> bool
    requires { Holds reader.old }
    ensures { reader.new.bank ≡ reader.old.bank }
{
    let inside = at <= reader.size() && out.len() <= reader.size() - at;
    if inside {
        reader.read(at, out);
    }
    inside
}

/// The byte of which an image is made.
fn made_of(image: &[u8]) -> Told {
    let first = image.first().copied().unwrap_or(0);
    for byte in image {
        if *byte != first {
            return Told::Mixed;
        }
    }
    Told::Number(u64::from(first))
}

/// The byte of which the held image is made. It is read into `room`, which is as wide.
fn image(reader: &mut Reader, room: &mut [u8]) -> Told
    ensures { reader.new.bank ≡ reader.old.bank }
{
    if !reader.holds() {
        return Told::Nothing;
    }
    if get(reader, 0, room) {
        made_of(room)
    } else {
        Told::Mixed
    }
}

/// The byte at one place of the held image, if it has so many.
fn byte(reader: &mut Reader, at: usize) -> Option<Told>
    ensures { reader.new.bank ≡ reader.old.bank }
{
    if !reader.holds() {
        return Some(Told::Nothing);
    }
    let mut byte = [0; 1];
    if get(reader, at, &mut byte) {
        Some(Told::Number(u64::from(byte[0])))
    } else {
        None
    }
}

fn number(reader: &mut Reader) -> Told
    ensures { reader.new.bank ≡ reader.old.bank }
{
    if reader.holds() {
        Told::Number(reader.number())
    } else {
        Told::Nothing
    }
}

/// What a call of a reader that stays is answered, whoever has it.
pub fn held_told(verb: &str, reader: &mut Reader) -> Option<Told>
    ensures { reader.new.bank ≡ reader.old.bank }
{
    match verb {
        "acquire" => Some(Told::Took(reader.acquire())),
        "holds" => Some(Told::Number(u64::from(reader.holds()))),
        "number" => Some(number(reader)),
        _ => None,
    }
}

/// What a call of a bank's reader that stays is answered; images are read into `room`.
fn reads(
    writer: &mut Writer,
    verb: &str,
    rest: &str,
    reader: &mut Reader,
    room: &mut [u8],
) -> Option<Told>
    requires { reader.old.bank ≡ writer.old.bank }
    ensures writer { writer.new.bank ≡ writer.old.bank }
    ensures reader { reader.new.bank ≡ reader.old.bank }
{
    match verb {
        "read" => Some(image(reader, room)),
        "byte" => byte(reader, rest.parse().ok()?),
        "tell" => {
            reader.tell(writer);
            Some(Told::Done)
        }
        _ => held_told(verb, reader),
    }
}

/// Lets a reader go that leaves, or is dropped as it is.
pub fn lets_go(verb: &str, slot: &mut Option<Reader>) -> Told
    ensures { slot.new ≡ None }
{
    match slot.take() {
        Some(reader) => {
            if verb == "leave" {
                reader.leave();
            }
            Told::Done
        }
        None => Told::Gone,
    }
}

/// What a reader's call is answered; it stays, but where it leaves or is dropped.
fn asked(
    writer: &mut Writer,
    verb: &str,
    rest: &str,
    slot: &mut Option<Reader>,
    room: &mut [u8],
) -> Option<Told>
    requires { IfSome slot.old (λ x. x.bank ≡ writer.old.bank) }
    ensures writer { writer.new.bank ≡ writer.old.bank }
    ensures slot { IfSome slot.new (λ x. x.bank ≡ writer.old.bank) }
{
    if verb == "leave" || verb == "drop" {
        return Some(lets_go(verb, slot));
    }
    match slot {
        Some(reader) => reads(writer, verb, rest, reader, room),
        None => Some(Told::Gone),
    }
}

/// The bytes from one on, and below another; or one byte alone.
fn bounds(bytes: &str) -> Option<(u16, u16)> {
    match bytes.split_once(" below ") {
        Some((first, end)) => Some((first.parse().ok()?, end.parse().ok()?)),
        None => {
            let byte = u16::from(bytes.parse::<u8>().ok()?);
            Some((byte, byte + 1))
        }
    }
}

/// Publishes images of one byte each; `image` is the last one.
fn publish_all(writer: &mut Writer, image: &mut [u8], first: u16, end: u16)
    ensures { writer.new.bank ≡ writer.old.bank }
{
    for byte in first..end {
        image.fill((byte % 256) as u8);
        put(writer, image);
    }
}

fn publish(writer: &mut Writer, image: &mut [u8], bytes: &str) -> Option<Told>
    ensures { writer.new.bank ≡ writer.old.bank }
{
    let (first, end) = bounds(bytes)?;
    publish_all(writer, image, first, end);
    Some(Told::Done)
}

/// Publishes the last image again, but for one byte, if it has one there.
fn publish_byte(writer: &mut Writer, image: &mut [u8], rest: &str) -> Option<Told>
    ensures { writer.new.bank ≡ writer.old.bank }
{
    let (at, byte) = words(rest);
    *image.get_mut(at.parse::<usize>().ok()?)? = byte.parse().ok()?;
    put(writer, image);
    Some(Told::Done)
}

/// What the writer's call is answered; `image` is the one published last.
fn writes(writer: &mut Writer, image: &mut [u8], verb: &str, rest: &str) -> Option<Told>
    ensures { writer.new.bank ≡ writer.old.bank }
{
    match verb {
        "publish" => publish(writer, image, rest),
        "set" => publish_byte(writer, image, rest),
        "held" => Some(Told::Number(u64::from(writer.held()))),
        "count" => Some(Told::Number(writer.count())),
        _ => None,
    }
}

/// A bank's ends: its writer, and the readers that haven't left, each at its place. All are of one bank.
#[derive(Drop)]
pub struct Ends {
    writer: Writer,
    readers: [Option<Reader>; READERS],
    // The image published last, and room for one that is read.
    image: Vec<u8>,
    room: Vec<u8>,
}

impl Model for Ends {
    ghost use Rattle.std.specs.Prelude.{⊤, ◌≡◌, All, IfSome};

    ghost Value = { ⊤ };

    ghost view = { λ e. tt };

    ghost invariant = { λ e. All (λ r. IfSome r (λ x. x.bank ≡ e.writer.bank)) e.readers };
}

impl Ends {
    /// The ends of a bank of images of so many bytes, the first one of this byte only; none where no image is so wide.
    pub fn new(alloc: Global, first: u8, bytes: usize) -> Result<Option<Ends>, AllocError> {
        let image = vec![in alloc; first; bytes]?;
        let room = vec![in alloc; 0u8; bytes]?;
        if image.is_empty() || image.len() % 8 != 0 || image.len() > MAX_IMAGE_BYTES {
            return Ok(None);
        }
        let (writer, readers) = Bank::new(alloc, &image)?;
        let [zero, one, two, three, four, five] = readers;
        let readers = [
            Some(zero),
            Some(one),
            Some(two),
            Some(three),
            Some(four),
            Some(five),
        ];
        Ok(Some(Ends::of(writer, readers, image, room)))
    }

    fn of(writer: Writer, readers: [Option<Reader>; READERS], image: Vec<u8>, room: Vec<u8>) -> Ends
        requires { All (λ r. IfSome r (λ x. x.bank ≡ writer.bank)) readers }
    {
        Ends {
            writer,
            readers,
            image,
            room,
        }
    }

    /// What the call of the reader at a place is answered.
    fn reads(&mut self, verb: &str, place: usize, rest: &str) -> Option<Told> {
        if place >= READERS {
            return None;
        }
        let slot = &mut self.readers[place];
        asked(&mut self.writer, verb, rest, slot, &mut self.room)
    }

    /// What a call is answered; none where it means nothing.
    fn told(&mut self, question: &str) -> Option<Told> {
        let (verb, rest) = words(question);
        match verb {
            "publish" | "set" | "held" | "count" => {
                writes(&mut self.writer, &mut self.image, verb, rest)
            }
            _ => {
                let (place, rest) = words(rest);
                self.reads(verb, place.parse().ok()?, rest)
            }
        }
    }
}

/// A bank's ends, and cores that do what their calls are made of.
#[derive(Drop)]
pub struct Banked {
    pub ends: Ends,
    pub cores: Cores,
}

impl Subject for Banked {
    fn told(&mut self, alloc: Global, question: &str) -> Said {
        if question.starts_with(' ') {
            return self.cores.told(alloc, question.trim_start());
        }
        match self.ends.told(question) {
            Some(told) => Ok(Some(told.said(alloc)?)),
            None => Ok(None),
        }
    }
}
