//! Rows of kind `frames M`: streams in hex, and what is found in them where packets have at most M bytes; and of kind `frame`: a CTR,
//! decimal, and a packet in hex, and the frame that they make, its LEN, its CTR and the packet with blanks between.
//!
//! The answer is the packets in order, in hex, with blanks between. Behind them stands, where more came than whole frames, `bad LEN` or
//! `inside`, and `from` which place of the stream on. Where there is no packet either, it is `nothing`. Each stream is fed to a
//! framer in pieces; to one that is lent its packets too; and it is found by the definition of a stream's frames.
use crate::pieces::Pieces;
use crate::serves::push_frame;
use hex::encode_upper;
use std::alloc::{AllocError, Global};
use std::fmt::Write;
use test_playing::{Row, Section, Trouble, bytes_of};
use xcp_framing::{
    FedInto, Framer, Got, any_cutting_gives_the_same_frames, each_stream_has_its_frames, frame,
    plain_frames, the_wire_gives_its_packets_back,
};
use xcp_packet::Packet;

/// Two framers that are fed alike, one of which is lent its packets, and what they found.
#[derive(Drop)]
struct Finder {
    framer: Framer,
    lent: Framer,
    packets: Vec<Packet>,
    bad: Option<u16>,
    /// Whether both found the same, and neither found nor used anything behind a bad LEN.
    alike: bool,
}

impl Finder {
    /// Before a stream whose packets have at most so many bytes.
    fn new(alloc: Global, max_cto: u8) -> Finder {
        Finder {
            framer: Framer::new(max_cto),
            lent: Framer::new(max_cto),
            packets: Vec::new(alloc),
            bad: None,
            alike: true,
        }
    }

    /// Feeds a piece to both, and tells how many of its bytes are used.
    fn feed(&mut self, piece: &[u8]) -> Result<usize, AllocError> {
        let mut packet = Packet::new();
        let _ = packet.try_extend_from_slice(&[7; 255]);
        let FedInto { used, brought } = self.lent.feed_into(piece, &mut packet);
        let got = brought.with(packet);
        let fed = self.framer.feed(piece);
        let alike = fed.used == used && fed.got == got;
        self.alike = self.alike && alike && self.framer.inside() == self.lent.inside();
        let was_bad = self.bad.take();
        match got {
            Got::BadLength(length) => self.bad = Some(length),
            Got::Packet(packet) => self.packets.push(packet)?,
            Got::More => {}
        }
        if was_bad.is_some() {
            self.alike = self.alike && used == 0 && self.bad == was_bad;
        }
        Ok(used)
    }

    /// Feeds a whole piece. Each feed uses a byte, or nothing more can be used.
    fn feed_all(&mut self, piece: &[u8]) -> Result<(), AllocError> {
        let mut left = piece;
        for _ in 0..=piece.len() {
            let used = self.feed(left)?;
            left = &left[used.min(left.len())..];
        }
        Ok(())
    }

    /// Adds what ends the stream behind the last packet.
    fn push_end(&self, text: &mut String) -> Result<(), AllocError> {
        match self.bad {
            _ if !self.alike => text.push_str(" otherwise where it is lent"),
            Some(length) => write!(text, " bad {length}"),
            None if self.framer.inside() => text.push_str(" inside"),
            None => Ok(()),
        }
    }

    /// What was found of a stream of so many bytes.
    fn tell(&self, alloc: Global, rest: usize, length: usize) -> Result<String, AllocError> {
        let mut text = packets_text(alloc, self.packets.as_slice())?;
        self.push_end(&mut text)?;
        if rest < length {
            write!(text, " from {rest}")?;
        }
        let text = text.as_str().trim_start();
        String::from_str(alloc, if text.is_empty() { "nothing" } else { text })
    }
}

/// Packets in hex, with a blank before each.
fn packets_text(alloc: Global, packets: &[Packet]) -> Result<String, AllocError> {
    let mut text = String::new(alloc);
    for packet in packets {
        let digits = encode_upper(alloc, packet.as_slice())?;
        write!(text, " {digits}")?;
    }
    Ok(text)
}

/// What is found in a stream that comes so.
fn find(alloc: Global, max_cto: u8, stream: Pieces<'_>) -> Result<Finder, AllocError> {
    let mut finder = Finder::new(alloc, max_cto);
    let (front, rest) = stream.left.split_at(stream.first.min(stream.left.len()));
    finder.feed_all(front)?;
    for piece in rest.chunks(stream.most.max(1)) {
        finder.feed_all(piece)?;
    }
    Ok(finder)
}

/// What is found in a stream that comes so; and what the definition finds in it, where it finds other packets.
pub fn found(alloc: Global, section: &Section<'_>, stream: Pieces<'_>) -> Result<String, Trouble> {
    // What is played here is what these laws are of.
    any_cutting_gives_the_same_frames();
    each_stream_has_its_frames();
    the_wire_gives_its_packets_back();
    let max_cto = section.number()?;
    let finder = find(alloc, max_cto, stream)?;
    let (packets, rest) = plain_frames(alloc, max_cto, stream.left)?;
    let mut told = finder.tell(alloc, rest, stream.left.len())?;
    if finder.packets != packets {
        told.push_str(", and by the definition")?;
        told.push_str(packets_text(alloc, packets.as_slice())?.as_str())?;
    }
    Ok(told)
}

/// The frame of a CTR and a packet.
pub fn frame_of(alloc: Global, row: &Row<'_>) -> Result<String, Trouble> {
    let (ctr, packet) = row.question.split_once(' ').unwrap_or((row.question, ""));
    let bytes = bytes_of(alloc, row.line, packet)?;
    let mut packet = Packet::new();
    let fits = packet.try_extend_from_slice(bytes.as_slice()).is_ok();
    let mut text = String::new(alloc);
    match ctr.parse::<u16>() {
        Ok(ctr) if fits => push_frame(alloc, &mut text, frame(ctr, &packet).as_slice())?,
        _ => return Err(Trouble::at(row.line, "these are no CTR and no packet")),
    }
    Ok(text)
}
