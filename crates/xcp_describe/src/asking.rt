//! A slave that is asked.
ghost use Rattle.std.specs.Prelude.{◌≤◌};
ghost use Rattle.xcp_packet.specs.PlainSpelling.{OnePacket};

use std::alloc::{AllocError, Global};
use xcp_memory::Layout;
use xcp_packet::{Command, Order, Packet, encode_command};
use xcp_slave::{Cut, Slave, Told};

/// The first byte of a positive response.
const POSITIVE: u8 = 0xFF;

/// The first byte of an error packet.
const ERROR: u8 = 0xFE;

/// The error code of a command that a slave doesn't have.
const UNKNOWN: u8 = 0x20;

/// What a slave answered: the bytes of a packet.
#[derive(Drop)]
pub(crate) struct Answer {
    bytes: Packet,
    order: Order,
}

impl Answer {
    /// Whether it is a positive response.
    pub(crate) fn is_positive(&self) -> bool {
        self.byte(0) == POSITIVE
    }

    /// The byte at this place, and 0 where there is none.
    pub(crate) fn byte(&self, place: usize) -> u8 {
        match self.bytes.get(place) {
            Some(byte) => *byte,
            None => 0,
        }
    }

    /// The word whose first byte has this place, and 0 where there is none.
    pub(crate) fn word(&self, place: usize) -> u16
        requires { place ≤ 255 }
    {
        if place + 2 > self.bytes.len() {
            return 0;
        }
        self.order.word_at(&self.bytes, place)
    }

    /// The double word whose first byte has this place, and 0 where there is none.
    pub(crate) fn double(&self, place: usize) -> u32
        requires { place ≤ 255 }
    {
        if place + 4 > self.bytes.len() {
            return 0;
        }
        self.order.double_at(&self.bytes, place)
    }
}

/// A slave that nobody else asks.
#[derive(Drop)]
pub(crate) struct Asked {
    slave: Slave,
}

impl Asked {
    /// A new slave of this layout.
    pub(crate) fn new(alloc: Global, layout: Layout) -> Result<Asked, AllocError> {
        let slave = Slave::new(alloc, layout)?;
        Ok(Asked { slave })
    }

    /// What the slave answers to a command packet. It has no bytes where nothing is sent; of an answer in several packets it
    /// has the data bytes alone.
    fn submit(&mut self, packet: Packet) -> (Told, Packet) {
        let mut answer = Packet::new();
        let told = self
            .slave
            .answer(xcp_slave::Asked::Command(&packet), &mut answer);
        (told, answer)
    }

    /// What the slave answers to a command that is answered by one packet.
    pub(crate) fn ask(&mut self, command: &Command) -> Answer
        requires { OnePacket command.now }
    {
        let order = self.slave.layout().order();
        let (_, bytes) = self.submit(encode_command(command, order));
        Answer { bytes, order }
    }

    /// The next bytes of the text that the MTA points to, so many.
    pub(crate) fn upload(&mut self, n: u8) -> Packet {
        let order = self.slave.layout().order();
        let (told, answer) = self.submit(encode_command(&Command::Upload { n }, order));
        match told {
            Told::Packets(Cut::Block(_)) => answer,
            _ => behind_first(&answer),
        }
    }

    /// Whether the slave has a command of this code: a packet of the code alone isn't answered as an unknown command.
    pub(crate) fn has(&mut self, code: u8) -> bool {
        let mut packet = Packet::new();
        packet.push(code);
        let (_, answer) = self.submit(packet);
        answer.as_slice() != [ERROR, UNKNOWN].as_slice()
    }
}

/// The bytes of a packet without the first.
fn behind_first(packet: &Packet) -> Packet {
    let mut rest = Packet::new();
    for byte in packet.iter().skip(1) {
        let _ = rest.try_push(*byte);
    }
    rest
}
