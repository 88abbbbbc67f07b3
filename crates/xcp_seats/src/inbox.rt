//! The datagrams of a port, as they come.
ghost use Rattle.std.specs.Prelude.{◌≡◌, [], IfNone, IfOk, IfSome, None, drop, false, length, min, take};
ghost use Rattle.xcp_framing.specs.Frames.{frames};
ghost use Rattle.xcp_datagrams.specs.Datagrams.{begins_with_connect, datagram_frames, fits, front, leaves};
ghost use Rattle.xcp_datagrams.specs.Numbers.{HearsFrames};

use std::alloc::{AllocError, Global};
use std::io;
use std::marker::Model;
use std::net::{SocketAddr, UdpSocket};
use std::time::{Clock, Duration, Instant};
use xcp_datagrams::{Gaps, LONGEST, Letter, Numbering, connects, leaves, note_frames};

/// The datagram that came last, what is known of the tool that has the slave, and what is counted.
#[derive(Drop)]
pub(crate) struct Inbox {
    letter: Letter,
    /// Whose datagram it is, where it is the CONNECT of a tool that takes the slave over.
    newcomer: Option<SocketAddr>,
    /// When the tool sent its last datagram, if the clock could be read.
    heard: Option<Instant>,
    /// The tool has sent a DISCONNECT.
    is_gone: bool,
    numbering: Numbering,
    came: u64,
    faulty: u64,
    foreign: u64,
}

impl Model for Inbox {
    ghost use Rattle.xcp_seats.specs.Inboxes.{InboxValue};

    ghost Value = { InboxValue };

    ghost view = { λ i. record { letter = i.letter; gone = i.is_gone; numbers = i.numbering } };
}

impl Inbox {
    /// Nothing came yet, and nobody has the slave.
    pub(crate) fn new(alloc: Global) -> Result<Inbox, AllocError>
        ensures { IfOk result (λ i. (i.letter ≡ record { bytes = []; unread = [] }) × (i.gone ≡ false) × (i.numbers.next ≡ None)) }
    {
        Ok(Inbox {
            letter: Letter::new(alloc)?,
            newcomer: None,
            heard: None,
            is_gone: false,
            numbering: Numbering::new(),
            came: 0,
            faulty: 0,
            foreign: 0,
        })
    }

    /// How many datagrams came.
    pub(crate) fn came(&self) -> u64 {
        self.came
    }

    /// How many of them had no byte, or too many, or were the tool's and not whole frames alone.
    pub(crate) fn faulty(&self) -> u64 {
        self.faulty
    }

    /// How many were of others, and weren't answered.
    pub(crate) fn foreign(&self) -> u64 {
        self.foreign
    }

    /// The gaps in the tools' CTR.
    pub(crate) fn gaps(&self) -> Gaps
        ensures { result ≡ self.now.numbers.gaps }
    {
        self.numbering.gaps()
    }

    /// Waits for the next datagram of a socket: whose it is.
    pub(crate) fn receive(&mut self, socket: &UdpSocket) -> io::Result<SocketAddr>
        ensures unread { self.new.letter.unread ≡ [] }
        ensures same { (self.new.gone ≡ self.old.gone) × (self.new.numbers ≡ self.old.numbers) }
    {
        let from = self.letter.receive(socket)?;
        self.came = self.came.saturating_add(1);
        Ok(from)
    }

    /// Whether the datagram has frames that weren't read.
    pub(crate) fn has_unread(&self) -> bool
        ensures { result ≡ false → self.now.letter.unread ≡ [] }
    {
        !self.letter.unread().is_empty()
    }

    /// Reads as much of these frames as the buffer holds.
    pub(crate) fn read_into(&mut self, buf: &mut [u8]) -> usize
        ensures count { result ≡ min (length self.old.letter.unread) (length buf.old) }
        ensures read { take result buf.new ≡ take result self.old.letter.unread }
        ensures left { self.new.letter.unread ≡ drop result self.old.letter.unread }
        ensures size { length buf.new ≡ length buf.old }
        ensures same { (self.new.gone ≡ self.old.gone) × (self.new.numbers ≡ self.old.numbers) }
    {
        self.letter.read_into(buf)
    }

    /// Whether the tool has sent a DISCONNECT.
    pub(crate) fn is_gone(&self) -> bool
        ensures { result ≡ self.now.gone }
    {
        self.is_gone
    }

    /// Whether the datagram's first packet is a CONNECT.
    pub(crate) fn connects(&self, max_cto: u8) -> bool
        ensures { result ≡ begins_with_connect (datagram_frames max_cto self.now.letter.bytes) }
    {
        self.has_fitting() && connects(max_cto, self.letter.as_bytes())
    }

    /// Whether the datagram has at least a byte, and not too many.
    fn has_fitting(&self) -> bool
        ensures { result ≡ fits self.now.letter.bytes }
    {
        let size = self.letter.as_bytes().len();
        0 < size && size <= LONGEST
    }

    /// The datagram is of a tool that doesn't have the slave, and nothing comes of it.
    pub(crate) fn pass_over(&mut self)
        ensures { self.new ≡ self.old }
    {
        if self.has_fitting() {
            self.foreign = self.foreign.saturating_add(1);
        } else {
            self.faulty = self.faulty.saturating_add(1);
        }
    }

    /// The datagram is the CONNECT of a tool that takes the slave over, once the one that has it has ended.
    pub(crate) fn let_wait(&mut self, newcomer: SocketAddr)
        ensures { self.new ≡ self.old }
    {
        self.newcomer = Some(newcomer);
    }

    /// The tool that takes the slave over, if one waits. It has it then, from its CONNECT on.
    pub(crate) fn take_newcomer(&mut self, clock: &impl Clock, max_cto: u8) -> Option<SocketAddr>
        ensures none { IfNone result (self.new ≡ self.old) }
        ensures letter { IfSome result (λ _. self.new.letter
            ≡ record self.old.letter { unread = front max_cto self.old.letter.bytes }) }
    {
        let newcomer = self.newcomer?;
        self.newcomer = None;
        self.welcome(clock, max_cto);
        Some(newcomer)
    }

    /// The datagram is the CONNECT of a tool that has the slave from now on.
    pub(crate) fn welcome(&mut self, clock: &impl Clock, max_cto: u8)
        ensures letter { self.new.letter ≡ record self.old.letter { unread = front max_cto self.old.letter.bytes } }
        ensures gone { self.new.gone ≡ leaves (frames max_cto (front max_cto self.old.letter.bytes)) }
        ensures numbers { HearsFrames max_cto (front max_cto self.old.letter.bytes) (record self.old.numbers { next = None }) self.new.numbers }
    {
        self.is_gone = false;
        self.numbering.begin_anew();
        self.open(clock, max_cto);
    }

    /// The datagram is of the tool that has the slave: its frames are to be read.
    pub(crate) fn open(&mut self, clock: &impl Clock, max_cto: u8)
        ensures letter { self.new.letter ≡ record self.old.letter { unread = front max_cto self.old.letter.bytes } }
        ensures gone { self.new.gone ≡ leaves (frames max_cto (front max_cto self.old.letter.bytes)) }
        ensures numbers { HearsFrames max_cto (front max_cto self.old.letter.bytes) self.old.numbers self.new.numbers }
    {
        self.heard = Instant::now(clock).ok();
        if !self.letter.open(max_cto) {
            self.faulty = self.faulty.saturating_add(1);
        }
        note_frames(max_cto, self.letter.unread(), &mut self.numbering);
        self.is_gone = leaves(max_cto, self.letter.unread());
    }

    /// Whether the tool has sent nothing for so long, as far as the clock can be read.
    pub(crate) fn is_silent(&self, clock: &impl Clock, time: Duration) -> bool {
        let Some(heard) = self.heard else {
            return true;
        };
        match heard.elapsed(clock) {
            Ok(passed) => passed >= time,
            Err(_) => true,
        }
    }
}
