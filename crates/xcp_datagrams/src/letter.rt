//! A datagram that came, and how much of it was read.
ghost use Rattle.std.specs.Prelude.{◌≡◌, ◌≤◌, [], IfOk, MatchBool, drop, length, min, take};
ghost use Rattle.xcp_datagrams.specs.Datagrams.{IsWholeFrames, front};

use crate::cutting::{LONGEST, whole_front};
use std::alloc::{AllocError, Global};
use std::io;
use std::marker::Model;
use std::net::{SocketAddr, UdpSocket};

/// A datagram, as it came last, and those bytes of its whole frames that weren't read yet. A datagram that is too long shows by one byte
/// more than it may have.
#[derive(Drop)]
pub struct Letter {
    bytes: Vec<u8>,
    /// How many bytes came.
    size: usize,
    /// From where to where the bytes stand that weren't read.
    at: usize,
    end: usize,
}

impl Model for Letter {
    ghost use Rattle.std.specs.Prelude.{◌≤◌, ◌-◌, drop, take, vec_len};
    ghost use Rattle.xcp_datagrams.specs.Letters.{LetterValue};

    ghost Value = { LetterValue };

    ghost view = { λ l. record { bytes = take l.size l.bytes.items; unread = take (l.end - l.at) (drop l.at l.bytes.items) } };

    ghost invariant = { λ l. (l.at ≤ l.end) × (l.end ≤ vec_len l.bytes) × (l.size ≤ vec_len l.bytes) };
}

impl Letter {
    /// None came. It takes all its memory at once.
    pub fn new(alloc: Global) -> Result<Letter, AllocError>
        ensures { IfOk result (λ l. l ≡ record { bytes = []; unread = [] }) }
    {
        Ok(Letter {
            bytes: vec![in alloc; 0; LONGEST + 1]?,
            size: 0,
            at: 0,
            end: 0,
        })
    }

    /// Waits for the next datagram of a socket: how it came, and whose it is. None of its bytes is to be read until it is opened.
    pub fn receive(&mut self, socket: &UdpSocket) -> io::Result<SocketAddr>
        ensures { self.new.unread ≡ [] }
    {
        self.at = 0;
        self.end = 0;
        self.size = 0;
        let (size, from) = socket.recv_from(&mut self.bytes)?;
        self.size = size;
        Ok(from)
    }

    /// The bytes that came.
    pub fn as_bytes(&self) -> &[u8]
        ensures { result.now ≡ self.now.bytes }
    {
        &self.bytes[..self.size]
    }

    /// The bytes of whole frames that weren't read.
    pub fn unread(&self) -> &[u8]
        ensures { result.now ≡ self.now.unread }
    {
        &self.bytes[self.at..self.end]
    }

    /// Its whole frames are to be read from now on, and whether it is nothing else.
    pub fn open(&mut self, max_cto: u8) -> bool
        ensures whole { MatchBool result (IsWholeFrames max_cto self.old.bytes) (¬ (IsWholeFrames max_cto self.old.bytes)) }
        ensures unread { self.new.unread ≡ front max_cto self.old.bytes }
        ensures same { self.new.bytes ≡ self.old.bytes }
    {
        self.at = 0;
        match whole_front(max_cto, &self.bytes[..self.size]) {
            Some(end) => {
                self.end = end;
                end == self.size
            }
            None => {
                self.end = 0;
                false
            }
        }
    }

    /// Reads as much as the buffer holds.
    pub fn read_into(&mut self, buf: &mut [u8]) -> usize
        ensures count { result ≡ min (length self.old.unread) (length buf.old) }
        ensures read { take result buf.new ≡ take result self.old.unread }
        ensures left { self.new.unread ≡ drop result self.old.unread }
        ensures same { self.new.bytes ≡ self.old.bytes }
        ensures size { length buf.new ≡ length buf.old }
    {
        let count = (self.end - self.at).min(buf.len());
        buf[..count].copy_from_slice(&self.bytes[self.at..self.at + count]);
        self.at += count;
        count
    }
}
