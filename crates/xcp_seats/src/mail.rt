//! Frames that are sent to a tool in datagrams.
ghost use Rattle.std.specs.Io.{WritesAtMost};

use crate::closing::ClosingSocket;
use crate::port::Port;
use std::io::{self, ErrorKind, Write};
use std::net::SocketAddr;
use xcp_datagrams::filling;

/// What is written of frames goes to a tool in datagrams: each write takes as many whole frames as one holds, and sends them.
#[derive(Drop)]
pub(crate) struct Mail<'a> {
    pub(crate) port: &'a Port,
    pub(crate) to: SocketAddr,
}

impl Write for Mail<'_> {
    fn write(&mut self, buf: &[u8]) -> io::Result<usize> {
        match filling(buf) {
            Some(count) => {
                self.port.send(&buf[..count], self.to);
                Ok(count)
            }
            None => Err(ErrorKind::InvalidInput.into()),
        }
    }

    fn flush(&mut self) -> io::Result<()> {
        Ok(())
    }
}

/// Where the frames for a tool go: its connection, or datagrams.
#[derive(Drop)]
pub(crate) enum Outgoing<'a> {
    Stream(ClosingSocket),
    Datagrams(Mail<'a>),
}

impl Write for Outgoing<'_> {
    fn write(&mut self, buf: &[u8]) -> io::Result<usize> {
        match self {
            Outgoing::Stream(closing) => closing.write(buf),
            Outgoing::Datagrams(mail) => mail.write(buf),
        }
    }

    fn flush(&mut self) -> io::Result<()> {
        match self {
            Outgoing::Stream(closing) => closing.flush(),
            Outgoing::Datagrams(mail) => mail.flush(),
        }
    }
}
