//! By what tools reach a server.

use crate::port::Port;
use std::net::{TcpListener, TcpStream};
use xcp_datagrams::LONGEST;

/// The most bytes of frames that one write to a connection takes.
const STREAM_WRITE: usize = 4_096;

/// By what tools reach a server.
#[derive(Drop)]
pub enum Access {
    /// By connections of TCP, as many as there are seats.
    Streams(TcpListener),
    /// By datagrams of UDP, one at a time.
    Datagrams(Port),
}

/// By what a tool is served.
#[derive(Drop)]
pub(crate) enum Line<'a> {
    Stream(TcpStream),
    Datagrams(&'a Port),
}

impl Line<'_> {
    /// The most bytes of frames that one write takes: those of a datagram, where there are datagrams.
    pub(crate) fn write_size(&self) -> usize {
        match self {
            Line::Stream(_) => STREAM_WRITE,
            Line::Datagrams(_) => LONGEST,
        }
    }
}
