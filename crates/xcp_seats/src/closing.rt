//! A connection that ends with its first failed write.
ghost use Rattle.std.specs.Io.{WritesAtMost};

use crate::patient::is_interrupted;
use std::io::{self, ErrorKind, Write};
use std::net::{Shutdown, TcpStream};

/// How often a write may be broken off by signals.
const TRIES: u32 = 4_294_967_295;

/// A connection's socket to write to. Where a write fails, as it does too when the tool has read nothing for the time that was set at the
/// socket, the connection is closed in both directions: whoever reads from it is not left waiting.
#[derive(Drop)]
pub struct ClosingSocket {
    stream: TcpStream,
}

impl ClosingSocket {
    /// Nothing has failed yet.
    pub fn new(stream: TcpStream) -> ClosingSocket {
        ClosingSocket { stream }
    }

    /// A write that is made again where a signal broke it off.
    fn write_on(&mut self, buf: &[u8]) -> io::Result<usize>
        ensures { WritesAtMost result buf.now }
    {
        for _try in 0..TRIES {
            match self.stream.write(buf) {
                Err(e) if is_interrupted(&e) => {}
                written => return written,
            }
        }
        Err(ErrorKind::Interrupted.into())
    }
}

impl Write for ClosingSocket {
    fn write(&mut self, buf: &[u8]) -> io::Result<usize> {
        let written = self.write_on(buf);
        if written.is_err() {
            // Where the tool has closed it, there is nothing to do.
            let _ = self.stream.shutdown(Shutdown::Both);
        }
        written
    }

    fn flush(&mut self) -> io::Result<()> {
        self.stream.flush()
    }
}
