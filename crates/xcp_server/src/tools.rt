//! The tools that connect.
ghost use Rattle.std.specs.Prelude.{◌≡◌, ◌⊎◌, IfErr, IfOk, vec_len};

use std::alloc::Global;
use std::io::{self, Read, Write};
use std::net::{Shutdown, TcpListener, TcpStream};
use std::sync::Arc;
use std::sync::atomic::{AtomicBool, Ordering};
use xcp_framing::Watched;
use xcp_program::Fault;

/// The readers and writers of tools that have connected, in the order in which they did.
pub type Tools = Vec<(Watched<Incoming>, Watched<Outgoing>)>;

/// What is read of a tool's connection. Where it is dropped the connection ends, also if what writes to it is still there: a tool that is
/// heard no more isn't kept waiting.
pub struct Incoming {
    stream: TcpStream,
    /// Nothing is read of it any more.
    ended: Arc<AtomicBool>,
}

impl Read for Incoming {
    fn read(&mut self, buf: &mut [u8]) -> io::Result<usize> {
        self.stream.read(buf)
    }
}

impl Drop for Incoming {
    fn drop(self) {
        self.ended.store(true, Ordering::SeqCst);
        // Where the tool has closed it, there is nothing to do.
        let _ = self.stream.shutdown(Shutdown::Both);
        let Incoming {
            stream: _,
            ended: _,
        } = self;
    }
}

/// What is written to a tool's connection. What comes once nothing is read of it any more is let go, as what the tool doesn't take then.
#[derive(Drop)]
pub struct Outgoing {
    stream: TcpStream,
    ended: Arc<AtomicBool>,
}

impl Write for Outgoing {
    fn write(&mut self, buf: &[u8]) -> io::Result<usize> {
        match self.stream.write(buf) {
            Err(_) if self.ended.load(Ordering::SeqCst) => Ok(buf.len()),
            written => written,
        }
    }

    fn flush(&mut self) -> io::Result<()> {
        self.stream.flush()
    }
}

/// Accepts so many tools, one after another: the reader and the writer of each, in the order in
/// which they connected. `Stream(0)` comes where one can't be accepted, `Memory` where an allocation
/// fails.
pub fn accept_tools(alloc: Global, listener: &TcpListener, tools: u8) -> Result<Tools, Fault>
    ensures count { IfOk result (λ streams. vec_len streams ≡ tools) }
    ensures refused { IfErr result (λ f. (f ≡ Fault.Memory) ⊎ (f ≡ Fault.Stream 0)) }
{
    let Ok(mut streams) = Vec::with_capacity(alloc, tools as usize) else {
        return Err(Fault::Memory);
    };
    for _tool in 0..tools {
        let Ok(ended) = Arc::new(alloc, AtomicBool::new(false)) else {
            return Err(Fault::Memory);
        };
        let Ok(known) = Arc::try_clone(&ended) else {
            return Err(Fault::Memory);
        };
        let Ok(stream) = accept_tool(listener, ended, known) else {
            return Err(Fault::Stream(0));
        };
        streams.push_reserved(stream);
    }
    Ok(streams)
}

/// The reader and the writer of the next tool that connects.
fn accept_tool(
    listener: &TcpListener,
    ended: Arc<AtomicBool>,
    known: Arc<AtomicBool>,
) -> io::Result<(Watched<Incoming>, Watched<Outgoing>)> {
    let (stream, _address) = listener.accept()?;
    // Where this can't be set, as with a tool that has gone again, answers are late at most.
    let _ = stream.set_nodelay(true);
    let outgoing = Outgoing {
        stream: stream.try_clone()?,
        ended: known,
    };
    Ok((
        Watched::new(Incoming { stream, ended }),
        Watched::new(outgoing),
    ))
}
