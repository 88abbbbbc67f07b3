//! A connection's socket, for those who close it.

use std::net::{Shutdown, TcpStream};
use std::sync::atomic::AtomicBool;
use std::sync::{Mutex, Wait};

/// Where a seat's connection can be closed from another thread, and the stop of its pump.
#[derive(Drop)]
pub struct Door {
    stream: Mutex<Option<TcpStream>>,
    pub stop: AtomicBool,
}

impl Door {
    /// Nobody is connected.
    pub fn new() -> Door {
        Door {
            stream: Mutex::new(None),
            stop: AtomicBool::new(false),
        }
    }

    /// Somebody is connected, by this socket.
    pub fn open(&self, rt: &impl Wait, stream: TcpStream) {
        *self.stream.lock(rt) = Some(stream);
    }

    /// Nobody is connected any more.
    pub fn forget(&self, rt: &impl Wait) {
        *self.stream.lock(rt) = None;
    }

    /// Closes the connection, if there is one: its reads end, and its writes fail.
    pub fn shut(&self, rt: &impl Wait) {
        if let Some(stream) = &*self.stream.lock(rt) {
            // Where the tool has closed it, there is nothing to do.
            let _ = stream.shutdown(Shutdown::Both);
        }
    }
}
