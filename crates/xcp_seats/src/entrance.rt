//! Where tools come in.

use crate::access::Access;
use crate::halt::Halt;
use crate::lobby::Lobby;
use crate::watcher::Watcher;
use std::io;
use std::net::{Shutdown, TcpStream};
use std::os::fd::OwnedFd;
use std::sync::Wait;
use std::time::Clock;

/// The socket by which tools come in, for whoever shuts it.
#[derive(Drop)]
pub struct Inlet {
    socket: TcpStream,
    how: Shutdown,
}

impl Inlet {
    /// The gate of a listener, or of a port.
    pub fn new(access: &Access) -> io::Result<Inlet> {
        // A call of the system shuts a socket whether it listens, is connected or takes datagrams: only its type here has none.
        let (socket, how) = match access {
            Access::Streams(listener) => (OwnedFd::from(listener.try_clone()?), Shutdown::Both),
            Access::Datagrams(port) => (OwnedFd::from(port.socket().try_clone()?), Shutdown::Read),
        };
        Ok(Inlet {
            socket: TcpStream::from(socket),
            how,
        })
    }

    /// Shuts the socket: who waits there for a tool waits no more, and nobody can connect. What is on its way to a tool goes out.
    pub fn shut(&self) {
        // Where the system has closed it, there is nothing to do.
        let _ = self.socket.shutdown(self.how);
    }
}

/// Who accepts tools, and brings them to the lobby.
#[derive(Drop)]
pub struct Entrance<'a, W> {
    pub access: &'a Access,
    pub lobby: &'a Lobby,
    pub halt: &'a Halt,
    pub watcher: &'a W,
}

impl<'a, W: Watcher> Entrance<'a, W> {
    /// Accepts tools until the server is asked to end, and closes the connection of each that finds no seat and no place in the queue. At a
    /// port there is nothing to accept.
    pub fn accept_tools<R: Wait + Clock>(&self, rt: &R) {
        let Access::Streams(listener) = self.access else {
            return;
        };
        for _tool in rt.forever() {
            let accepted = listener.accept();
            if self.halt.is_asked() {
                return;
            }
            let Ok(guest) = accepted else {
                self.watcher.refused();
                continue;
            };
            if let Err((stream, address)) = self.lobby.admit(rt, guest) {
                drop(stream);
                self.watcher.turned_away(address);
            }
        }
    }
}
