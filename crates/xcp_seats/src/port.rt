//! A UDP port at which tools reach a slave, one at a time.
ghost use Rattle.std.specs.Io.{ReadsAtMost};
ghost use Rattle.std.specs.Prelude.{IfSome};
ghost use Rattle.xcp_datagrams.specs.Datagrams.{IsWholeFrames};

use crate::halt::Halt;
use crate::inbox::Inbox;
use crate::patient::{Times, is_interrupted, is_late};
use crate::watcher::Watcher;
use std::alloc::{AllocError, Global};
use std::io;
use std::net::{SocketAddr, UdpSocket};
use std::sync::atomic::{AtomicBool, AtomicU64, Ordering};
use std::sync::{Mutex, Wait};
use std::time::Clock;
use xcp_datagrams::Gaps;

/// What there was of datagrams at a port.
#[derive(Clone, Copy, Debug, PartialEq, Eq)]
pub struct Traffic {
    /// How many came.
    pub came: u64,
    /// How many of them had no byte, or more than 1,472, or were of the tool that had the slave and not whole frames alone.
    pub faulty: u64,
    /// How many were of others, and weren't answered.
    pub foreign: u64,
    /// The gaps in the CTR of tools.
    pub gaps: Gaps,
    /// How many couldn't be sent.
    pub unsent: u64,
}

/// A UDP port. A tool has the slave from its CONNECT on, until it sends a DISCONNECT, or another one a CONNECT once it has been silent for
/// as long as the server is patient. Who serves tools here waits for the next one, then reads its datagrams until it is gone, and so on.
#[derive(Drop)]
pub struct Port {
    socket: UdpSocket,
    inbox: Mutex<Inbox>,
    unsent: AtomicU64,
}

impl Port {
    /// A port of this socket, at which nothing came yet.
    pub fn new(alloc: Global, socket: UdpSocket) -> Result<Port, AllocError> {
        Ok(Port {
            socket,
            inbox: Mutex::new(Inbox::new(alloc)?),
            unsent: AtomicU64::new(0),
        })
    }

    /// Its socket.
    pub(crate) fn socket(&self) -> &UdpSocket {
        &self.socket
    }

    /// What there was of datagrams. It waits while a tool is served.
    pub fn traffic(&self, rt: &impl Wait) -> Traffic {
        let inbox = self.inbox.lock(rt);
        Traffic {
            came: inbox.came(),
            faulty: inbox.faulty(),
            foreign: inbox.foreign(),
            gaps: inbox.gaps(),
            unsent: self.unsent.load(Ordering::Relaxed),
        }
    }

    /// Sends a datagram, which is whole frames. Where it can't be sent it is lost, and counted.
    pub(crate) fn send(&self, datagram: &[u8], to: SocketAddr)
        requires { IsWholeFrames 255 datagram.now }
    {
        if self.socket.send_to(datagram, to).is_err() {
            let _ = self.unsent.fetch_add(1, Ordering::Relaxed);
        }
    }

    /// Waits for the CONNECT of the next tool, which has the slave then. Nobody has it until then, and datagrams of all are foreign. `None`
    /// where the server is asked to end.
    pub(crate) fn next<W: Watcher, R: Wait + Clock>(
        &self,
        rt: &R,
        max_cto: u8,
        halt: &Halt,
        watcher: &W,
    ) -> Option<SocketAddr> {
        let mut inbox = self.inbox.lock(rt);
        if let Some(newcomer) = inbox.take_newcomer(rt, max_cto) {
            return Some(newcomer);
        }
        // Where it can't be set, it is waited for the more often.
        let _ = self.socket.set_read_timeout(None);
        for _datagram in rt.forever() {
            let received = inbox.receive(&self.socket);
            if halt.is_asked() {
                return None;
            }
            match received {
                Ok(from) if inbox.connects(max_cto) => {
                    inbox.welcome(rt, max_cto);
                    return Some(from);
                }
                Ok(_) => inbox.pass_over(),
                Err(e) if is_interrupted(&e) || is_late(&e) => {}
                Err(_) => watcher.refused(),
            }
        }
        None
    }
}

/// A tool that has the slave, as its datagrams are read.
#[derive(Drop)]
pub(crate) struct Visit<'a, R> {
    pub(crate) rt: &'a R,
    pub(crate) port: &'a Port,
    pub(crate) tool: SocketAddr,
    pub(crate) max_cto: u8,
    pub(crate) halt: &'a Halt,
}

impl<'a, R: Wait + Clock> Visit<'a, R> {
    /// A read, of the tool's frames alone, which gives 0 bytes where the tool is gone, as at the end of a stream. `None` where nothing that
    /// is to be read came, and another one is made.
    pub(crate) fn read_once(
        &self,
        buf: &mut [u8],
        times: Times,
        was_idle: &AtomicBool,
    ) -> Option<io::Result<usize>>
        ensures { IfSome result (λ read. ReadsAtMost read buf.new) }
    {
        let mut inbox = self.port.inbox.lock(self.rt);
        if inbox.has_unread() {
            return Some(Ok(inbox.read_into(buf)));
        }
        if inbox.is_gone() {
            return Some(Ok(0));
        }
        let received = inbox.receive(&self.port.socket);
        if self.halt.is_asked() {
            return Some(Ok(0));
        }
        match received {
            Ok(from) if from == self.tool => {
                inbox.open(self.rt, self.max_cto);
                return None;
            }
            Ok(from) => {
                if self.may_come(&inbox, times) {
                    inbox.let_wait(from);
                    return Some(Ok(0));
                }
                inbox.pass_over();
            }
            Err(e) if is_interrupted(&e) || is_late(&e) => {}
            Err(e) => return Some(Err(e)),
        }
        let idle = times.idle?;
        if !inbox.is_silent(self.rt, idle) {
            return None;
        }
        was_idle.store(true, Ordering::SeqCst);
        Some(Ok(0))
    }

    /// Whether another tool, whose datagram came, takes the slave over.
    fn may_come(&self, inbox: &Inbox, times: Times) -> bool {
        inbox.connects(self.max_cto) && inbox.is_silent(self.rt, times.patience)
    }
}
