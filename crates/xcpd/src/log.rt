//! What a server that stays tells on standard error: a line for each tool that comes and goes, which begins with the name that the caller
//! of its seat has in an audit of the journal.

ghost use Rattle.std.specs.Prelude.{◌≡◌};
ghost use Rattle.xcp_server.specs.Report.{fault_of_outcome};

use crate::lines::Lines;
use std::alloc::{AllocError, Global};
use std::net::SocketAddr;
use std::sync::Wait;
use std::thread;
use std::time::Duration;
use xcp_framing::{ServeError, Served};
use xcp_program::Fault;
use xcp_seats::Watcher;

/// How long it waits where no tool could be accepted, in milliseconds.
const PAUSE: u64 = 100;

/// Tells of a server by lines that nobody waits for.
#[derive(Drop)]
pub struct Log<'a, R> {
    pub rt: &'a HostRuntime,
    pub handle: &'a R,
    pub lines: &'a Lines,
    /// After how many seconds a silent tool's connection is closed.
    pub idle: u32,
}

impl<R: Wait> Log<'_, R> {
    /// One line, where there is memory for it.
    fn add(&self, line: Result<String, AllocError>) {
        if let Ok(line) = line {
            self.lines.add(self.handle, line);
        }
    }
}

impl<R: Wait> Watcher for Log<'_, R> {
    fn came(&self, seat: u8, tool: SocketAddr) {
        self.add(format!(in self.rt.alloc(); "tool {seat}: {tool} connected"));
    }

    fn idle(&self, seat: u8, tool: SocketAddr) {
        let seconds = self.idle;
        self.add(format!(in self.rt.alloc(); "tool {seat}: {tool} sent nothing for {seconds} s"));
    }

    fn gone(&self, seat: u8, tool: SocketAddr, end: Result<Served, ServeError>) {
        self.add(end_line(self.rt.alloc(), self.lines, seat, tool, end));
    }

    fn turned_away(&self, tool: SocketAddr) {
        self.add(format!(in self.rt.alloc(); "{tool} was turned away: no seat is free"));
    }

    fn lost(&self, events: u64) {
        self.add(format!(in self.rt.alloc(); "lost {events}"));
    }

    fn refused(&self) {
        self.add(format!(in self.rt.alloc(); "no tool could be accepted"));
        thread::sleep(self.rt, Duration::from_millis(PAUSE));
    }
}

/// The line of a tool whose connection ended so: with a fault and the words on it, if it had one.
fn end_line(
    alloc: Global,
    lines: &Lines,
    seat: u8,
    tool: SocketAddr,
    end: Result<Served, ServeError>,
) -> Result<String, AllocError> {
    let Err(error) = end else {
        return format!(in alloc; "tool {seat}: {tool} disconnected");
    };
    let fault = lines.fault_line(alloc, fault_of_outcome(&error))?;
    format!(in alloc; "tool {seat}: {tool} disconnected: {fault}")
}

/// The fault that is told where a connection ended so.
fn fault_of_outcome(error: &ServeError) -> Fault
    ensures { result ≡ fault_of_outcome error.now }
{
    match error {
        ServeError::Memory | ServeError::NoRoom => Fault::Memory,
        other => Fault::Stream(other.number()),
    }
}
