//! Who is told what happens at a server.

use std::net::SocketAddr;
use xcp_framing::{ServeError, Served};

/// Who is told which tools come and go.
pub trait Watcher {
    /// A tool took this seat.
    fn came(&self, seat: u8, tool: SocketAddr);

    /// The tool of this seat has sent nothing for as long as it may: its connection is closed.
    fn idle(&self, seat: u8, tool: SocketAddr);

    /// The tool of this seat has gone: how its connection ended.
    fn gone(&self, seat: u8, tool: SocketAddr, end: Result<Served, ServeError>);

    /// A tool found no seat, and no place in the queue: its connection is closed.
    fn turned_away(&self, tool: SocketAddr);

    /// So many more events of tasks found no room for their packets.
    fn lost(&self, events: u64);

    /// No tool could be accepted. It may wait a while.
    fn refused(&self);
}
