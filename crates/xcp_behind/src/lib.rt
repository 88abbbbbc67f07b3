//! Writing that nobody waits for.
//!
//! What a [`Behind`] is given to write waits in a backlog, piece by piece, for a thread that has its [`WriteEnd`] and writes them to a
//! stream, in order. The backlog has bounds ([`WaitingRoom`]): where a piece finds no room, no more are taken in, and those that wait are still
//! written. So a stream that hangs holds nobody up but the thread that writes, and takes no more memory than the bounds say.
//!
//! `specs/Room.antt` says when a piece finds room, `specs/Writing.antt` what stands in the stream.
#![tactic(auto)]

mod backlog;
mod behind;
mod opening;
mod piece;
mod room;
mod taking_in;
mod write_end;

pub use backlog::Backlog;
pub use behind::Behind;
pub use opening::{Opened, open_backlog};
pub use room::{Progress, WaitingRoom};
pub use write_end::WriteEnd;
