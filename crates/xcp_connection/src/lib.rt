//! The parts of a connection, each for a thread of its own, over whatever station: one hears the tool, and one pumps what the slave
//! samples. Each writes what it has put. [`connect`] makes them, [`finish`] writes what is left, [`close`] puts together what came of them,
//! and [`attend`] does all of it, and runs them between: it comes back when the connection has ended.
//!
//! `specs/Hearing.antt`, `specs/Pumping.antt` and `specs/Sending.antt` have what each part promises, `specs/Connections.antt` what a
//! connection is.
#![tactic(auto)]

mod attending;
mod closing;
mod connection;
mod hearing;
mod pumping;
mod sending;

pub use attending::{Attended, attend};
pub use closing::{Closed, Gone, close};
pub use connection::{Connection, Limits, connect};
pub use hearing::{Heard, Hearing};
pub use pumping::{Pumped, Pumping};
pub use sending::{Wrote, finish};
