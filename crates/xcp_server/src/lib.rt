//! A server: connections and tasks of the controller on one slave under a lock, from the listening
//! socket to what is told at its end.
//!
//! A connection has a thread for each part that `xcp_connection` has of it: one hears the tool, one pumps
//! what the slave samples, one sends.
//! [`run_server`] runs connections and tasks at the same time, [`settle_all`] settles what they did,
//! and [`serve_ends`] does both for the program.
//!
//! `specs/ConnectionOutcome.antt` has what comes of a connection, `specs/ServerOutcome.antt` what comes
//! of a server, `specs/Report.antt` what is told, and which fault comes first.
#![tactic(auto)]

mod closing;
mod connection;
mod dealing;
mod dispatching;
mod laws;
mod recording;
mod report;
mod server;
mod serving;
mod timetable;
mod tools;

pub use closing::{Closing, settle_all};
pub use laws::a_connection_ends_as_its_parts;
pub use report::{Ending, Report, conclude};
pub use server::run_server;
pub use serving::serve_ends;
pub use tools::{Incoming, Outgoing, Tools, accept_tools};
