//! Seats for tools that come and go, tasks without an end, and what else a server that stays runs, each part in a thread of its own.
//!
//! Whoever runs them deals callers and readers out to them, and settles what they did. A seat has one thread while nobody is there; for
//! each tool that it accepts its connection's pump gets a thread of its own.
//!
//! Tools come by connections of TCP, or by datagrams of UDP, and an [`Access`] says by which: one at a time then, and a `Port` says who.
//!
//! `specs/Seating.antt` has what a seat promises: visit behind visit (`specs/Trails.antt`).
#![tactic(auto)]

mod access;
mod closing;
mod door;
mod duty;
mod entrance;
mod hall;
mod halt;
mod inbox;
mod lobby;
mod losses;
mod mail;
mod pace;
mod patient;
mod port;
mod seat;
mod starting;
mod ticker;
mod watcher;

pub use access::Access;
pub use closing::ClosingSocket;
pub use door::Door;
pub use duty::{Keeping, Ward};
pub use entrance::{Entrance, Inlet};
pub use hall::{Departure, Hall};
pub use halt::Halt;
pub use lobby::{Guest, Lobby};
pub use losses::Losses;
pub use pace::Pace;
pub use patient::Times;
pub use port::{Port, Traffic};
pub use seat::{Seat, SeatMembers, SeatPlace, sit};
pub use starting::{Sits, start_entrance, start_seat, start_ward};
pub use ticker::{Rested, Ticker};
pub use watcher::Watcher;
