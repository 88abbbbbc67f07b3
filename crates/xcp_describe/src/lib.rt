//! The A2L description (ASAP2 1.6) of a slave, as calibration tools read it.
//!
//! Whatever it says of the protocol was asked: [`describe`] makes a slave of the layout, and prints what
//! this answers to CONNECT and to the commands that tell of modes, lists, channels, segments and pages.
#![tactic(auto)]

mod aml;
mod asking;
mod checking;
mod clock;
mod commands;
mod daq;
mod describing;
mod entry;
mod epk;
mod findings;
mod groups;
mod host;
mod key_text;
mod kind;
mod meaning;
mod memory;
mod names;
mod naming;
mod place;
mod plain;
mod protocol;
mod reached;
mod refusal;
mod shape;
mod tables;
mod text;
mod transport;
mod unread;
mod uploading;
mod words_of_fault;

pub use checking::check;
pub use describing::describe;
pub use findings::Findings;
pub use refusal::{DescribeError, Why};
pub use transport::Transport;
pub use uploading::a2l_of;
