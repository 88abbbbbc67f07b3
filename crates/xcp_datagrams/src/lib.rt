//! Frames in datagrams (ASAM MCD-1 XCP, transport layer, XCP on Ethernet: UDP): which frames a datagram holds, what they say of who has
//! the slave, which of a tool's frames are missing, and how frames that are to be sent fill datagrams.
//!
//! `specs/Datagrams.antt` has the frames of a datagram, with the laws that tie them to those of a stream, `specs/Numbers.antt` what gaps
//! of CTR are. Sockets stand elsewhere: here are bytes.
#![tactic(auto)]

mod cutting;
mod head;
mod law;
mod letter;
mod numbering;
mod packing;
mod survey;

pub use cutting::{LONGEST, whole_front};
pub use law::{
    a_datagram_means_what_its_bytes_mean, datagrams_are_one_stream, packets_stand_in_datagrams,
};
pub use letter::Letter;
pub use numbering::{Gaps, Numbering, note_frames};
pub use packing::filling;
pub use survey::{connects, leaves};
