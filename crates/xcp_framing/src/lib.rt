//! Requests and answers over streams.
//!
//! A [`Station`] takes requests one by one; a [`Desk`] is one that executes them on its slave and
//! stores the exchanges. [`serve`] answers commands in frames through a station, and a [`Framer`]
//! finds the packets of a stream that comes in pieces. All run over any reader and writer. A reader or writer stands in a [`Watched`],
//! so that contracts can say that a fault came of a call that failed, and which bytes were read; a [`Noting`] writer shows them the bytes
//! that it took.
//!
//! `specs/Wire.antt` has the frames of a stream, `specs/Serve.antt` what serving promises.
#![tactic(auto)]

mod batch;
mod desk;
mod end;
mod frame_writer;
mod framer;
mod gathering;
mod law;
mod noting;
mod passage;
mod passages;
mod pumping;
mod record;
mod serving;
mod serving_by;
mod station;
mod stream;
mod tally;
mod watched;
mod wire;

pub use batch::{Batch, Packets};
pub use desk::Desk;
pub use end::End;
pub use frame_writer::FrameWriter;
pub use framer::{Brought, Fed, FedInto, Framer, Got};
pub use law::a_desk_is_never_full;
pub use noting::Noting;
pub use passages::{Passages, Whole};
pub use pumping::pump;
pub use serving::{ServeError, Served, serve};
pub use serving_by::serve_by;
pub use station::{Station, StationError};
pub use stream::{
    any_cutting_gives_the_same_frames, each_stream_has_its_frames, plain_frames,
    the_wire_gives_its_packets_back,
};
pub use watched::{Watched, WriteFailed};
pub use wire::{FRAME_SIZE, frame};
