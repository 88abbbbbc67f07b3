//! The pure core of pins: a published image that readers hold while a writer builds the next one, as a
//! state machine whose every event is one atomic step of one actor.
//!
//! It is a model to be believed and not a data path: the bank of images runs the same steps on shared words.
#![tactic(auto)]

mod events;
mod heads;
mod laws;
mod pins;
mod reader;
mod runs;
mod words;

pub use events::{Event, RunError, Seen, StepError};
pub use heads::{head, parts};
pub use laws::{readers_keep_what_they_hold, runs_stay_lawful, writers_find_a_buffer};
pub use pins::Core;
pub use runs::run;

/// The readers of a core, numbered from 0.
pub const READERS: usize = 6;

/// The buffers of a core, numbered from 0: one more than the readers and the current one can hold.
pub const BUFFERS: usize = 8;

/// The most words that a buffer may have: those of an image of 1 MiB, and one more. The least is 1.
pub const MAX_WORDS: usize = 131_073;
