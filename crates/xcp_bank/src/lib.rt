//! The bank of images: one writer publishes images, and six readers take whole ones, without a lock and
//! without waiting.
//!
//! All images of a bank are equally wide. A publication compares each word with the one that stands in the
//! buffer, and stores it only where it differs. Where it is told which bytes may have changed, it compares only the words
//! of blocks in which the buffer may differ.
//!
//! All share one table of words. Its rule says that they show a lawful state of the core of pins, and that
//! there is one history: a run of the core to that state, of which each end knows the beginning up to its own
//! last step. Each step of a writer or reader is one event of that run; only words that stand already are written
//! together, by one load.
#![tactic(auto)]

mod acquiring;
mod bank;
mod holding;
mod laws;
mod left;
mod marks;
mod publishing;
mod reader;
mod reading;
mod table;
mod taken;
mod words;
mod writer;

pub use bank::Bank;
pub use laws::{one_history, scans_tell_holders};
pub use left::Left;
pub use reader::Reader;
pub use taken::Taken;
pub use writer::Writer;

/// The bytes of a slave's image. A bank's images may have any number of whole words of 8 bytes, up to 1 MiB.
pub const IMAGE_BYTES: usize = 2040;

/// The most bytes that a bank's images may have: 1 MiB. The least is 8.
pub const MAX_IMAGE_BYTES: usize = 1_048_576;
