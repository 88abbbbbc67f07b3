//! What writes the chapters of a journal down while a server runs.
//!
//! A [`Scribe`] is given each chapter, one after another: its calls, and the slave with which it ends. A [`Recording`] writes the calls to
//! the file of a journal; where nobody asks for one, `None` does; a [`Flashing`] keeps the pages that tools
//! store in a file of their own; [`Both`] are two scribes.
//! `specs/Given.antt` has what a scribe is given, `specs/Scribing.antt` what stands in the file of a recording, `specs/Flashing.antt` in that
//! of stored pages and when its shelf is asked, and `specs/ShelfCalls.antt` what contracts see of the shelf.
#![tactic(auto)]

mod asking;
mod both;
mod flashing;
mod recording;
mod scribe;
mod shelf;
mod standing;
mod synced;
mod watched_shelf;

pub use both::Both;
pub use recording::{Recording, end_recording};
pub use scribe::Scribe;
pub use shelf::Shelf;
pub use standing::{Flashing, Standing};
pub use synced::Synced;
