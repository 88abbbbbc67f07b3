//! The file of a journal: chapters are written to it one by one, and it is audited.
//!
//! A [`Recorder`] writes: a head that names the layout and says how many callers of each kind there are, as a [`Roster`], then each chapter with the digest of all
//! that stands before, and an end mark once it is ended. [`audit`] reads such a file and executes each request on a fresh slave; a [`Witness`] is told the calls, and the roster.
//! `specs/FileFormat.antt` has the bytes, `specs/JournalFile.antt` what chapters a file has, and
//! `specs/Audit.antt` what an audit promises.
#![tactic(auto)]

mod auditing;
mod chapter;
mod ending;
mod fault;
mod filling;
mod head;
mod law;
mod mark;
mod recorder;
mod roster;
mod witness;

pub use auditing::audit;
pub use ending::{FileEnding, Settled};
pub use fault::{AuditFault, NotBegun, RecordFault};
pub use law::a_file_has_one_journal;
pub use recorder::Recorder;
pub use roster::Roster;
pub use witness::{Silent, Witness};
