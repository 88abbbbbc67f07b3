//! A trace: the exchanges that a slave has had, in one growing buffer.
//!
//! A [`Tape`] holds byte strings one behind another. A [`Trace`] is a tape whose strings spell
//! exchanges; a [`Journal`] is one whose strings spell exchanges and who asked. What they hold is
//! read off the bytes alone: `specs/Tape.antt` says which strings bytes hold, `specs/ExchangeSpelling.antt`
//! which exchange a string spells, `specs/EntrySpelling.antt` which entry, and `specs/EntryBytes.antt` which entries
//! bytes spell.
#![tactic(auto)]

mod checking;
mod journal;
mod law;
mod lent;
mod spelling;
mod tape;
mod trace;

pub use journal::{Entries, Entry, Journal};
pub use law::what_is_written_is_read_again;
pub use lent::{LentEntry, LentExchange};
pub use tape::{Strings, Tape};
pub use trace::{Exchanges, Trace};
