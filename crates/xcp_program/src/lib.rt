//! The XCP slave's program, but for its `main`: the words of its command line, its faults with their statuses, the
//! reading of the layout file and of stored pages, what decides a slave's answers, the periods of its tasks, the lines that a server prints
//! and the fault with which it ends, and a replay of a script on the slave that these files describe.
//!
//! `specs/CommandLine.antt` has the command line, `specs/Beginning.antt` the layout that a slave begins with, `specs/Decided.antt` what of
//! it decides the answers,
//! `specs/ReplayOutcome.antt` what a replay promises, `specs/ServerLines.antt` the lines of a server, `specs/EndFaults.antt` in which
//! order its faults are told, `specs/StoredPages.antt` when a file of stored pages has to be there, `specs/ExitStatus.antt` the statuses.
#![tactic(auto)]

mod arguments;
mod command_line;
mod data_files;
mod deciding;
mod defaults;
mod end_faults;
mod fault;
mod fault_words;
mod hosts;
mod law;
mod layout;
mod matched;
mod periods;
mod purpose;
mod replaying;
mod server_lines;
mod server_words;
mod serving;
mod source;
mod staying;
mod stored_pages;
mod untimed;
mod words;

pub use command_line::options;
pub use data_files::{beside, read_data};
pub use deciding::answers_digest;
pub use defaults::{DEFAULT_HOST, DEFAULT_PORT};
pub use end_faults::{
    fault_at_end, fault_at_stop, fault_of_journal, fault_of_pages, fault_of_print, status_at_end,
};
pub use fault::Fault;
pub use hosts::refuse_many;
pub use law::{what_a_layout_stores_is_read, what_decides_is_of_one_layout};
pub use layout::{layout_of, layout_of_with, layout_stored, layout_stored_with};
pub use periods::periods_of;
pub use purpose::{Options, OptionsFault};
pub use replaying::{replay, replay_with};
pub use server_lines::{Counts, Listening, ListeningUdp, Network, Recorded};
pub use serving::Serving;
pub use source::{read_flash, read_text, read_whole};
pub use staying::Staying;
pub use stored_pages::{folder_of, refuse_second, stored_file};
pub use untimed::refuse_clock;
pub use words::{Unasked, asked, read_words};
