//! One slave under a lock, with a journal of all that it was asked.
//!
//! A [`Locked`] executes requests one by one, and its journal stores each with its answer and its
//! caller; a [`Caller`] gets a receipt for each. `specs/LockedSlave.antt` has what contracts see of the
//! slave and its journal, `specs/SettledReceipts.antt` when a caller's receipts are the journal's.
#![tactic(auto)]

mod caller;
mod chapter;
mod chapters;
mod errors;
mod excerpt;
mod excerpts;
mod gate;
mod holding;
mod image;
mod joining;
mod laws;
mod ledger;
mod locked;
mod name;
mod opening;
mod publisher;
mod reader;
mod receipt;
mod receipts;
mod running;
mod settling;
mod sheaf;
mod tasks;
mod telling;
mod tool;
mod under_lock;
mod waiting;
mod worker;

pub use caller::Caller;
pub use chapter::Chapter;
pub use chapters::Chapters;
pub use errors::LockedError;
pub use excerpt::Excerpt;
pub use excerpts::{Excerpts, Handing};
pub use gate::Gate;
pub use image::ImageBuffer;
pub use joining::{Discord, check_joined, settle_chapters};
pub use laws::{
    a_gap_is_no_join, a_settled_image_is_the_one_held, acquiring_is_looking, places_are_the_least,
    publications_follow_the_run, receipts_are_entries,
};
pub use ledger::Unsettled;
pub use locked::{JOURNAL, Locked};
pub use name::Name;
pub use opening::{Opening, Unnamed};
pub use reader::Reader;
pub use receipt::Receipt;
pub use receipts::{Receipts, ReceiptsLeft};
pub use running::{collect_workers, number_tasks, run_tasks};
pub use settling::Mismatch;
pub use sheaf::Sheaf;
pub use tasks::{Done, Ran, Task, TaskError, event, take_image};
pub use telling::HeldPublication;
pub use tool::Tool;
pub use waiting::{HasSlave, wait_for_packets};
pub use worker::Worker;
pub use xcp_bank::Taken;
pub use xcp_trace::{Entry, Journal};
