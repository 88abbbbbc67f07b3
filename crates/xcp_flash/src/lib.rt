//! The file of stored pages: it keeps the reference page of each segment of a layout, so that a later start begins with
//! them.
//!
//! [`References`] are the pages to keep, and spell the file: the reference pages that a slave has, or, while a store is requested, those
//! that it will have then. [`restore`] puts a file's pages into the layout, before the
//! slave is opened. A file names what its pages belong to by 32 bytes: [`pages_digest`] are those of a layout's segments.
//! `specs/FlashFile.antt` has the bytes, `specs/References.antt` which pages they are, `specs/Restoring.antt` what may be wrong with a
//! file, and `specs/Decided.antt` which pages are a layout's.
#![tactic(auto)]

mod deciding;
mod fault;
mod fitting;
mod head;
mod law;
mod page;
mod reading;
mod references;
mod restoring;

pub use deciding::pages_digest;
pub use fault::FlashError;
pub use law::{
    a_file_has_one_content, what_is_kept_is_what_a_store_leaves, what_is_stored_is_restored,
};
pub use references::References;
pub use restoring::{restore, restore_either};
