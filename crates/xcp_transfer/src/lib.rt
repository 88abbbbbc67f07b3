//! The memory transfer address and the transfers of the tool.
//!
//! ASAM MCD-1 XCP, protocol layer, description of commands: UPLOAD, SHORT_UPLOAD, BUILD_CHECKSUM,
//! DOWNLOAD, DOWNLOAD_NEXT, DOWNLOAD_MAX, SHORT_DOWNLOAD, MODIFY_BITS, GET_ID. The definitions that
//! the contracts cite are in `specs/`.
#![tactic(auto)]

mod access;
mod block;
mod laws;
mod mta;
mod transfer;

pub use laws::{block_is_written_whole, rows_read_and_write, short_uploads_are_within_packets};
pub use mta::{Mta, TextId};
pub use transfer::Transfer;
