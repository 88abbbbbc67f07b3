//! What a scribe that keeps the file of stored pages has in hand, and what is always true of it.
//!
//! Its methods stand in `flashing.rt`: what is true of a type can't be said in words that name the type, and their contracts do.
ghost use Rattle.std.specs.Prelude.{◌≡◌, ◌≤◌, length, map, nat_lt, vec_capacity, false};
ghost use Rattle.xcp_flash.specs.FlashFile.{file_size};
ghost use Rattle.xcp_scribe.specs.ShelfCalls.{failures, last_failed};
ghost use Rattle.xcp_scribe.specs.Standing.{is_behind};

use crate::watched_shelf::WatchedShelf;
use std::snapshot::Snapshot;
use xcp_flash::References;

/// How a file stands beside the reference pages of a slave.
#[derive(Clone, Copy, Debug, PartialEq, Eq)]
pub enum Standing {
    /// No others are kept than those with which the slave began: nothing was written.
    Untouched,
    /// The file has them.
    Current,
    /// The last write failed.
    Behind,
}

/// Replaces a file of stored pages where other pages are kept of a chapter's end than of the one before: its reference pages, or, while a
/// store is requested, those that this leaves. Where that fails it is tried
/// again at the end of the next chapter. All its memory is taken at the beginning.
#[derive(Drop)]
pub struct Flashing<F> {
    pub(crate) shelf: WatchedShelf<F>,
    pub(crate) layout: [u8; 32],
    pub(crate) pages: References,
    pub(crate) start: Snapshot<References>,
    pub(crate) file: Vec<u8>,
    pub(crate) standing: Standing,
    pub(crate) failed: bool,
    ghost room: { file_size (map (λ page. length page) pages) ≤ vec_capacity file },
    ghost told: { failed ≡ nat_lt 0 (failures shelf.asked) },
    ghost behind: { is_behind standing ≡ last_failed false shelf.asked },
}
