//! The file of stored pages, which a C program keeps.
ghost use Rattle.std.specs.Prelude.{◌≡◌};
ghost use Rattle.xcp_c.specs.StoredPages.{WritesFile, number_of_stored};

use crate::opening::CLOSED;
use crate::slave_handle::SlaveHandle;
use std::alloc::Global;
use std::mem;
use xcp_flash::FlashError;

/// The number that says that a file has no room.
const NO_ROOM: u8 = 17;

/// Writes the file of the pages that the slave keeps to the front of `out`, and tells how many bytes it
/// has: 0, or 17 where `out` has fewer, or 11 where the handle owns no slave, and then nothing is told.
/// Nothing else of `out` changes, and nothing of the slave. It takes no memory.
#[unsafe(no_mangle)]
pub extern "C" fn xcp_stored_pages(
    alloc: Global,
    slave: &mut SlaveHandle,
    out: &mut [u8],
    used: &mut usize,
) -> u8
    ensures { WritesFile result slave.old.value slave.new.value out.old out.new used.old used.new }
{
    if !slave.is_open() {
        return CLOSED;
    }
    let mut opened = mem::replace(slave, SlaveHandle::closed(alloc)).into_box();
    let written = opened.write_file(out, used);
    *slave = SlaveHandle::of(opened);
    if written { 0 } else { NO_ROOM }
}

/// The number of a fault of such a file.
pub(crate) fn number_of(fault: FlashError) -> u8
    ensures { result ≡ number_of_stored fault }
{
    match fault {
        FlashError::Head => 12,
        FlashError::Layout => 13,
        FlashError::Size => 14,
        FlashError::Digest => 15,
    }
}
