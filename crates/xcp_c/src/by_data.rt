//! A slave that is opened by a text whose segments name files, and the bytes of these.
ghost use Rattle.std.specs.Prelude.{◌≡◌, ◌⊎◌, IfErr, IfOk, List, MatchResult, None};
ghost use Rattle.xcp_config.specs.ConfigText.{HasLayoutWith};
ghost use Rattle.xcp_config.specs.TableLayout.{File};
ghost use Rattle.xcp_c.specs.DataOpenings.{IsFaultOfData, IsFaultOfDataPages, IsOpenedByData, IsRestoredByData, OpensByData, OpensDataStored, TellsData, TellsDataPages};
ghost use Rattle.xcp_c.specs.GivenFiles.{AreGiven};
ghost use Rattle.xcp_c.specs.Openings.{IsLayoutText};

use crate::given_files::files_of;
use crate::opening::{OPEN, hold, layout_of, restore_pages, text_of};
use crate::slave_handle::SlaveHandle;
use std::alloc::Global;
use xcp_flash::pages_digest;
use xcp_memory::Layout;

/// Opens a slave by the text of a layout file, and the files that its segments name: their bytes, one file
/// behind the other in the order of the segments that name one, and how many each has. 0, or the number of
/// a fault, or 10 where the handle owns a slave already. Then it is as it was.
#[unsafe(no_mangle)]
pub extern "C" fn xcp_open_data(
    alloc: Global,
    text: &[u8],
    bytes: &[u8],
    sizes: &[u32],
    slave: &mut SlaveHandle,
) -> u8
    ensures opens { OpensByData text.now sizes.now bytes.now result slave.old.value slave.new.value }
    ensures tells { slave.old.value ≡ None → TellsData text.now sizes.now bytes.now result slave.new.value }
{
    if slave.is_open() {
        return OPEN;
    }
    match open(alloc, text, sizes, bytes) {
        Ok(opened) => {
            *slave = opened;
            0
        }
        Err(fault) => fault,
    }
}

/// Opens a slave by these and a file of its stored pages, with which its pages then begin: 0, or 10 where
/// the handle owns a slave already, or the number of the fault of the text and its files, or that of the
/// file of stored pages. Then it is as it was.
#[unsafe(no_mangle)]
pub extern "C" fn xcp_open_data_stored(
    alloc: Global,
    text: &[u8],
    bytes: &[u8],
    sizes: &[u32],
    file: &[u8],
    slave: &mut SlaveHandle,
) -> u8
    ensures opens { OpensDataStored text.now sizes.now bytes.now file.now result slave.old.value slave.new.value }
    ensures tells { slave.old.value ≡ None → TellsDataPages text.now sizes.now bytes.now file.now result slave.new.value }
{
    if slave.is_open() {
        return OPEN;
    }
    match open_stored(alloc, text, sizes, bytes, file) {
        Ok(opened) => {
            *slave = opened;
            0
        }
        Err(number) => number,
    }
}

fn open(alloc: Global, text: &[u8], sizes: &[u32], bytes: &[u8]) -> Result<SlaveHandle, u8>
    ensures opened { IfOk result (λ h. IsOpenedByData text.now sizes.now bytes.now h.value) }
    ensures fault { IfErr result (λ n. IsFaultOfData text.now sizes.now bytes.now n) }
{
    let layout = match read(alloc, text, sizes, bytes) {
        Ok(layout) => layout,
        Err(fault) => return Err(fault),
    };
    let decided = pages_digest(&layout);
    hold(alloc, layout, decided)
}

fn open_stored(
    alloc: Global,
    text: &[u8],
    sizes: &[u32],
    bytes: &[u8],
    file: &[u8],
) -> Result<SlaveHandle, u8>
    ensures opened { IfOk result (λ h. IsRestoredByData text.now sizes.now bytes.now file.now h.value) }
    ensures fault { IfErr result (λ n. IsFaultOfData text.now sizes.now bytes.now n ⊎ IsFaultOfDataPages text.now sizes.now bytes.now file.now n) }
    ensures tells { MatchResult result (λ h. TellsDataPages text.now sizes.now bytes.now file.now 0 h.value) (λ n. TellsDataPages text.now sizes.now bytes.now file.now n None) }
{
    let mut layout = match read(alloc, text, sizes, bytes) {
        Ok(layout) => layout,
        Err(fault) => return Err(fault),
    };
    match restore_pages(&mut layout, text, file) {
        Ok(decided) => hold(alloc, layout, decided),
        Err(fault) => Err(fault),
    }
}

/// The layout that a text describes with the files that are given, or the number of the fault. (Not inlined, so that its part of
/// the stack is free again while the slave is made.)
#[inline(never)]
fn read(alloc: Global, text: &[u8], sizes: &[u32], bytes: &[u8]) -> Result<Layout, u8>
    ensures layout { IfOk result (λ l. (files : List File) × AreGiven text.now sizes.now bytes.now files × IsLayoutText text.now × HasLayoutWith files text.now l) }
    ensures fault { IfErr result (λ n. IsFaultOfData text.now sizes.now bytes.now n) }
{
    let text = match text_of(text) {
        Ok(text) => text,
        Err(fault) => return Err(fault),
    };
    let files = match files_of(alloc, text, sizes, bytes) {
        Ok(files) => files,
        Err(fault) => return Err(fault),
    };
    layout_of(alloc, text, &files)
}
