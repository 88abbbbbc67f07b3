//! A slave that is opened by a layout in a struct.
ghost use Rattle.std.specs.Prelude.{◌⊎◌, IfErr, IfOk};
ghost use Rattle.xcp_c.specs.PartsOpenings.{Describes, IsFaultOfFileOfParts, IsFaultOfParts, IsOpenedByParts, IsOpenedByPartsWith, OpensByParts, OpensPartsStored};

use crate::opening::{MEMORY, OPEN, OTHER_BYTES, hold};
use crate::parts::{MAX_CHANNELS, MAX_SEGMENTS, XcpParts, have_bytes, parts_of};
use crate::slave_handle::SlaveHandle;
use crate::storing::number_of;
use std::alloc::Global;
use xcp_flash::{pages_digest, restore};
use xcp_memory::Layout;

/// The number of a fault where there are more segments or event channels than there is room for.
const TOO_MANY: u8 = 6;

/// Opens a slave by a layout in a struct, and the reference bytes of its segments, one behind the other: 0,
/// or the number of a fault, or 10 where the handle owns a slave already. Then it is as it was.
#[unsafe(no_mangle)]
pub extern "C" fn xcp_open_parts(
    alloc: Global,
    parts: &XcpParts,
    reference: &[u8],
    slave: &mut SlaveHandle,
) -> u8
    ensures { OpensByParts parts.now reference.now result slave.old.value slave.new.value }
{
    if slave.is_open() {
        return OPEN;
    }
    match open(alloc, parts, reference) {
        Ok(opened) => {
            *slave = opened;
            0
        }
        Err(number) => number,
    }
}

/// Opens a slave by these and a file of its stored pages, with which its pages then begin: 0, or 10 where
/// the handle owns a slave already, or the number of the parts' fault, or that of the file's. Then it is
/// as it was.
#[unsafe(no_mangle)]
pub extern "C" fn xcp_open_parts_stored(
    alloc: Global,
    parts: &XcpParts,
    reference: &[u8],
    file: &[u8],
    slave: &mut SlaveHandle,
) -> u8
    ensures { OpensPartsStored parts.now reference.now file.now result slave.old.value slave.new.value }
{
    if slave.is_open() {
        return OPEN;
    }
    match open_with(alloc, parts, reference, file) {
        Ok(opened) => {
            *slave = opened;
            0
        }
        Err(number) => number,
    }
}

fn open(alloc: Global, parts: &XcpParts, reference: &[u8]) -> Result<SlaveHandle, u8>
    ensures opened { IfOk result (λ h. IsOpenedByParts parts.now reference.now h.value) }
    ensures fault { IfErr result (λ n. IsFaultOfParts parts.now reference.now n) }
{
    let layout = match describe(alloc, parts, reference) {
        Ok(layout) => layout,
        Err(fault) => return Err(fault),
    };
    let decided = pages_digest(&layout);
    hold(alloc, layout, decided)
}

fn open_with(
    alloc: Global,
    parts: &XcpParts,
    reference: &[u8],
    file: &[u8],
) -> Result<SlaveHandle, u8>
    ensures opened { IfOk result (λ h. IsOpenedByPartsWith parts.now reference.now file.now h.value) }
    ensures fault { IfErr result (λ n. IsFaultOfParts parts.now reference.now n ⊎ IsFaultOfFileOfParts parts.now reference.now file.now n) }
{
    let mut layout = match describe(alloc, parts, reference) {
        Ok(layout) => layout,
        Err(fault) => return Err(fault),
    };
    let digest = pages_digest(&layout);
    if let Err(fault) = restore(&mut layout, &digest, file) {
        return Err(number_of(fault));
    }
    hold(alloc, layout, digest)
}

/// The layout that the parts describe, or the number of their fault.
fn describe(alloc: Global, parts: &XcpParts, reference: &[u8]) -> Result<Layout, u8>
    ensures layout { IfOk result (λ l. Describes parts.now reference.now l) }
    ensures fault { IfErr result (λ n. IsFaultOfParts parts.now reference.now n) }
{
    let (segments, channels) = (parts.segments as usize, parts.channels as usize);
    if segments > MAX_SEGMENTS || channels > MAX_CHANNELS {
        return Err(TOO_MANY);
    }
    if !have_bytes(&parts.segment[..segments], reference.len()) {
        return Err(OTHER_BYTES);
    }
    let Ok(made) = parts_of(alloc, parts, reference) else {
        return Err(MEMORY);
    };
    match Layout::new(made) {
        Ok(layout) => Ok(layout),
        Err(fault) => Err(3 + fault.number()),
    }
}
