//! What a C program opens and closes.
ghost use Rattle.std.specs.Prelude.{◌≡◌, ◌⊎◌, ℕ, Err, IfErr, IfOk, IsOk, List, MatchResult, None, OnOk};
ghost use Rattle.sha2.specs.Sha256.{sha256};
ghost use Rattle.xcp_config.specs.ConfigText.{HasLayout, HasLayoutWith};
ghost use Rattle.xcp_flash.specs.Decided.{pages_decided};
ghost use Rattle.xcp_flash.specs.References.{AreReferences, with_references};
ghost use Rattle.xcp_flash.specs.Restoring.{IsFaultOfBoth, IsRestoredByEither};
ghost use Rattle.xcp_flash.specs.declared.fault.FlashError.{FlashError};
ghost use Rattle.xcp_c.specs.Openings.{IsFaultBeside, IsFaultIn, IsFaultOf, IsFaultOfFile, IsStoredFile, IsTextFault, IsOpened, IsOpenedWith, IsOpening, IsOpeningBy, IsLayoutText, OpensBy, OpensReader, OpensStored, TellsFile, TellsText};
ghost use Rattle.xcp_c.specs.StoredPages.{number_of_stored};

use crate::open_slave::OpenSlave;
use crate::reader_handle::ReaderHandle;
use crate::slave_handle::SlaveHandle;
use crate::storing::number_of;
use sha2::{Digest, Sha256};
use std::alloc::Global;
use std::{mem, str};
use xcp_config::{DataFile, read_layout_with};
use xcp_flash::{pages_digest, restore_either};
use xcp_memory::Layout;

/// The most bytes that a text may have.
const TEXT_BYTES: usize = 65_536;

/// The number of a fault where an allocation fails.
pub(crate) const MEMORY: u8 = 7;

/// The number of a fault where the text isn't UTF-8.
const NO_UTF8: u8 = 8;

/// The number that says that each reader was taken.
const NO_READER: u8 = 9;

/// The number that says that a handle that is to be opened owns a value already.
pub(crate) const OPEN: u8 = 10;

/// The number that says that the slave's handle owns none.
pub(crate) const CLOSED: u8 = 11;

/// The number of a fault where the text has more than 65,536 bytes.
const LONG_TEXT: u8 = 16;

/// The number of a fault where there are more or fewer bytes than the segments have, or the files that they name.
pub(crate) const OTHER_BYTES: u8 = 18;

/// Opens a slave by the text of a layout file: 0, or the number of a fault, or 10 where the handle owns a
/// slave already. Then it is as it was.
#[unsafe(no_mangle)]
pub extern "C" fn xcp_open(alloc: Global, text: &[u8], slave: &mut SlaveHandle) -> u8
    ensures opens { OpensBy text.now result slave.old.value slave.new.value }
    ensures tells { slave.old.value ≡ None → TellsText text.now result slave.new.value }
{
    if slave.is_open() {
        return OPEN;
    }
    match open(alloc, text) {
        Ok(opened) => {
            *slave = opened;
            0
        }
        Err(fault) => fault,
    }
}

/// Opens a slave by the text of a layout file and a file of its stored pages, with which its pages then
/// begin: 0, or 10 where the handle owns a slave already, or the number of the text's fault, or that of
/// the file's. Then it is as it was.
#[unsafe(no_mangle)]
pub extern "C" fn xcp_open_stored(
    alloc: Global,
    text: &[u8],
    file: &[u8],
    slave: &mut SlaveHandle,
) -> u8
    ensures opens { OpensStored text.now file.now result slave.old.value slave.new.value }
    ensures tells { slave.old.value ≡ None → TellsFile text.now file.now result slave.new.value }
{
    if slave.is_open() {
        return OPEN;
    }
    match open_stored(alloc, text, file) {
        Ok(opened) => {
            *slave = opened;
            0
        }
        Err(number) => number,
    }
}

/// Takes one of the six readers of the slave: 0, or 9 where none is left, or 10 where the reader's handle
/// owns one already, or 11 where the slave's owns no slave. Then both are as they were. It takes no
/// memory.
#[unsafe(no_mangle)]
pub extern "C" fn xcp_reader_open(
    alloc: Global,
    slave: &mut SlaveHandle,
    reader: &mut ReaderHandle,
) -> u8
    ensures { OpensReader result slave.old.value slave.new.value reader.old.value reader.new.value }
{
    if reader.is_open() {
        return OPEN;
    }
    if !slave.is_open() {
        return CLOSED;
    }
    let mut opened = mem::replace(slave, SlaveHandle::closed(alloc)).into_box();
    let taken = opened.take_reader();
    *slave = SlaveHandle::of(opened);
    match taken {
        Some(taken) => {
            *reader = ReaderHandle::of(taken);
            0
        }
        None => NO_READER,
    }
}

/// Frees what a slave's handle owns. Readers that were taken stay.
#[unsafe(no_mangle)]
pub extern "C" fn xcp_close(alloc: Global, slave: &mut SlaveHandle)
    ensures { slave.new.value ≡ None }
{
    if slave.is_open() {
        drop(mem::replace(slave, SlaveHandle::closed(alloc)).into_box());
    }
}

fn open(alloc: Global, text: &[u8]) -> Result<SlaveHandle, u8>
    ensures opened { IfOk result (λ h. IsOpened text.now h.value) }
    ensures fault { IfErr result (λ n. IsFaultOf text.now n) }
    ensures tells { MatchResult result (λ h. TellsText text.now 0 h.value) (λ n. TellsText text.now n None) }
{
    match read(alloc, text) {
        Ok(layout) => begin(alloc, layout),
        Err(fault) => Err(fault),
    }
}

fn open_stored(alloc: Global, text: &[u8], file: &[u8]) -> Result<SlaveHandle, u8>
    ensures opened { IfOk result (λ h. IsOpenedWith text.now file.now h.value) }
    ensures fault { IfErr result (λ n. IsFaultOf text.now n ⊎ IsFaultOfFile text.now file.now n) }
    ensures tells { MatchResult result (λ h. TellsFile text.now file.now 0 h.value) (λ n. TellsFile text.now file.now n None) }
{
    let mut layout = match read(alloc, text) {
        Ok(layout) => layout,
        Err(fault) => return Err(fault),
    };
    match restore_pages(&mut layout, text, file) {
        Ok(decided) => hold(alloc, layout, decided),
        Err(fault) => Err(fault),
    }
}

/// The layout that a text describes, or the number of the text's fault. (Not inlined, so that its part of the stack is free again
/// while the slave is made.)
#[inline(never)]
fn read(alloc: Global, text: &[u8]) -> Result<Layout, u8>
    ensures layout { IfOk result (λ l. IsLayoutText text.now × HasLayout text.now l) }
    ensures fault { IfErr result (λ n. IsFaultOf text.now n) }
{
    match text_of(text) {
        Ok(text) => layout_of(alloc, text, &[]),
        Err(fault) => Err(fault),
    }
}

/// The text that bytes are, or the number of their fault.
pub(crate) fn text_of(bytes: &[u8]) -> Result<&str, u8>
    ensures text { IfOk result (λ text. IsLayoutText bytes.now × (text.now ≡ bytes.now)) }
    ensures fault { IfErr result (λ n. IsTextFault bytes.now n) }
{
    if bytes.len() > TEXT_BYTES {
        return Err(LONG_TEXT);
    }
    match str::from_utf8(bytes) {
        Ok(text) => Ok(text),
        Err(_) => Err(NO_UTF8),
    }
}

/// The layout that a text describes, whose segments have these files, or the number of the text's fault.
pub(crate) fn layout_of(alloc: Global, text: &str, files: &[DataFile]) -> Result<Layout, u8>
    ensures layout { IfOk result (λ l. HasLayoutWith files.now text.now l) }
    ensures fault { IfErr result (λ n. IsFaultIn files.now text.now n) }
{
    match read_layout_with(alloc, text, files) {
        Ok(layout) => Ok(layout),
        Err(fault) => Err(fault.number()),
    }
}

/// Gives a layout the pages of a file, which were stored by what decides which stored pages are its, or, before, by its text: the
/// SHA-256 of what decides, or the number of the file's fault.
pub(crate) fn restore_pages(layout: &mut Layout, text: &[u8], file: &[u8]) -> Result<[u8; 32], u8>
    ensures decided { IfOk result (λ d. d ≡ sha256 (pages_decided layout.old)) }
    ensures restored { OnOk result (IsRestoredByEither layout.old (sha256 (pages_decided layout.old)) (sha256 text.now) file.now layout.new) }
    ensures whole { (pages : List (List ℕ)) → AreReferences pages layout.old → IsStoredFile layout.old text.now file.now pages
        → IsOk result × (layout.new ≡ with_references pages layout.old) }
    ensures fault { IfErr result (λ n. IsFaultBeside layout.old text.now file.now n) }
    ensures told { (e : FlashError) → IsFaultOfBoth layout.old (sha256 (pages_decided layout.old)) (sha256 text.now) file.now e
        → result ≡ Err (number_of_stored e) }
{
    let decided = pages_digest(layout);
    if let Err(fault) = restore_either(layout, &decided, &Sha256::digest(text), file) {
        return Err(number_of(fault));
    }
    Ok(decided)
}

/// A handle of a slave at the opening of this layout; or the number of a failed allocation.
fn begin(alloc: Global, layout: Layout) -> Result<SlaveHandle, u8>
    ensures opened { IfOk result (λ h. IsOpening layout layout h.value) }
    ensures fault { IfErr result (λ n. n ≡ 7) }
{
    let own = pages_digest(&layout);
    hold(alloc, layout, own)
}

/// The same, by what has this SHA-256.
pub(crate) fn hold(alloc: Global, layout: Layout, digest: [u8; 32]) -> Result<SlaveHandle, u8>
    ensures opened { IfOk result (λ h. IsOpeningBy digest layout h.value) }
    ensures fault { IfErr result (λ n. n ≡ 7) }
{
    let Ok(opened) = OpenSlave::new(alloc, layout, digest) else {
        return Err(MEMORY);
    };
    match Box::new(alloc, opened) {
        Ok(held) => Ok(SlaveHandle::of(held)),
        Err(_) => Err(MEMORY),
    }
}
