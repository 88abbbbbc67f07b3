//! What a task in C calls of a reader, under no lock.
ghost use Rattle.std.specs.Prelude.{◌≡◌, ◌+◌, ◌<◌, ◌≤◌, ◌⊎◌, IsTrue, None, false, length};
ghost use Rattle.xcp_bank.specs.BankId.{image_bytes};
ghost use Rattle.xcp_bank.specs.BankEnds.{Holds};
ghost use Rattle.xcp_bank.specs.declared.taken.Taken.TheVariants.{Newer, Same};
ghost use Rattle.xcp_c.specs.Readers.{Acquired, CanNotRead, HoldsNothing, Numbered, ReadsImage};

use crate::reader_handle::ReaderHandle;
use std::alloc::Global;
use std::mem;
use xcp_bank::{Reader, Taken};

/// Takes the current image, where the one held isn't current any more: true where it is a newer one, and
/// false where it is the same, or where the handle owns no reader.
#[unsafe(no_mangle)]
pub extern "C" fn xcp_acquire(alloc: Global, reader: &mut ReaderHandle) -> bool
    ensures newer { IsTrue result → Acquired Newer reader.old.value reader.new.value }
    ensures same { result ≡ false → Acquired Same reader.old.value reader.new.value
        ⊎ ((reader.old.value ≡ None) × (reader.new.value ≡ None)) }
{
    if !reader.is_open() {
        return false;
    }
    let mut held = mem::replace(reader, ReaderHandle::closed(alloc)).into_box();
    let taken = held.acquire();
    *reader = ReaderHandle::of(held);
    match taken {
        Taken::Newer => true,
        Taken::Same => false,
    }
}

/// Reads the bytes of the held image from `at` on, as many as `out` has. False where nothing is held, or
/// where the image ends before, or where the handle owns no reader: then nothing is read.
#[unsafe(no_mangle)]
pub extern "C" fn xcp_read(
    alloc: Global,
    reader: &mut ReaderHandle,
    at: usize,
    out: &mut [u8],
) -> bool
    ensures read { IsTrue result → ReadsImage at reader.old.value out.new reader.new.value }
    ensures none { result ≡ false → CanNotRead at (length out.old) reader.old.value
        × (reader.new.value ≡ reader.old.value) × (out.new ≡ out.old) }
{
    if !reader.is_open() {
        return false;
    }
    let mut held = mem::replace(reader, ReaderHandle::closed(alloc)).into_box();
    if !can_read(&held, at, out.len()) {
        *reader = ReaderHandle::of(held);
        return false;
    }
    held.read(at, out);
    *reader = ReaderHandle::of(held);
    true
}

/// Whether the reader holds an image that has this many bytes from `at` on.
fn can_read(reader: &Reader, at: usize, count: usize) -> bool
    ensures yes { IsTrue result → Holds reader.now × (at + count ≤ image_bytes reader.now.bank) }
    ensures no { result ≡ false → ¬ Holds reader.now ⊎ (image_bytes reader.now.bank < at + count) }
{
    reader.holds() && at <= reader.size() && count <= reader.size() - at
}

/// The number of the held publication, from 0, modulo 2^64: it tells which of two images is the newer.
/// False where nothing is held, or where the handle owns no reader.
#[unsafe(no_mangle)]
pub extern "C" fn xcp_number(alloc: Global, reader: &mut ReaderHandle, number: &mut u64) -> bool
    ensures told { IsTrue result → Numbered number.new reader.old.value reader.new.value }
    ensures none { result ≡ false → HoldsNothing reader.old.value
        × (reader.new.value ≡ reader.old.value) × (number.new ≡ number.old) }
{
    if !reader.is_open() {
        return false;
    }
    let mut held = mem::replace(reader, ReaderHandle::closed(alloc)).into_box();
    if !held.holds() {
        *reader = ReaderHandle::of(held);
        return false;
    }
    *number = held.number();
    *reader = ReaderHandle::of(held);
    true
}

/// Gives back what the reader holds, for good, and frees it.
#[unsafe(no_mangle)]
pub extern "C" fn xcp_reader_close(alloc: Global, reader: &mut ReaderHandle)
    ensures { reader.new.value ≡ None }
{
    if reader.is_open() {
        let held = mem::replace(reader, ReaderHandle::closed(alloc)).into_box();
        drop(Box::into_inner(held).leave());
    }
}
