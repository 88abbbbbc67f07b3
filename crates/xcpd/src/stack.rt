//! The first thread's stack.

use std::alloc::Global;
use xcp_program::Fault;

/// What serving takes of the stack below what calls `deepen`, with some to spare, in bytes.
const DEEPEST: usize = 172 * 1024;

/// As much of the address space as any stack here takes, with what grows before that is there.
const ROOM: usize = 400 * 1024;

/// Whether the address space has so much room.
fn has_free(alloc: Global, bytes: usize) -> bool {
    Vec::<u8>::with_capacity(alloc, bytes).is_ok()
}

/// Whether the address space has room for the stack that anything here takes.
pub fn has_stack_room(alloc: Global) -> bool {
    has_free(alloc, ROOM)
}

/// Has the system give the first thread as deep a stack as serving takes, so that it needn't grow when tools are there: where it can't, the
/// system ends a program by a signal. `Memory` where the address space has no room for it. The word is any.
pub fn deepen(alloc: Global, word: &str) -> Result<(), Fault> {
    // More than `has_stack_room` has asked for: what the C library has had from the system once, and given back, it would keep now.
    if !has_free(alloc, ROOM + 64 * 1024) || touch(word) > 1 {
        return Err(Fault::Memory);
    }
    Ok(())
}

/// Writes to all of that stack. What it answers hangs on the word, which keeps the compiler from leaving the writing out.
#[inline(never)]
fn touch(word: &str) -> u8 {
    let mut stack = [0; DEEPEST];
    let place = word.len() % DEEPEST;
    stack[place] = 1;
    stack[DEEPEST - 1 - place]
}
