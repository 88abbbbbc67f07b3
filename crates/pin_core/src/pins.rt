// The whole state, and how it begins.
ghost use Rattle.std.specs.Prelude.{◌≡◌, ◌<◌, ◌≤◌, ◌∷◌, length, replicate, IfOk};
ghost use Rattle.pin_core.specs.State.{newcomer, opening, width};
ghost use Rattle.pin_core.specs.StateInvariant.{Lawful};

use crate::reader::Reader;
use crate::words::Words;
use crate::{BUFFERS, MAX_WORDS, READERS};
use std::alloc::{AllocError, Global};
use std::marker::Model;

mod idle;
mod readers;
mod steps;
mod writers;

/// A published image that six readers may hold, while a writer builds the next one in another of
/// eight buffers.
///
/// Contracts see it as its state, which is lawful in each value of this type.
#[derive(Drop)]
pub struct Core {
    alloc: Global,
    index: u8,
    count: u64,
    buffers: Vec<Words>,
    leavings: [u64; BUFFERS],
    readers: [Reader; READERS],
    writer: Writer,
}

// What the writer knows. Of the buffer that is being built the first `written` words are there.
#[derive(Drop)]
struct Writer {
    started: [u64; BUFFERS],
    quiet: Option<u8>,
    building: Option<u8>,
    written: usize,
    publications: Vec<Words>,
}

impl Model for Core {
    ghost use Rattle.pin_core.specs.State.{PinState};

    ghost Value = { PinState };

    ghost use Rattle.pin_core.specs.CoreFields.{shown};
    ghost use Rattle.pin_core.specs.private.SoundCore.{IsSound};

    ghost view = { shown };

    ghost invariant = { IsSound };
}

impl Core {
    /// A core whose buffer 0 is current with the first image, of 1 to 131,073 words. All its buffers are made here.
    pub fn new(alloc: Global, first: &[u64]) -> Result<Core, AllocError>
        requires some_words { 0 < length first.now }
        requires few_words { length first.now ≤ MAX_WORDS }
        ensures { IfOk result (λ core. core ≡ opening first.now) }
    {
        let buffers = buffers(alloc, first)?;
        let mut publications = Vec::new(alloc);
        publications.push(Words::copy_of(alloc, first)?)?;
        Ok(Core {
            alloc,
            index: 0,
            count: 0,
            buffers,
            leavings: [0; BUFFERS],
            readers: six_readers(),
            writer: Writer {
                started: [0; BUFFERS],
                quiet: None,
                building: None,
                written: 0,
                publications,
            },
        })
    }

    /// The state of every core is lawful. This call does nothing, and its contract is that.
    pub fn lawful(&self)
        ensures { Lawful (width self.now) self.now }
    {
        // (To name a field opens the value, so that what its type keeps is known.)
        let _ = &self.index;
    }
}

// The first image, and seven buffers of zeros.
fn buffers(alloc: Global, first: &[u64]) -> Result<Vec<Words>, AllocError>
    ensures { IfOk result
        (λ buffers. buffers.items ≡ first.now ∷ replicate 7 (replicate (length first.now) 0)) }
{
    let mut buffers = Vec::with_capacity(alloc, BUFFERS)?;
    buffers.push(Words::copy_of(alloc, first)?)?;
    for _made in 1..BUFFERS {
        buffers.push(Words::zeros(alloc, first.len())?)?;
    }
    Ok(buffers)
}

fn six_readers() -> [Reader; READERS]
    ensures { result ≡ replicate 6 newcomer }
{
    [
        Reader::new(),
        Reader::new(),
        Reader::new(),
        Reader::new(),
        Reader::new(),
        Reader::new(),
    ]
}
