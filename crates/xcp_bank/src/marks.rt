//! Which blocks of the buffers may differ from the newest image.
//!
//! A publication marks the blocks that it may change for all buffers, and takes the marks away for the buffer that it
//! fills. So what a buffer missed is known however many publications ago it was filled, and nothing is counted.
ghost use Rattle.std.specs.Prelude.{◌≡◌, ◌⊎◌, ℕ, ◌+◌, ◌*◌, ◌/◌, ◌<◌, ◌≤◌, IfOk, length, slice_index_or, true, false};
ghost use Rattle.std.specs.Int.{div_ceil};
ghost use Rattle.xcp_bank.specs.private.BlockMarks.{blocks_in, mark_of, MarkedToo, TakenAway};

use crate::MAX_IMAGE_BYTES;
use pin_core::BUFFERS;
use std::alloc::{AllocError, Global};
use std::marker::Model;

/// The words of a block.
pub(crate) const BLOCK_WORDS: usize = 64;

/// The bytes of an image in a block.
const BLOCK_BYTES: usize = 512;

/// The marks. Contracts see them as they are.
#[derive(Drop)]
pub(crate) struct Marks {
    marks: Vec<bool>,
}

impl Model for Marks {
    ghost use Rattle.std.specs.Prelude.{Bool, List};

    ghost Value = { List Bool };

    ghost view = { λ m. m.marks.items };
}

impl Marks {
    /// Marks for images of so many words, with each block marked for each buffer.
    pub(crate) fn new(alloc: Global, words: usize) -> Result<Marks, AllocError>
        requires few { 8 * words ≤ MAX_IMAGE_BYTES }
        ensures size { IfOk result (λ marks. length marks ≡ 8 * blocks_in words) }
        ensures all { IfOk result (λ marks. (i : ℕ) → i < length marks → slice_index_or marks i false ≡ true) }
    {
        let marks = vec![in alloc; true; BUFFERS * words.div_ceil(BLOCK_WORDS)]?;
        Ok(Marks { marks })
    }

    /// How many blocks there are.
    pub(crate) fn blocks(&self) -> usize
        ensures { result ≡ length self.now / 8 }
    {
        self.marks.len() / BUFFERS
    }

    /// Marks each block in which one of the bytes from..to of an image lies, for all buffers.
    pub(crate) fn mark(&mut self, from: usize, to: usize)
        requires { 8 * div_ceil to 512 ≤ length self.old }
        ensures { MarkedToo from to self.old self.new }
    {
        set_all(
            &mut self.marks,
            BUFFERS * (from / BLOCK_BYTES),
            BUFFERS * to.div_ceil(BLOCK_BYTES),
        );
    }

    /// The first block from `from` on that is marked for a buffer, or else how many blocks there are.
    pub(crate) fn next(&self, from: usize, buffer: usize) -> usize
        requires buffer { buffer < BUFFERS }
        requires from { from ≤ length self.now / 8 }
        ensures from { from ≤ result }
        ensures inside { result ≤ length self.now / 8 }
        ensures clean { (block : ℕ) → from ≤ block → block < result → mark_of self.now block buffer ≡ false }
        ensures marked { result < length self.now / 8 → mark_of self.now result buffer ≡ true }
    {
        let blocks = self.blocks();
        for block in from..blocks {
            if self.marks[BUFFERS * block + buffer] {
                return block;
            }
        }
        blocks
    }

    /// Takes the marks of a block, and of those behind it in a row that are marked, away for a buffer. Answers the first
    /// block behind them.
    pub(crate) fn take_row(&mut self, from: usize, buffer: usize) -> usize
        requires buffer { buffer < BUFFERS }
        requires from { from < length self.old / 8 }
        requires marked { mark_of self.old from buffer ≡ true }
        ensures more { from < result }
        ensures inside { result ≤ length self.old / 8 }
        ensures row { (block : ℕ) → from ≤ block → block < result → mark_of self.old block buffer ≡ true }
        ensures taken { TakenAway buffer from result self.old self.new }
    {
        self.marks[BUFFERS * from + buffer] = false;
        for block in from + 1..self.blocks() {
            if !self.marks[BUFFERS * block + buffer] {
                return block;
            }
            self.marks[BUFFERS * block + buffer] = false;
        }
        self.blocks()
    }
}

// (A slice's address stays in a register, so this becomes one call that fills memory.)
fn set_all(marks: &mut [bool], from: usize, to: usize)
    requires { to ≤ length marks.old }
    ensures size { length marks.new ≡ length marks.old }
    ensures set { (i : ℕ) → from ≤ i → i < to → slice_index_or marks.new i false ≡ true }
    ensures others { (i : ℕ) → (i < from) ⊎ (to ≤ i) → slice_index_or marks.new i false ≡ slice_index_or marks.old i false }
{
    for i in from..to {
        marks[i] = true;
    }
}
