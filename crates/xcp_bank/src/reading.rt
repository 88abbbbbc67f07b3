//! A reader reads bytes of what it holds.
ghost use Rattle.std.specs.Prelude.{◌≡◌, ◌≢◌, ℕ, ◌+◌, ◌-◌, ◌*◌, ◌/◌, ◌%◌, ◌<◌, ◌≤◌, [], length, take, drop, slice_index, slice_index_or, Some};
ghost use Rattle.std.specs.Int.{w64, to_le_bytes};
ghost use Rattle.xcp_bank.specs.SeatKnowledge.{Reading};
ghost use Rattle.xcp_bank.specs.Images.{image_in_words};
ghost use Rattle.xcp_bank.specs.private.SeatSteps.{IsReaderSeat, HasRead, ReaderMoves, ReadsOn, WordReadAt, bytes_of_table};
ghost use Rattle.xcp_bank.specs.BankEnds.{words_in};

use crate::MAX_IMAGE_BYTES;
use crate::table::{Board, Token, buffer_at, read_word, width};
use pin_core::BUFFERS;

/// The words of a block, which are read without a loop.
const BLOCK: usize = 51;

/// Reads the bytes of the held image from `at` on, each word that they lie in once: the first and the last
/// as far as they are asked for, and as many as may be of those between in blocks.
pub(crate) fn read_at(board: &Board, token: &mut Token, buffer: usize, at: usize, out: &mut [u8])
    requires buffer { buffer < BUFFERS }
    requires inside { at + length out.old ≤ bytes_of_table board.now }
    requires seat { (r : ℕ) × (x : Reading) × IsReaderSeat token.old board.now r x × (p : ℕ) × (x.pins.held ≡ Some (buffer, p)) }
    ensures { (r : ℕ) (x : Reading) → IsReaderSeat token.old board.now r x → (p : ℕ) → x.pins.held ≡ Some (buffer, p) → (y : Reading) × IsReaderSeat token.new board.now r y × HasRead (at / 8) (words_in at (length out.old)) p board.now.slots r x y × (out.new ≡ take (length out.old) (drop at (image_in_words (slice_index_or x.list p [])))) }
{
    let base = buffer_at(board, buffer);
    read_words(board, token, buffer, base, at, out);
}

/// Reads the number of the held publication, which is the last word of its buffer.
pub(crate) fn read_number(board: &Board, token: &mut Token, buffer: usize) -> u64
    requires buffer { buffer < BUFFERS }
    requires seat { (r : ℕ) × (x : Reading) × IsReaderSeat token.old board.now r x × (p : ℕ) × (x.pins.held ≡ Some (buffer, p)) }
    ensures { ReaderMoves (λ W. WordReadAt buffer (W - 1) result W) token.old token.new board.now }
{
    let base = buffer_at(board, buffer);
    let last = width(board) - 1;
    read_word(board, token, buffer, base, last)
}

fn read_words(
    board: &Board,
    token: &mut Token,
    buffer: usize,
    base: usize,
    at: usize,
    out: &mut [u8],
)
    requires buffer { buffer < BUFFERS }
    requires base { base ≡ 9 + buffer * board.now.slots }
    requires inside { at + length out.old ≤ bytes_of_table board.now }
    requires seat { (r : ℕ) × (x : Reading) × IsReaderSeat token.old board.now r x × (p : ℕ) × (x.pins.held ≡ Some (buffer, p)) }
    ensures { ReadsOn board.now buffer at (at / 8) (words_in at (length out.old)) token.old token.new out.old out.new }
{
    let end = (at + out.len() + 7) / 8;
    let first = ((at + 7) / 8).min(end);
    let blocks = (at + out.len()).saturating_sub(8 * first) / (8 * BLOCK);
    read_parts(board, token, buffer, base, at / 8, first, at, out);
    read_blocks(board, token, buffer, base, first, blocks, at, out);
    read_parts(
        board,
        token,
        buffer,
        base,
        first + BLOCK * blocks,
        end,
        at,
        out,
    );
}

// Reads words one by one, which need not lie in what is read whole.
fn read_parts(
    board: &Board,
    token: &mut Token,
    buffer: usize,
    base: usize,
    from: usize,
    to: usize,
    at: usize,
    out: &mut [u8],
)
    requires buffer { buffer < BUFFERS }
    requires base { base ≡ 9 + buffer * board.now.slots }
    requires inside { at + length out.old ≤ bytes_of_table board.now }
    requires order { from ≤ to }
    requires from { at < 8 * from + 8 }
    requires to { 8 * to < at + length out.old + 8 }
    requires seat { (r : ℕ) × (x : Reading) × IsReaderSeat token.old board.now r x × (p : ℕ) × (x.pins.held ≡ Some (buffer, p)) }
    ensures { ReadsOn board.now buffer at from (to - from) token.old token.new out.old out.new }
{
    for k in from..to {
        read_part(board, token, buffer, base, k, at, out);
    }
}

// Reads whole words, a block at a time.
fn read_blocks(
    board: &Board,
    token: &mut Token,
    buffer: usize,
    base: usize,
    from: usize,
    count: usize,
    at: usize,
    out: &mut [u8],
)
    requires buffer { buffer < BUFFERS }
    requires base { base ≡ 9 + buffer * board.now.slots }
    requires inside { at + length out.old ≤ bytes_of_table board.now }
    requires from { 0 < count → at ≤ 8 * from }
    requires to { 0 < count → 8 * (from + 51 * count) ≤ at + length out.old }
    requires seat { (r : ℕ) × (x : Reading) × IsReaderSeat token.old board.now r x × (p : ℕ) × (x.pins.held ≡ Some (buffer, p)) }
    ensures { ReadsOn board.now buffer at from (51 * count) token.old token.new out.old out.new }
{
    for i in 0..count {
        read_block(board, token, buffer, base, from + BLOCK * i, at, out);
    }
}

// Reads the words of a block.
fn read_block(
    board: &Board,
    token: &mut Token,
    buffer: usize,
    base: usize,
    k: usize,
    at: usize,
    out: &mut [u8],
)
    requires buffer { buffer < BUFFERS }
    requires base { base ≡ 9 + buffer * board.now.slots }
    requires inside { at + length out.old ≤ bytes_of_table board.now }
    requires from { at ≤ 8 * k }
    requires to { 8 * (k + 51) ≤ at + length out.old }
    requires seat { (r : ℕ) × (x : Reading) × IsReaderSeat token.old board.now r x × (p : ℕ) × (x.pins.held ≡ Some (buffer, p)) }
    ensures { ReadsOn board.now buffer at k 51 token.old token.new out.old out.new }
{
    let place = 8 * k - at;
    read_seventeen(board, token, buffer, base, k, &mut out[place..place + 136]);
    read_seventeen(
        board,
        token,
        buffer,
        base,
        k + 17,
        &mut out[place + 136..place + 272],
    );
    read_seventeen(
        board,
        token,
        buffer,
        base,
        k + 34,
        &mut out[place + 272..place + 408],
    );
}

// Reads words into the bytes of these alone, so that each has a place that is known before the program runs.
fn read_seventeen(
    board: &Board,
    token: &mut Token,
    buffer: usize,
    base: usize,
    k: usize,
    out: &mut [u8],
)
    requires buffer { buffer < BUFFERS }
    requires base { base ≡ 9 + buffer * board.now.slots }
    requires inside { 8 * k + length out.old ≤ bytes_of_table board.now }
    requires size { 8 * 17 ≤ length out.old }
    requires seat { (r : ℕ) × (x : Reading) × IsReaderSeat token.old board.now r x × (p : ℕ) × (x.pins.held ≡ Some (buffer, p)) }
    ensures { ReadsOn board.now buffer (8 * k) k 17 token.old token.new out.old out.new }
{
    let at = 8 * k;
    read_three(board, token, buffer, base, k, at, out);
    read_three(board, token, buffer, base, k + 3, at, out);
    read_three(board, token, buffer, base, k + 6, at, out);
    read_three(board, token, buffer, base, k + 9, at, out);
    read_three(board, token, buffer, base, k + 12, at, out);
    read_whole(board, token, buffer, base, k + 15, at, out);
    read_whole(board, token, buffer, base, k + 16, at, out);
}

fn read_three(
    board: &Board,
    token: &mut Token,
    buffer: usize,
    base: usize,
    k: usize,
    at: usize,
    out: &mut [u8],
)
    requires buffer { buffer < BUFFERS }
    requires base { base ≡ 9 + buffer * board.now.slots }
    requires inside { at + length out.old ≤ bytes_of_table board.now }
    requires from { at ≤ 8 * k }
    requires to { 8 * (k + 3) ≤ at + length out.old }
    requires seat { (r : ℕ) × (x : Reading) × IsReaderSeat token.old board.now r x × (p : ℕ) × (x.pins.held ≡ Some (buffer, p)) }
    ensures { ReadsOn board.now buffer at k 3 token.old token.new out.old out.new }
{
    read_whole(board, token, buffer, base, k, at, out);
    read_whole(board, token, buffer, base, k + 1, at, out);
    read_whole(board, token, buffer, base, k + 2, at, out);
}

// Reads a word all of whose bytes are asked for.
fn read_whole(
    board: &Board,
    token: &mut Token,
    buffer: usize,
    base: usize,
    k: usize,
    at: usize,
    out: &mut [u8],
)
    requires buffer { buffer < BUFFERS }
    requires base { base ≡ 9 + buffer * board.now.slots }
    requires inside { at + length out.old ≤ bytes_of_table board.now }
    requires from { at ≤ 8 * k }
    requires to { 8 * k + 8 ≤ at + length out.old }
    requires seat { (r : ℕ) × (x : Reading) × IsReaderSeat token.old board.now r x × (p : ℕ) × (x.pins.held ≡ Some (buffer, p)) }
    ensures { ReadsOn board.now buffer at k 1 token.old token.new out.old out.new }
{
    let word = read_word(board, token, buffer, base, k);
    put_whole(word, 8 * k - at, out);
}

// Reads a word, and puts those of its bytes that are asked for.
fn read_part(
    board: &Board,
    token: &mut Token,
    buffer: usize,
    base: usize,
    k: usize,
    at: usize,
    out: &mut [u8],
)
    requires buffer { buffer < BUFFERS }
    requires base { base ≡ 9 + buffer * board.now.slots }
    requires inside { at + length out.old ≤ bytes_of_table board.now }
    requires from { at < 8 * k + 8 }
    requires to { 8 * k < at + length out.old }
    requires seat { (r : ℕ) × (x : Reading) × IsReaderSeat token.old board.now r x × (p : ℕ) × (x.pins.held ≡ Some (buffer, p)) }
    ensures { ReadsOn board.now buffer at k 1 token.old token.new out.old out.new }
{
    let word = read_word(board, token, buffer, base, k);
    put_part(word, k, at, out);
}

// Puts a word's eight bytes from one place on.
fn put_whole(word: u64, from: usize, out: &mut [u8])
    requires { from + 8 ≤ length out.old }
    ensures size { length out.new ≡ length out.old }
    ensures there { (j : ℕ) → from ≤ j → j < from + 8 → slice_index out.new j ≡ slice_index (to_le_bytes w64 word) (j - from) }
    ensures before { (j : ℕ) → j < from → slice_index out.new j ≡ slice_index out.old j }
    ensures behind { (j : ℕ) → from + 8 ≤ j → slice_index out.new j ≡ slice_index out.old j }
{
    let bytes = word.to_le_bytes();
    for i in 0..8 {
        out[from + i] = bytes[i];
    }
}

// Puts the bytes of an image's word k, as far as they lie in what is read from the byte `at` on.
fn put_part(word: u64, k: usize, at: usize, out: &mut [u8])
    requires inside { at + length out.old ≤ MAX_IMAGE_BYTES }
    requires from { at < 8 * k + 8 }
    requires to { 8 * k < at + length out.old }
    ensures size { length out.new ≡ length out.old }
    ensures there { (j : ℕ) → j < length out.old → (at + j) / 8 ≡ k → slice_index out.new j ≡ slice_index (to_le_bytes w64 word) ((at + j) % 8) }
    ensures elsewhere { (j : ℕ) → (at + j) / 8 ≢ k → slice_index out.new j ≡ slice_index out.old j }
{
    let bytes = word.to_le_bytes();
    let from = at.max(8 * k);
    let to = (at + out.len()).min(8 * k + 8);
    out[from - at..to - at].copy_from_slice(&bytes[from - 8 * k..to - 8 * k]);
}
