//! The writer publishes an image.
ghost use Rattle.std.specs.Prelude.{◌≡◌, ◌≢◌, ◌+◌, ◌*◌, ◌%◌, ◌<◌, ℕ, IsFalse, IsTrue, List, [], length, slice_index, slice_index_or, Some};
ghost use Rattle.xcp_bank.specs.PinHistory.{Deed, Grows, writes_of};
ghost use Rattle.xcp_bank.specs.SeatKnowledge.{Writing};
ghost use Rattle.std.specs.Prelude.{◌/◌, ◌≤◌};
ghost use Rattle.xcp_bank.specs.private.BlockMarks.{IsMarked, TakenAway};
ghost use Rattle.xcp_bank.specs.private.ImageWords.{words_for};
ghost use Rattle.xcp_bank.specs.private.SeatSteps.{IsWriterSeat, WriterMoves, Rests, FoundQuiet, Publishes, WrittenSoFar, bytes_of_table, filled};

use crate::marks::{BLOCK_WORDS, Marks};
use crate::table::{
    Board, Token, buffer_at, keep_words, peek_word, put_word, reset, scan, swap_in,
};
use crate::words::word_at;
use pin_core::BUFFERS;

/// Writes an image and its number to a quiet buffer, and makes that the current one. `current` and `started` are the
/// current buffer and the started count of each, which change with it. Each block in which a buffer and the image differ
/// is marked.
pub(crate) fn publish_at(
    board: &Board,
    token: &mut Token,
    current: &mut usize,
    started: &mut [u64; BUFFERS],
    marks: &mut Marks,
    image: &[u8],
    number: u64,
)
    requires seat { (w : Writing) × IsWriterSeat token.old board.now w × Rests current.old started.old w × (number ≡ length w.pins.publications % 18446744073709551616) × IsMarked board.now.slots marks.old w.words image.now }
    ensures { (w : Writing) → IsWriterSeat token.old board.now w → (u : Writing) × IsWriterSeat token.new board.now u × Rests current.new started.new u × Publishes (words_for image.now number) board.now.slots w u × IsMarked board.now.slots marks.new u.words image.now }
{
    let buffer = find_quiet(board, token, *current, started);
    reset(board, token, buffer);
    write_all(board, token, buffer, marks, image, number);
    let pins = swap_in(board, token, buffer);
    started[buffer] = 0;
    started[*current] = pins;
    *current = buffer;
}

// Scans buffers, the current one apart, until one is quiet. One of seven is.
fn find_quiet(board: &Board, token: &mut Token, current: usize, started: &[u64; BUFFERS]) -> usize
    requires { (w : Writing) × IsWriterSeat token.old board.now w × Rests current started.now w }
    ensures { WriterMoves (λ _ w u. FoundQuiet result w u) token.old token.new board.now }
{
    for buffer in 0..BUFFERS {
        if buffer == current {
            continue;
        }
        if scan(board, token, buffer) == started[buffer] {
            return buffer;
        }
    }
    unreachable!()
}

// Writes an image and its number to the buffer that is built. Blocks that aren't marked for it stand there already,
// and aren't looked at.
fn write_all(
    board: &Board,
    token: &mut Token,
    buffer: usize,
    marks: &mut Marks,
    image: &[u8],
    number: u64,
)
    requires buffer { buffer < BUFFERS }
    requires seat { (w : Writing) × IsWriterSeat token.old board.now w × (w.pins.building ≡ Some buffer) × (w.pins.written ≡ []) × IsMarked board.now.slots marks.old w.words image.now }
    ensures taken { TakenAway buffer 0 (length marks.old / 8) marks.old marks.new }
    ensures written { (w : Writing) → IsWriterSeat token.old board.now w → (history : List Deed) × (all : List (List ℕ)) × IsWriterSeat token.new board.now (filled (words_for image.now number) all history w) × Grows 0 w.history history (writes_of (words_for image.now number) (length (words_for image.now number))) × IsMarked board.now.slots marks.new all image.now }
{
    let base = buffer_at(board, buffer);
    let words = image.len() / 8;
    let mut block = marks.next(0, buffer);
    while block < marks.blocks() {
        let end = marks.take_row(block, buffer);
        let (from, to) = (BLOCK_WORDS * block, words.min(BLOCK_WORDS * end));
        write_words(board, token, buffer, base, image, from, to);
        block = marks.next(end, buffer);
    }
    keep_words(board, token, buffer, base, words);
    put_word(board, token, buffer, base, words, number);
}

// Writes words of an image to the buffer that is built: a store for each that isn't there already, and a load for
// each run of those that are.
fn write_words(
    board: &Board,
    token: &mut Token,
    buffer: usize,
    base: usize,
    image: &[u8],
    from: usize,
    to: usize,
)
    requires buffer { buffer < BUFFERS }
    requires base { base ≡ 9 + buffer * board.now.slots }
    requires size { length image.now ≡ bytes_of_table board.now }
    requires order { from ≤ to }
    requires inside { to ≤ length image.now / 8 }
    requires seat { (number : ℕ) × (w : Writing) × WrittenSoFar board.now token.old buffer from (words_for image.now number) w }
    ensures { (number : ℕ) (w : Writing) → WrittenSoFar board.now token.old buffer from (words_for image.now number) w → WrittenSoFar board.now token.new buffer to (words_for image.now number) w }
{
    for k in from..to {
        let word = word_at(image, k);
        if stands(board, token, buffer, base, k, word) {
            continue;
        }
        keep_words(board, token, buffer, base, k);
        put_word(board, token, buffer, base, k, word);
    }
}

// Whether this word stands there already.
fn stands(board: &Board, token: &mut Token, buffer: usize, base: usize, k: usize, word: u64) -> bool
    requires buffer { buffer < BUFFERS }
    requires base { base ≡ 9 + buffer * board.now.slots }
    requires word { k < board.now.slots }
    requires seat { (w : Writing) × IsWriterSeat token.old board.now w }
    ensures { WriterMoves (λ _ w u. (u ≡ w) × (IsTrue result → slice_index (slice_index_or w.words buffer []) k ≡ word) × (IsFalse result → slice_index (slice_index_or w.words buffer []) k ≢ word)) token.old token.new board.now }
{
    peek_word(board, token, buffer, base, k) == word
}
