//! The table, the seats and the plays: how each step of the bank changes the words and what is known of them.
//!
//! Outside of this module nobody can make a step but by the functions here. Each is one call of the table
//! on the word that its name says, and by its contract one deed in the history; only `tell_at` is two,
//! `keep_words` is as many as it keeps, and `peek_word`, `open` and `cut` are none.
ghost use Rattle.std.specs.Prelude.{◌≡◌, ◌≢◌, ℕ, suc, ◌+◌, ◌-◌, ◌*◌, ◌%◌, ◌<◌, ◌≤◌, List, [], length, slice_index, slice_index_or, Some, None, IfOk, true, false};
ghost use Rattle.std.specs.Arc.{arc_value};
ghost use Rattle.atomic_table.specs.Table.{opening};
ghost use Rattle.xcp_bank.specs.SeatKnowledge.{Reading, Writing, starting};
ghost use Rattle.xcp_bank.specs.private.Everybody.{everybody};
ghost use Rattle.xcp_bank.specs.TableRule.{Banked};
ghost use Rattle.xcp_bank.specs.private.ReaderSteps.{GivesUp};
ghost use Rattle.xcp_bank.specs.private.WriterSteps.{Scanned, WasReset, Written, WrittenAgain, SeatPublished};
ghost use Rattle.xcp_bank.specs.private.SeatSplits.{when_joined, when_parted};
ghost use Rattle.xcp_bank.specs.private.SeatSteps.{IsWide, bytes_of_table, IsReaderSeat, IsFirstSeat, IsWriterSeat, ReaderMoves, WriterMoves, PinnedAt, LookedAt, WordReadAt};

mod cuts;
mod reader_steps;
mod rule;
mod telling;
mod writer_steps;

use atomic_table::{Seat, Table};
use pin_core::{BUFFERS, MAX_WORDS};
pub(crate) use rule::FRONT_WORDS;
use rule::{PinTable, View};
use std::alloc::{AllocError, Global};
use std::marker::Model;
use std::sync::Arc;

/// A seat. Contracts see it as it is.
#[derive(Drop)]
pub struct Token {
    seat: Seat<(), View>,
}

impl Model for Token {
    ghost use Rattle.atomic_table.specs.declared.shared.Seat.{Seat};
    ghost use Rattle.xcp_bank.specs.SeatKnowledge.{Known};

    ghost Value = { Seat (Unit {0}) Known };

    ghost view = { λ t. t.seat };
}

/// The table that all share. Contracts see which it is.
#[derive(Drop)]
pub struct Board {
    table: PinTable,
}

impl Model for Board {
    ghost use Rattle.atomic_table.specs.Seated.{TableId};

    ghost Value = { TableId };

    ghost view = { λ b. b.table.shared.table_id };
}

/// A new table, with the seat that stands for all.
pub(crate) fn open(
    alloc: Global,
    words: &Vec<u64>,
    table: &[u64],
) -> Result<(Arc<Board>, Token), AllocError>
    requires some { 1 < length words.now.items }
    requires few { length words.now.items ≤ MAX_WORDS }
    requires size { length table.now ≡ 9 + 8 * length words.now.items }
    requires rule { (slots : List (Unit {0})) → Banked (length words.now.items) (opening table.now slots (everybody 6 words.now.items)) }
    ensures { IfOk result (λ ends. IsFirstSeat ends.1 (arc_value ends.0) 6 words.now.items) }
{
    // (The slots hold nothing and have no bytes. A step is told how many there are: as many as a buffer has words.)
    let slots = vec![in alloc; (); words.len()]?;
    let Ok((table, seat)) = Table::new(alloc, table, slots, words) else {
        return Err(AllocError);
    };
    let board = Arc::new(alloc, Board { table })?;
    Ok((board, Token { seat }))
}

/// How many words a buffer has.
pub(crate) fn width(board: &Board) -> usize
    ensures { result ≡ board.now.slots }
{
    board.table.slot_count()
}

/// Cuts off the seat of the last reader that the first seat stands for.
pub(crate) fn cut(board: &Board, token: &mut Token) -> Token
    requires { (n : ℕ) × (words : List ℕ) × IsFirstSeat token.old board.now (suc n) words }
    ensures { (n : ℕ) (words : List ℕ) → IsFirstSeat token.old board.now (suc n) words → IsFirstSeat token.new board.now n words × IsReaderSeat result board.now n (starting words) }
{
    let seat = cuts::cut(&board.table.shared, &mut token.seat);
    Token { seat }
}

/// Look: the current buffer.
pub(crate) fn look(board: &Board, token: &mut Token) -> usize
    requires { (r : ℕ) × (x : Reading) × IsReaderSeat token.old board.now r x × (x.pins.gone ≡ false) }
    ensures { ReaderMoves (LookedAt result) token.old token.new board.now }
{
    reader_steps::look(&board.table.shared, &mut token.seat)
}

/// Pin: the current buffer, which the reader holds from then on.
pub(crate) fn pin(board: &Board, token: &mut Token) -> usize
    requires { (r : ℕ) × (x : Reading) × IsReaderSeat token.old board.now r x × (x.pins.gone ≡ false) × (x.pins.held ≡ None) }
    ensures { ReaderMoves (PinnedAt result) token.old token.new board.now }
{
    reader_steps::pin(&board.table.shared, &mut token.seat)
}

/// Unpin: the reader gives back what it holds, once it has seen that another buffer is current.
pub(crate) fn unpin(board: &Board, token: &mut Token, buffer: usize)
    requires buffer { buffer < BUFFERS }
    requires seat { (r : ℕ) × (x : Reading) × IsReaderSeat token.old board.now r x × (p : ℕ) × (x.pins.held ≡ Some (buffer, p)) × (x.pins.looked ≢ buffer) }
    ensures { ReaderMoves (λ W. GivesUp W false) token.old token.new board.now }
{
    reader_steps::unpin(&board.table.shared, &mut token.seat, buffer);
}

/// The last Unpin: the reader gives back what it holds for good.
pub(crate) fn unpin_for_good(board: &Board, token: &mut Token, buffer: usize)
    requires buffer { buffer < BUFFERS }
    requires seat { (r : ℕ) × (x : Reading) × IsReaderSeat token.old board.now r x × (p : ℕ) × (x.pins.held ≡ Some (buffer, p)) }
    ensures { ReaderMoves (λ W. GivesUp W true) token.old token.new board.now }
{
    reader_steps::unpin_for_good(&board.table.shared, &mut token.seat, buffer);
}

/// How many bytes an image has.
pub(crate) fn image_size(board: &Board) -> usize
    requires { IsWide board.now }
    ensures { result ≡ bytes_of_table board.now }
{
    8 * (width(board) - 1)
}

/// Where the words of a buffer begin in the table.
pub(crate) fn buffer_at(board: &Board, buffer: usize) -> usize
    requires buffer { buffer < BUFFERS }
    requires wide { IsWide board.now }
    ensures { result ≡ 9 + buffer * board.now.slots }
{
    FRONT_WORDS + buffer * width(board)
}

/// Read: word k of what the reader holds, whose words begin at `base`.
pub(crate) fn read_word(
    board: &Board,
    token: &mut Token,
    buffer: usize,
    base: usize,
    k: usize,
) -> u64
    requires buffer { buffer < BUFFERS }
    requires base { base ≡ 9 + buffer * board.now.slots }
    requires word { k < board.now.slots }
    requires seat { (r : ℕ) × (x : Reading) × IsReaderSeat token.old board.now r x × (p : ℕ) × (x.pins.held ≡ Some (buffer, p)) }
    ensures { ReaderMoves (WordReadAt buffer k result) token.old token.new board.now }
{
    reader_steps::read_word(&board.table.shared, &mut token.seat, buffer, base, k)
}

/// Scan: how many pins of a buffer were given back.
pub(crate) fn scan(board: &Board, token: &mut Token, buffer: usize) -> u64
    requires buffer { buffer < BUFFERS }
    requires seat { (w : Writing) × IsWriterSeat token.old board.now w × (w.pins.building ≡ None) × (buffer ≢ w.current) }
    ensures { WriterMoves (λ W w u. Scanned W buffer w result u) token.old token.new board.now }
{
    writer_steps::scan(&board.table.shared, &mut token.seat, buffer)
}

/// Reset: the quiet buffer is built from now on.
pub(crate) fn reset(board: &Board, token: &mut Token, buffer: usize)
    requires buffer { buffer < BUFFERS }
    requires seat { (w : Writing) × IsWriterSeat token.old board.now w × (w.pins.quiet ≡ Some buffer) }
    ensures { WriterMoves (λ _ w u. WasReset buffer w 0 u) token.old token.new board.now }
{
    writer_steps::reset(&board.table.shared, &mut token.seat, buffer);
}

/// Write: the next word of the buffer that is built. A word of the image is written only where another one stands.
pub(crate) fn put_word(
    board: &Board,
    token: &mut Token,
    buffer: usize,
    base: usize,
    k: usize,
    word: u64,
)
    requires buffer { buffer < BUFFERS }
    requires base { base ≡ 9 + buffer * board.now.slots }
    requires word { k < board.now.slots }
    requires differs { (w : Writing) → IsWriterSeat token.old board.now w → k + 1 < board.now.slots → slice_index (slice_index_or w.words buffer []) k ≢ word }
    requires seat { (w : Writing) × IsWriterSeat token.old board.now w × (w.pins.building ≡ Some buffer) × (length w.pins.written ≡ k) }
    ensures { WriterMoves (λ _ w u. Written word w word u) token.old token.new board.now }
{
    writer_steps::put_word(&board.table.shared, &mut token.seat, buffer, base, k, word);
}

/// The word k that stands in a buffer: a load that is no event, since nobody else writes words.
pub(crate) fn peek_word(
    board: &Board,
    token: &mut Token,
    buffer: usize,
    base: usize,
    k: usize,
) -> u64
    requires buffer { buffer < BUFFERS }
    requires base { base ≡ 9 + buffer * board.now.slots }
    requires word { k < board.now.slots }
    requires seat { (w : Writing) × IsWriterSeat token.old board.now w }
    ensures { WriterMoves (λ _ w u. (u ≡ w) × (result ≡ slice_index (slice_index_or w.words buffer []) k)) token.old token.new board.now }
{
    writer_steps::peek_word(&board.table.shared, &mut token.seat, buffer, base, k)
}

/// Writes of the next words, before word `to` of the buffer that is built, each of the word that stands there
/// already. No word changes, so one load notes them all.
pub(crate) fn keep_words(board: &Board, token: &mut Token, buffer: usize, base: usize, to: usize)
    requires buffer { buffer < BUFFERS }
    requires base { base ≡ 9 + buffer * board.now.slots }
    requires word { to < board.now.slots }
    requires seat { (w : Writing) × IsWriterSeat token.old board.now w × (w.pins.building ≡ Some buffer) × (length w.pins.written ≤ to) }
    ensures { WriterMoves (λ _ w u. WrittenAgain (to - length w.pins.written) w u) token.old token.new board.now }
{
    writer_steps::keep_words(&board.table.shared, &mut token.seat, buffer, base, to);
}

/// Publish: the buffer that was built is current from now on. Answers how many pins the old current one got.
pub(crate) fn swap_in(board: &Board, token: &mut Token, buffer: usize) -> u64
    requires buffer { buffer < BUFFERS }
    requires seat { (w : Writing) × IsWriterSeat token.old board.now w × (w.pins.building ≡ Some buffer) × (length w.pins.written ≡ board.now.slots) × (slice_index w.pins.written (board.now.slots - 1) ≡ length w.pins.publications % 18446744073709551616) × (w.current < BUFFERS) }
    ensures { WriterMoves (λ W w u. (n : ℕ) × (p : SeatPublished W buffer w n u) × (result ≡ p.count)) token.old token.new board.now }
{
    writer_steps::swap_in(&board.table.shared, &mut token.seat, buffer)
}

/// Joins the reader's seat with the writer's, and cuts it off again: both are Looks of the reader.
pub(crate) fn tell_at(board: &Board, writer: &mut Token, reader: Token) -> Token
    requires writer { (w : Writing) × IsWriterSeat writer.old board.now w }
    requires reader { (r : ℕ) × (x : Reading) × IsReaderSeat reader board.now r x × (x.pins.gone ≡ false) }
    ensures { (w : Writing) (r : ℕ) (x : Reading) → IsWriterSeat writer.old board.now w → IsReaderSeat reader board.now r x → IsWriterSeat writer.new board.now w × IsReaderSeat result board.now r (when_parted w r (when_joined w r x)) }
{
    let Token { seat } = reader;
    let seat = telling::tell_at(&board.table.shared, &mut writer.seat, seat);
    Token { seat }
}
