//! How a bank begins.
ghost use Rattle.std.specs.Prelude.{◌≡◌, ℕ, suc, ◌%◌, ◌<◌, ◌≤◌, List, length, IfOk};
ghost use Rattle.std.specs.Arc.{arc_value};
ghost use Rattle.xcp_bank.specs.SeatKnowledge.{starting};
ghost use Rattle.xcp_bank.specs.Images.{image_in_words};
ghost use Rattle.xcp_bank.specs.private.SeatSteps.{IsFirstSeat};
ghost use Rattle.xcp_bank.specs.BankId.{bank_of, image_bytes};
ghost use Rattle.xcp_bank.specs.BankEnds.{reader_end, six_readers, new_writer};

use crate::MAX_IMAGE_BYTES;
use crate::marks::Marks;
use crate::reader::Reader;
use crate::table::{Board, Token, cut, open};
use crate::words::{table_words, words_of};
use crate::writer::Writer;
use pin_core::READERS;
use std::alloc::{AllocError, Global};
use std::sync::Arc;

/// A bank of images.
pub struct Bank;

impl Bank {
    /// The writer and the six readers of a new bank, in which this image is published already: a whole
    /// number of words of 8 bytes, up to 1 MiB. Each image of this bank has as many bytes.
    ///
    /// All memory that a bank ever takes is taken here: eight times the image's, a byte for each 64 words of
    /// that, and as much as the words again for what it begins with, which is given back.
    pub fn new(alloc: Global, image: &[u8]) -> Result<(Writer, [Reader; READERS]), AllocError>
        requires some_bytes { 0 < length image.now }
        requires whole_words { length image.now % 8 ≡ 0 }
        requires few_bytes { length image.now ≤ MAX_IMAGE_BYTES }
        ensures size { IfOk result (λ ends. image_bytes ends.0.bank ≡ length image.now) }
        ensures writer { IfOk result (λ ends. ends.0 ≡ new_writer ends.0.bank image.now) }
        ensures readers { IfOk result (λ ends. ends.1 ≡ six_readers ends.0.bank image.now) }
    {
        let words = words_of(alloc, image, 0)?;
        let table = table_words(alloc, &words)?;
        let marks = Marks::new(alloc, image.len() / 8)?;
        let (board, mut seat) = open(alloc, &words, &table)?;
        let readers = six(&board, &mut seat)?;
        Ok((Writer::new(board, seat, marks), readers))
    }
}

// Cuts the six readers' seats off the first one.
fn six(board: &Arc<Board>, seat: &mut Token) -> Result<[Reader; READERS], AllocError>
    requires { (words : List ℕ) × IsFirstSeat seat.old (arc_value board.now) 6 words }
    ensures { IfOk result (λ readers. (words : List ℕ) → IsFirstSeat seat.old (arc_value board.now) 6 words → IsFirstSeat seat.new (arc_value board.now) 0 words × (readers ≡ six_readers (bank_of (arc_value board.now)) (image_in_words words))) }
{
    let (three, four, five) = last_three(board, seat)?;
    let (zero, one, two) = last_three(board, seat)?;
    Ok([zero, one, two, three, four, five])
}

// Cuts the last three readers' seats off the first one.
fn last_three(board: &Arc<Board>, seat: &mut Token) -> Result<(Reader, Reader, Reader), AllocError>
    requires { (n : ℕ) × (words : List ℕ) × IsFirstSeat seat.old (arc_value board.now) (suc (suc (suc n))) words }
    ensures { IfOk result (λ readers. (n : ℕ) (words : List ℕ) → IsFirstSeat seat.old (arc_value board.now) (suc (suc (suc n))) words → IsFirstSeat seat.new (arc_value board.now) n words × (readers.0 ≡ reader_end (arc_value board.now) n (starting words)) × (readers.1 ≡ reader_end (arc_value board.now) (suc n) (starting words)) × (readers.2 ≡ reader_end (arc_value board.now) (suc (suc n)) (starting words))) }
{
    let last = next_reader(board, seat)?;
    let middle = next_reader(board, seat)?;
    let first = next_reader(board, seat)?;
    Ok((first, middle, last))
}

// Cuts the last reader's seat off the first one.
fn next_reader(board: &Arc<Board>, seat: &mut Token) -> Result<Reader, AllocError>
    requires { (n : ℕ) × (words : List ℕ) × IsFirstSeat seat.old (arc_value board.now) (suc n) words }
    ensures { IfOk result (λ reader. (n : ℕ) (words : List ℕ) → IsFirstSeat seat.old (arc_value board.now) (suc n) words → IsFirstSeat seat.new (arc_value board.now) n words × (reader ≡ reader_end (arc_value board.now) n (starting words))) }
{
    let shared = Arc::try_clone(board)?;
    let own = cut(board, seat);
    Ok(Reader::new(shared, own))
}
