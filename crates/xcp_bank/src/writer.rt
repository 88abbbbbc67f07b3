//! The writer of the bank.
ghost use Rattle.std.specs.Prelude.{◌≡◌, ◌⊎◌, ℕ, ◌+◌, ◌-◌, ◌*◌, ◌%◌, ◌<◌, ◌≤◌, List, [], ◌∷◌, ◌++◌, length, slice_index, slice_index_or, false, true};
ghost use Rattle.xcp_bank.specs.SeatKnowledge.{Reading, Writing, beginning};
ghost use Rattle.std.specs.Arc.{arc_value};
ghost use Rattle.xcp_bank.specs.private.SeatSplits.{when_joined, when_parted};
ghost use Rattle.xcp_bank.specs.private.SeatSteps.{IsReaderSeat, IsWriterSeat};
ghost use Rattle.xcp_bank.specs.BankId.{image_bytes};
ghost use Rattle.xcp_bank.specs.Images.{image_in_words};
ghost use Rattle.xcp_bank.specs.BankEnds.{writer_end, newest, HeldDoes, PublishDoes};
ghost use Rattle.xcp_bank.specs.private.BlockMarks.{blocks_in};

use crate::holding::count_held;
use crate::marks::Marks;
use crate::publishing::publish_at;
use crate::table::{Board, Token, image_size, tell_at};
use pin_core::BUFFERS;
use std::marker::Model;
use std::sync::Arc;

/// The writer of a bank: what it publishes, readers take from then on.
///
/// It takes no memory, waits for nobody and is never refused.
#[derive(Drop)]
pub struct Writer {
    board: Arc<Board>,
    seat: Token,
    current: usize,
    started: [u64; BUFFERS],
    count: u64,
    marks: Marks,
}

impl Model for Writer {
    ghost use Rattle.std.specs.Arc.{arc_value};
    ghost use Rattle.xcp_bank.specs.BankEnds.{WriterEnd};
    ghost use Rattle.xcp_bank.specs.EndFields.{shown_writer};
    ghost use Rattle.xcp_bank.specs.private.KeptEnds.{WriterKept};

    ghost Value = { WriterEnd };

    ghost view = { λ w. shown_writer (arc_value w.board) w.seat };

    ghost invariant = { λ w. WriterKept (arc_value w.board) w.current w.started w.count w.marks w.seat };
}

impl Writer {
    /// The writer for which this seat stands. It has made no step.
    pub(crate) fn new(board: Arc<Board>, seat: Token, marks: Marks) -> Writer
        requires marks { (i : ℕ) → i < length marks → slice_index_or marks i false ≡ true }
        requires size { length marks ≡ 8 * blocks_in ((arc_value board).slots - 1) }
        requires seat { (words : List ℕ) × (length words ≡ (arc_value board).slots) × IsWriterSeat seat (arc_value board) (beginning words) }
        ensures { (words : List ℕ) → IsWriterSeat seat (arc_value board) (beginning words) → result ≡ writer_end (arc_value board) (beginning words) }
    {
        Writer {
            board,
            seat,
            current: 0,
            started: [0; BUFFERS],
            count: 1,
            marks,
        }
    }

    /// Publishes an image: readers that acquire from now on take it. It has as many bytes as `size` tells.
    ///
    /// One pass over its words: a load of the word that stands in the buffer; where it differs two steps more, of
    /// which one stores the word. Beside them at most eleven steps, however many readers there are.
    pub fn publish(&mut self, image: &[u8])
        requires { length image.now ≡ image_bytes self.old.bank }
        ensures same_bank { self.new.bank ≡ self.old.bank }
        ensures appended { self.new.publications ≡ self.old.publications ++ image.now ∷ [] }
        ensures does { (words : List ℕ) × (image_in_words words ≡ image.now) × PublishDoes words self.old self.new }
    {
        self.publish_within(image, 0, image.len());
    }

    /// Publishes an image whose bytes outside of `from..to` are as in the image that was published last: readers
    /// that acquire from now on take it. It has as many bytes as `size` tells, and `to` is at most as many.
    ///
    /// It does what `publish` does, and costs what has changed. The words of an image are blocks of 64, which are 512
    /// bytes. Looked at, word by word as by `publish`, are only the blocks in which `from..to` lies, and those that
    /// changed since the buffer was filled that is taken now. Of each other block one mark is looked at, the writer's own.
    pub fn publish_within(&mut self, image: &[u8], from: usize, to: usize)
        requires size { length image.now ≡ image_bytes self.old.bank }
        requires range { to ≤ image_bytes self.old.bank }
        requires outside { (i : ℕ) → i < length image.now → (i < from) ⊎ (to ≤ i) → slice_index image.now i ≡ slice_index (newest self.old) i }
        ensures same_bank { self.new.bank ≡ self.old.bank }
        ensures appended { self.new.publications ≡ self.old.publications ++ image.now ∷ [] }
        ensures does { (words : List ℕ) × (image_in_words words ≡ image.now) × PublishDoes words self.old self.new }
    {
        self.marks.mark(from, to);
        publish_at(
            &self.board,
            &mut self.seat,
            &mut self.current,
            &mut self.started,
            &mut self.marks,
            image,
            self.count,
        );
        self.count = self.count.wrapping_add(1);
    }

    /// How many of the seven buffers that aren't current readers still hold, those included that were
    /// dropped while they held one: at most six.
    ///
    /// One look at each of the seven, whatever the readers do meanwhile.
    pub fn held(&mut self) -> u8
        ensures most { result ≤ 6 }
        ensures same_bank { self.new.bank ≡ self.old.bank }
        ensures same_publications { self.new.publications ≡ self.old.publications }
        ensures does { HeldDoes result self.old self.new }
    {
        count_held(&self.board, &mut self.seat, self.current, &self.started)
    }

    /// How many images were published, modulo 2^64, with the one that the bank began with.
    pub fn count(&self) -> u64
        ensures { result ≡ length self.now.publications % 18446744073709551616 }
    {
        self.count
    }

    /// How many bytes each image of this bank has.
    pub fn size(&self) -> usize
        ensures { result ≡ image_bytes self.now.bank }
    {
        image_size(&self.board)
    }

    /// Tells the reader for which this seat stands all that was published. Nothing changes for the writer.
    pub(crate) fn tell_seat(&mut self, reader: Token) -> Token
        requires { (r : ℕ) × (x : Reading) × IsReaderSeat reader self.old.bank.table r x × (x.pins.gone ≡ false) }
        ensures same { self.new ≡ self.old }
        ensures told { (w : Writing) × (writer_end self.old.bank.table w ≡ self.old) × ((r : ℕ) (x : Reading) → IsReaderSeat reader self.old.bank.table r x → IsReaderSeat result self.old.bank.table r (when_parted w r (when_joined w r x))) }
    {
        tell_at(&self.board, &mut self.seat, reader)
    }
}
