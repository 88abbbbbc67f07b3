//! A reader of the bank.
ghost use Rattle.std.specs.Prelude.{◌≡◌, ◌↔◌, ℕ, ◌+◌, ◌-◌, ◌/◌, ◌%◌, ◌<◌, ◌≤◌, List, [], ◌∷◌, length, take, drop, Some, None, IsTrue};
ghost use Rattle.std.specs.Arc.{arc_value};
ghost use Rattle.xcp_bank.specs.PinHistory.{looked_at};
ghost use Rattle.xcp_bank.specs.SeatKnowledge.{starting};
ghost use Rattle.xcp_bank.specs.private.SeatSteps.{IsReaderSeat};
ghost use Rattle.xcp_bank.specs.BankId.{buffer_words, image_bytes};
ghost use Rattle.xcp_bank.specs.BankEnds.{AcquireDoes, FollowsTold, Holds, HoldsNumber, IsRun, KnowsMore, LeavesBy, ReadDoes, ReaderDoes, TellsTaken, image_held, reader_end, words_in};

use crate::acquiring::acquire_at;
use crate::left::Left;
use crate::reading::{read_at, read_number};
use crate::table::{Board, Token, image_size, unpin_for_good};
use crate::taken::Taken;
use crate::writer::Writer;
use std::marker::Model;
use std::sync::Arc;

/// One of the six readers of a bank: it holds one publication at most, which stays as it is while it is held.
///
/// It takes no memory, waits for nobody and is never refused. A dropped reader keeps its buffer held.
#[derive(Drop)]
pub struct Reader {
    board: Arc<Board>,
    // (There is one, but while `tell` joins it with the writer's.)
    seat: Option<Token>,
    held: Option<usize>,
}

impl Model for Reader {
    ghost use Rattle.std.specs.Arc.{arc_value};
    ghost use Rattle.xcp_bank.specs.BankEnds.{ReaderEnd};
    ghost use Rattle.xcp_bank.specs.EndFields.{shown_reader};
    ghost use Rattle.xcp_bank.specs.private.KeptEnds.{ReaderKept};

    ghost Value = { ReaderEnd };

    ghost view = { λ r. shown_reader (arc_value r.board) r.seat };

    ghost invariant = { λ r. ReaderKept (arc_value r.board) r.held r.seat };
}

impl Reader {
    /// The reader for which this seat stands. It holds nothing.
    pub(crate) fn new(board: Arc<Board>, seat: Token) -> Reader
        requires { (r : ℕ) × (words : List ℕ) × (length words ≡ (arc_value board).slots) × IsReaderSeat seat (arc_value board) r (starting words) }
        ensures { (r : ℕ) (words : List ℕ) → IsReaderSeat seat (arc_value board) r (starting words) → result ≡ reader_end (arc_value board) r (starting words) }
    {
        Reader {
            board,
            seat: Some(seat),
            held: None,
        }
    }

    /// Takes the current image, where the one held isn't current any more.
    ///
    /// One step where it is, or where nothing is held, else three.
    pub fn acquire(&mut self) -> Taken
        ensures same_reader { (self.new.bank ≡ self.old.bank) × (self.new.index ≡ self.old.index) }
        ensures holds_the_last { HoldsNumber self.new (length self.new.seen - 1) }
        ensures has_seen { 0 < length self.new.seen }
        ensures knows { KnowsMore self.old self.new }
        ensures tells { TellsTaken result self.old self.new }
        ensures looked { (b p : ℕ) → self.new.held ≡ Some (b, p) → b ≡ self.new.looked }
        ensures does { AcquireDoes result self.old self.new }
    {
        let Some(seat) = &mut self.seat else {
            unreachable!()
        };
        let (taken, buffer) = acquire_at(&self.board, seat, self.held);
        self.held = Some(buffer);
        taken
    }

    /// Whether it holds an image.
    pub fn holds(&self) -> bool
        ensures { IsTrue result ↔ Holds self.now }
    {
        self.held.is_some()
    }

    /// How many bytes each image of its bank has.
    pub fn size(&self) -> usize
        ensures { result ≡ image_bytes self.now.bank }
    {
        image_size(&self.board)
    }

    /// Reads the bytes of the held image from `at` on, as many as `out` has. What it holds and has seen stays.
    ///
    /// One step for each word of 8 bytes that they lie in; for no bytes one step where `at` is inside a word,
    /// and else none.
    pub fn read(&mut self, at: usize, out: &mut [u8])
        requires holds { Holds self.old }
        requires inside { at + length out.old ≤ image_bytes self.old.bank }
        ensures bytes { out.new ≡ take (length out.old) (drop at (image_held self.old)) }
        ensures same_reader { (self.new.bank ≡ self.old.bank) × (self.new.index ≡ self.old.index) }
        ensures same { (self.new.held ≡ self.old.held) × (self.new.seen ≡ self.old.seen) }
        ensures does { ReadDoes (at / 8) (words_in at (length out.old)) self.old self.new }
        ensures run { IsRun self.new }
        ensures follows { 0 < length out.old → FollowsTold self.old self.new }
    {
        let Some(seat) = &mut self.seat else {
            unreachable!()
        };
        let Some(buffer) = self.held else {
            unreachable!()
        };
        read_at(&self.board, seat, buffer, at, out);
    }

    /// The number of the held publication, from 0, modulo 2^64: one step.
    pub fn number(&mut self) -> u64
        requires { Holds self.old }
        ensures number { (b p : ℕ) → self.old.held ≡ Some (b, p) → result ≡ p % 18446744073709551616 }
        ensures same_reader { (self.new.bank ≡ self.old.bank) × (self.new.index ≡ self.old.index) }
        ensures same { (self.new.held ≡ self.old.held) × (self.new.seen ≡ self.old.seen) }
        ensures does { ReadDoes (buffer_words self.old.bank - 1) 1 self.old self.new }
        ensures run { IsRun self.new }
        ensures follows { FollowsTold self.old self.new }
        ensures known { (b p : ℕ) → self.old.held ≡ Some (b, p) → p < length self.new.seen }
    {
        let Some(seat) = &mut self.seat else {
            unreachable!()
        };
        let Some(buffer) = self.held else {
            unreachable!()
        };
        read_number(&self.board, seat, buffer)
    }

    /// Tells this reader all that was published: two steps, both Looks. What it holds stays.
    ///
    /// That this begins with what it had seen, and that its history begins with the writer's, is known to its
    /// next step.
    pub fn tell(&mut self, writer: &mut Writer)
        requires { self.old.bank ≡ writer.old.bank }
        ensures same_reader { (self.new.bank ≡ self.old.bank) × (self.new.index ≡ self.old.index) }
        ensures writer { writer.new ≡ writer.old }
        ensures seen { self.new.seen ≡ writer.old.publications }
        ensures past { self.new.past ≡ self.old.seen ∷ self.old.past }
        ensures held { self.new.held ≡ self.old.held }
        ensures looked { self.new.looked ≡ writer.old.current }
        ensures history { self.new.history ≡ self.old.history }
        ensures heard { self.new.heard ≡ writer.old.history }
        ensures does { ReaderDoes self.old self.new (looked_at self.old.index writer.old.current ∷ looked_at self.old.index writer.old.current ∷ []) }
    {
        let Some(seat) = self.seat.take() else {
            unreachable!()
        };
        self.seat = Some(writer.tell_seat(seat));
    }

    /// Gives back what it holds, for good, in one step: its buffer may be written again. Where nothing is held
    /// nothing happens.
    pub fn leave(self) -> Left
        ensures { LeavesBy self.held self result }
    {
        let Reader { board, seat, held } = self;
        let Some(mut seat) = seat else { unreachable!() };
        let Some(buffer) = held else {
            return Left::new(board, seat);
        };
        unpin_for_good(&board, &mut seat, buffer);
        Left::new(board, seat)
    }
}
