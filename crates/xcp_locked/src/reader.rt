//! A reader of a slave's images.
ghost use Rattle.std.specs.Prelude.{◌≡◌, ◌↔◌, ℕ, ◌+◌, ◌-◌, ◌/◌, ◌%◌, ◌<◌, ◌≤◌, [], length, take, drop, Some, IsTrue};
ghost use mathlib.Core.List.{IsPrefix};
ghost use Rattle.xcp_bank.specs.SeatKnowledge.{AllBegin};
ghost use Rattle.xcp_bank.specs.BankEnds.{AcquireDoes, FollowsTold, Holds, HoldsNumber, IsRun, KnowsMore, LeavesBy, ReadDoes, TellsTaken, image_held, words_in};
ghost use Rattle.xcp_bank.specs.BankId.{buffer_words, image_bytes};
ghost use Rattle.xcp_memory.specs.EcuImage.{image_size};
ghost use Rattle.xcp_locked.specs.private.OfferedImages.{IsOwnBank};

use crate::Name;
use std::marker::{Model, PhantomData};
use xcp_bank::{Left, Taken};

/// One of the six readers of an opening: a bank's reader, of the bank that the opening's name tells.
/// It holds one publication at most, and takes no lock: it may be used while the slave is locked.
#[derive(Drop)]
pub struct Reader<N: Name> {
    pub(crate) inner: xcp_bank::Reader,
    of: PhantomData<N>,
}

impl<N: Name> Model for Reader<N> {
    ghost use Rattle.xcp_bank.specs.BankEnds.{ReaderEnd};
    ghost use Rattle.xcp_memory.specs.EcuImage.{image_size};
    ghost use Rattle.xcp_locked.specs.private.OfferedImages.{IsOwnBank};

    ghost Value = { ReaderEnd };

    ghost view = { λ r. r.inner };

    ghost invariant = { λ r. IsOwnBank (image_size N.layout) N.bank r.inner.bank };
}

impl<N: Name> Reader<N> {
    /// A bank's reader, by its opening's name.
    pub(crate) fn new(inner: xcp_bank::Reader) -> Reader<N>
        requires { IsOwnBank (image_size N.layout) N.bank inner.bank }
        ensures { result ≡ inner }
    {
        Reader {
            inner,
            of: PhantomData,
        }
    }

    /// Takes the current image, where the one held isn't current any more. The number of what it
    /// holds never falls. It waits for nobody.
    pub fn acquire(&mut self) -> Taken
        ensures same_reader { (self.new.bank ≡ self.old.bank) × (self.new.index ≡ self.old.index) }
        ensures holds_the_last { HoldsNumber self.new (length self.new.seen - 1) }
        ensures has_seen { 0 < length self.new.seen }
        ensures rises { (p q : ℕ) → HoldsNumber self.old p → HoldsNumber self.new q → p ≤ q }
        ensures knows { KnowsMore self.old self.new }
        ensures tells { TellsTaken result self.old self.new }
        ensures looked { (b p : ℕ) → self.new.held ≡ Some (b, p) → b ≡ self.new.looked }
        ensures does { AcquireDoes result self.old self.new }
    {
        self.inner.acquire()
    }

    /// Whether it holds an image.
    pub fn holds(&self) -> bool
        ensures { IsTrue result ↔ Holds self.now }
    {
        self.inner.holds()
    }

    /// How many bytes an image has: 2,040, or in the large class as many as the layout says.
    pub fn size(&self) -> usize
        ensures value { result ≡ image_size N.layout }
        ensures bank { result ≡ image_bytes self.now.bank }
        ensures some { 0 < result }
    {
        self.inner.size()
    }

    /// Reads the bytes of the held image from `at` on, as many as `out` has. What it holds and has
    /// seen stays. `size` tells how many bytes an image has.
    pub fn read(&mut self, at: usize, out: &mut [u8])
        requires holds { Holds self.old }
        requires inside { at + length out.old ≤ image_size N.layout }
        ensures bytes { out.new ≡ take (length out.old) (drop at (image_held self.old)) }
        ensures same_reader { (self.new.bank ≡ self.old.bank) × (self.new.index ≡ self.old.index) }
        ensures same { (self.new.held ≡ self.old.held) × (self.new.seen ≡ self.old.seen) }
        ensures does { ReadDoes (at / 8) (words_in at (length out.old)) self.old self.new }
        ensures run { IsRun self.new }
        ensures follows { 0 < length out.old → FollowsTold self.old self.new }
        ensures whole { 0 < length out.old → length (image_held self.old) ≡ image_size N.layout }
        ensures some { 0 < image_size N.layout }
    {
        self.inner.read(at, out);
    }

    /// The number of the held publication, from 0, modulo 2^64.
    pub fn number(&mut self) -> u64
        requires { Holds self.old }
        ensures number { (b p : ℕ) → self.old.held ≡ Some (b, p) → result ≡ p % 18446744073709551616 }
        ensures same_reader { (self.new.bank ≡ self.old.bank) × (self.new.index ≡ self.old.index) }
        ensures same { (self.new.held ≡ self.old.held) × (self.new.seen ≡ self.old.seen) }
        ensures does { ReadDoes (buffer_words self.old.bank - 1) 1 self.old self.new }
        ensures run { IsRun self.new }
        ensures follows { FollowsTold self.old self.new }
        ensures known { (b p : ℕ) → self.old.held ≡ Some (b, p) → p < length self.new.seen }
    {
        self.inner.number()
    }

    /// Gives back what it holds, for good: its buffer may be written again. Where nothing is held
    /// nothing happens.
    pub fn leave(self) -> Left
        ensures { LeavesBy self.held self result }
    {
        self.inner.leave()
    }
}
