//! What readers are told under the lock.
ghost use Rattle.std.specs.Prelude.{◌≡◌, ◌↔◌, [], ◌∷◌, ◌≢◌, IfErr, IfOk, IfSome, Ok, Err, None};
ghost use Rattle.xcp_bank.specs.BankEnds.{ReaderDoes, ReaderEnd};
ghost use Rattle.xcp_bank.specs.PinHistory.{looked_at};
ghost use Rattle.xcp_bank.specs.SeatKnowledge.{AllBegin};
ghost use Rattle.xcp_locked.specs.Journal.{exchanges};
ghost use Rattle.xcp_locked.specs.PublishingCalls.{AreImagesFrom};
ghost use Rattle.xcp_locked.specs.SettledReader.{HoldsEarlier, IsSettledAt, WasTold};

use crate::{Locked, LockedError, Name, Reader};

/// Which publication a reader holds: its number, from 0, the open chapter, and its place there: the
/// number of calls that the chapter had when it was published, 0 for the chapter's first.
#[derive(Clone, Copy, Debug, PartialEq, Eq)]
pub struct HeldPublication {
    pub number: u64,
    pub chapter: u64,
    pub from: u64,
}

impl<N: Name> Locked<N> {
    /// Tells a reader all that was published, so that what it acquires next isn't older. What it
    /// holds stays.
    pub fn tell(&mut self, reader: &mut Reader<N>)
        ensures seen { reader.new.seen ≡ self.old.writer.publications }
        ensures published { AreImagesFrom self.old.first self.old.base (exchanges self.old.journal) reader.new.seen }
        ensures past { reader.new.past ≡ reader.old.seen ∷ reader.old.past }
        ensures history { reader.new.history ≡ reader.old.history }
        ensures held { reader.new.held ≡ reader.old.held }
        ensures does { ReaderDoes reader.old reader.new (looked_at reader.old.index self.old.writer.current
            ∷ looked_at reader.old.index self.old.writer.current ∷ []) }
        ensures same { self.new ≡ self.old }
        ensures same_reader { (reader.new.bank ≡ reader.old.bank)
            × (reader.new.index ≡ reader.old.index) }
    {
        let writer = &mut self.publisher.writer;
        reader.inner.tell(writer);
    }

    /// Which publication the reader holds, if it holds one; `Earlier` where that is older than the open
    /// chapter's first image. It is told all that was published, and what it holds stays: what it had seen is the beginning of what was published, so the image is
    /// the one that it held (`a_settled_image_is_the_one_held`).
    pub fn settle_reader(
        &mut self,
        reader: &mut Reader<N>,
    ) -> Result<Option<HeldPublication>, LockedError>
        ensures none { result ≡ Ok None ↔ (reader.old.held ≡ None) }
        ensures earlier { result ≡ Err LockedError.Earlier ↔ HoldsEarlier self.old.first reader.old }
        ensures settled { IfOk result (λ o. IfSome o (λ s. IsSettledAt self.old.base
            (exchanges self.old.journal) self.old.first reader.new s)) }
        ensures chapter { IfOk result (λ o. IfSome o (λ s. s.chapter ≡ self.old.chapter)) }
        ensures refused { IfErr result (λ e. e ≡ LockedError.Earlier) }
        ensures told { WasTold self.old.writer.publications reader.old reader.new }
        ensures begins { reader.old.held ≢ None →
            AllBegin (reader.old.seen ∷ reader.old.past) reader.new.seen }
        ensures same { self.new ≡ self.old }
    {
        reader.inner.tell(&mut self.publisher.writer);
        if !reader.inner.holds() {
            return Ok(None);
        }
        let number = reader.inner.number();
        if number < self.publisher.first {
            return Err(LockedError::Earlier);
        }
        let from = self.publisher.places[(number - self.publisher.first) as usize];
        Ok(Some(HeldPublication {
            number,
            chapter: self.chapter,
            from,
        }))
    }
}
