//! The images that are published for the readers, each with its place.
ghost use Rattle.std.specs.Prelude.{◌≡◌, ◌<◌, ◌+◌, ◌-◌, [], ◌∷◌, IfOk, OnErr, OnOk, ℕ, vec_capacity, vec_len};
ghost use Rattle.arrayvec.specs.ArrayVec.{ArrayVec};
ghost use Rattle.xcp_bank.specs.BankEnds.{newest};
ghost use Rattle.xcp_bank.specs.BankId.{image_bytes};
ghost use Rattle.xcp_slave.specs.AnswerInBytes.{answer_in};
ghost use Rattle.xcp_slave.specs.AskedRequest.{request_asked};
ghost use Rattle.xcp_memory.specs.EcuImage.{image_size};
ghost use Rattle.xcp_slave.specs.SlaveValue.{SlaveValue, layout_of};
ghost use Rattle.xcp_slave.specs.Step.{Answers};
ghost use Rattle.xcp_transfer.specs.Laws.{IsLawful};
ghost use Rattle.xcp_locked.specs.Publications.{image_of};
ghost use Rattle.xcp_locked.specs.private.OfferedImages.{Offers};

use std::alloc::{AllocError, Global};
use xcp_bank::Writer;
use xcp_controller::publish_changed;
use xcp_slave::{Asked, Slave, Told};

/// A bank's writer, the number of the publication that the open chapter begins with, and of each from
/// that one on the place: the number of calls that the chapter had then. The image published last is
/// stored, so that it needn't be read again.
#[derive(Drop)]
pub(crate) struct Publisher {
    pub(crate) writer: Writer,
    pub(crate) first: u64,
    pub(crate) places: Vec<u64>,
    pub(crate) last: Vec<u8>,
}

impl Publisher {
    /// A publisher whose writer has published this image alone, before any call. `places` is empty, and has room for one.
    pub(crate) fn new(places: Vec<u64>, writer: Writer, image: Vec<u8>) -> Publisher
        requires empty { places.items ≡ [] }
        requires room { vec_len places < vec_capacity places }
        ensures { (result.writer ≡ writer) × (result.places.items ≡ 0 ∷ [])
            × (result.last.items ≡ image.items) × (result.first ≡ 0) }
    {
        let mut places = places;
        places.push_reserved(0);
        Publisher {
            writer,
            first: 0,
            places,
            last: image,
        }
    }

    /// Makes room for the place of one more publication.
    pub(crate) fn reserve(&mut self) -> Result<(), AllocError>
        ensures ok { OnOk result (vec_len self.new.places < vec_capacity self.new.places) }
        ensures writer { self.new.writer ≡ self.old.writer }
        ensures places { self.new.places.items ≡ self.old.places.items }
        ensures last { self.new.last.items ≡ self.old.last.items }
        ensures first { self.new.first ≡ self.old.first }
    {
        self.places.reserve(1)
    }

    /// An empty list with as much room as that of the places has in all, and room for one at least.
    pub(crate) fn room_anew(&self, alloc: Global) -> Result<Vec<u64>, AllocError>
        ensures { IfOk result (λ v. (v.items ≡ []) × (vec_len v < vec_capacity v)) }
    {
        Vec::with_capacity(alloc, self.places.capacity().max(1))
    }

    /// Begins a chapter with the image published last. `places` is empty, and has room for one.
    pub(crate) fn turn(&mut self, places: Vec<u64>)
        requires some { 0 < vec_len self.old.places }
        requires bound { self.old.first + vec_len self.old.places < 18446744073709551616 }
        requires empty { places.items ≡ [] }
        requires room { vec_len places < vec_capacity places }
        ensures writer { self.new.writer ≡ self.old.writer }
        ensures first { self.new.first ≡ self.old.first + vec_len self.old.places - 1 }
        ensures places { self.new.places.items ≡ 0 ∷ [] }
        ensures last { self.new.last.items ≡ self.old.last.items }
    {
        let mut places = places;
        places.push_reserved(0);
        self.first += self.places.len() as u64 - 1;
        self.places = places;
    }

    /// Publishes the image of a slave that has executed a request and told this, if it isn't the one published last. There is room for
    /// its place.
    pub(crate) fn offer(&mut self, slave: &Slave, asked: Asked<'_>, told: &Told, place: u64)
        requires room { vec_len self.old.places < vec_capacity self.old.places }
        requires size { image_bytes self.old.writer.bank ≡ image_size (layout_of slave.now) }
        requires newest { newest self.old.writer ≡ self.old.last.items }
        requires step { (before : SlaveValue) × (packet : ArrayVec ℕ) × IsLawful before.transfer
            × Answers before (request_asked asked) (answer_in told.now packet) slave.now × (self.old.last.items ≡ image_of before) }
        ensures { Offers place (image_of slave.now) self.old self.new }
    {
        if publish_changed(&mut self.writer, &mut self.last, slave, asked, told) {
            self.places.push_reserved(place);
        }
    }
}
