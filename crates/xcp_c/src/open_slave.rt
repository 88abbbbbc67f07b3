//! A slave that a C program opened, and room for the file of its stored pages.
ghost use Rattle.std.specs.Prelude.{◌≡◌, ◌<◌, ◌≤◌, [], ◌∷◌, ◌++◌, IfOk, IfSome, IsTrue, None, drop, false, length, map, vec_capacity, vec_len};
ghost use Rattle.xcp_bank.specs.BankId.{image_bytes};
ghost use Rattle.xcp_memory.specs.EcuImage.{image_size};
ghost use Rattle.xcp_bank.specs.BankEnds.{new_writer, six_readers, HeldDoes};
ghost use Rattle.xcp_controller.specs.ControllerValue.{Publishes, image_of};
ghost use Rattle.xcp_flash.specs.FlashFile.{file_of, file_size};
ghost use Rattle.xcp_flash.specs.References.{AreReferences, kept_pages};
ghost use Rattle.xcp_slave.specs.AnswerInBytes.{answer_in};
ghost use Rattle.xcp_slave.specs.AskedRequest.{IsShort, request_asked};
ghost use Rattle.xcp_slave.specs.SlaveValue.{layout_of, opening};
ghost use Rattle.xcp_slave.specs.Step.{Answers};
ghost use Rattle.xcp_c.specs.OpenValue.{OpenValue};
ghost use Rattle.xcp_c.specs.StoredPages.{IsWritten, LacksRoom, most_stored};

use std::alloc::{AllocError, Global};
use std::marker::Model;
use xcp_bank::Reader;
use xcp_controller::Controller;
use xcp_flash::References;
use xcp_memory::Layout;
use xcp_packet::Packet;
use xcp_slave::{Asked, Slave, Told};

/// A slave, the SHA-256 of the text by which it was opened, and room for the file of its stored pages, so that writing
/// that file out takes no memory.
#[derive(Drop)]
pub struct OpenSlave {
    controller: Controller,
    digest: [u8; 32],
    pages: References,
    file: Vec<u8>,
}

impl Model for OpenSlave {
    ghost use Rattle.std.specs.Prelude.{◌≤◌, length, map, vec_capacity};
    ghost use Rattle.xcp_flash.specs.FlashFile.{file_size};
    ghost use Rattle.xcp_flash.specs.References.{AreReferences};
    ghost use Rattle.xcp_slave.specs.SlaveValue.{layout_of};
    ghost use Rattle.xcp_c.specs.OpenValue.{OpenValue};

    ghost Value = { OpenValue };

    ghost view = { λ o. record { controller = o.controller; digest = o.digest } };

    ghost invariant = { λ o. AreReferences o.pages (layout_of o.controller.slave) × (file_size (map (λ page. length page) o.pages) ≤ vec_capacity o.file) };
}

impl OpenSlave {
    /// A slave with this layout at its opening, by a text that has this SHA-256.
    pub(crate) fn new(
        alloc: Global,
        layout: Layout,
        digest: [u8; 32],
    ) -> Result<OpenSlave, AllocError>
        ensures slave { IfOk result (λ o. o.controller.slave ≡ opening layout) }
        ensures size { IfOk result (λ o. image_bytes o.controller.writer.bank ≡ image_size layout) }
        ensures writer { IfOk result (λ o. o.controller.writer
            ≡ new_writer o.controller.writer.bank (image_of (opening layout))) }
        ensures spare { IfOk result (λ o. o.controller.spare
            ≡ six_readers o.controller.writer.bank (image_of (opening layout))) }
        ensures digest { IfOk result (λ o. o.digest ≡ digest) }
    {
        let pages = References::of(alloc, &layout)?;
        let mut file = Vec::new(alloc);
        pages.file(&digest, &mut file)?;
        let controller = Controller::open(alloc, layout)?;
        Ok(OpenSlave {
            controller,
            digest,
            pages,
            file,
        })
    }

    /// Executes one request, as the controller does.
    pub(crate) fn answer(&mut self, asked: Asked<'_>) -> Told
        requires { IsShort asked }
        ensures answers { Answers self.old.controller.slave (request_asked asked.entry) (answer_in result self.new.controller.lent) self.new.controller.slave }
        ensures published { Publishes self.old.controller self.new.controller }
        ensures spare { self.new.controller.spare ≡ self.old.controller.spare }
        ensures digest { self.new.digest ≡ self.old.digest }
    {
        self.controller.answer(asked)
    }

    /// The packet of the last answer.
    pub(crate) fn packet(&self) -> &Packet
        ensures { result.now ≡ self.now.controller.lent }
    {
        self.controller.packet()
    }

    /// MAX_CTO.
    pub(crate) fn max_cto(&self) -> u8
        ensures { result ≡ (layout_of self.now.controller.slave).max_cto }
    {
        self.controller.max_cto()
    }

    /// How many bytes an image has.
    pub(crate) fn image_bytes(&self) -> usize
        ensures { result ≡ image_size (layout_of self.now.controller.slave) }
    {
        self.controller.slave().layout().image_size()
    }

    /// How many packets wait to be sent.
    pub(crate) fn pending(&self) -> u16
        ensures { result ≡ length self.now.controller.slave.outbox }
    {
        self.controller.pending()
    }

    /// How many buffers, beside the current one, readers hold.
    pub(crate) fn held(&mut self) -> u8
        ensures does { HeldDoes result self.old.controller.writer self.new.controller.writer }
        ensures same { (self.new.controller.slave ≡ self.old.controller.slave) × (self.new.controller.spare ≡ self.old.controller.spare) × (self.new.digest ≡ self.old.digest) }
    {
        self.controller.held()
    }

    /// Takes one of the readers that nobody has taken yet.
    pub(crate) fn take_reader(&mut self) -> Option<Box<Reader>>
        ensures some { IfSome result (λ r. self.old.controller.spare ≡ self.new.controller.spare ++ r.value ∷ []) }
        ensures size { IfSome result (λ r. image_bytes r.value.bank ≡ image_size (layout_of self.old.controller.slave)) }
        ensures none { result ≡ None → (self.old.controller.spare ≡ []) × (self.new ≡ self.old) }
        ensures same { (self.new.controller.slave ≡ self.old.controller.slave) × (self.new.controller.writer ≡ self.old.controller.writer) × (self.new.digest ≡ self.old.digest) }
    {
        self.controller.take_reader()
    }

    /// Writes the file of the pages that are kept to the front of the room, and tells how many bytes it has. False
    /// where the room has fewer: then nothing is written.
    pub(crate) fn write_file(&mut self, room: &mut [u8], used: &mut usize) -> bool
        ensures written { IsTrue result → IsWritten self.old room.old room.new used.new }
        ensures short { result ≡ false → LacksRoom self.old room.old room.new used.new }
        ensures same { self.new ≡ self.old }
    {
        let OpenSlave {
            controller,
            digest,
            pages,
            file,
        } = self;
        spell(controller.slave(), digest, pages, file);
        *used = file.len();
        lay(file, room)
    }
}

/// Spells the file of the pages that are kept of a slave, for which the bytes have room.
#[tactic(auto, using(crate::proofs::OpenSlaveLemmas::same_room, crate::proofs::OpenSlaveLemmas::most_bytes))]
fn spell(slave: &Slave, digest: &[u8; 32], pages: &mut References, file: &mut Vec<u8>)
    requires sized { AreReferences pages.old (layout_of slave.now) }
    requires room { file_size (map (λ page. length page) pages.old) ≤ vec_capacity file.old }
    ensures file { file.new.items ≡ file_of digest.now (kept_pages slave.now) }
    ensures most { vec_len file.new ≤ most_stored (layout_of slave.now).class }
    ensures sized { AreReferences pages.new (layout_of slave.now) }
    ensures room { file_size (map (λ page. length page) pages.new) ≤ vec_capacity file.new }
{
    slave.known();
    pages.update(slave);
    let Ok(()) = pages.file(digest, file) else {
        unreachable!()
    };
}

/// Writes bytes to the front of the room. False where it has fewer: then nothing is written.
fn lay(bytes: &[u8], room: &mut [u8]) -> bool
    ensures written { IsTrue result → (length bytes.now ≤ length room.old)
        × (room.new ≡ bytes.now ++ drop (length bytes.now) room.old) }
    ensures short { result ≡ false → (length room.old < length bytes.now) × (room.new ≡ room.old) }
{
    if room.len() < bytes.len() {
        return false;
    }
    room[..bytes.len()].copy_from_slice(bytes);
    true
}
