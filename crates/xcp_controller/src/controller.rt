//! A slave, and the bank in which its images are published.
ghost use Rattle.std.specs.Prelude.{◌≡◌, ◌%◌, ◌<◌, ◌≤◌, [], ◌∷◌, ◌++◌, IfOk, IfSome, None, length};
ghost use Rattle.xcp_bank.specs.BankId.{image_bytes};
ghost use Rattle.xcp_bank.specs.BankEnds.{new_writer, six_readers, HeldDoes};
ghost use Rattle.xcp_memory.specs.EcuImage.{image_size};
ghost use Rattle.xcp_slave.specs.AnswerInBytes.{answer_in};
ghost use Rattle.xcp_slave.specs.AskedRequest.{IsShort, request_asked};
ghost use Rattle.xcp_slave.specs.SlaveValue.{layout_of, opening};
ghost use Rattle.xcp_slave.specs.Step.{Answers};
ghost use Rattle.xcp_controller.specs.ControllerValue.{IsPublished, Publishes, image_of};

use crate::publishing::publish_changed;
use crate::readers::boxed_bank;
use std::alloc::{AllocError, Global};
use std::marker::Model;
use xcp_bank::{MAX_IMAGE_BYTES, Reader, Writer};
use xcp_memory::Layout;
use xcp_packet::Packet;
use xcp_slave::{Asked, Slave, Told};

/// A slave and its bank's writer. The image published last is that of the slave.
///
/// All the memory that it and its readers ever take is taken when it is opened.
#[derive(Drop)]
pub struct Controller {
    // In a box, as the image is, so that a controller is moved in few bytes while it is opened.
    slave: Box<Slave>,
    writer: Writer,
    // The image published last, so that it needn't be read again.
    last: Vec<u8>,
    spare: Vec<Box<Reader>>,
    // The packet that is lent to the slave. It stays here, since a new one would be cleared for each request.
    lent: Packet,
}

impl Model for Controller {
    ghost use Rattle.std.specs.List.{AllByRecursion};
    ghost use Rattle.std.specs.Prelude.{◌≡◌, map};
    ghost use Rattle.xcp_bank.specs.BankEnds.{newest};
    ghost use Rattle.xcp_bank.specs.BankId.{image_bytes};
    ghost use Rattle.xcp_memory.specs.EcuImage.{image_size};
    ghost use Rattle.xcp_slave.specs.SlaveValue.{layout_of};
    ghost use Rattle.xcp_controller.specs.ControllerValue.{ControllerValue, IsPublished, ReadsImages, image_of};

    ghost Value = { ControllerValue };

    ghost view = { λ c. record { slave = c.slave.value; writer = c.writer; spare = map (λ b. b.value) c.spare.items; lent = c.lent } };

    ghost invariant = { λ c. (c.last.items ≡ image_of c.slave.value) × (newest c.writer ≡ c.last.items) × IsPublished c.slave.value c.writer × (image_bytes c.writer.bank ≡ image_size (layout_of c.slave.value)) × AllByRecursion (ReadsImages (image_size (layout_of c.slave.value))) (map (λ b. b.value) c.spare.items) };
}

impl Controller {
    /// A slave with this layout at its opening, whose image is published, with six readers to
    /// be taken, which hold nothing.
    pub fn open(alloc: Global, layout: Layout) -> Result<Controller, AllocError>
        ensures slave { IfOk result (λ c. c.slave ≡ opening layout) }
        ensures size { IfOk result (λ c. image_bytes c.writer.bank ≡ image_size layout) }
        ensures writer { IfOk result (λ c. c.writer
            ≡ new_writer c.writer.bank (image_of (opening layout))) }
        ensures spare { IfOk result (λ c. c.spare
            ≡ six_readers c.writer.bank (image_of (opening layout))) }
    {
        let slave = boxed_slave(alloc, layout)?;
        let last = image_in(alloc, &slave)?;
        let (writer, spare) = boxed_bank(alloc, &last)?;
        Ok(Controller {
            slave,
            writer,
            last,
            spare,
            lent: Packet::new(),
        })
    }

    /// Takes one of the readers that nobody has taken yet, the last one first. There is none once six
    /// were taken. It reads images of the slave's size.
    pub fn take_reader(&mut self) -> Option<Box<Reader>>
        ensures some { IfSome result (λ r. self.old.spare ≡ self.new.spare ++ r.value ∷ []) }
        ensures size { IfSome result (λ r. image_bytes r.value.bank ≡ image_size (layout_of self.old.slave)) }
        ensures none { result ≡ None → (self.old.spare ≡ []) × (self.new.spare ≡ []) }
        ensures same { (self.new.slave ≡ self.old.slave) × (self.new.writer ≡ self.old.writer) × (self.new.lent ≡ self.old.lent) }
    {
        self.spare.pop()
    }

    /// Executes one request whose bytes are lent, and publishes the image that the slave has then, if it is
    /// another one. It takes no memory and always answers. What is told of a packet is told of that of `packet`, as
    /// `Slave::answer` tells it.
    pub fn answer(&mut self, asked: Asked<'_>) -> Told
        requires { IsShort asked }
        ensures answers { Answers self.old.slave (request_asked asked.entry) (answer_in result self.new.lent) self.new.slave }
        ensures published { Publishes self.old self.new }
        ensures spare { self.new.spare ≡ self.old.spare }
    {
        let Controller {
            slave,
            writer,
            last,
            lent,
            ..
        } = self;
        slave.known();
        let told = slave.answer(asked, lent);
        let _ = publish_changed(writer, last, slave, asked, &told);
        told
    }

    /// The packet of the last answer, or the data bytes of its block; behind any other answer it may have any bytes.
    pub fn packet(&self) -> &Packet
        ensures { result.now ≡ self.now.lent }
    {
        &self.lent
    }

    /// The slave, which requests alone change.
    pub fn slave(&self) -> &Slave
        ensures { result.now ≡ self.now.slave }
    {
        &self.slave
    }

    /// MAX_CTO: the greatest length of a command or of a packet that answers one, 8 to 255 bytes.
    pub fn max_cto(&self) -> u8
        ensures { result ≡ (layout_of self.now.slave).max_cto }
    {
        self.slave.max_cto()
    }

    /// How many packets wait to be sent, at most as many as the layout's class has.
    pub fn pending(&self) -> u16
        ensures { result ≡ length self.now.slave.outbox }
    {
        self.slave.pending()
    }

    /// How many buffers of the bank, beside the current one, readers still hold, 0 to 6: those of
    /// readers too that were dropped while they held one.
    pub fn held(&mut self) -> u8
        ensures most { result ≤ 6 }
        ensures does { HeldDoes result self.old.writer self.new.writer }
        ensures bank { self.new.writer.bank ≡ self.old.writer.bank }
        ensures publications { self.new.writer.publications ≡ self.old.writer.publications }
        ensures same { (self.new.slave ≡ self.old.slave) × (self.new.spare ≡ self.old.spare) × (self.new.lent ≡ self.old.lent) }
    {
        self.writer.held()
    }

    /// Tells a caller's proof that the image published last is that of the slave. It does nothing.
    pub fn known(&self)
        ensures { IsPublished self.now.slave self.now.writer }
    {
        let _ = &self.slave;
    }
}

/// A slave with this layout at its opening, in a box.
#[inline(never)]
fn boxed_slave(alloc: Global, layout: Layout) -> Result<Box<Slave>, AllocError>
    ensures { IfOk result (λ slave. slave.value ≡ opening layout) }
{
    let slave = Slave::new(alloc, layout)?;
    Ok(Box::new(alloc, slave)?)
}

/// The image of a slave, in memory of its own.
#[inline(never)]
fn image_in(alloc: Global, slave: &Slave) -> Result<Vec<u8>, AllocError>
    ensures value { IfOk result (λ image. image.items ≡ image_of slave.now) }
    ensures size { IfOk result (λ image. length image.items ≡ image_size (layout_of slave.now)) }
    ensures words { IfOk result (λ image. length image.items % 8 ≡ 0) }
    ensures least { IfOk result (λ image. 0 < length image.items) }
    ensures most { IfOk result (λ image. length image.items ≤ MAX_IMAGE_BYTES) }
{
    let mut image = vec![in alloc; 0; slave.layout().image_size()]?;
    slave.image(&mut image);
    Ok(image)
}
