//! The commands by which a tool reads: UPLOAD, SHORT_UPLOAD, BUILD_CHECKSUM, GET_ID.
ghost use Rattle.std.specs.Prelude.{◌≡◌, IfSome};
ghost use Rattle.xcp_packet.specs.Rows.{Tells};
ghost use Rattle.xcp_transfer.specs.Uploads.{upload_row, short_upload_row, build_checksum_row, get_id_row, with_bytes, text_of_kind};
ghost use Rattle.xcp_transfer.specs.TransferValue.{response_room, without_block, IsText};

use super::Transfer;
use crate::access::{checksum, read, read_block, text};
use crate::{Mta, TextId};
use xcp_memory::Layout;
use xcp_packet::{Code, CommandError, Packet, Reply, Sent, Width, write_reply};

/// A text that has bytes.
fn with_bytes(layout: &Layout, id: TextId) -> Option<TextId>
    requires { IsText layout.now id }
    ensures { result ≡ with_bytes layout.now id }
{
    if text(layout, id).is_empty() {
        None
    } else {
        Some(id)
    }
}

/// The text that a kind of GET_ID asks for, where there is one.
fn text_of_kind(layout: &Layout, kind: u8) -> Option<TextId>
    ensures value { result ≡ text_of_kind layout.now kind }
    ensures text { IfSome result (λ id. IsText layout.now id) }
{
    match kind {
        0 => Some(TextId::Id),
        1 => with_bytes(layout, TextId::A2lName),
        4 => with_bytes(layout, TextId::A2lFile),
        5 => with_bytes(layout, TextId::Epk),
        _ => None,
    }
}

impl Transfer {
    /// UPLOAD: reads n bytes from the MTA on, and moves it on by n. More than MAX_CTO - 1 bytes are
    /// told in several packets.
    ///
    /// `OutOfRange` for n 0, then `AccessDenied`: nowhere, where the bytes don't lie in one area,
    /// and past a text's end.
    /// ASAM MCD-1 XCP, protocol layer, description of commands: UPLOAD; slave block transfer mode.
    #[tactic(auto, using(xcp_packet::specs::BlockPacketLemmas::block_of_one))]
    pub fn upload(&mut self, n: u8, packet: &mut Packet) -> Result<Sent, CommandError>
        ensures { Tells self.old.pages.layout.order (response_room self.old.pages.layout) (upload_row n self.old) (without_block self.old) result packet.new.items self.new }
    {
        self.give_up_block();
        if n == 0 {
            return Err(CommandError::Code(Code::OutOfRange));
        }
        let room = self.pages.layout().max_cto() - 1;
        if n <= room {
            self.mta = read(&self.pages, self.mta, n, packet)?;
            return Ok(Sent::Lent);
        }
        self.mta = read_block(&self.pages, self.mta, n, packet)?;
        Ok(Sent::Block(Width::new(room)))
    }

    /// SHORT_UPLOAD: reads n bytes, 1 to MAX_CTO - 1, at an address, and leaves the MTA behind
    /// them.
    ///
    /// `OutOfRange` for n, then for an address extension that isn't 0; then `AccessDenied`.
    /// ASAM MCD-1 XCP, protocol layer, description of commands: SHORT_UPLOAD.
    #[tactic(auto, using(xcp_packet::specs::BlockPacketLemmas::block_of_one))]
    pub fn short_upload(
        &mut self,
        n: u8,
        extension: u8,
        address: u32,
        packet: &mut Packet,
    ) -> Result<Sent, CommandError>
        ensures { Tells self.old.pages.layout.order (response_room self.old.pages.layout) (short_upload_row n extension address self.old) (without_block self.old) result packet.new.items self.new }
    {
        self.give_up_block();
        if n == 0 || n > self.pages.layout().max_cto() - 1 || extension != 0 {
            return Err(CommandError::Code(Code::OutOfRange));
        }
        self.mta = read(&self.pages, Mta::Memory(address), n, packet)?;
        Ok(Sent::Lent)
    }

    /// BUILD_CHECKSUM: sums up `size` bytes from the MTA on, and moves it on by as many.
    ///
    /// `OutOfRange` with the greatest size, where the layout's class sums up fewer bytes in one call; then at size 0, and
    /// where the size is no multiple of the words or double words that are summed; then `AccessDenied` where the bytes don't lie in one
    /// area, also nowhere and at a text.
    /// ASAM MCD-1 XCP, protocol layer, description of commands: BUILD_CHECKSUM.
    pub fn build_checksum(&mut self, size: u32, packet: &mut Packet) -> Result<Sent, CommandError>
        ensures { Tells self.old.pages.layout.order (response_room self.old.pages.layout) (build_checksum_row size self.old) (without_block self.old) result packet.new.items self.new }
    {
        self.give_up_block();
        let greatest = self.pages.layout().class().limits().checksum;
        if size > greatest {
            return Err(CommandError::BlockSize(Code::OutOfRange, greatest));
        }
        let (sum, next) = checksum(&self.pages, self.mta, size)?;
        self.mta = next;
        let kind = self.pages.layout().checksum_kind().number();
        write_reply(packet, &Reply::Checksum { kind, sum }, self.order());
        Ok(Sent::Lent)
    }

    /// GET_ID: tells how long the text of this kind is, and leaves the MTA at its first byte: of
    /// kind 0 the identification, of kind 1 the name of the A2L file, of kind 4 the file, of kind 5
    /// its EPK. Where there is no such text, length 0. It is never refused.
    ///
    /// ASAM MCD-1 XCP, protocol layer, description of commands: GET_ID.
    pub fn get_id(&mut self, kind: u8, packet: &mut Packet) -> Result<Sent, CommandError>
        ensures { Tells self.old.pages.layout.order (response_room self.old.pages.layout) (get_id_row kind self.old) (without_block self.old) result packet.new.items self.new }
    {
        self.give_up_block();
        let mut length = 0;
        if let Some(id) = text_of_kind(self.pages.layout(), kind) {
            length = text(self.pages.layout(), id).len() as u32;
            self.mta = Mta::Text(id, 0);
        }
        write_reply(packet, &Reply::Id(length), self.order());
        Ok(Sent::Lent)
    }
}
