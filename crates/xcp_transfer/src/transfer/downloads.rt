//! The commands by which a tool writes: DOWNLOAD, DOWNLOAD_NEXT, DOWNLOAD_MAX, SHORT_DOWNLOAD,
//! MODIFY_BITS.
ghost use Rattle.std.specs.Prelude.{◌≡◌, ◌≤◌, ◌<◌, length, None};
ghost use Rattle.xcp_packet.specs.Rows.{Tells};
ghost use Rattle.xcp_transfer.specs.Downloads.{download_row, download_next_row, download_max_row, short_download_row, packet_room, greatest_download};
ghost use Rattle.xcp_transfer.specs.private.WriteRow.{write_row};
ghost use Rattle.xcp_transfer.specs.TransferValue.{response_room, without_block};

use super::Transfer;
use crate::Mta;
use crate::access::{writable, write, write_allowed};
use crate::block::Block;
use xcp_packet::{Code, CommandError, Packet, Sent, write_done};

/// MAX_BS: the greatest number of packets in a block.
const MAX_BS: usize = 8;

impl Transfer {
    /// DOWNLOAD: writes the first n data bytes from the MTA on, and moves it on by n.
    ///
    /// More than MAX_CTO - 2 bytes, up to 8 packets' and at most 255, begin a block: the first
    /// packet has MAX_CTO - 2 bytes of it, nothing is sent, and pages and MTA stay.
    /// `OutOfRange` for n, `CmdSyntax` where data bytes are missing, then `AccessDenied` and
    /// `WriteProtected` for all n bytes.
    /// ASAM MCD-1 XCP, protocol layer, description of commands: DOWNLOAD.
    pub fn download(
        &mut self,
        n: u8,
        bytes: &[u8],
        packet: &mut Packet,
    ) -> Result<Sent, CommandError>
        ensures { Tells self.old.pages.layout.order (response_room self.old.pages.layout) (download_row n bytes.now self.old) (without_block self.old) result packet.new.items self.new }
    {
        self.give_up_block();
        if n == 0 || n as usize > self.greatest_download() {
            return Err(CommandError::Code(Code::OutOfRange));
        }
        let room = self.packet_room();
        if bytes.len() < n.min(room) as usize {
            return Err(CommandError::Code(Code::CmdSyntax));
        }
        if n <= room {
            return self.write_first(self.mta, n, bytes, packet);
        }
        let address = writable(&self.pages, self.mta, n)?;
        self.block = Some(Block::begin(address, n - room, &bytes[..room as usize]));
        Ok(Sent::Nothing)
    }

    /// DOWNLOAD_NEXT: adds bytes to the block under way. `remaining` tells how many are left,
    /// with those of this packet. With the last ones the whole block is written at once, and the
    /// MTA stands behind it; until then nothing is sent.
    ///
    /// `Sequence`, with the expected number of bytes, without a block (then 0) or where
    /// `remaining` is another number; then `CmdSyntax` where data bytes are missing. Either ends
    /// the block.
    /// ASAM MCD-1 XCP, protocol layer, description of commands: DOWNLOAD_NEXT.
    pub fn download_next(
        &mut self,
        remaining: u8,
        bytes: &[u8],
        packet: &mut Packet,
    ) -> Result<Sent, CommandError>
        ensures { Tells self.old.pages.layout.order (response_room self.old.pages.layout) (download_next_row remaining bytes.now self.old) (without_block self.old) result packet.new.items self.new }
    {
        let room = self.packet_room();
        let Some(block) = &mut self.block else {
            return Err(CommandError::Count(Code::Sequence, 0));
        };
        let expected = block.expected();
        if remaining != expected {
            self.block = None;
            return Err(CommandError::Count(Code::Sequence, expected));
        }
        if bytes.len() < remaining.min(room) as usize {
            self.block = None;
            return Err(CommandError::Code(Code::CmdSyntax));
        }
        if remaining > room {
            block.add(&bytes[..room as usize]);
            return Ok(Sent::Nothing);
        }
        block.add(&bytes[..remaining as usize]);
        self.mta = write_allowed(&mut self.pages, block.address(), block.bytes());
        self.block = None;
        write_done(packet);
        Ok(Sent::Lent)
    }

    /// DOWNLOAD_MAX: writes MAX_CTO - 1 bytes from the MTA on, and moves it on by as many.
    ///
    /// `CmdSyntax` where data bytes are missing, then `AccessDenied`, then `WriteProtected`.
    /// ASAM MCD-1 XCP, protocol layer, description of commands: DOWNLOAD_MAX.
    pub fn download_max(&mut self, bytes: &[u8], packet: &mut Packet) -> Result<Sent, CommandError>
        ensures { Tells self.old.pages.layout.order (response_room self.old.pages.layout) (download_max_row bytes.now self.old) (without_block self.old) result packet.new.items self.new }
    {
        self.give_up_block();
        let n = self.pages.layout().max_cto() - 1;
        if bytes.len() < n as usize {
            return Err(CommandError::Code(Code::CmdSyntax));
        }
        self.write_first(self.mta, n, bytes, packet)
    }

    /// SHORT_DOWNLOAD: writes n bytes, 1 to MAX_CTO - 8, at an address, and leaves the MTA behind
    /// them.
    ///
    /// `OutOfRange` for n, then for an address extension that isn't 0; `CmdSyntax` where data
    /// bytes are missing; `AccessDenied`; `WriteProtected`.
    /// ASAM MCD-1 XCP, protocol layer, description of commands: SHORT_DOWNLOAD.
    pub fn short_download(
        &mut self,
        n: u8,
        extension: u8,
        address: u32,
        bytes: &[u8],
        packet: &mut Packet,
    ) -> Result<Sent, CommandError>
        ensures { Tells self.old.pages.layout.order (response_room self.old.pages.layout) (short_download_row n extension address bytes.now self.old) (without_block self.old) result packet.new.items self.new }
    {
        self.give_up_block();
        if n == 0 || n > self.pages.layout().max_cto() - 8 || extension != 0 {
            return Err(CommandError::Code(Code::OutOfRange));
        }
        if bytes.len() < n as usize {
            return Err(CommandError::Code(Code::CmdSyntax));
        }
        self.write_first(Mta::Memory(address), n, bytes, packet)
    }

    /// The most data bytes in a packet of DOWNLOAD and DOWNLOAD_NEXT.
    fn packet_room(&self) -> u8
        ensures value { result ≡ packet_room self.now.pages.layout }
        ensures least { 6 ≤ result }
    {
        self.pages.layout().max_cto() - 2
    }

    /// The most bytes that a DOWNLOAD can announce.
    fn greatest_download(&self) -> usize
        ensures { result ≡ greatest_download self.now.pages.layout }
    {
        (MAX_BS * self.packet_room() as usize).min(255)
    }

    /// Writes the first n bytes from an MTA on, and leaves the MTA behind them.
    fn write_first(
        &mut self,
        mta: Mta,
        n: u8,
        bytes: &[u8],
        packet: &mut Packet,
    ) -> Result<Sent, CommandError>
        requires some { 0 < n }
        requires enough { n ≤ length bytes.now }
        requires no_block { self.old.block ≡ None }
        ensures { Tells self.old.pages.layout.order (response_room self.old.pages.layout) (write_row mta n bytes.now self.old) self.old result packet.new.items self.new }
    {
        let bytes = &bytes[..n as usize];
        self.mta = write(&mut self.pages, mta, bytes)?;
        write_done(packet);
        Ok(Sent::Lent)
    }
}
