//! The commands that move the tool's bytes: SET_MTA, uploads, BUILD_CHECKSUM, downloads.
#![tactic(auto, unfolding(crate::specs::private::TellsRow::TellsRow))]

ghost use Rattle.xcp_slave.specs.private.TellsRow.{TellsRow};

use super::{Handled, Slave};
use xcp_packet::{Code, Command, CommandError, Packet};
use xcp_transfer::Mta;

impl Slave {
    pub(super) fn set_mta(&mut self, extension: u8, address: u32, packet: &mut Packet) -> Handled
        ensures { TellsRow (Command.SetMta extension address) self.old result packet.new.items self.new }
    {
        if extension != 0 {
            self.transfer.give_up_block();
            return Err(CommandError::Code(Code::OutOfRange));
        }
        self.transfer.set_mta(Mta::Memory(address));
        Ok(self.done(packet))
    }

    pub(super) fn upload(&mut self, n: u8, packet: &mut Packet) -> Handled
        ensures { TellsRow (Command.Upload n) self.old result packet.new.items self.new }
    {
        self.transfer.upload(n, packet)
    }

    pub(super) fn short_upload(
        &mut self,
        n: u8,
        extension: u8,
        address: u32,
        packet: &mut Packet,
    ) -> Handled
        ensures { TellsRow (Command.ShortUpload n extension address) self.old result packet.new.items self.new }
    {
        self.transfer.short_upload(n, extension, address, packet)
    }

    pub(super) fn build_checksum(&mut self, size: u32, packet: &mut Packet) -> Handled
        ensures { TellsRow (Command.BuildChecksum size) self.old result packet.new.items self.new }
    {
        self.transfer.build_checksum(size, packet)
    }

    pub(super) fn download(&mut self, n: u8, bytes: &[u8], packet: &mut Packet) -> Handled
        ensures { TellsRow (Command.Download n (record { items = bytes.now })) self.old result packet.new.items self.new }
    {
        self.transfer.download(n, bytes, packet)
    }

    pub(super) fn download_next(
        &mut self,
        remaining: u8,
        bytes: &[u8],
        packet: &mut Packet,
    ) -> Handled
        ensures { TellsRow (Command.DownloadNext remaining (record { items = bytes.now })) self.old result packet.new.items self.new }
    {
        self.transfer.download_next(remaining, bytes, packet)
    }

    pub(super) fn download_max(&mut self, bytes: &[u8], packet: &mut Packet) -> Handled
        ensures { TellsRow (Command.DownloadMax (record { items = bytes.now })) self.old result packet.new.items self.new }
    {
        self.transfer.download_max(bytes, packet)
    }

    pub(super) fn short_download(
        &mut self,
        n: u8,
        extension: u8,
        address: u32,
        bytes: &[u8],
        packet: &mut Packet,
    ) -> Handled
        ensures { TellsRow (Command.ShortDownload n extension address (record { items = bytes.now })) self.old result packet.new.items self.new }
    {
        self.transfer
            .short_download(n, extension, address, bytes, packet)
    }

    pub(super) fn modify_bits(&mut self, s: u8, ma: u16, mx: u16, packet: &mut Packet) -> Handled
        ensures { TellsRow (Command.ModifyBits s ma mx) self.old result packet.new.items self.new }
    {
        self.transfer.modify_bits(s, ma, mx, packet)
    }
}
