//! The commands of pages: SET_CAL_PAGE, GET_CAL_PAGE, GET_PAG_PROCESSOR_INFO, GET_SEGMENT_INFO,
//! GET_PAGE_INFO, SET_SEGMENT_MODE, GET_SEGMENT_MODE, COPY_CAL_PAGE, SET_REQUEST.
#![tactic(auto, unfolding(crate::specs::private::TellsRow::TellsRow))]

ghost use Rattle.xcp_slave.specs.private.TellsRow.{TellsRow};

use super::{Handled, Slave};
use crate::PageProperties;
use xcp_packet::{Code, Command, CommandError, Packet, Reply};

/// The mode of SET_REQUEST by which a store of the pages is requested.
const STORE_CAL: u8 = 0x01;

impl Slave {
    pub(super) fn set_cal_page(
        &mut self,
        mode: u8,
        segment: u8,
        page: u8,
        packet: &mut Packet,
    ) -> Handled
        ensures { TellsRow (Command.SetCalPage mode segment page) self.old result packet.new.items self.new }
    {
        self.transfer.give_up_block();
        self.transfer.switch(mode, segment, page)?;
        Ok(self.done(packet))
    }

    pub(super) fn get_cal_page(&mut self, mode: u8, segment: u8, packet: &mut Packet) -> Handled
        ensures { TellsRow (Command.GetCalPage mode segment) self.old result packet.new.items self.new }
    {
        self.transfer.give_up_block();
        let page = self.transfer.pages().page(mode, segment)?;
        Ok(self.respond(&Reply::CalPage(page), packet))
    }

    pub(super) fn get_pag_processor_info(&mut self, packet: &mut Packet) -> Handled
        ensures { TellsRow Command.GetPagProcessorInfo self.old result packet.new.items self.new }
    {
        self.transfer.give_up_block();
        let segments = self.layout().segment_count() as u8;
        Ok(self.respond(&Reply::PagInfo(segments), packet))
    }

    pub(super) fn get_segment_info(
        &mut self,
        mode: u8,
        segment: u8,
        info: u8,
        _mapping: u8,
        packet: &mut Packet,
    ) -> Handled
        ensures { TellsRow (Command.GetSegmentInfo mode segment info _mapping) self.old result packet.new.items self.new }
    {
        self.transfer.give_up_block();
        if mode > 1 {
            return Err(CommandError::Code(Code::OutOfRange));
        }
        let pages = self.transfer.pages().page_count(segment)?;
        if mode == 1 {
            return Ok(self.respond(&Reply::SegmentStandard { pages }, packet));
        }
        let number = match info {
            0 => self.layout().segment_address(segment as usize),
            1 => self.layout().segment_size(segment as usize) as u32,
            _ => return Err(CommandError::Code(Code::OutOfRange)),
        };
        Ok(self.respond(&Reply::SegmentWord(number), packet))
    }

    pub(super) fn get_page_info(&mut self, segment: u8, page: u8, packet: &mut Packet) -> Handled
        ensures { TellsRow (Command.GetPageInfo segment page) self.old result packet.new.items self.new }
    {
        self.transfer.give_up_block();
        let _ = self.transfer.pages().content(segment, page)?;
        let reply = Reply::PageInfo {
            properties: PageProperties::bits_of(page),
            init: segment,
        };
        Ok(self.respond(&reply, packet))
    }

    pub(super) fn set_segment_mode(&mut self, mode: u8, segment: u8, packet: &mut Packet) -> Handled
        ensures { TellsRow (Command.SetSegmentMode mode segment) self.old result packet.new.items self.new }
    {
        self.transfer.give_up_block();
        self.transfer.set_freeze(mode, segment)?;
        Ok(self.done(packet))
    }

    pub(super) fn get_segment_mode(&mut self, segment: u8, packet: &mut Packet) -> Handled
        ensures { TellsRow (Command.GetSegmentMode segment) self.old result packet.new.items self.new }
    {
        self.transfer.give_up_block();
        let mode = self.transfer.pages().freeze_mode(segment)?;
        Ok(self.respond(&Reply::SegmentMode(mode), packet))
    }

    pub(super) fn copy_cal_page(
        &mut self,
        source: u8,
        source_page: u8,
        target: u8,
        target_page: u8,
        packet: &mut Packet,
    ) -> Handled
        ensures { TellsRow (Command.CopyCalPage source source_page target target_page) self.old result packet.new.items self.new }
    {
        self.transfer.give_up_block();
        self.transfer
            .copy_page(source, source_page, target, target_page)?;
        Ok(self.done(packet))
    }

    pub(super) fn set_request(&mut self, mode: u8, _id: u16, packet: &mut Packet) -> Handled
        ensures { TellsRow (Command.SetRequest mode _id) self.old result packet.new.items self.new }
    {
        self.transfer.give_up_block();
        if mode != STORE_CAL {
            return Err(CommandError::Code(Code::OutOfRange));
        }
        self.store = true;
        Ok(self.done(packet))
    }
}
