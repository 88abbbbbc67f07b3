//! The commands that configure and start DAQ lists, and those that ask for them.
#![tactic(auto, unfolding(crate::specs::private::TellsRow::TellsRow))]

ghost use Rattle.xcp_slave.specs.private.TellsRow.{TellsRow};

use super::{Handled, Slave};
use xcp_daq::Daq;
use xcp_packet::{Code, Command, CommandError, Packet, Reply};
use xcp_transfer::{Mta, TextId};

impl Slave {
    pub(super) fn clear_daq_list(&mut self, list: u16, packet: &mut Packet) -> Handled
        ensures { TellsRow (Command.ClearDaqList list) self.old result packet.new.items self.new }
    {
        self.transfer.give_up_block();
        self.daq.clear_daq_list(list)?;
        Ok(self.done(packet))
    }

    pub(super) fn set_daq_ptr(
        &mut self,
        list: u16,
        odt: u8,
        entry: u8,
        packet: &mut Packet,
    ) -> Handled
        ensures { TellsRow (Command.SetDaqPtr list odt entry) self.old result packet.new.items self.new }
    {
        self.transfer.give_up_block();
        self.daq.set_daq_ptr(list, odt, entry)?;
        Ok(self.done(packet))
    }

    pub(super) fn write_daq(
        &mut self,
        offset: u8,
        size: u8,
        extension: u8,
        address: u32,
        packet: &mut Packet,
    ) -> Handled
        ensures { TellsRow (Command.WriteDaq offset size extension address) self.old result packet.new.items self.new }
    {
        self.transfer.give_up_block();
        let layout = self.transfer.pages().layout();
        // A match, since the check finds no proof of `?` here.
        match self.daq.write_daq(layout, offset, size, extension, address) {
            Ok(()) => Ok(self.done(packet)),
            Err(code) => Err(CommandError::Code(code)),
        }
    }

    pub(super) fn write_daq_multiple(&mut self, bytes: &[u8], packet: &mut Packet) -> Handled
        ensures { TellsRow (Command.WriteDaqMultiple (record { items = bytes.now })) self.old result packet.new.items self.new }
    {
        self.transfer.give_up_block();
        let layout = self.transfer.pages().layout();
        if !layout.extras().uploads_a2l() {
            return Err(CommandError::Code(Code::CmdUnknown));
        }
        match self.daq.write_daq_multiple(layout, bytes) {
            Ok(()) => Ok(self.done(packet)),
            Err(code) => Err(CommandError::Code(code)),
        }
    }

    pub(super) fn set_daq_list_mode(
        &mut self,
        mode: u8,
        list: u16,
        event: u16,
        prescaler: u8,
        priority: u8,
        packet: &mut Packet,
    ) -> Handled
        ensures { TellsRow (Command.SetDaqListMode mode list event prescaler priority) self.old result packet.new.items self.new }
    {
        self.transfer.give_up_block();
        let layout = self.transfer.pages().layout();
        self.daq
            .set_daq_list_mode(layout, mode, list, event, prescaler, priority)?;
        Ok(self.done(packet))
    }

    pub(super) fn get_daq_list_mode(&mut self, list: u16, packet: &mut Packet) -> Handled
        ensures { TellsRow (Command.GetDaqListMode list) self.old result packet.new.items self.new }
    {
        self.transfer.give_up_block();
        let told = self.daq.daq_list_mode(list)?;
        let reply = Reply::DaqListMode {
            mode: told.mode,
            event: told.event,
            prescaler: told.prescaler,
            priority: told.priority,
        };
        Ok(self.respond(&reply, packet))
    }

    pub(super) fn start_stop_daq_list(
        &mut self,
        mode: u8,
        list: u16,
        packet: &mut Packet,
    ) -> Handled
        ensures { TellsRow (Command.StartStopDaqList mode list) self.old result packet.new.items self.new }
    {
        self.transfer.give_up_block();
        let layout = self.transfer.pages().layout();
        let first_pid = self.daq.start_stop_daq_list(layout, mode, list)?;
        Ok(self.respond(&Reply::FirstPid(first_pid), packet))
    }

    pub(super) fn start_stop_synch(&mut self, mode: u8, packet: &mut Packet) -> Handled
        ensures { TellsRow (Command.StartStopSynch mode) self.old result packet.new.items self.new }
    {
        self.transfer.give_up_block();
        let layout = self.transfer.pages().layout();
        self.daq.start_stop_synch(layout, mode)?;
        Ok(self.done(packet))
    }

    pub(super) fn read_daq(&mut self, packet: &mut Packet) -> Handled
        ensures { TellsRow Command.ReadDaq self.old result packet.new.items self.new }
    {
        self.transfer.give_up_block();
        let (size, address) = match self.daq.read_daq()? {
            Some(element) => (element.size, element.address),
            None => (0, 0),
        };
        let reply = Reply::DaqEntry {
            size,
            extension: 0,
            address,
        };
        Ok(self.respond(&reply, packet))
    }

    pub(super) fn get_daq_processor_info(&mut self, packet: &mut Packet) -> Handled
        ensures { TellsRow Command.GetDaqProcessorInfo self.old result packet.new.items self.new }
    {
        self.transfer.give_up_block();
        let told = self.daq.processor_info(self.transfer.pages().layout());
        let reply = Reply::DaqInfo {
            properties: told.properties,
            lists: told.lists,
            events: told.events,
        };
        Ok(self.respond(&reply, packet))
    }

    pub(super) fn get_daq_resolution_info(&mut self, packet: &mut Packet) -> Handled
        ensures { TellsRow Command.GetDaqResolutionInfo self.old result packet.new.items self.new }
    {
        self.transfer.give_up_block();
        let told = Daq::resolution_info(self.layout());
        let reply = Reply::DaqResolution {
            greatest: told.greatest,
            mode: told.mode,
            ticks: told.ticks,
        };
        Ok(self.respond(&reply, packet))
    }

    pub(super) fn get_daq_clock(&mut self, packet: &mut Packet) -> Handled
        ensures { TellsRow Command.GetDaqClock self.old result packet.new.items self.new }
    {
        self.transfer.give_up_block();
        if self.layout().clock().stamp.size() == 0 {
            return Err(CommandError::Code(Code::CmdUnknown));
        }
        let time = (self.time % 0x1_0000_0000) as u32;
        Ok(self.respond(&Reply::DaqClock(time), packet))
    }

    pub(super) fn get_daq_event_info(&mut self, channel: u16, packet: &mut Packet) -> Handled
        ensures { TellsRow (Command.GetDaqEventInfo channel) self.old result packet.new.items self.new }
    {
        self.transfer.give_up_block();
        let layout = self.transfer.pages().layout();
        layout.known();
        let told = Daq::event_info(layout, channel)?;
        self.transfer
            .set_mta(Mta::Text(TextId::Name(channel as u8), 0));
        let reply = Reply::EventInfo {
            lists: told.lists,
            name: told.name_length,
            cycle: told.cycle,
            unit: told.unit,
            priority: told.priority,
        };
        Ok(self.respond(&reply, packet))
    }
}
