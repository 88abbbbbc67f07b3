//! The commands that allocate DAQ lists, ODTs and entries.
#![tactic(auto, unfolding(crate::specs::private::TellsRow::TellsRow))]

ghost use Rattle.xcp_slave.specs.private.TellsRow.{TellsRow};

use super::{Handled, Slave};
use xcp_packet::{Command, Packet};

impl Slave {
    pub(super) fn free_daq(&mut self, packet: &mut Packet) -> Handled
        ensures { TellsRow Command.FreeDaq self.old result packet.new.items self.new }
    {
        self.transfer.give_up_block();
        self.daq.free_daq();
        Ok(self.done(packet))
    }

    pub(super) fn alloc_daq(&mut self, count: u16, packet: &mut Packet) -> Handled
        ensures { TellsRow (Command.AllocDaq count) self.old result packet.new.items self.new }
    {
        self.transfer.give_up_block();
        self.daq.alloc_daq(count)?;
        Ok(self.done(packet))
    }

    pub(super) fn alloc_odt(&mut self, list: u16, count: u8, packet: &mut Packet) -> Handled
        ensures { TellsRow (Command.AllocOdt list count) self.old result packet.new.items self.new }
    {
        self.transfer.give_up_block();
        self.daq.alloc_odt(list, count)?;
        Ok(self.done(packet))
    }

    pub(super) fn alloc_odt_entry(
        &mut self,
        list: u16,
        odt: u8,
        count: u8,
        packet: &mut Packet,
    ) -> Handled
        ensures { TellsRow (Command.AllocOdtEntry list odt count) self.old result packet.new.items self.new }
    {
        self.transfer.give_up_block();
        self.daq.alloc_odt_entry(list, odt, count)?;
        Ok(self.done(packet))
    }
}
