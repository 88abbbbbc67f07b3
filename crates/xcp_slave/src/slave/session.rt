//! The commands of a session: CONNECT, DISCONNECT, GET_STATUS, SYNCH, GET_COMM_MODE_INFO, GET_ID, GET_VERSION.
#![tactic(auto, unfolding(crate::specs::private::TellsRow::TellsRow))]

ghost use Rattle.std.specs.Prelude.{◌≡◌, None, Some, OnOk, IfErr};
ghost use Rattle.xcp_slave.specs.Rows.{level_refusal};
ghost use Rattle.xcp_slave.specs.private.TellsRow.{TellsRow};

use super::{Handled, Slave};
use crate::SessionStatus;
use xcp_packet::{Code, Command, CommandError, Packet, Reply};
use xcp_transfer::Mta;

/// COMM_MODE_BASIC of CONNECT but for the byte order, which is bit 0: optional information can be
/// had (bit 7), slave block mode (bit 6), address granularity of one byte.
const COMM_MODE_BASIC: u8 = 0xC0;

/// The refusals of GET_VERSION by its bytes.
fn check_level(bytes: &[u8]) -> Result<(), Code>
    ensures ok { OnOk result (level_refusal bytes.now ≡ None) }
    ensures refused { IfErr result (λ code. level_refusal bytes.now ≡ Some code) }
{
    if bytes.is_empty() {
        return Err(Code::CmdSyntax);
    }
    if bytes[0] != 0 {
        return Err(Code::CmdUnknown);
    }
    Ok(())
}

impl Slave {
    pub(super) fn connect(&mut self, _mode: u8, packet: &mut Packet) -> Handled
        ensures { TellsRow (Command.Connect _mode) self.old result packet.new.items self.new }
    {
        self.connected = true;
        self.transfer.give_up_block();
        self.transfer.set_mta(Mta::Nowhere);
        let reply = Reply::Connect {
            basic: COMM_MODE_BASIC + self.order().bit(),
            max_cto: self.layout().max_cto(),
            max_dto: u16::from(self.layout().max_dto()),
        };
        Ok(self.respond(&reply, packet))
    }

    pub(super) fn disconnect(&mut self, packet: &mut Packet) -> Handled
        ensures { TellsRow Command.Disconnect self.old result packet.new.items self.new }
    {
        self.end_session();
        Ok(self.done(packet))
    }

    pub(super) fn get_status(&mut self, packet: &mut Packet) -> Handled
        ensures { TellsRow Command.GetStatus self.old result packet.new.items self.new }
    {
        let status = SessionStatus::bits_of(self.store, self.daq.any_running());
        Ok(self.respond(&Reply::Status(status), packet))
    }

    pub(super) fn synch(&mut self, packet: &mut Packet) -> Handled
        ensures { TellsRow Command.Synch self.old result packet.new.items self.new }
    {
        Ok(self.respond(&Reply::Error(Code::CmdSynch), packet))
    }

    pub(super) fn get_comm_mode_info(&mut self, packet: &mut Packet) -> Handled
        ensures { TellsRow Command.GetCommModeInfo self.old result packet.new.items self.new }
    {
        Ok(self.respond(&Reply::CommMode, packet))
    }

    pub(super) fn get_id(&mut self, kind: u8, packet: &mut Packet) -> Handled
        ensures { TellsRow (Command.GetId kind) self.old result packet.new.items self.new }
    {
        self.transfer.get_id(kind, packet)
    }

    pub(super) fn get_version(&mut self, bytes: &[u8], packet: &mut Packet) -> Handled
        ensures { TellsRow (Command.GetVersion (record { items = bytes.now })) self.old result packet.new.items self.new }
    {
        self.transfer.give_up_block();
        if !self.layout().extras().uploads_a2l() {
            return Err(CommandError::Code(Code::CmdUnknown));
        }
        match check_level(bytes) {
            Ok(()) => Ok(self.respond(&Reply::Version, packet)),
            Err(code) => Err(CommandError::Code(code)),
        }
    }
}
