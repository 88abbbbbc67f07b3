//! The protocol layer: versions, lengths of packets, and modes.
use crate::asking::Asked;
use crate::commands::put_commands;
use std::alloc::AllocError;
use xcp_packet::Command;

/// Within so many milliseconds the slave answers any command: the seven time-outs, which no command tells.
const TIME_OUT: u16 = 1_000;

/// What CONNECT and GET_COMM_MODE_INFO tell.
#[derive(Clone, Copy)]
pub(crate) struct Protocol {
    /// The major versions of the protocol layer and of the transport layer.
    pub(crate) version: u8,
    pub(crate) transport: u8,
    max_cto: u8,
    max_dto: u16,
    /// COMM_MODE_BASIC and COMM_MODE_OPTIONAL.
    basic: u8,
    optional: u8,
    max_bs: u8,
    min_st: u8,
}

impl Protocol {
    /// Connects to the slave.
    pub(crate) fn ask(asked: &mut Asked) -> Protocol {
        let connect = asked.ask(&Command::Connect { mode: 0 });
        let modes = asked.ask(&Command::GetCommModeInfo);
        Protocol {
            version: connect.byte(6),
            transport: connect.byte(7),
            max_cto: connect.byte(3),
            max_dto: connect.word(4),
            basic: connect.byte(2),
            optional: modes.byte(2),
            max_bs: modes.byte(4),
            min_st: modes.byte(5),
        }
    }

    /// The byte order as ASAP2 names it: which byte of a number comes last.
    pub(crate) fn byte_order(&self) -> &'static str {
        if self.basic & 0x01 == 0 {
            "MSB_LAST"
        } else {
            "MSB_FIRST"
        }
    }

    fn granularity(&self) -> &'static str {
        match self.basic & 0x06 {
            0x00 => "BYTE",
            0x02 => "WORD",
            _ => "DWORD",
        }
    }

    /// Appends the block PROTOCOL_LAYER.
    pub(crate) fn put(&self, asked: &mut Asked, text: &mut String) -> Result<(), AllocError> {
        writeln!(text, "      /begin PROTOCOL_LAYER")?;
        writeln!(text, "        0x{:02X}00 /* version */", self.version)?;
        writeln!(
            text,
            "        {TIME_OUT} {TIME_OUT} {TIME_OUT} {TIME_OUT} {TIME_OUT} {TIME_OUT} {TIME_OUT} /* T1 to T7, in ms */"
        )?;
        writeln!(text, "        {} /* MAX_CTO */", self.max_cto)?;
        writeln!(text, "        {} /* MAX_DTO */", self.max_dto)?;
        writeln!(text, "        BYTE_ORDER_{}", self.byte_order())?;
        writeln!(text, "        ADDRESS_GRANULARITY_{}", self.granularity())?;
        put_commands(asked, text)?;
        self.put_blocks(text)?;
        writeln!(text, "      /end PROTOCOL_LAYER")
    }

    /// Appends the modes of block transfer: the slave's, and the master's with MAX_BS and MIN_ST.
    fn put_blocks(&self, text: &mut String) -> Result<(), AllocError> {
        let slave = self.basic & 0x40 != 0;
        let master = self.optional & 0x01 != 0;
        if !slave && !master {
            return Ok(());
        }
        writeln!(text, "        COMMUNICATION_MODE_SUPPORTED BLOCK")?;
        if slave {
            writeln!(text, "          SLAVE")?;
        }
        if master {
            writeln!(
                text,
                "          MASTER {} {} /* MAX_BS, MIN_ST */",
                self.max_bs, self.min_st
            )?;
        }
        Ok(())
    }
}
