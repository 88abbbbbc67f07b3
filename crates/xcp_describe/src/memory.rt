//! The memory: segments with their pages, and the signals.
ghost use Rattle.std.specs.Prelude.{◌<◌, IfSome};
ghost use Rattle.xcp_packet.specs.PlainSpelling.{OnePacket};

use crate::asking::Asked;
use std::alloc::AllocError;
use xcp_packet::Command;

/// What GET_PAG_PROCESSOR_INFO tells.
#[derive(Clone, Copy)]
pub(crate) struct Paging {
    segments: u8,
    properties: u8,
}

impl Paging {
    pub(crate) fn ask(asked: &mut Asked) -> Paging {
        let info = asked.ask(&Command::GetPagProcessorInfo);
        Paging {
            segments: info.byte(1),
            properties: info.byte(2),
        }
    }

    /// Appends the block PAG.
    pub(crate) fn put(&self, text: &mut String) -> Result<(), AllocError> {
        writeln!(text, "      /begin PAG")?;
        writeln!(text, "        {} /* MAX_SEGMENTS */", self.segments)?;
        if self.properties & 0x01 != 0 {
            writeln!(text, "        FREEZE_SUPPORTED")?;
        }
        writeln!(text, "      /end PAG")
    }

    /// Appends a MEMORY_SEGMENT for each segment.
    pub(crate) fn put_segments(
        &self,
        asked: &mut Asked,
        text: &mut String,
    ) -> Result<(), AllocError> {
        for number in 0..self.segments {
            Segment::ask(asked, number).put(asked, text)?;
        }
        Ok(())
    }
}

/// What GET_SEGMENT_INFO tells of a segment, and BUILD_CHECKSUM of its bytes.
#[derive(Clone, Copy)]
struct Segment {
    number: u8,
    address: u32,
    length: u32,
    pages: u8,
    extension: u8,
    compression: u8,
    encryption: u8,
    /// The type of the checksum over all of it, 0 where there is none.
    checksum: u8,
    /// How many bytes one sum has at most, if there is such a limit.
    greatest_sum: Option<u32>,
}

impl Segment {
    fn ask(asked: &mut Asked, number: u8) -> Segment {
        let address = asked.ask(&info_of(0, number, 0)).double(4);
        let length = asked.ask(&info_of(0, number, 1)).double(4);
        let standard = asked.ask(&info_of(1, number, 0));
        Segment {
            number,
            address,
            length,
            pages: standard.byte(1),
            extension: standard.byte(2),
            compression: standard.byte(4),
            encryption: standard.byte(5),
            checksum: checksum_type(asked, address, length),
            greatest_sum: greatest_sum(asked),
        }
    }

    /// Appends the MEMORY_SEGMENT. What a tool can't write of it stands in flash.
    fn put(&self, asked: &mut Asked, text: &mut String) -> Result<(), AllocError> {
        let number = self.number;
        let kind = self.memory(asked);
        writeln!(text, "      /begin MEMORY_SEGMENT segment_{number} \"\"")?;
        writeln!(
            text,
            "        DATA {kind} INTERN 0x{:08X} 0x{:X} -1 -1 -1 -1 -1",
            self.address, self.length
        )?;
        writeln!(text, "        /begin IF_DATA XCP")?;
        writeln!(text, "          /begin SEGMENT")?;
        writeln!(
            text,
            "            {number} {} {} {} {} /* number, pages, address extension, compression, encryption */",
            self.pages, self.extension, self.compression, self.encryption
        )?;
        put_checksum(self.checksum, self.greatest_sum, text)?;
        for page in 0..self.pages {
            put_page(asked, number, page, text)?;
        }
        writeln!(text, "          /end SEGMENT")?;
        writeln!(text, "        /end IF_DATA")?;
        writeln!(text, "      /end MEMORY_SEGMENT")
    }

    /// Where the segment stands: in flash if it has a page that a tool never writes, else in RAM.
    fn memory(&self, asked: &mut Asked) -> &'static str {
        for page in 0..self.pages {
            let info = asked.ask(&Command::GetPageInfo {
                segment: self.number,
                page,
            });
            if info.byte(1) & 0x30 == 0 {
                return "FLASH";
            }
        }
        "RAM"
    }
}

/// GET_SEGMENT_INFO.
fn info_of(mode: u8, segment: u8, info: u8) -> Command
    ensures { OnePacket result }
{
    Command::GetSegmentInfo {
        mode,
        segment,
        info,
        mapping: 0,
    }
}

/// How many bytes BUILD_CHECKSUM sums up at most in one call, if the slave tells a limit: its error packet has it.
pub(crate) fn greatest_sum(asked: &mut Asked) -> Option<u32>
    ensures { IfSome result (λ size. 0 < size) }
{
    let refused = asked.ask(&Command::BuildChecksum { size: u32::MAX });
    match refused.double(4) {
        0 => None,
        size => Some(size),
    }
}

/// The type of the checksum over these bytes, or over the last part of them where one sum has fewer: 0 where BUILD_CHECKSUM
/// refuses it, since its type adds words or double words and they are no multiple of these.
fn checksum_type(asked: &mut Asked, address: u32, length: u32) -> u8 {
    let size = match greatest_sum(asked) {
        Some(greatest) if length > greatest && length % greatest != 0 => length % greatest,
        Some(greatest) => length.min(greatest),
        None => length,
    };
    asked.ask(&Command::SetMta {
        extension: 0,
        address,
    });
    let sum = asked.ask(&Command::BuildChecksum { size });
    if sum.is_positive() { sum.byte(1) } else { 0 }
}

/// Appends the block CHECKSUM, if there is a type.
fn put_checksum(number: u8, greatest: Option<u32>, text: &mut String) -> Result<(), AllocError> {
    let name = match number {
        1 => "XCP_ADD_11",
        2 => "XCP_ADD_12",
        3 => "XCP_ADD_14",
        4 => "XCP_ADD_22",
        5 => "XCP_ADD_24",
        6 => "XCP_ADD_44",
        _ => return Ok(()),
    };
    match greatest {
        None => writeln!(text, "            /begin CHECKSUM {name} /end CHECKSUM"),
        Some(size) => writeln!(
            text,
            "            /begin CHECKSUM {name} MAX_BLOCK_SIZE 0x{size:X} /end CHECKSUM"
        ),
    }
}

/// Appends the block PAGE, as GET_PAGE_INFO tells it.
fn put_page(asked: &mut Asked, segment: u8, page: u8, text: &mut String) -> Result<(), AllocError> {
    let info = asked.ask(&Command::GetPageInfo { segment, page });
    let properties = info.byte(1);
    writeln!(text, "            /begin PAGE {page}")?;
    writeln!(
        text,
        "              ECU_ACCESS_{}",
        access_beside_xcp(properties)
    )?;
    writeln!(
        text,
        "              XCP_READ_ACCESS_{}",
        access_beside_ecu(properties >> 2)
    )?;
    writeln!(
        text,
        "              XCP_WRITE_ACCESS_{}",
        access_beside_ecu(properties >> 4)
    )?;
    writeln!(text, "              INIT_SEGMENT {}", info.byte(2))?;
    writeln!(text, "            /end PAGE")
}

/// When the controller has a page, by the tool's access to it: bits 0 and 1 of PAGE_PROPERTIES.
fn access_beside_xcp(bits: u8) -> &'static str {
    match bits & 0x03 {
        0 => "NOT_ALLOWED",
        1 => "WITHOUT_XCP_ONLY",
        2 => "WITH_XCP_ONLY",
        _ => "DONT_CARE",
    }
}

/// When the tool reads or writes a page, by the controller's access to it: two bits of PAGE_PROPERTIES.
fn access_beside_ecu(bits: u8) -> &'static str {
    match bits & 0x03 {
        0 => "NOT_ALLOWED",
        1 => "WITHOUT_ECU_ONLY",
        2 => "WITH_ECU_ONLY",
        _ => "DONT_CARE",
    }
}
