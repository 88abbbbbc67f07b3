//! Laws of the definitions. A function here does nothing: its contract is the law, and the check
//! proves it.
ghost use Rattle.xcp_transfer.specs.Laws.{RowsRead, RowsWrite, BlockIsWrittenWhole, BlockIsWrittenLast};
ghost use Rattle.xcp_transfer.specs.Laws.{ShortUploadIsWithinPacket};

use xcp_memory::{tool_is_read, tool_is_written};

/// What the rows read and write at an MTA are the reads and writes of addresses and bytes.
pub fn rows_read_and_write()
    ensures read { RowsRead }
    ensures write { RowsWrite }
{
    tool_is_read();
    tool_is_written();
}

/// A block is written whole, with its last packet, or not at all.
pub fn block_is_written_whole()
    ensures whole { BlockIsWrittenWhole }
    ensures last { BlockIsWrittenLast }
{
    tool_is_written();
}

/// One packet holds what SHORT_UPLOAD reads.
pub fn short_uploads_are_within_packets()
    ensures { ShortUploadIsWithinPacket }
{}
