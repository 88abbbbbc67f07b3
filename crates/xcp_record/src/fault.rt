//! Why a journal isn't written on, and what an audit finds.
ghost use Rattle.std.specs.Prelude.{◌≡◌};

use std::alloc::AllocError;
use std::fmt::{self, Debug};
use thiserror::Error;
use xcp_framing::{Watched, WriteFailed};

/// Why a chapter isn't in the file, or the end mark.
#[derive(Clone, Copy, Debug, Error, PartialEq, Eq)]
pub enum RecordFault {
    /// A write failed, or took no byte.
    #[error("a write failed")]
    Write,
    /// An allocation failed.
    #[error("no memory is left")]
    Memory,
    /// The chapter's number isn't that of the next one.
    #[error("the chapter's number isn't the next one's")]
    Number,
    /// An earlier chapter isn't in the file, or the recorder was ended.
    #[error("an earlier chapter could not be written, or the file has ended")]
    Stopped,
}

/// Why no recorder began, and the stream, with what was written of the head.
#[derive(Drop)]
pub struct NotBegun<W> {
    pub fault: RecordFault,
    pub writer: Watched<W>,
}

/// The fault alone.
impl<W> Debug for NotBegun<W> {
    fn fmt<F: fmt::Write>(&self, f: &mut fmt::Formatter<F>) -> fmt::Result {
        self.fault.fmt(f)
    }
}

impl From<WriteFailed> for RecordFault {
    ghost use Rattle.xcp_record.specs.declared.fault.RecordFault.TheVariants as faults;

    ghost from_gives = { λ _ r. r ≡ faults.Write };

    fn from(_failed: WriteFailed) -> RecordFault {
        RecordFault::Write
    }
}

impl From<AllocError> for RecordFault {
    ghost use Rattle.xcp_record.specs.declared.fault.RecordFault.TheVariants as faults;

    ghost from_gives = { λ _ r. r ≡ faults.Memory };

    fn from(_error: AllocError) -> RecordFault {
        RecordFault::Memory
    }
}

/// What an audit finds in place of a settled journal. Where a number of calls stands beside it, the calls
/// before it are settled, and so many.
#[derive(Clone, Copy, Debug, Error, PartialEq, Eq)]
pub enum AuditFault {
    /// A read failed.
    #[error("a read failed")]
    Read,
    /// An allocation failed.
    #[error("no memory is left")]
    Memory,
    /// The call of this index, from 0, is the first that has another answer than the slave's.
    #[error("call {0} has another answer")]
    Mismatch(u64),
    /// The file ends inside a chapter, or inside the end mark.
    #[error("the file ends inside a chapter or its end mark, after {0} calls")]
    Cut(u64),
    /// No chapter stands where the next one should: its digest differs, or its number, or its bytes are no calls. Nor does an end mark
    /// end the file there: its digest differs, or its number of calls, or something stands behind it.
    #[error("what stands after {0} calls isn't as it was written")]
    Altered(u64),
    /// The journal is another layout's.
    #[error("the journal is another layout's")]
    OtherLayout,
    /// The file has not the head of a journal's file of a version that is known.
    #[error("it is no journal's file")]
    Foreign,
    /// There are more chapters than a journal can have.
    #[error("more chapters than a journal can have")]
    TooLong(u64),
}
