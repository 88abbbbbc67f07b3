//! Why the program ends early.
ghost use Rattle.std.specs.Prelude.{◌≡◌};

use thiserror::Error;

/// Why the program ends early: one line on standard error behind `xcpd: `, and a status.
#[derive(Clone, Copy, Debug, PartialEq, Eq, Error)]
pub enum Fault {
    /// The configuration: 0 where the file can't be read within 65,536 bytes, 1 to 6 where it
    /// describes no layout, by the number of its first fault; 7 where it asks that tools get the A2L
    /// file from the slave, and none can be made of it.
    #[error("configuration {0}")]
    Configuration(u8),
    /// The first faulty line, where all lines are counted from 1.
    #[error("line {0}")]
    Line(u64),
    /// A stream: 1 where reading failed (or a replay took too many reads), 2 where writing failed. Of a server also
    /// 0 where listening or accepting failed, 3 where a frame is too long, 4 where it is cut short, 6 where a
    /// connection took too many reads, 7 where the journal is full; of several faulty connections the first that was
    /// accepted counts.
    #[error("stream {0}")]
    Stream(u8),
    /// An allocation failed, or a thread could not be started.
    #[error("memory")]
    Memory,
    /// The chapter of this number, from 0, which may be the open one, doesn't begin where the one before ended, or has
    /// another number or count of calls before it.
    #[error("mismatch chapter {0}")]
    MismatchedChapter(u64),
    /// A caller's receipts differ from its calls in a chapter: the first chapter in which one differs.
    #[error("mismatch caller {caller} at {at}")]
    Mismatch {
        /// The caller's number, from 0.
        caller: u8,
        /// The first place that differs among its receipts of that chapter, from 0; the shorter length where one list
        /// ends.
        at: usize,
    },
    /// The call of this index in a journal's file, from 0, is the first that has another answer than the slave's.
    #[error("mismatch call {0}")]
    MismatchedCall(u64),
    /// A journal's file. Of one that is audited: 0 if it can't be opened, 1 if reading failed, 3 if it ends inside a chapter or its end mark,
    /// 4 if one of these isn't as it was written, 5 if it is of another layout, 6 if it is not such a file, is of another version, or has more
    /// chapters than a journal can have. Of one that a server writes: 1 if it can't be made, or is there already, 2 if not all could be
    /// written.
    #[error("journal {0}")]
    Journal(u8),
    /// The file of the stored pages: 1 if it can't be read, is of another layout, cut short or altered, 2 if not all could be written, or
    /// no file can be made beside it, 3 if another program keeps it.
    #[error("flash {0}")]
    Flash(u8),
    /// The layout has a clock, and a server that ends tells its slave no time; one that stays does.
    #[error("clock: only a server that stays tells the time")]
    Clock,
}

impl Fault {
    ghost use Rattle.xcp_program.specs.ExitStatus.{exit_status};

    /// The status with which the program ends, 1 to 6.
    pub fn status(&self) -> u8
        ensures { result ≡ exit_status self.now }
    {
        match self {
            Fault::Configuration(_) | Fault::Clock => 1,
            Fault::Line(_) => 2,
            Fault::Stream(_) => 3,
            Fault::Memory => 4,
            Fault::MismatchedChapter(_) | Fault::MismatchedCall(_) | Fault::Mismatch { .. } => 5,
            Fault::Journal(_) | Fault::Flash(_) => 6,
        }
    }
}
