//! Why a call was not accepted.
ghost use Rattle.std.specs.Prelude.{◌≡◌};
ghost use Rattle.xcp_locked.specs.FaultNumbers.{locked_number};

use thiserror::Error;

/// Why a call was not accepted. Nothing was executed, and nothing changed.
#[derive(Clone, Copy, Debug, Error, PartialEq, Eq, Drop)]
pub enum LockedError {
    /// There was no memory for the entry or for its receipt.
    #[error("no memory is left for an entry")]
    Memory,
    /// The journal has all the entries that it takes.
    #[error("the journal is full")]
    JournalFull,
    /// The open chapter has the last number.
    #[error("no chapter can follow")]
    LastChapter,
    /// What is held was published before the open chapter.
    #[error("the publication is of an earlier chapter")]
    Earlier,
}

impl LockedError {
    /// The error's number: 1 Memory, 2 JournalFull, 4 LastChapter, 5 Earlier.
    pub fn number(&self) -> u8
        ensures { result ≡ locked_number self.now }
    {
        match self {
            LockedError::Memory => 1,
            LockedError::JournalFull => 2,
            LockedError::LastChapter => 4,
            LockedError::Earlier => 5,
        }
    }
}
