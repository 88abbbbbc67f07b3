//! Why a replay ended before its script did.
use thiserror::Error;

/// Why a replay ended before its script did.
#[derive(Clone, Copy, Debug, Error, PartialEq, Eq, Drop)]
pub enum ReplayError {
    /// The line of this number is faulty. All lines are counted, from 1.
    #[error("line {0} is faulty")]
    Line(u64),
    /// A read failed, or there were as many as the turns allow and the script had not ended.
    #[error("a read failed")]
    Read,
    /// A write failed: it gave an error, or took no byte of some.
    #[error("a write failed")]
    Write,
    /// There was no memory for an exchange, or for the text of the answers.
    #[error("no memory is left")]
    Memory,
}
