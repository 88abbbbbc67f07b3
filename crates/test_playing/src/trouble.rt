//! Why a row isn't answered, or a book isn't played to its end.
use std::alloc::{AllocError, AllocFailed, Global};
use xcp_program::Fault;

/// Why a row isn't answered, or a book isn't played to its end.
#[derive(Drop)]
pub enum Trouble {
    /// An allocation failed.
    Memory,
    /// The text is no book: the number of the line in it, from 1, and what is wrong there.
    NoBook { line: usize, why: &'static str },
    /// The program refuses what the row stands on: the row's answer is the line of this fault.
    Refused(Fault),
}

impl Trouble {
    /// The text is no book from this line on.
    pub fn at(line: usize, why: &'static str) -> Trouble {
        Trouble::NoBook { line, why }
    }
}

/// What came, or the line of the fault where the program refuses what it is asked of.
pub fn or_refusal(alloc: Global, came: Result<String, Trouble>) -> Result<String, Trouble> {
    match came {
        Err(Trouble::Refused(fault)) => Ok(format!(in alloc; "xcpd: {fault}")?),
        other => other,
    }
}

impl From<Fault> for Trouble {
    fn from(fault: Fault) -> Trouble {
        Trouble::Refused(fault)
    }
}

impl From<AllocError> for Trouble {
    fn from(_: AllocError) -> Trouble {
        Trouble::Memory
    }
}

impl<T: Drop> From<AllocFailed<T>> for Trouble {
    fn from(_: AllocFailed<T>) -> Trouble {
        Trouble::Memory
    }
}
