//! What a command of the program writes.
use std::alloc::{AllocError, Global};
use std::fmt::{Display, Write};

/// What a command wrote, and the line of the fault with which it ended; without the last line feed, which has to be there.
pub fn text_of<T: Drop, E: Display + Drop>(
    alloc: Global,
    written: &[u8],
    ended: Result<T, E>,
) -> Result<String, AllocError> {
    let mut text = String::from_utf8_lossy(alloc, written)?;
    if let Err(fault) = ended {
        writeln!(text, "xcpd: {fault}")?;
    }
    if !text.is_empty() && text.pop() != Some('\n') {
        text.push_str(" and no line feed")?;
    }
    Ok(text)
}
