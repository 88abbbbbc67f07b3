//! Rows of kind `changes`: what a check says of a layout file that is changed.
//!
//! The question is `OLD => NEW`: the text OLD, which stands in the file once, is replaced by NEW; both may have escapes.
use std::alloc::Global;
use test_playing::{Row, Trouble, unescaped};

/// A file in which the text OLD, which stands there once, is replaced; or why it isn't.
fn replaced(
    alloc: Global,
    line: usize,
    file: &str,
    old: &str,
    new: &[u8],
) -> Result<Vec<u8>, Trouble> {
    let Some((before, behind)) = file.split_once(old) else {
        return Err(Trouble::at(line, "the layout file doesn't have this text"));
    };
    if old.is_empty() || behind.contains(old) {
        return Err(Trouble::at(line, "the layout file has this text twice"));
    }
    let mut bytes = Vec::new(alloc);
    bytes.extend_from_slice(before.as_bytes())?;
    bytes.extend_from_slice(new)?;
    bytes.extend_from_slice(behind.as_bytes())?;
    Ok(bytes)
}

/// The file with a row's change.
pub fn changed(alloc: Global, file: &str, row: &Row<'_>) -> Result<Vec<u8>, Trouble> {
    let (old, new) = match row.question.strip_suffix(" =>") {
        Some(old) => (old, ""),
        None => match row.question.split_once(" => ") {
            Some(change) => change,
            None => return Err(Trouble::at(row.line, "this is no change")),
        },
    };
    let old = unescaped(alloc, row.line, old)?;
    let new = unescaped(alloc, row.line, new)?;
    let old = str::from_utf8(old.as_slice()).unwrap_or("");
    replaced(alloc, row.line, file, old, new.as_slice())
}
