//! Rows of kinds `audit` and `restored`: the file of the section `journal` or `stored pages` before them, changed as the row says, and
//! what is said of it.
//!
//! The answer of an audit is what `xcpd audit` prints by the layout and the stored pages, and the line of its fault; with `, lines`
//! behind the question, with a line for each call. That of stored pages is the bytes of each segment, in hex with blanks between, once
//! the file is restored, or why it isn't: what isn't restored changes nothing. `of another layout` asks of the whole file where the
//! layout's file has other bytes.
use crate::output::text_of;
use hex::encode_upper;
use sha2::{Digest, Sha256};
use std::alloc::{AllocError, Global};
use std::fmt::Write;
use test_playing::{Row, Section, Trouble};
use xcp_audit::{Printer, head_of, print_audit};
use xcp_describe::a2l_of;
use xcp_flash::restore;
use xcp_framing::Watched;
use xcp_memory::Layout;
use xcp_program::{layout_of, layout_stored};

/// What is done to a file, once for each number from `first` to `last`.
#[derive(Clone, Copy)]
struct Change {
    first: usize,
    last: usize,
    /// Whether the file has so many bytes and no more; else the lowest bit of the byte of this number is another one.
    is_cut: bool,
}

/// The numbers of a text `P to Q`, or of one number.
fn range(text: &str) -> Option<(usize, usize)> {
    let (first, last) = text.split_once(" to ").unwrap_or((text, text));
    Some((first.parse().ok()?, last.parse().ok()?))
}

/// What a text says that is done: nothing (`whole`), another byte (`byte P altered`), each byte in turn (`bytes P to Q altered`), or
/// only its front (`first N bytes`).
fn change_of(text: &str) -> Option<Change> {
    if text == "whole" {
        let (first, last) = (usize::MAX, usize::MAX);
        return Some(Change {
            first,
            last,
            is_cut: true,
        });
    }
    let (numbers, is_cut) = match text.strip_prefix("first ") {
        Some(front) => (front.strip_suffix(" bytes")?, true),
        None => (text.strip_prefix("byte")?.strip_suffix(" altered")?, false),
    };
    let numbers = numbers.strip_prefix("s").unwrap_or(numbers);
    let (first, last) = range(numbers.trim_start())?;
    Some(Change {
        first,
        last,
        is_cut,
    })
}

/// What an audit prints of a file, and the line of its fault.
fn audited(
    alloc: Global,
    section: &Section<'_>,
    file: &[u8],
    lines: bool,
) -> Result<String, Trouble> {
    let text = section.layout()?;
    let a2l = a2l_of(alloc, text, &[])?;
    let layout = layout_stored(alloc, text, a2l, section.pages)?;
    let mut reader = Watched::new(file);
    let mut printer = Printer::new(alloc, Vec::new(alloc));
    let said = print_audit(
        alloc,
        text,
        layout,
        head_of(file),
        &mut reader,
        &mut printer,
        lines,
    );
    Ok(text_of(alloc, printer.into_stream().as_slice(), said)?)
}

/// The bytes of a layout's segments in hex, with a blank behind each.
fn segments(alloc: Global, layout: &Layout) -> Result<String, AllocError> {
    let mut text = String::new(alloc);
    for segment in 0..layout.segment_count() {
        let digits = encode_upper(alloc, layout.segment_bytes(segment))?;
        write!(text, "{digits} ")?;
    }
    Ok(text)
}

/// What is said where a file of stored pages is restored into this layout, whose file has this SHA-256.
fn restored_into(
    alloc: Global,
    layout: &mut Layout,
    digest: &[u8; 32],
    file: &[u8],
) -> Result<String, AllocError> {
    let before = segments(alloc, layout)?;
    let restored = restore(layout, digest, file);
    let after = segments(alloc, layout)?;
    match restored {
        Ok(()) => String::from_str(alloc, after.as_str().trim_end()),
        Err(fault) if before.as_str() == after.as_str() => format!(in alloc; "{fault:?}"),
        Err(fault) => format!(in alloc; "{fault:?}, and the layout has {after}"),
    }
}

/// What is said of a file of stored pages, by the layout's file or by one without a byte.
fn restored(
    alloc: Global,
    section: &Section<'_>,
    file: &[u8],
    other: bool,
) -> Result<String, Trouble> {
    let text = section.layout()?;
    let mut layout = layout_of(alloc, text)?;
    let digest = Sha256::digest(if other { b"" } else { text.as_bytes() });
    Ok(restored_into(alloc, &mut layout, &digest, file)?)
}

/// The question of a row without what it says besides the change, and whether it says that.
fn question_of<'a>(section: &Section<'_>, row: &Row<'a>) -> (&'a str, bool) {
    if section.kind == "restored" {
        let other = row.question == "of another layout";
        return (if other { "whole" } else { row.question }, other);
    }
    match row.question.strip_suffix(", lines") {
        Some(question) => (question, true),
        None => (row.question, false),
    }
}

/// The file that the rows of a section are about.
fn file_of<'a>(section: &Section<'a>) -> Result<&'a [u8], Trouble> {
    if section.kind == "audit" {
        section.wanted(section.journal, "no journal stands before these rows")
    } else {
        section.wanted(section.pages, "no stored pages stand before these rows")
    }
}

/// The file once the change of this number is done to it.
fn changed(
    alloc: Global,
    file: &[u8],
    change: Change,
    number: usize,
) -> Result<Vec<u8>, AllocError> {
    let mut bytes = file.to_vec(alloc)?;
    if change.is_cut {
        bytes.truncate(number);
    } else if let Some(byte) = bytes.get_mut(number) {
        *byte ^= 1;
    }
    Ok(bytes)
}

/// What is said of the file once the change of this number is done to it.
fn said_of(
    alloc: Global,
    section: &Section<'_>,
    change: Change,
    number: usize,
    besides: bool,
) -> Result<String, Trouble> {
    let file = changed(alloc, file_of(section)?, change, number)?;
    if section.kind == "audit" {
        audited(alloc, section, file.as_slice(), besides)
    } else {
        restored(alloc, section, file.as_slice(), besides)
    }
}

/// What is said of each file that a row's change makes: of all the same, or of the first of which it is something else.
pub fn answer_file(alloc: Global, section: &Section<'_>, row: &Row<'_>) -> Result<String, Trouble> {
    let (question, besides) = question_of(section, row);
    let Some(change) = change_of(question) else {
        return Err(Trouble::at(row.line, "nothing is asked of a file so"));
    };
    let mut said = String::new(alloc);
    for number in change.first..=change.last {
        let came = said_of(alloc, section, change, number, besides)?;
        if number == change.first {
            said = came;
        } else if came.as_str() != said.as_str() {
            return Ok(format!(in alloc; "{came}, at {number}")?);
        }
    }
    Ok(said)
}
