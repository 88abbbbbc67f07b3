//! Texts of questions with escapes: `\n`, `\r` and `\t` for these bytes, `\\` for a backslash, `\xHH` for the byte with these hex
//! digits, and `{N*TEXT}` for N times TEXT. A brace that begins no such text stands for itself.
use crate::trouble::Trouble;
use hex::FromHexError;
use std::alloc::{AllocError, Global};

/// How often which text is repeated, and the rest, of what stands behind a brace.
fn many(text: &str) -> Option<(u16, &str, &str)> {
    let (many, rest) = text.split_once('}')?;
    let (times, one) = many.split_once('*')?;
    Some((times.parse::<u16>().ok()?, one, rest))
}

/// Adds what stands behind a brace, with it where nothing is repeated.
fn push_repeated(text: &mut String, behind: &str) -> Result<(), AllocError> {
    let Some((times, one, rest)) = many(behind) else {
        text.push('{')?;
        return text.push_str(behind);
    };
    for _ in 0..times {
        text.push_str(one)?;
    }
    text.push_str(rest)
}

/// A text with what is repeated in it.
fn repeated(alloc: Global, text: &str) -> Result<String, AllocError> {
    let (front, behind) = text.split_once('{').unwrap_or((text, ""));
    let mut all = String::from_str(alloc, front)?;
    if front.len() == text.len() {
        return Ok(all);
    }
    for piece in behind.split('{') {
        push_repeated(&mut all, piece)?;
    }
    Ok(all)
}

/// The byte that is meant behind a backslash, and what is left.
fn escaped(text: &str) -> Option<(u8, &str)> {
    let (letter, rest) = text.split_at_checked(1)?;
    let byte = match letter {
        "n" => b'\n',
        "r" => b'\r',
        "t" => b'\t',
        "x" => {
            let (digits, rest) = rest.split_at_checked(2)?;
            return Some((u8::from_str_radix(digits, 16).ok()?, rest));
        }
        _ => return None,
    };
    Some((byte, rest))
}

/// Adds what a text behind a backslash stands for.
fn push_escaped(bytes: &mut Vec<u8>, line: usize, text: &str) -> Result<(), Trouble> {
    let Some((byte, rest)) = escaped(text) else {
        return Err(Trouble::at(line, "nothing is escaped so"));
    };
    bytes.push(byte)?;
    bytes.extend_from_slice(rest.as_bytes())?;
    Ok(())
}

/// The bytes that a text stands for; it stands in this line of the book.
pub fn unescaped(alloc: Global, line: usize, text: &str) -> Result<Vec<u8>, Trouble> {
    let text = repeated(alloc, text)?;
    let mut bytes = Vec::new(alloc);
    let mut is_plain = true;
    for piece in text.as_str().split('\\') {
        if is_plain {
            bytes.extend_from_slice(piece.as_bytes())?;
            is_plain = false;
        } else if piece.is_empty() {
            bytes.push(b'\\')?;
            is_plain = true;
        } else {
            push_escaped(&mut bytes, line, piece)?;
        }
    }
    if is_plain {
        return Err(Trouble::at(line, "a backslash stands at the end"));
    }
    Ok(bytes)
}

/// The bytes that hex digits write, with blanks and line feeds anywhere among them; they stand at this line of the book.
pub fn bytes_of(alloc: Global, line: usize, text: &str) -> Result<Vec<u8>, Trouble> {
    let mut digits = String::new(alloc);
    for word in text.split_whitespace() {
        digits.push_str(word)?;
    }
    match hex::decode(alloc, digits.as_str()) {
        Ok(bytes) => Ok(bytes),
        Err(FromHexError::OutOfMemory) => Err(Trouble::Memory),
        Err(_) => Err(Trouble::at(line, "these are no bytes in hex")),
    }
}
