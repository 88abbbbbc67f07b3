//! Texts of parameters and measurements, and texts between quotes.
ghost use Rattle.std.specs.Prelude.{◌≡◌, ◌++◌, length, OnOk, string_bytes};
ghost use Rattle.std.specs.List.{flat_map, list_all};
ghost use Rattle.std.specs.Str.{chars};
ghost use Rattle.xcp_describe.specs.EntryTexts.{is_text_character, is_text_of_entry, quoted_character, quoted_text};

use std::alloc::AllocError;

/// The most characters of a text.
const MOST_CHARACTERS: usize = 128;

/// Whether a character stands in texts: it is no control character, and parts neither lines nor paragraphs.
fn is_text_character(c: char) -> bool
    ensures { result ≡ is_text_character c }
{
    !c.is_control() && c != '\u{2028}' && c != '\u{2029}'
}

/// Whether all characters of a text are such, and there are at most 128.
pub(crate) fn is_text_of_entry(text: &str) -> bool
    ensures { result ≡ is_text_of_entry text.now }
{
    are_text_characters(text) && characters(text) <= MOST_CHARACTERS
}

/// Whether all characters of a text are such.
fn are_text_characters(text: &str) -> bool
    ensures { result ≡ list_all is_text_character (chars text.now) }
{
    text.chars().all(is_text_character)
}

/// How many characters a text has.
fn characters(text: &str) -> usize
    ensures { result ≡ length (chars text.now) }
{
    text.chars().count()
}

/// Appends a character of a text between quotes: a quote and a backslash get a backslash before them.
fn put_character(c: char, text: &mut String) -> Result<(), AllocError>
    ensures { OnOk result (string_bytes text.new ≡ string_bytes text.old ++ quoted_character c) }
{
    match c {
        '"' => text.push_str("\\\""),
        '\\' => text.push_str("\\\\"),
        _ => text.push(c),
    }
}

/// Appends each character of a text between quotes.
fn put_characters(quoted: &str, text: &mut String) -> Result<(), AllocError>
    ensures { OnOk result (string_bytes text.new ≡ string_bytes text.old ++ flat_map quoted_character (chars quoted.now)) }
{
    for c in quoted.chars() {
        put_character(c, text)?;
    }
    Ok(())
}

/// Appends a text between quotes.
pub(crate) fn put_text(quoted: &str, text: &mut String) -> Result<(), AllocError>
    ensures { OnOk result (string_bytes text.new ≡ string_bytes text.old ++ quoted_text quoted.now) }
{
    text.push('"')?;
    put_characters(quoted, text)?;
    text.push('"')
}

/// Appends the first characters of a text of ASCII, at most so many, between quotes. A quote and a backslash get a backslash before
/// them.
pub(crate) fn put_quoted(text: &mut String, bytes: &[u8], most: usize) -> Result<(), AllocError> {
    text.push('"')?;
    for byte in bytes.iter().take(most) {
        if *byte == b'"' || *byte == b'\\' {
            text.push('\\')?;
        }
        text.push(char::from(*byte))?;
    }
    text.push('"')
}
