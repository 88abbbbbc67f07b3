//! Keys as TOML writes them.
ghost use Rattle.std.specs.Prelude.{◌≡◌, ◌++◌, ◌<◌, IsTrue, OnOk, string_bytes};
ghost use Rattle.std.specs.List.{flat_map};
ghost use Rattle.std.specs.Str.{chars};
ghost use Rattle.std.specs.Char.{is_control};
ghost use Rattle.xcp_describe.specs.Places.{code_escape, escape, is_bare, is_bare_character, key_text, quoted};

use std::alloc::AllocError;

/// Whether a character stands in keys without quotes.
fn is_bare_character(byte: u8) -> bool
    ensures { result ≡ is_bare_character byte }
{
    byte.is_ascii_alphanumeric() || byte == b'_' || byte == b'-'
}

/// Whether a key needs no quotes.
fn is_bare(key: &str) -> bool
    ensures { result ≡ is_bare key.now }
{
    for byte in key.as_bytes() {
        if !is_bare_character(*byte) {
            return false;
        }
    }
    !key.is_empty()
}

/// Appends a code below 256, in two hex digits.
fn put_code(code: u32, text: &mut String) -> Result<(), AllocError>
    requires { code < 256 }
    ensures { OnOk result (string_bytes text.new ≡ string_bytes text.old ++ code_escape code) }
{
    write!(text, "\\u00{code:02X}")
}

/// Appends a control character in its short form, or by its code.
pub(crate) fn put_escape(c: char, text: &mut String) -> Result<(), AllocError>
    requires { IsTrue (is_control c) }
    ensures { OnOk result (string_bytes text.new ≡ string_bytes text.old ++ escape c) }
{
    match c {
        '\u{8}' => text.push_str("\\b"),
        '\t' => text.push_str("\\t"),
        '\n' => text.push_str("\\n"),
        '\u{c}' => text.push_str("\\f"),
        '\r' => text.push_str("\\r"),
        _ => put_code(u32::from(c), text),
    }
}

/// Appends a character of a key between quotes.
fn put_quoted(c: char, text: &mut String) -> Result<(), AllocError>
    ensures { OnOk result (string_bytes text.new ≡ string_bytes text.old ++ quoted c) }
{
    match c {
        '"' => text.push_str("\\\""),
        '\\' => text.push_str("\\\\"),
        _ if c.is_control() => put_escape(c, text),
        _ => text.push(c),
    }
}

/// Appends each character of a key between quotes.
fn put_characters(key: &str, text: &mut String) -> Result<(), AllocError>
    ensures { OnOk result (string_bytes text.new ≡ string_bytes text.old ++ flat_map quoted (chars key.now)) }
{
    for c in key.chars() {
        put_quoted(c, text)?;
    }
    Ok(())
}

/// Appends a key: as it is, if TOML writes it without quotes, else between them.
pub(crate) fn put_key(key: &str, text: &mut String) -> Result<(), AllocError>
    ensures { OnOk result (string_bytes text.new ≡ string_bytes text.old ++ key_text key.now) }
{
    if is_bare(key) {
        return text.push_str(key);
    }
    text.push('"')?;
    put_characters(key, text)?;
    text.push('"')
}
