//! Texts from elsewhere, without control characters.
ghost use Rattle.std.specs.Prelude.{OnOk, string_bytes};
ghost use Rattle.xcp_describe.specs.private.PlainText.{AppendsPlain};

use crate::key_text::put_escape;
use std::alloc::AllocError;

/// Appends a character, or what TOML writes for it if it is a control character.
fn put_character(c: char, text: &mut String) -> Result<(), AllocError>
    ensures { OnOk result (AppendsPlain (string_bytes text.old) (string_bytes text.new)) }
{
    if c.is_control() {
        put_escape(c, text)
    } else {
        text.push(c)
    }
}

/// Appends each character of a text so.
fn put_characters(line: &str, text: &mut String) -> Result<(), AllocError>
    ensures { OnOk result (AppendsPlain (string_bytes text.old) (string_bytes text.new)) }
{
    for c in line.chars() {
        put_character(c, text)?;
    }
    Ok(())
}

/// Appends the lines of a text, a colon and a blank before each.
pub(crate) fn put_lines(lines: &str, text: &mut String) -> Result<(), AllocError>
    ensures { OnOk result (AppendsPlain (string_bytes text.old) (string_bytes text.new)) }
{
    for line in lines.lines() {
        text.push_str(": ")?;
        put_characters(line, text)?;
    }
    Ok(())
}
