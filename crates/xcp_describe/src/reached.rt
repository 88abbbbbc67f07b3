//! Where tools reach the slave.
ghost use Rattle.std.specs.Prelude.{◌≡◌, ◌++◌, ◌<◌, IfOk, OnOk, string_bytes};
ghost use Rattle.std.specs.List.{list_all};
ghost use Rattle.xcp_describe.specs.Transports.{hex_text, host_line, host_word, is_address_character, port_line, reached_lines, version_line};

use crate::text::put_text;
use crate::transport::Transport;
use std::alloc::{AllocError, Global};

/// Where tools reach the slave.
#[derive(Clone, Copy)]
pub(crate) struct Reached<'a> {
    /// The host.
    pub(crate) host: &'a str,
    /// The port.
    pub(crate) port: u16,
    /// By which transport layer.
    pub(crate) transport: Transport,
}

impl Reached<'_> {
    /// The lines of the transport layer's block, for this major version of it.
    pub(crate) fn lines(&self, alloc: Global, version: u8) -> Result<String, AllocError>
        ensures byte { version < 256 }
        ensures lines { IfOk result (λ text. string_bytes text ≡ reached_lines version self.now.port self.now.host.now) }
    {
        let mut text = String::new(alloc);
        put_version(version, &mut text)?;
        put_port(self.port, &mut text)?;
        put_host(self.host, &mut text)?;
        Ok(text)
    }
}

/// Appends the line of the version.
fn put_version(version: u8, text: &mut String) -> Result<(), AllocError>
    ensures { OnOk result (string_bytes text.new ≡ string_bytes text.old ++ version_line version) }
{
    text.push_str("        0x")?;
    put_hex(u32::from(version), text)?;
    text.push_str("00 /* version */\n")
}

/// Appends a byte, in two hex digits.
fn put_hex(byte: u32, text: &mut String) -> Result<(), AllocError>
    requires { byte < 256 }
    ensures { OnOk result (string_bytes text.new ≡ string_bytes text.old ++ hex_text byte) }
{
    write!(text, "{byte:02X}")
}

/// Appends the line of the port.
#[tactic(auto, unfolding(crate::specs::Transports::port_line))]
fn put_port(port: u16, text: &mut String) -> Result<(), AllocError>
    ensures { OnOk result (string_bytes text.new ≡ string_bytes text.old ++ port_line port) }
{
    write!(text, "        {port} /* port */\n")
}

/// Appends the line of the host.
#[tactic(auto, unfolding(crate::specs::Transports::host_line))]
fn put_host(host: &str, text: &mut String) -> Result<(), AllocError>
    ensures { OnOk result (string_bytes text.new ≡ string_bytes text.old ++ host_line host.now) }
{
    text.push_str("        ")?;
    text.push_str(kind_of(host))?;
    text.push_str(" ")?;
    put_text(host, text)?;
    text.push_str("\n")
}

/// What names a host: its address, if it has digits and points alone and as few as an address has, or its name.
#[tactic(auto, unfolding(crate::specs::Transports::host_word))]
fn kind_of(host: &str) -> &'static str
    ensures { result.now ≡ host_word host.now }
{
    if are_address_characters(host.as_bytes()) && host.len() <= 15 {
        "ADDRESS"
    } else {
        "HOST_NAME"
    }
}

/// Whether all characters of a text are digits and points.
fn are_address_characters(text: &[u8]) -> bool
    ensures { result ≡ list_all is_address_character text.now }
{
    text.iter()
        .all(|byte| *byte == b'.' || byte.is_ascii_digit())
}
