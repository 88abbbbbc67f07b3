//! The host at which tools reach the slave.
ghost use Rattle.std.specs.Prelude.{◌↔◌, IsTrue};
ghost use Rattle.xcp_describe.specs.Hosts.{IsHost};

/// The most characters of a host, as the block XCP_ON_TCP_IP has it.
const MOST_CHARACTERS: usize = 255;

/// Whether a text can be a host: a name or an address has printable ASCII characters alone, and no blank.
pub(crate) fn is_host(text: &str) -> bool
    ensures { IsTrue result ↔ IsHost text.now }
{
    if text.is_empty() || text.len() > MOST_CHARACTERS {
        return false;
    }
    for byte in text.as_bytes() {
        if *byte < 0x21 || *byte > 0x7E {
            return false;
        }
    }
    true
}
