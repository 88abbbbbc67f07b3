//! By which transport layer tools reach the slave.
ghost use Rattle.std.specs.Prelude.{◌≡◌, ◌++◌, OnOk, string_bytes};
ghost use Rattle.xcp_describe.specs.Transports.{block_begin, block_end, block_name, known_line, transport_block};

use std::alloc::AllocError;

/// By which transport layer tools reach the slave: the two of the standard over Ethernet, whose blocks in IF_DATA have the same members.
#[derive(Clone, Copy, Debug, PartialEq, Eq)]
pub enum Transport {
    /// XCP on TCP/IP.
    Tcp,
    /// XCP on UDP/IP.
    Udp,
}

impl Transport {
    /// The name of its block.
    pub(crate) fn block_name(&self) -> &'static str
        ensures { result.now ≡ block_name self.now }
    {
        match self {
            Transport::Tcp => "XCP_ON_TCP_IP",
            Transport::Udp => "XCP_ON_UDP_IP",
        }
    }

    /// Appends the line of the grammar with which its block begins there.
    pub(crate) fn put_known(&self, text: &mut String) -> Result<(), AllocError>
        ensures { OnOk result (string_bytes text.new ≡ string_bytes text.old ++ known_line self.now) }
    {
        text.push_str("            block \"")?;
        text.push_str(self.block_name())?;
        text.push_str("\" struct {\n")
    }

    /// Appends its block with these lines.
    pub(crate) fn put_block(&self, lines: &str, text: &mut String) -> Result<(), AllocError>
        ensures { OnOk result (string_bytes text.new ≡ string_bytes text.old ++ transport_block self.now lines.now) }
    {
        self.put_begin(text)?;
        text.push_str(lines)?;
        self.put_end(text)
    }

    /// Appends the first line of its block.
    fn put_begin(&self, text: &mut String) -> Result<(), AllocError>
        ensures { OnOk result (string_bytes text.new ≡ string_bytes text.old ++ block_begin self.now) }
    {
        text.push_str("      /begin ")?;
        text.push_str(self.block_name())?;
        text.push_str("\n")
    }

    /// Appends the last line of its block.
    fn put_end(&self, text: &mut String) -> Result<(), AllocError>
        ensures { OnOk result (string_bytes text.new ≡ string_bytes text.old ++ block_end self.now) }
    {
        text.push_str("      /end ")?;
        text.push_str(self.block_name())?;
        text.push_str("\n")
    }
}
