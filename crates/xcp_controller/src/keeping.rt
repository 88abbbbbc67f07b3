//! Requests after which the controller's image is the same.
ghost use Rattle.std.specs.Prelude.{◌≡◌, ◌≢◌, slice_index, true};
ghost use Rattle.xcp_slave.specs.AskedRequest.{request_asked};
ghost use Rattle.xcp_slave.specs.MemoryEffects.{IsNoWrite};
ghost use Rattle.xcp_controller.specs.KeptImages.{KeepsImage};

use xcp_slave::Asked;

/// The code of COPY_CAL_PAGE.
pub(crate) const COPY_CAL_PAGE: u8 = 0xE4;

/// The code of SET_CAL_PAGE. The codes behind it, up to that of DOWNLOAD, are those of the commands
/// that write.
pub(crate) const SET_CAL_PAGE: u8 = 0xEB;

const DOWNLOAD: u8 = 0xF0;

/// Whether this is a request after which the controller's image is the same, whichever slave it is.
/// False says nothing: the image may be the same.
pub fn keeps_image(asked: Asked<'_>) -> bool
    ensures { result ≡ true → KeepsImage (request_asked asked.entry) }
{
    match asked {
        Asked::Command(packet) => is_reading(packet),
        Asked::Event(_, _) | Asked::Drain | Asked::Hangup | Asked::Time(_) | Asked::Signals(_, _) =>
            true,
        Asked::FinishStore => false,
    }
}

/// Whether a command packet neither writes nor switches nor copies a page, by its code.
pub fn is_reading(packet: &[u8]) -> bool
    ensures { result ≡ true → (slice_index packet.now 0 ≢ 0xEB) × (slice_index packet.now 0 ≢ 0xE4)
        × IsNoWrite packet.now }
{
    match packet {
        [] => true,
        [code, ..] => *code != COPY_CAL_PAGE && (*code < SET_CAL_PAGE || DOWNLOAD < *code),
    }
}
