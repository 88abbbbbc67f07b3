//! Why nobody could listen.
ghost use Rattle.std.specs.Prelude.{◌≡◌};
ghost use Rattle.xcp_telling.specs.FaultWords.{words_of_listening};

use std::io::ErrorKind;

/// The words on a port at which the system lets nobody listen, by the kind of its error.
pub fn words_of_listening(kind: ErrorKind) -> &'static str
    ensures { result.now ≡ words_of_listening kind }
{
    match kind {
        ErrorKind::AddrInUse => "the port is taken",
        ErrorKind::AddrNotAvailable => "this machine doesn't have that address",
        ErrorKind::PermissionDenied => "the system doesn't allow it",
        ErrorKind::OutOfMemory => "memory is lacking",
        _ => "the host is unknown",
    }
}
