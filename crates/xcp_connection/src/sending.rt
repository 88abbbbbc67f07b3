//! What a connection has written, once nobody puts any more.
ghost use Rattle.xcp_connection.specs.Sending.{WroteAs};

use std::io::Write;
use std::snapshot::Snapshot;
use std::sync::Wait;
use xcp_framing::Watched;
use xcp_outlet::{Dispatch, LineName, SentPackets};

/// What comes of sending. The writer was dropped at its end, and contracts alone see how it was
/// then.
#[derive(Drop)]
pub struct Wrote<O: Write + Drop> {
    pub sent: SentPackets,
    pub writer: Snapshot<Watched<O>>,
}

/// Writes what both ends have put and nobody has written yet, and drops the writer.
pub fn finish<L: LineName, O: Write + Drop, R: Wait>(rt: &R, dispatch: Dispatch<L, O>) -> Wrote<O>
    ensures { WroteAs O.contents (L.outlet dispatch.place) (L.before dispatch.place) (L.failures dispatch.place) result }
{
    let (sent, writer) = dispatch.finish(rt);
    Wrote {
        sent,
        writer: Snapshot::of(&writer),
    }
}
