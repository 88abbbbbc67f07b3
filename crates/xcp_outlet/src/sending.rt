//! The sender of a connection.
ghost use Rattle.std.specs.Prelude.{◌≡◌, [], Err};
ghost use Rattle.xcp_outlet.specs.Sending.{SendsMessages};

use crate::fault::SendError;
use crate::intake::SendEnd;
use crate::line::Line;
use crate::took::Took;
use std::io::Write;
use std::sync::Wait;
use xcp_framing::Watched;

/// The most bytes that a sender's thread writes together.
const WRITE_SIZE: usize = 4096;

/// What a sender has sent, and what it has taken.
#[derive(Drop)]
pub struct SentPackets {
    /// How many packets were sent, modulo 2^64.
    pub count: Result<u64, SendError>,
    pub took: Took,
}

impl SendEnd {
    /// Takes what both ends put, and sends it in frames with one rising CTR, from 0, until both end
    /// marks came or a receive fails. Packets that are there at once are written together, and all
    /// that were taken are written before it waits for the next. After a failed write it goes on
    /// taking, and writes no more.
    pub fn run_sender<R: Wait, W: Write>(self, rt: &R, writer: &mut Watched<W>) -> SentPackets
        ensures same { result.took.outlet ≡ self.outlet }
        ensures sends { SendsMessages result.count result.took.taken
            (W.contents writer.old.inner) (W.contents writer.new.inner)
            writer.old.failures writer.new.failures }
    {
        let (mut intake, frames) = self.open();
        let mut line = Line::new(frames, WRITE_SIZE);
        for _ in rt.forever() {
            if line.replies_ended && line.data_ended {
                break;
            }
            if let Some(message) = intake.take_now(rt) {
                line.add(message, writer);
                continue;
            }
            line.flush(writer);
            let Some(message) = intake.take(rt, &line) else {
                break;
            };
            line.add(message, writer);
        }
        line.flush(writer);
        let count = line.counted();
        SentPackets {
            count,
            took: intake.close(),
        }
    }

    /// Takes nothing and writes nothing, as the sender of a connection whose threads never began:
    /// from now on each put fails. It waits for nothing.
    pub fn give_up(self) -> SentPackets
        ensures same { result.took.outlet ≡ self.outlet }
        ensures none { result.took.taken ≡ [] }
        ensures cut { result.count ≡ Err (SendError.Cut 0) }
    {
        let (intake, _frames) = self.open();
        SentPackets {
            count: Err(SendError::Cut(0)),
            took: intake.close(),
        }
    }
}
