//! Frames that are to be sent, in datagrams.
ghost use Rattle.std.specs.Prelude.{◌≤◌, ℕ, IfNone, IfSome, length, take};
ghost use Rattle.xcp_datagrams.specs.Datagrams.{Fills, IsWholeFrames};

use crate::cutting::LONGEST;
use crate::head::head;

/// How many bytes of these frames the next datagram takes: as many whole frames, from the front, as 1,472 bytes hold. `None` where no
/// frame stands whole at the front, or it is too long for a datagram.
pub fn filling(frames: &[u8]) -> Option<usize>
    ensures fills { IfSome result (λ n. Fills 255 frames.now n) }
    ensures none { IfNone result ((k : ℕ) → k ≤ length frames.now → ¬ (IsWholeFrames 255 (take k frames.now))) }
{
    let mut at = 0;
    while let Some(size) = head(u8::MAX, &frames[at..]) {
        if at + size > LONGEST {
            break;
        }
        at += size;
    }
    if at == 0 { None } else { Some(at) }
}
