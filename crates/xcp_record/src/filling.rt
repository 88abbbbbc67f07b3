//! Reads that fill a buffer.
ghost use Rattle.std.specs.Prelude.{◌≡◌, ◌<◌, ◌≤◌, ◌+◌, ℕ, List, IfOk, OnOk, OnErr, length, take};
ghost use Rattle.std.specs.Io.KnownBytes.{Consumes, IsAtEnd};

use std::io::Read;
use xcp_framing::Watched;

/// A read failed.
#[derive(Clone, Copy, Debug, PartialEq, Eq)]
pub(crate) struct ReadFailed;

/// Reads until the buffer is full or the reader ends, and answers how many bytes there were.
pub(crate) fn fill<R: Read>(reader: &mut Watched<R>, buffer: &mut [u8]) -> Result<usize, ReadFailed>
    ensures size { length buffer.new ≡ length buffer.old }
    ensures within { IfOk result (λ n. n ≤ length buffer.new) }
    ensures bytes { IfOk result (λ n.
        Consumes (R.remaining reader.old.inner) (R.remaining reader.new.inner) (take n buffer.new)) }
    ensures ended { IfOk result (λ n. n < length buffer.old
        → IsAtEnd (R.remaining reader.new.inner)) }
    ensures fine { OnOk result (reader.new.failures ≡ reader.old.failures) }
    ensures failed { OnErr result (reader.new.failures ≡ reader.old.failures + 1) }
    ensures lost { OnErr result ((read : List ℕ)
        × Consumes (R.remaining reader.old.inner) (R.remaining reader.new.inner) read) }
{
    let mut filled = 0;
    while filled < buffer.len() {
        let Ok(count) = reader.read(&mut buffer[filled..]) else {
            return Err(ReadFailed);
        };
        if count == 0 {
            return Ok(filled);
        }
        filled += count;
    }
    Ok(filled)
}
