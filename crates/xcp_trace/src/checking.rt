//! Whether bytes that come from elsewhere begin with a string that spells an entry.
ghost use Rattle.std.specs.Prelude.{◌≡◌, ◌≢◌, ◌++◌, ◌↔◌, ℕ, List, IfSome, IfNone, IsTrue};
ghost use Rattle.xcp_trace.specs.EntrySpelling.{IsEntryString};
ghost use Rattle.xcp_trace.specs.Tape.{framed};

use crate::journal::CALLER_BYTES;
use crate::spelling::{HEAD_BYTES, TIME_BYTES};
use crate::tape::LENGTH_BYTES;

/// The string of an entry at the head of the bytes, behind its length, and the bytes behind it; none
/// where no such string stands there.
pub(crate) fn first_string(bytes: &[u8]) -> Option<(&[u8], &[u8])>
    ensures some { IfSome result (λ r. (bytes.now ≡ framed r.0.now ++ r.1.now)
        × IsEntryString r.0.now) }
    ensures none { IfNone result ((string others : List ℕ) → IsEntryString string
        → bytes.now ≢ framed string ++ others) }
{
    if bytes.len() < LENGTH_BYTES {
        return None;
    }
    let (size, more) = bytes.split_at(LENGTH_BYTES);
    let size = u16::from_le_bytes([size[0], size[1]]) as usize;
    if more.len() < size {
        return None;
    }
    let (string, others) = more.split_at(size);
    if !spells_entry(string) {
        return None;
    }
    Some((string, others))
}

/// The last tag of a request that is neither a time nor signals.
const TAG_OF_HANGUP: u8 = 4;

/// The tag of a request that hands signals over. Each other one behind the last is a time.
const TAG_OF_SIGNALS: u8 = 6;

/// Whether a string spells an entry.
fn spells_entry(string: &[u8]) -> bool
    ensures { IsTrue result ↔ IsEntryString string.now }
{
    if string.len() < CALLER_BYTES + HEAD_BYTES {
        return false;
    }
    let asked = string[6] as usize;
    if string[1] > TAG_OF_HANGUP && string[1] != TAG_OF_SIGNALS && asked != TIME_BYTES {
        return false;
    }
    let head = CALLER_BYTES + HEAD_BYTES + asked;
    head <= string.len()
        && string.len() <= head + 255
        && (string[1] != 1 || asked <= 64)
        && (string[4] <= 9 || (7 <= string[5] && string[5] <= 254))
}
