// The word in which a bank has the current buffer and its pins.
ghost use Rattle.std.specs.Prelude.{◌≡◌, ℕ, ◌<◌};
ghost use Rattle.pin_core.specs.CurrentWord.{head_of};

use crate::BUFFERS;

// What the current buffer counts in the word.
const INDEX: u64 = 0x1_0000_0000;

/// The word that tells the current buffer and how many pins it got: `index * 2^32 + count`.
pub fn head(index: u8, count: u32) -> u64
    requires buffer { index < BUFFERS }
    ensures made { result ≡ head_of index count }
    ensures read_back { (i c : ℕ) → c < 4294967296 → head_of i c ≡ result → (i ≡ index) × (c ≡ count) }
{
    u64::from(index) * INDEX + u64::from(count)
}

/// The current buffer and its pins, as the word tells them.
pub fn parts(word: u64) -> (u8, u32)
    requires tells_a_buffer { word < head_of BUFFERS 0 }
    ensures made_of { head_of result.0 result.1 ≡ word }
    ensures buffer { result.0 < BUFFERS }
    ensures only { (i c : ℕ) → c < 4294967296 → head_of i c ≡ word → (i ≡ result.0) × (c ≡ result.1) }
{
    ((word / INDEX) as u8, (word % INDEX) as u32)
}
