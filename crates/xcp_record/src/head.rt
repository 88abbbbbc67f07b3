//! The heads of a file and of a chapter, and digests of what stands before.
ghost use Rattle.std.specs.Prelude.{◌≡◌, ◌≢◌, ◌<◌, ◌^◌, ℕ, List, IfOk, MatchBool};
ghost use Rattle.sha2.specs.Hashers.{Holds256};
ghost use Rattle.sha2.specs.Sha256.{sha256};
ghost use Rattle.xcp_record.specs.FileFormat.{chapter_head};

use sha2::{Digest, Sha256};
use std::alloc::AllocError;

/// XCPJ, and version 1, its low byte first.
pub(crate) const FIRST_MAGIC: [u8; 6] = [b'X', b'C', b'P', b'J', 1, 0];

/// The same of version 2, which is written.
pub(crate) const MAGIC: [u8; 6] = [b'X', b'C', b'P', b'J', 2, 0];

/// The bytes of a file's head, but for a roster.
pub(crate) const HEAD_BYTES: usize = 38;

/// The bytes of a roster behind them.
pub(crate) const ROSTER_BYTES: usize = 4;

/// The bytes before a chapter's calls.
pub(crate) const CHAPTER_HEAD_BYTES: usize = 16;

/// What stands where a chapter's number would, at the beginning of an end mark: no chapter has it.
pub(crate) const END_MARK: u64 = u64::MAX;

/// A chapter's first bytes: its number, how many calls it has, and how many bytes they take.
#[tactic(auto, unfolding(crate::specs::FileFormat::chapter_head))]
pub(crate) fn chapter_head(number: u64, count: usize, size: usize) -> [u8; CHAPTER_HEAD_BYTES]
    requires count { count < 2 ^ 32 }
    requires size { size < 2 ^ 32 }
    ensures { result ≡ chapter_head number count size }
{
    let n = number.to_le_bytes();
    let c = (count as u32).to_le_bytes();
    let s = (size as u32).to_le_bytes();
    [
        n[0], n[1], n[2], n[3], n[4], n[5], n[6], n[7], c[0], c[1], c[2], c[3], s[0], s[1], s[2],
        s[3],
    ]
}

/// The digest of what a hasher holds.
pub(crate) fn digest_of(hasher: &Sha256) -> Result<[u8; 32], AllocError>
    ensures { IfOk result (λ digest. (message : List ℕ) → Holds256 hasher.now message
        → digest ≡ sha256 message) }
{
    let copy = hasher.clone()?;
    Ok(copy.finalize())
}

/// Whether the bytes are the same.
pub(crate) fn same(a: &[u8], b: &[u8]) -> bool
    ensures { MatchBool result (a.now ≡ b.now) (a.now ≢ b.now) }
{
    a == b
}
