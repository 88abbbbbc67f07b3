//! The head of a file, and digests.
ghost use Rattle.std.specs.Prelude.{◌≡◌, ◌≢◌, ◌≤◌, MatchBool, drop, length, take};
ghost use Rattle.sha2.specs.Sha256.{sha256};
ghost use Rattle.xcp_flash.specs.FlashFile.{flash_magic};

use sha2::{Digest, Sha256};

/// XCPF, and the version, its low byte first.
pub(crate) const MAGIC: [u8; 6] = [b'X', b'C', b'P', b'F', 1, 0];

/// The bytes of the head.
pub(crate) const HEAD_BYTES: usize = 38;

/// The bytes of a digest.
pub(crate) const DIGEST_BYTES: usize = 32;

/// Whether a file begins with the magic and the version.
pub(crate) fn has_magic(file: &[u8]) -> bool
    ensures { MatchBool result (take 6 file.now ≡ flash_magic) (take 6 file.now ≢ flash_magic) }
{
    if file.len() < MAGIC.len() {
        return false;
    }
    same(&file[..6], &MAGIC)
}

/// Whether a head is of the layout file that has this SHA-256.
pub(crate) fn names(head: &[u8], layout_digest: &[u8; 32]) -> bool
    requires { 6 ≤ length head.now }
    ensures { MatchBool result (drop 6 head.now ≡ layout_digest.now) (drop 6 head.now ≢ layout_digest.now) }
{
    let (_, named) = head.split_at(MAGIC.len());
    same(named, layout_digest)
}

/// The SHA-256 of bytes.
pub(crate) fn digest_of(bytes: &[u8]) -> [u8; DIGEST_BYTES]
    ensures { result ≡ sha256 bytes.now }
{
    Sha256::digest(bytes)
}

/// Whether the bytes are the same.
pub(crate) fn same(a: &[u8], b: &[u8]) -> bool
    ensures { MatchBool result (a.now ≡ b.now) (a.now ≢ b.now) }
{
    a == b
}
