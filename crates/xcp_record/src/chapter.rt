//! One chapter of a file, read and checked.
ghost use Rattle.std.specs.Prelude.{◌≡◌, ◌≢◌, ◌<◌, ◌≤◌, ◌⊎◌, ◌++◌, ℕ, List, IfSome, IfNone, IfOk, IfErr, OnOk, OnErr, Err, length, take};
ghost use Rattle.std.specs.Io.KnownBytes.{Consumes, IsAtEnd};
ghost use Rattle.sha2.specs.Hashers.{Holds256};
ghost use Rattle.xcp_record.specs.FileFormat.{size_in};
ghost use Rattle.xcp_record.specs.private.Calls.{SpellsCalls};
ghost use Rattle.xcp_record.specs.private.ReadChapter.{ChecksChapter, ReadsParts};

use crate::filling::{ReadFailed, fill};
use crate::head::{CHAPTER_HEAD_BYTES, chapter_head, digest_of, same};
use sha2::{Digest, Sha256};
use std::alloc::{AllocError, Global};
use std::io::Read;
use xcp_framing::Watched;
use xcp_trace::LentEntry;

/// The most calls of a chapter.
pub(crate) const MOST_CALLS: usize = 65_536;

/// The most bytes of a chapter's calls: each has 519 at most.
const MOST_BYTES: usize = 519 * MOST_CALLS;

/// Why no chapter was read.
#[derive(Clone, Copy, Debug, PartialEq, Eq)]
pub(crate) enum ChapterFault {
    Read,
    Memory,
    Cut,
    Altered,
}

impl From<AllocError> for ChapterFault {
    ghost use Rattle.xcp_record.specs.declared.chapter.ChapterFault.TheVariants as faults;

    ghost from_gives = { λ _ r. r ≡ faults.Memory };

    fn from(_error: AllocError) -> ChapterFault {
        ChapterFault::Memory
    }
}

/// The parts of a chapter, as they were read, or of an end mark, which has the same.
#[derive(Drop)]
pub(crate) struct Parts {
    pub(crate) head: [u8; CHAPTER_HEAD_BYTES],
    pub(crate) calls: Vec<u8>,
    pub(crate) digest: [u8; 32],
}

impl Parts {
    /// No chapter yet. It takes no memory.
    pub(crate) fn new(alloc: Global) -> Parts {
        Parts {
            head: [0; CHAPTER_HEAD_BYTES],
            calls: Vec::new(alloc),
            digest: [0; 32],
        }
    }

    /// Reads the parts of the next chapter or of the end mark, if the reader isn't at its end.
    pub(crate) fn read<R: Read>(&mut self, reader: &mut Watched<R>) -> Result<bool, ChapterFault>
        ensures read { (read : List ℕ)
            × Consumes (R.remaining reader.old.inner) (R.remaining reader.new.inner) read
            × ReadsParts (IsAtEnd (R.remaining reader.new.inner)) self.new.head self.new.calls.items self.new.digest read result }
        ensures unfailed { result ≢ Err ChapterFault.Read → reader.new.failures ≡ reader.old.failures }
        ensures failed { result ≡ Err ChapterFault.Read → reader.old.failures < reader.new.failures }
    {
        let Ok(got) = fill(reader, &mut self.head) else {
            return Err(ChapterFault::Read);
        };
        if got == 0 {
            return Ok(false);
        }
        if got < CHAPTER_HEAD_BYTES {
            return Err(ChapterFault::Cut);
        }
        let head = &self.head;
        let size = u32::from_le_bytes([head[12], head[13], head[14], head[15]]) as usize;
        if size > MOST_BYTES {
            return Err(ChapterFault::Altered);
        }
        let calls = match read_calls(reader, &mut self.calls, size) {
            Ok(calls) => calls,
            Err(fault) => return Err(fault),
        };
        if calls < size {
            return Err(ChapterFault::Cut);
        }
        let Ok(last) = fill(reader, &mut self.digest) else {
            return Err(ChapterFault::Read);
        };
        if last < 32 {
            return Err(ChapterFault::Cut);
        }
        Ok(true)
    }

    /// How many calls the chapter has, if it stands there with this number behind what the hasher holds.
    /// The hasher holds it too then.
    pub(crate) fn check(&self, number: u64, hasher: &mut Sha256) -> Result<u64, ChapterFault>
        requires size { length self.now.calls.items ≡ size_in self.now.head }
        requires most { length self.now.calls.items ≤ MOST_BYTES }
        ensures fine { result ≢ Err ChapterFault.Read }
        ensures checks { (before : List ℕ) → Holds256 hasher.old before → ChecksChapter number before (self.now.head ++ self.now.calls.items ++ self.now.digest) self.now.calls.items hasher.new result }
    {
        hasher.update(&self.head);
        hasher.update(&self.calls);
        let digest = digest_of(hasher)?;
        if !same(&digest, &self.digest) {
            return Err(ChapterFault::Altered);
        }
        hasher.update(&self.digest);
        let Some(count) = count_calls(&self.calls) else {
            return Err(ChapterFault::Altered);
        };
        if count > MOST_CALLS {
            return Err(ChapterFault::Altered);
        }
        let head = chapter_head(number, count, self.calls.len());
        if !same(&head, &self.head) {
            return Err(ChapterFault::Altered);
        }
        Ok(count as u64)
    }
}

/// Reads so many bytes in place of those that there are, or as many as the reader has left, and answers how many.
fn read_calls<R: Read>(
    reader: &mut Watched<R>,
    calls: &mut Vec<u8>,
    size: usize,
) -> Result<usize, ChapterFault>
    ensures size { OnOk result (length calls.new.items ≡ size) }
    ensures within { IfOk result (λ n. n ≤ size) }
    ensures bytes { IfOk result (λ n. Consumes (R.remaining reader.old.inner) (R.remaining reader.new.inner) (take n calls.new.items)) }
    ensures ended { IfOk result (λ n. n < size → IsAtEnd (R.remaining reader.new.inner)) }
    ensures lost { OnErr result ((read : List ℕ) × Consumes (R.remaining reader.old.inner) (R.remaining reader.new.inner) read) }
    ensures refused { IfErr result (λ e. (e ≡ ChapterFault.Read) ⊎ (e ≡ ChapterFault.Memory)) }
    ensures unfailed { result ≢ Err ChapterFault.Read → reader.new.failures ≡ reader.old.failures }
    ensures failed { result ≡ Err ChapterFault.Read → reader.old.failures < reader.new.failures }
{
    calls.clear();
    if calls.resize(size, 0).is_err() {
        return Err(ChapterFault::Memory);
    }
    match fill(reader, calls.as_mut_slice()) {
        Ok(got) => Ok(got),
        Err(ReadFailed) => Err(ChapterFault::Read),
    }
}

/// How many calls these bytes spell, if they do.
fn count_calls(bytes: &[u8]) -> Option<usize>
    ensures some { IfSome result (λ count. (strings : List (List ℕ)) × SpellsCalls bytes.now strings × (length strings ≡ count)) }
    ensures none { IfNone result ((strings : List (List ℕ)) → SpellsCalls bytes.now strings → ⊥) }
{
    let mut left = bytes;
    let mut count = 0;
    while !left.is_empty() {
        let Some((_, more)) = LentEntry::first(left) else {
            return None;
        };
        left = more;
        count += 1;
    }
    Some(count)
}
