//! The end mark of a file, read and checked.
ghost use Rattle.std.specs.Prelude.{◌≡◌, ◌≢◌, ◌<◌, ◌++◌, ℕ, List, Err, MatchBool, length};
ghost use Rattle.std.specs.Io.KnownBytes.{Consumes, IsAtEnd};
ghost use Rattle.sha2.specs.Hashers.{Holds256};
ghost use Rattle.xcp_record.specs.FileFormat.{mark_head};
ghost use Rattle.xcp_record.specs.private.ReadChapter.{ChecksMark, ReadsMark};

use crate::chapter::{ChapterFault, Parts};
use crate::filling::{ReadFailed, fill};
use crate::head::{END_MARK, chapter_head, digest_of, same};
use sha2::{Digest, Sha256};
use std::io::Read;
use xcp_framing::Watched;

impl Parts {
    /// Whether they begin as an end mark does, as no chapter does.
    pub(crate) fn begin_a_mark(&self) -> bool
        ensures { MatchBool result (self.now.head ≡ mark_head) (self.now.head ≢ mark_head) }
    {
        same(&self.head, &chapter_head(END_MARK, 0, 8))
    }

    /// Whether they are the end mark of so many calls behind what the hasher holds.
    fn check_mark(&self, calls: u64, hasher: &mut Sha256) -> Result<(), ChapterFault>
        requires begins { self.now.head ≡ mark_head }
        requires size { length self.now.calls.items ≡ 8 }
        ensures fine { result ≢ Err ChapterFault.Read }
        ensures checks { (before : List ℕ) → Holds256 hasher.old before
            → ChecksMark calls before (self.now.head ++ self.now.calls.items ++ self.now.digest) result }
    {
        if !same(&self.calls, &calls.to_le_bytes()) {
            return Err(ChapterFault::Altered);
        }
        hasher.update(&self.head);
        hasher.update(&self.calls);
        let digest = digest_of(hasher)?;
        if !same(&digest, &self.digest) {
            return Err(ChapterFault::Altered);
        }
        Ok(())
    }

    /// Whether they are the end mark of so many calls behind what the hasher holds, and the reader is at its end.
    pub(crate) fn end_a_file<R: Read>(
        &self,
        calls: u64,
        reader: &mut Watched<R>,
        hasher: &mut Sha256,
    ) -> Result<(), ChapterFault>
        requires begins { self.now.head ≡ mark_head }
        requires size { length self.now.calls.items ≡ 8 }
        ensures reads { (before : List ℕ) → Holds256 hasher.old before → (more : List ℕ)
            × Consumes (R.remaining reader.old.inner) (R.remaining reader.new.inner) more
            × ReadsMark calls before (IsAtEnd (R.remaining reader.new.inner))
            ((self.now.head ++ self.now.calls.items ++ self.now.digest) ++ more) result }
        ensures unfailed { result ≢ Err ChapterFault.Read → reader.new.failures ≡ reader.old.failures }
        ensures failed { result ≡ Err ChapterFault.Read → reader.old.failures < reader.new.failures }
    {
        if let Err(fault) = self.check_mark(calls, hasher) {
            return Err(fault);
        }
        let mut behind = [0; 1];
        match fill(reader, &mut behind) {
            Ok(0) => Ok(()),
            Ok(_) => Err(ChapterFault::Altered),
            Err(ReadFailed) => Err(ChapterFault::Read),
        }
    }
}
