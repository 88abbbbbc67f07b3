//! The head of a journal's file, and the layout that it names.
ghost use Rattle.std.specs.Fmt.{option_append};
ghost use Rattle.std.specs.Prelude.{◌≡◌, ◌≢◌, ◌<◌, ◌≤◌, ◌+◌, IfErr, IfOk, IfSome, MatchBool, OnErr, OnOk, Some, take};
ghost use Rattle.std.specs.Io.Chain.{chain_remaining};
ghost use Rattle.std.specs.Io.KnownBytes.{Consumes, IsAtEnd};
ghost use Rattle.xcp_audit.specs.Naming.{IsHeadBefore, IsReadBy, named_in};

use sha2::{Digest, Sha256};
use std::io::{Chain, Read};
use xcp_framing::Watched;
use xcp_memory::Layout;
use xcp_program::{Fault, answers_digest};

/// How many bytes of a journal's file say of which layout it is: a magic and a version, of 6 bytes, and the 32 by which it names the layout.
pub const HEAD_BYTES: usize = 38;

/// Reads the head of a journal's file: its first 38 bytes, or all that it has. `Journal(1)` where a read fails.
#[tactic(auto, using(crate::proofs::HeadLemmas::is_head))]
pub fn read_head<'a, R: Read>(
    file: &mut Watched<R>,
    bytes: &'a mut [u8; HEAD_BYTES],
) -> Result<&'a [u8], Fault>
    ensures bytes { IfOk result (λ head. Consumes (R.remaining file.old.inner) (R.remaining file.new.inner) head.now) }
    ensures whole { IfOk result (λ head. IsHeadBefore head.now (R.remaining file.new.inner)) }
    ensures unfailed { OnOk result (file.new.failures ≡ file.old.failures) }
    ensures failed { OnErr result (file.new.failures ≡ file.old.failures + 1) }
    ensures fault { IfErr result (λ f. f ≡ Fault.Journal 1) }
{
    let count = fill(file, bytes)?;
    Ok(&bytes[..count])
}

/// Reads until all these bytes are read, or the file ends, and answers how many there were.
fn fill<R: Read>(file: &mut Watched<R>, bytes: &mut [u8; HEAD_BYTES]) -> Result<usize, Fault>
    ensures within { IfOk result (λ n. n ≤ 38) }
    ensures bytes { IfOk result (λ n. Consumes (R.remaining file.old.inner) (R.remaining file.new.inner) (take n bytes.new)) }
    ensures ended { IfOk result (λ n. n < 38 → IsAtEnd (R.remaining file.new.inner)) }
    ensures unfailed { OnOk result (file.new.failures ≡ file.old.failures) }
    ensures failed { OnErr result (file.new.failures ≡ file.old.failures + 1) }
    ensures fault { IfErr result (λ f. f ≡ Fault.Journal 1) }
{
    let mut count = 0;
    while count < HEAD_BYTES {
        let Ok(more) = file.read(&mut bytes[count..]) else {
            return Err(Fault::Journal(1));
        };
        if more == 0 {
            return Ok(count);
        }
        count += more;
    }
    Ok(count)
}

/// A journal's file from its beginning, behind whose head it stands.
pub fn from_head<R: Read>(head: &[u8], file: Watched<R>) -> Watched<Chain<&[u8], R>>
    ensures bytes { chain_remaining (λ h. Some h.now) R.remaining result.inner ≡ option_append (Some head.now) (R.remaining file.inner) }
    ensures head { IsHeadBefore head.now (R.remaining file.inner)
        → IfSome (chain_remaining (λ h. Some h.now) R.remaining result.inner) (λ all. head.now ≡ take 38 all) }
    ensures failures { result.failures ≡ 0 }
{
    Watched::new(head.chain(file.into_inner()))
}

/// The head of a journal's file with these bytes: the first 38, or all.
#[tactic(auto, using(crate::proofs::HeadLemmas::all_of))]
pub fn head_of(file: &[u8]) -> &[u8]
    ensures { result.now ≡ take 38 file.now }
{
    if file.len() < HEAD_BYTES {
        return file;
    }
    &file[..HEAD_BYTES]
}

/// The SHA-256 by which a file is audited that begins with these bytes, of this layout, which the text of the layout file describes.
pub(crate) fn digest_for(config: &str, layout: &Layout, head: &[u8]) -> [u8; 32]
    ensures { IsReadBy config.now layout.now (named_in head.now) result }
{
    let text = Sha256::digest(config.as_bytes());
    if names(head, &text) {
        return text;
    }
    answers_digest(layout)
}

/// Whether a file that begins with these bytes names this.
fn names(head: &[u8], digest: &[u8; 32]) -> bool
    ensures { MatchBool result (named_in head.now ≡ digest.now) (named_in head.now ≢ digest.now) }
{
    if head.len() < HEAD_BYTES {
        return false;
    }
    same(&head[6..HEAD_BYTES], digest)
}

/// Whether the bytes are the same.
fn same(a: &[u8], b: &[u8]) -> bool
    ensures { MatchBool result (a.now ≡ b.now) (a.now ≢ b.now) }
{
    a == b
}
