//! A file's pages become those of a layout.
ghost use Rattle.std.specs.Prelude.{◌≡◌, ◌↔◌, ◌⊎◌, ℕ, List, Err, IfOk, IfErr, IsOk, OnOk, OnErr};
ghost use Rattle.xcp_flash.specs.FlashFile.{file_of};
ghost use Rattle.xcp_flash.specs.References.{AreReferences, with_references};
ghost use Rattle.xcp_flash.specs.Restoring.{IsFlashFault, IsFaultOfBoth, IsRestored, IsRestoredByEither, fault_to_tell};
ghost use Rattle.xcp_flash.specs.declared.fault.FlashError.{FlashError};
ghost use Rattle.xcp_flash.specs.private.Reading.{BeginsWithPages, IsWholeRead};

use crate::fault::FlashError;
use crate::head::{DIGEST_BYTES, HEAD_BYTES, digest_of, has_magic, names, same};
use crate::reading::{behind_pages, set_pages};
use xcp_memory::Layout;

/// Makes the pages of a file the reference pages of the layout, with which all its pages begin. The file is of the layout
/// whose file has this SHA-256. An `Err` is the first fault of the file, and changes nothing.
pub fn restore(layout: &mut Layout, layout_digest: &[u8; 32], file: &[u8]) -> Result<(), FlashError>
    ensures ok { OnOk result (IsRestored layout.old layout_digest.now file.now layout.new) }
    ensures whole { (pages : List (List ℕ)) → AreReferences pages layout.old → file.now ≡ file_of layout_digest.now pages
        → IsOk result × (layout.new ≡ with_references pages layout.old) }
    ensures err { OnErr result (layout.new ≡ layout.old) }
    ensures fault { (e : FlashError) → (result ≡ Err e) ↔ IsFlashFault layout.old layout_digest.now file.now e }
{
    match check(layout, layout_digest, file) {
        Ok(pages) => {
            set_pages(layout, pages);
            Ok(())
        }
        Err(fault) => Err(fault),
    }
}

/// The same of a file that may be of either SHA-256, as one that was written before names what it belongs to in another way. An `Err` is
/// the first fault of the file as one of the first SHA-256, or, where that is the SHA-256 itself, as one of the other.
pub fn restore_either(
    layout: &mut Layout,
    layout_digest: &[u8; 32],
    other: &[u8; 32],
    file: &[u8],
) -> Result<(), FlashError>
    ensures ok { OnOk result (IsRestoredByEither layout.old layout_digest.now other.now file.now layout.new) }
    ensures whole { (pages : List (List ℕ)) → AreReferences pages layout.old
        → (file.now ≡ file_of layout_digest.now pages) ⊎ (file.now ≡ file_of other.now pages)
        → IsOk result × (layout.new ≡ with_references pages layout.old) }
    ensures err { OnErr result (layout.new ≡ layout.old) }
    ensures fault { (e : FlashError) → (result ≡ Err e) ↔ IsFaultOfBoth layout.old layout_digest.now other.now file.now e }
{
    let Err(first) = restore(layout, layout_digest, file) else {
        return Ok(());
    };
    let Err(second) = restore(layout, other, file) else {
        return Ok(());
    };
    Err(told_of(first, second))
}

/// Of two faults the one that is told.
fn told_of(first: FlashError, second: FlashError) -> FlashError
    ensures { result ≡ fault_to_tell first second }
{
    match first {
        FlashError::Layout => second,
        _ => first,
    }
}

/// The bytes behind the head of a file in which nothing is wrong.
fn check<'a>(
    layout: &Layout,
    layout_digest: &[u8; 32],
    file: &'a [u8],
) -> Result<&'a [u8], FlashError>
    ensures ok { IfOk result (λ bytes. IsWholeRead layout.now layout_digest.now file.now bytes.now) }
    ensures err { IfErr result (λ e. IsFlashFault layout.now layout_digest.now file.now e) }
{
    if !has_magic(file) {
        return Err(FlashError::Head);
    }
    if file.len() < HEAD_BYTES {
        return Err(FlashError::Size);
    }
    let (head, bytes) = file.split_at(HEAD_BYTES);
    if !names(head, layout_digest) {
        return Err(FlashError::Layout);
    }
    let Some(rest) = behind_pages(layout, bytes) else {
        return Err(FlashError::Size);
    };
    if rest.len() != DIGEST_BYTES {
        return Err(FlashError::Size);
    }
    let (body, _) = file.split_at(file.len() - DIGEST_BYTES);
    if !same(&digest_of(body), rest) {
        return Err(FlashError::Digest);
    }
    Ok(bytes)
}
