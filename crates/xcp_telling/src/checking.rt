//! A check of a layout file, in lines that name tables by name and line.
ghost use Rattle.std.specs.Prelude.{◌≡◌, ◌≢◌, ◌⊎◌, ◌+◌, ℕ, List, None, Err, IfOk, IfErr};
ghost use Rattle.std.specs.Io.KnownBytes.{Appends};
ghost use Rattle.xcp_framing.specs.Prefix.{AppendsFront};
ghost use Rattle.xcp_memory.specs.Layout.{LayoutValue};
ghost use Rattle.xcp_config.specs.ConfigText.{HasLayoutWith};
ghost use Rattle.xcp_describe.specs.Findings.{IsClean, IsFound};
ghost use Rattle.xcp_describe.specs.FindingsText.{clean_text};
ghost use Rattle.xcp_describe.specs.declared.findings.Findings.{Findings};
ghost use Rattle.xcp_telling.specs.Checking.{AreFindingsTold};

use crate::located::located_bytes;
use std::alloc::{AllocError, Global};
use std::io::Write;
use xcp_config::DataFile;
use xcp_describe::{Findings, check};
use xcp_framing::Watched;
use xcp_program::Fault;

/// Looks at the bytes of a layout file as [`check`] does, and writes its lines, each that begins with a table of an array with the name
/// of its entry and the line at which the table begins. The whole text is made before any of it is written. `files` are the files that
/// segments name, by the segments' numbers.
///
/// Faults: `Memory` where an allocation fails, `Stream(2)` where a write failed.
pub fn check_located<W: Write>(
    alloc: Global,
    file: &[u8],
    files: &[DataFile],
    writer: &mut Watched<W>,
) -> Result<Findings, Fault>
    // What is written is one text, all of it: the lines of a check of these bytes, in order, each located.
    ensures found { IfOk result (λ f. (told : List ℕ) × AreFindingsTold files.now file.now f told × Appends (W.contents writer.old.inner) (W.contents writer.new.inner) told) }
    ensures layout { IfOk result (λ f. f.fault ≡ None → (l : LayoutValue) × HasLayoutWith files.now file.now l) }
    ensures refused { IfErr result (λ e. (e ≡ Fault.Memory) ⊎ (e ≡ Fault.Stream 2)) }
    ensures clean { IfOk result (λ f. IsClean f → Appends (W.contents writer.old.inner) (W.contents writer.new.inner) clean_text) }
    // A fault of the writer comes exactly where a write failed: then a front of such a text was written. Want of memory comes before
    // anything is written.
    ensures write { result ≡ Err (Fault.Stream 2) → writer.new.failures ≡ writer.old.failures + 1 }
    ensures front { result ≡ Err (Fault.Stream 2) → (f : Findings) × (told : List ℕ) × AreFindingsTold files.now file.now f told × AppendsFront (W.contents writer.old.inner) (W.contents writer.new.inner) told }
    ensures unfailed { result ≢ Err (Fault.Stream 2) → writer.new.failures ≡ writer.old.failures }
    ensures unwritten { result ≡ Err Fault.Memory → writer.new ≡ writer.old }
{
    let Ok((findings, told)) = located_findings(alloc, file, files) else {
        return Err(Fault::Memory);
    };
    match writer.write_all(told.as_slice()) {
        Ok(()) => Ok(findings),
        Err(_) => Err(Fault::Stream(2)),
    }
}

/// What a check finds in a layout file, and its lines, located.
fn located_findings(
    alloc: Global,
    file: &[u8],
    files: &[DataFile],
) -> Result<(Findings, Vec<u8>), AllocError>
    ensures found { IfOk result (λ r. AreFindingsTold files.now file.now r.0 r.1.items) }
    ensures layout { IfOk result (λ r. r.0.fault ≡ None → (l : LayoutValue) × HasLayoutWith files.now file.now l) }
{
    let (findings, lines) = checked(alloc, file, files)?;
    let told = located_bytes(alloc, lines, text_in(file))?;
    Ok((findings, told))
}

/// What a check finds in a layout file, and all that it writes.
pub(crate) fn checked(
    alloc: Global,
    file: &[u8],
    files: &[DataFile],
) -> Result<(Findings, Vec<u8>), AllocError>
    ensures found { IfOk result (λ r. IsFound files.now file.now r.0 r.1.items) }
    ensures layout { IfOk result (λ r. r.0.fault ≡ None → (l : LayoutValue) × HasLayoutWith files.now file.now l) }
{
    let mut told = Watched::new(Vec::new(alloc));
    match check(alloc, file, files, &mut told) {
        Ok(findings) => Ok((findings, told.into_inner())),
        Err(_) => Err(AllocError),
    }
}

/// The text of a layout file, or none where it isn't UTF-8.
pub(crate) fn text_in(file: &[u8]) -> &str {
    match str::from_utf8(file) {
        Ok(text) => text,
        Err(_) => "",
    }
}
