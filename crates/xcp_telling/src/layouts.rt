//! What is wrong in a layout file, in words.
ghost use Rattle.std.specs.Prelude.{ℕ, List, IfOk, IfSome, string_bytes};
ghost use Rattle.xcp_describe.specs.Findings.{IsFound};
ghost use Rattle.xcp_describe.specs.declared.findings.Findings.{Findings};
ghost use Rattle.xcp_telling.specs.Locating.{IsLocated, IsWordsOn};

use crate::checking::{checked, text_in};
use crate::entries::located;
use crate::lines::words_in;
use std::alloc::{AllocError, Global};
use xcp_config::DataFile;

/// The words of a check on the fault of this number in a layout file of these bytes: what stands behind the number in its first line,
/// or of fault 7 the line of the entry that is refused; with the line at which its table begins, and its name. There are none where the check
/// finds no such fault. `files` are the files that segments name, by the segments' numbers.
pub fn words_of_layout(
    alloc: Global,
    number: u8,
    file: &[u8],
    files: &[DataFile],
) -> Result<Option<String>, AllocError>
    ensures { IfOk result (λ told. IfSome told (λ words. (findings : Findings) × ((lines : List ℕ) × ((line : List ℕ)
        × (IsFound files.now file.now findings lines × (IsWordsOn number lines line × IsLocated line (string_bytes words))))))) }
{
    let (_, lines) = checked(alloc, file, files)?;
    let Ok(lines) = str::from_utf8(lines.as_slice()) else {
        return Ok(None);
    };
    match words_in(alloc, number, lines)? {
        Some(words) => Ok(Some(located(alloc, words, text_in(file))?)),
        None => Ok(None),
    }
}
