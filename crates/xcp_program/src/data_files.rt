//! The files that segments of a configuration name for their bytes.
ghost use Rattle.std.specs.Prelude.{◌≡◌, ◌∷◌, ◌++◌, ℕ, IfErr, IfOk, IfSome, List, string_bytes, take};
ghost use Rattle.xcp_program.specs.StoredPages.{IsFolderOf, slash};

use crate::fault::Fault;
use crate::stored_pages::folder_of;
use std::alloc::{AllocError, Global};
use std::io::{ErrorKind, Read};
use xcp_config::DataFile;
use xcp_memory::limits::MAX_BYTES;

/// How many bytes of such a file are read at most: one more than any segment has, so that too many are told.
const MOST_BYTES: usize = MAX_BYTES + 1;

/// The bytes of a file that a segment names, at most 1,048,577 of them: no file where it can't be read. `Memory` where an allocation
/// fails.
pub fn read_data<R: Read + Drop>(alloc: Global, file: R) -> Result<DataFile, Fault>
    ensures front { IfOk result (λ f. IfSome f (λ bytes. IfSome (R.remaining file) (λ all. bytes ≡ take 1048577 all))) }
    ensures refused { IfErr result (λ e. e ≡ Fault.Memory) }
{
    let mut bytes = Vec::new(alloc);
    let mut front = file.take(MOST_BYTES as u64);
    match front.read_to_end(&mut bytes) {
        Ok(_) => Ok(DataFile::of(bytes)),
        Err(e) if e.kind() == ErrorKind::OutOfMemory => Err(Fault::Memory),
        Err(_) => Ok(DataFile::none()),
    }
}

/// The path of the file of this name that lies in the folder of another one.
pub fn beside(alloc: Global, path: &str, name: &str) -> Result<String, AllocError>
    ensures { IfOk result (λ p. (folder : List ℕ) × IsFolderOf path.now folder × (string_bytes p ≡ folder ++ slash ∷ name.now)) }
{
    let mut whole = String::from_str(alloc, folder_of(path))?;
    whole.push('/')?;
    whole.push_str(name)?;
    Ok(whole)
}
