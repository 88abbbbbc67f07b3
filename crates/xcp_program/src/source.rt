//! The bytes of the configuration file, and of the file of stored pages.
ghost use Rattle.std.specs.Prelude.{◌≡◌, ◌≤◌, ◌⊎◌, IfOk, IfErr, IfSome, MatchResult, length, string_bytes};
ghost use Rattle.std.specs.Str.{IsUtf8};

use crate::fault::Fault;
use std::alloc::Global;
use std::io::{ErrorKind, Read};
use xcp_memory::limits::{MAX_BYTES, MAX_SEGMENTS};

/// The most bytes that a configuration file may have.
const MOST_BYTES: usize = 65_536;

/// The most bytes that a file of stored pages may have: those of its head and its digest, and all bytes of the most segments, each behind
/// their number.
const MOST_STORED_BYTES: usize = 70 + 4 * MAX_SEGMENTS + MAX_BYTES;

/// All bytes of a file of so many bytes at most. `unread` comes where reading fails or there are more, `Memory` where an
/// allocation fails.
fn bytes_of<R: Read + Drop>(
    alloc: Global,
    file: R,
    most: usize,
    unread: Fault,
) -> Result<Vec<u8>, Fault>
    requires { most ≤ 0xFFFF_FFFF }
    ensures size { IfOk result (λ bytes. length bytes.items ≤ most) }
    ensures whole { IfOk result (λ bytes. IfSome (R.remaining file) (λ all. bytes.items ≡ all)) }
    ensures refused { IfErr result (λ e. (e ≡ Fault.Memory) ⊎ (e ≡ unread)) }
{
    let mut bytes = Vec::new(alloc);
    let mut front = file.take(most as u64 + 1);
    match front.read_to_end(&mut bytes) {
        Ok(_) if bytes.len() <= most => Ok(bytes),
        Err(e) if e.kind() == ErrorKind::OutOfMemory => Err(Fault::Memory),
        _ => Err(unread),
    }
}

/// All bytes of a file. `Configuration(0)` comes where reading fails or there are more than
/// 65,536, `Memory` where an allocation fails.
pub fn read_whole<R: Read + Drop>(alloc: Global, file: R) -> Result<Vec<u8>, Fault>
    ensures size { IfOk result (λ bytes. length bytes.items ≤ 65536) }
    ensures whole { IfOk result (λ bytes. IfSome (R.remaining file) (λ all. bytes.items ≡ all)) }
    ensures refused { IfErr result (λ e. (e ≡ Fault.Memory) ⊎ (e ≡ Fault.Configuration 0)) }
{
    bytes_of(alloc, file, MOST_BYTES, Fault::Configuration(0))
}

/// All bytes of a file of stored pages. `Flash(1)` comes where reading fails or there are more than
/// 1,048,710, `Memory` where an allocation fails.
pub fn read_flash<R: Read + Drop>(alloc: Global, file: R) -> Result<Vec<u8>, Fault>
    ensures size { IfOk result (λ bytes. length bytes.items ≤ 1048710) }
    ensures whole { IfOk result (λ bytes. IfSome (R.remaining file) (λ all. bytes.items ≡ all)) }
    ensures refused { IfErr result (λ e. (e ≡ Fault.Memory) ⊎ (e ≡ Fault.Flash 1)) }
{
    bytes_of(alloc, file, MOST_STORED_BYTES, Fault::Flash(1))
}

/// The text of a file. `Configuration(1)` comes where the file was read whole and its bytes are no UTF-8, the faults of
/// `read_whole` where it was not.
pub fn read_text<R: Read + Drop>(alloc: Global, file: R) -> Result<String, Fault>
    ensures size { IfOk result (λ text. length (string_bytes text) ≤ 65536) }
    ensures whole { IfOk result (λ text. IfSome (R.remaining file) (λ all. string_bytes text ≡ all)) }
    ensures utf8 { IfOk result (λ text. IsUtf8 (string_bytes text)) }
    ensures refused { IfErr result (λ e. (e ≡ Fault.Memory) ⊎ (e ≡ Fault.Configuration 0) ⊎ ((e ≡ Fault.Configuration 1) × IfSome (R.remaining file) (λ all. (length all ≤ 65536) × (¬ IsUtf8 all)))) }
{
    text_of(read_whole(alloc, file)?)
}

/// The bytes of a file as text: `Configuration(1)` where they are no UTF-8, and no other fault.
fn text_of(bytes: Vec<u8>) -> Result<String, Fault>
    ensures { MatchResult result (λ text. (string_bytes text ≡ bytes.items) × IsUtf8 bytes.items) (λ e. (e ≡ Fault.Configuration 1) × (¬ IsUtf8 bytes.items)) }
{
    match String::from_utf8(bytes) {
        Ok(text) => Ok(text),
        Err(_) => Err(Fault::Configuration(1)),
    }
}
