//! The files that segments of a text name, whose bytes a C program hands over.
ghost use Rattle.std.specs.Prelude.{◌≡◌, ◌≢◌, ◌⊎◌, ◌≤◌, IfErr, IfOk, MatchBool, length, map, option_map, string_bytes, sum};
ghost use Rattle.xcp_c.specs.GivenFiles.{AreGiven, AreOther, files_given, named_count};

use crate::opening::{MEMORY, OTHER_BYTES};
use std::alloc::{AllocError, Global};
use xcp_config::{DataFile, data_files};

/// The files that the segments of a text name, by the segments' numbers: each has the next bytes, as many as its
/// size says. Or 18, where the sizes don't sum up to the bytes, or where there are more of them than segments
/// that name a file; or 7.
pub(crate) fn files_of(
    alloc: Global,
    text: &str,
    sizes: &[u32],
    bytes: &[u8],
) -> Result<Vec<DataFile>, u8>
    ensures given { IfOk result (λ files. AreGiven text.now sizes.now bytes.now files.items) }
    ensures fault { IfErr result (λ n. (AreOther text.now sizes.now bytes.now × (n ≡ 18)) ⊎ ((sum sizes.now ≡ length bytes.now) × (n ≡ 7))) }
{
    if !sum_to(sizes, bytes.len()) {
        return Err(OTHER_BYTES);
    }
    let Ok(names) = data_files(alloc, text) else {
        return Err(MEMORY);
    };
    if sizes.len() > named_count(&names) {
        return Err(OTHER_BYTES);
    }
    match each_file(alloc, &names, sizes, bytes) {
        Ok(files) => Ok(files),
        Err(_) => Err(MEMORY),
    }
}

/// Whether these sizes sum up to so many bytes.
fn sum_to(sizes: &[u32], bytes: usize) -> bool
    ensures { MatchBool result (sum sizes.now ≡ bytes) (sum sizes.now ≢ bytes) }
{
    let mut left = bytes;
    for size in sizes {
        if *size as usize > left {
            return false;
        }
        left -= *size as usize;
    }
    left == 0
}

/// How many segments name a file.
fn named_count(names: &[Option<String>]) -> usize
    ensures { result ≡ named_count (map (option_map string_bytes) names.now) }
{
    names.iter().filter(|name| name.is_some()).count()
}

/// The file of each segment, by these names: the next one that there is a size for, where it names one.
fn each_file(
    alloc: Global,
    names: &[Option<String>],
    sizes: &[u32],
    bytes: &[u8],
) -> Result<Vec<DataFile>, AllocError>
    requires { sum sizes.now ≤ length bytes.now }
    ensures { IfOk result (λ files. files.items ≡ files_given (map (option_map string_bytes) names.now) sizes.now bytes.now) }
{
    let mut files = Vec::new(alloc);
    let (mut left, mut rest) = (sizes, bytes);
    for name in names {
        if name.is_none() || left.is_empty() {
            files.push(DataFile::none())?;
            continue;
        }
        let (front, behind) = rest.split_at(left[0] as usize);
        files.push(DataFile::of(front.to_vec(alloc)?))?;
        (left, rest) = (&left[1..], behind);
    }
    Ok(files)
}
