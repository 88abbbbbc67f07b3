//! The file of stored pages.
ghost use Rattle.std.specs.Prelude.{◌≡◌, MatchBool, Ok, Err, MatchResult};
ghost use Rattle.xcp_program.specs.StoredPages.{IsAnswered, IsFolderOf, folder_before, refused_second};

use crate::fault::Fault;
use std::fs::TryLockError;
use std::io::{self, ErrorKind};

/// The file of stored pages, by what opening it gave. Who wants it, as a replay or an audit does, has a fault where it isn't there, and a
/// server begins with none. The fault is `Flash(1)`.
pub fn stored_file<T>(opened: io::Result<T>, wanted: bool) -> Result<Option<T>, Fault>
    ensures { IsAnswered opened wanted result }
{
    match opened {
        Ok(file) => Ok(Some(file)),
        Err(error) if error.kind() == ErrorKind::NotFound && !wanted => Ok(None),
        Err(_) => Err(Fault::Flash(1)),
    }
}

/// Refuses a second program that would keep the same stored pages: `Flash(3)` where another one has the lock of their file. Where the system
/// knows no locks, nobody has it.
pub fn refuse_second(locked: Result<(), TryLockError>) -> Result<(), Fault>
    ensures { result ≡ refused_second locked }
{
    match locked {
        Err(TryLockError::WouldBlock) => Err(Fault::Flash(3)),
        _ => Ok(()),
    }
}

/// The folder in which a file lies.
pub fn folder_of(path: &str) -> &str
    ensures { IsFolderOf path.now result.now }
{
    match path.rsplit_once('/') {
        None => ".",
        Some((front, _)) => folder_before(front),
    }
}

/// The folder whose name stands before a slash.
fn folder_before(front: &str) -> &str
    ensures { result.now ≡ folder_before front.now }
{
    if front.is_empty() { "/" } else { front }
}
