//! The file of stored pages, by the program's words.
ghost use Rattle.std.specs.Prelude.{◌≡◌, ℕ, List, [], ⊤, Option, IfOk, MatchOption, is_some, string_bytes, true};
ghost use Rattle.sha2.specs.Sha256.{sha256};
ghost use Rattle.xcp_config.specs.ConfigText.{HasLayoutWith};
ghost use Rattle.xcp_flash.specs.Decided.{pages_decided};
ghost use Rattle.xcp_memory.specs.Layout.{A2lFileValue, LayoutValue};
ghost use Rattle.xcp_describe.specs.A2lFiles.{HasA2l};
ghost use Rattle.xcp_program.specs.Beginning.{BeginsWith};
ghost use Rattle.xcp_scribe.specs.Flashing.{HasKept, KeepsNone};
ghost use Rattle.xcpd.specs.Faults.{fault_of_keeping};

use crate::configuration::Configuration;
use crate::teller::Teller;
use std::alloc::AllocError;
use std::fs::{self, File};
use std::io::{self, Write};
use std::sync::Wait;
use xcp_describe::a2l_of;
use xcp_flash::pages_digest;
use xcp_memory::Layout;
use xcp_program::{
    Fault, fault_of_pages, folder_of, layout_of_with, layout_stored_with, read_flash,
    refuse_second, stored_file,
};
use xcp_scribe::{Flashing, Shelf};

/// What keeps the pages that tools store, if the words name a file.
pub type Kept<'a, R> = Option<Flashing<PagesFile<'a, R>>>;

/// A file that is replaced whole, and the name of the file beside it that is written first. Another file beside it is locked meanwhile, so
/// that no other program keeps the same pages.
#[derive(Drop)]
pub struct PagesFile<'a, R> {
    rt: &'a HostRuntime,
    path: String,
    fresh: String,
    teller: Teller<'a, R>,
    _lock: File,
}

impl<R: Wait> Shelf for PagesFile<'_, R> {
    ghost use Rattle.std.specs.Prelude.{⊤};

    ghost holds = { λ _ _. ⊤ };

    /// The first failure is told on standard error.
    fn replace(&mut self, file: &[u8]) -> bool {
        if put_whole(self.rt, &self.path, &self.fresh, file).is_ok() {
            return true;
        }
        self.teller.report(Fault::Flash(2));
        false
    }
}

/// Writes a new file, has it on the disk, and gives it the name of the old one: whoever opens that name finds the old bytes or the new
/// ones, also after the machine lost its power.
fn put_whole(rt: &HostRuntime, path: &str, fresh: &str, bytes: &[u8]) -> io::Result<()> {
    let mut file = File::create(rt, fresh)?;
    file.write_all(bytes)?;
    file.sync_all()?;
    fs::rename(rt, fresh, path)?;
    File::open(rt, folder_of(path))?.sync_all()
}

/// The bytes of the file, if it is there. Where it is wanted it must be.
fn stored_at(rt: &HostRuntime, path: &str, wanted: bool) -> Result<Option<Vec<u8>>, Fault>
    ensures { wanted ≡ true → IfOk result (λ stored. is_some stored ≡ true) }
{
    match stored_file(File::open(rt, path), wanted)? {
        Some(file) => Ok(Some(read_flash(rt.alloc(), file)?)),
        None => Ok(None),
    }
}

/// The bytes of the file, if it is named. It must be there then.
pub fn stored_in(rt: &HostRuntime, path: &Option<String>) -> Result<Option<Vec<u8>>, Fault>
    ensures { IfOk result (λ stored. is_some stored ≡ is_some path.now) }
{
    let Some(path) = path else {
        return Ok(None);
    };
    stored_at(rt, path, true)
}

/// The layout that this text describes, with its A2L file where it asks that tools get it from the slave, with the pages that are stored in
/// the file, if it is named and there; and what keeps the file, if it is named: for whatever text describes the same segments.
pub fn begin_with<'a, R: Wait>(
    rt: &'a HostRuntime,
    configuration: &Configuration,
    path: &Option<String>,
    teller: Teller<'a, R>,
) -> Result<(Layout, Kept<'a, R>), Fault>
    ensures kept { IfOk result (λ r. KeepsNone r.1) }
    ensures begins { IfOk result (λ r. (a2l : Option A2lFileValue) × HasA2l configuration.now.files.items (string_bytes configuration.now.text) a2l × (stored : Option (List ℕ)) × BeginsWith configuration.now.files.items (string_bytes configuration.now.text) a2l stored r.0) }
    ensures layout { IfOk result (λ r. MatchOption r.1 ⊤ (λ kept. (own : LayoutValue) × HasLayoutWith configuration.now.files.items (string_bytes configuration.now.text) own × (kept.layout ≡ sha256 (pages_decided own)))) }
{
    let alloc = rt.alloc();
    let (text, files) = (configuration.text.as_str(), &*configuration.files);
    let a2l = a2l_of(alloc, text, files)?;
    let Some(path) = path else {
        return Ok((layout_stored_with(alloc, text, files, a2l, None)?, None));
    };
    let place = place_at(rt, path, teller)?;
    let stored = stored_at(rt, path, false)?;
    let layout = layout_stored_with(alloc, text, files, a2l, stored.as_deref())?;
    let decided = pages_digest(&layout_of_with(alloc, text, files)?);
    match Flashing::new(alloc, place, &layout, decided) {
        Ok(kept) => Ok((layout, Some(kept))),
        Err(AllocError) => Err(Fault::Memory),
    }
}

/// The place of the file of this name, once it is seen that a file can be made beside it, and no other program keeps it.
fn place_at<'a, R: Wait>(
    rt: &'a HostRuntime,
    path: &str,
    teller: Teller<'a, R>,
) -> Result<PagesFile<'a, R>, Fault> {
    let alloc = rt.alloc();
    let (Ok(name), Ok(fresh), Ok(lock)) = (
        String::from_str(alloc, path),
        format!(in alloc; "{path}.new"),
        format!(in alloc; "{path}.lock"),
    ) else {
        return Err(Fault::Memory);
    };
    let lock = locked(rt, lock.as_str())?;
    if File::create(rt, fresh.as_str()).is_err() {
        return Err(Fault::Flash(2));
    }
    let _ = fs::remove_file(rt, fresh.as_str());
    Ok(PagesFile {
        rt,
        path: name,
        fresh,
        teller,
        _lock: lock,
    })
}

/// The file of this name, locked for as long as it is open. Where the system knows no locks it is open alone.
fn locked(rt: &HostRuntime, path: &str) -> Result<File, Fault> {
    let Ok(file) = File::create(rt, path) else {
        return Err(Fault::Flash(2));
    };
    refuse_second(file.try_lock())?;
    Ok(file)
}

/// The fault of the file, if something that was stored could not be written.
pub fn fault_of_keeping<R: Wait>(kept: &Kept<'_, R>) -> Option<Fault>
    ensures { result ≡ fault_of_keeping kept.now }
{
    match kept {
        Some(keeping) => fault_of_pages(!keeping.has_failed()),
        None => None,
    }
}
