//! The layout that the configuration describes, and the one that a slave begins with.
ghost use Rattle.std.specs.Prelude.{◌≡◌, ◌⊎◌, Err, IfErr, IfOk, MatchResult, Some, option_map};
ghost use Rattle.xcp_config.specs.ConfigText.{HasLayout, HasLayoutWith};
ghost use Rattle.xcp_program.specs.Beginning.{Begins, BeginsWith, FitsNone, HasStored, IsUnfit, IsUnfitWith, with_a2l};
ghost use Rattle.xcp_program.specs.ReplayOutcome.{IsFault, IsFaultWith};

use crate::fault::Fault;
use sha2::{Digest, Sha256};
use std::alloc::Global;
use xcp_config::{ConfigError, DataFile, read_layout_with};
use xcp_flash::{pages_digest, restore_either};
use xcp_memory::{A2lFile, Layout};

/// The layout that the text of a configuration file describes: `Configuration`, 1 to 6, where it
/// describes none, by the number of its first fault; `Memory` where an allocation fails.
pub fn layout_of(alloc: Global, config: &str) -> Result<Layout, Fault>
    ensures layout { IfOk result (λ l. HasLayout config.now l) }
    ensures refused { IfErr result (λ f. (f ≡ Fault.Memory) ⊎ IsFault config.now f) }
{
    layout_of_with(alloc, config, &[])
}

/// The same of a configuration file whose segments may name files for their bytes: these are the files by the segments' numbers.
pub fn layout_of_with(alloc: Global, config: &str, files: &[DataFile]) -> Result<Layout, Fault>
    ensures layout { IfOk result (λ l. HasLayoutWith files.now config.now l) }
    ensures refused { IfErr result (λ f. (f ≡ Fault.Memory) ⊎ IsFaultWith files.now config.now f) }
{
    match read_layout_with(alloc, config, files) {
        Ok(layout) => Ok(layout),
        Err(ConfigError::Memory) => Err(Fault::Memory),
        Err(fault) => Err(Fault::Configuration(fault.number())),
    }
}

/// The layout that a slave begins with: the one that the text of a configuration file describes, with the pages of the file of
/// stored pages that has these bytes, if there is one, and with this A2L file, where the layout asks that tools get it from the slave. `Configuration` and `Memory` as of `layout_of`; then `Flash(1)` exactly
/// where the bytes are no file of pages that fit that layout.
pub fn layout_stored(
    alloc: Global,
    config: &str,
    a2l: Option<A2lFile>,
    flash: Option<&[u8]>,
) -> Result<Layout, Fault>
    ensures layout { IfOk result (λ l. Begins config.now a2l (option_map (λ f. f.now) flash.entry) l) }
    ensures refused { IfErr result (λ f. (f ≡ Fault.Memory) ⊎ (IsFault config.now f ⊎ (f ≡ Fault.Flash 1))) }
    ensures unfit { result ≡ Err (Fault.Flash 1) → IsUnfit config.now (option_map (λ f. f.now) flash.entry) }
    ensures told { IsUnfit config.now (option_map (λ f. f.now) flash.entry)
        → (result ≡ Err (Fault.Flash 1)) ⊎ (result ≡ Err Fault.Memory) }
{
    layout_stored_with(alloc, config, &[], a2l, flash)
}

/// The same of a configuration file whose segments may name files for their bytes: these are the files by the segments' numbers.
pub fn layout_stored_with(
    alloc: Global,
    config: &str,
    files: &[DataFile],
    a2l: Option<A2lFile>,
    flash: Option<&[u8]>,
) -> Result<Layout, Fault>
    ensures layout { IfOk result (λ l. BeginsWith files.now config.now a2l (option_map (λ f. f.now) flash.entry) l) }
    ensures refused { IfErr result (λ f. (f ≡ Fault.Memory) ⊎ (IsFaultWith files.now config.now f ⊎ (f ≡ Fault.Flash 1))) }
    ensures unfit { result ≡ Err (Fault.Flash 1) → IsUnfitWith files.now config.now (option_map (λ f. f.now) flash.entry) }
    ensures told { IsUnfitWith files.now config.now (option_map (λ f. f.now) flash.entry)
        → (result ≡ Err (Fault.Flash 1)) ⊎ (result ≡ Err Fault.Memory) }
{
    let layout = layout_of_with(alloc, config, files)?;
    let layout = match flash {
        Some(file) => with_pages(layout, config, file)?,
        None => layout,
    };
    Ok(with_a2l(layout, a2l))
}

/// A layout with this A2L file, if there is one, where it asks for it.
fn with_a2l(mut layout: Layout, a2l: Option<A2lFile>) -> Layout
    ensures { result ≡ with_a2l a2l layout }
{
    if let Some(file) = a2l {
        if layout.extras().uploads_a2l() {
            layout.set_a2l_file(file);
        }
    }
    layout
}

/// A layout with the pages of a file that is of its segments or, as files of before are, of this configuration's text: `Flash(1)` exactly
/// where the bytes are no file of pages that fit it.
fn with_pages(mut layout: Layout, config: &str, file: &[u8]) -> Result<Layout, Fault>
    ensures { MatchResult result (λ l. HasStored config.now layout (Some file.now) l)
        (λ f. (f ≡ Fault.Flash 1) × FitsNone config.now layout (Some file.now)) }
{
    let decided = pages_digest(&layout);
    let text = Sha256::digest(config.as_bytes());
    match restore_either(&mut layout, &decided, &text, file) {
        Ok(()) => Ok(layout),
        Err(_) => Err(Fault::Flash(1)),
    }
}
