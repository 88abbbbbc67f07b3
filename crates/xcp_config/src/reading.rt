//! The layout that a text describes.
ghost use Rattle.std.specs.Prelude.{◌≡◌, ◌⊎◌, ◌++◌, Some, None, Err, IfOk, IfErr};
ghost use Rattle.toml.specs.View.{view};
ghost use Rattle.xcp_packet.specs.Rows.{first_holding};
ghost use Rattle.xcp_config.specs.TableLayout.{layout_in};
ghost use Rattle.xcp_config.specs.private.PartsRead.{ReadsPart};
ghost use Rattle.xcp_config.specs.TableChecks.{events_checks, first_table_fault, own_checks, segments_checks, signals_checks};
ghost use Rattle.xcp_config.specs.ConfigText.{HasFault, HasFaultWith, HasLayout, HasLayoutWith, IsNoDocument};

use crate::ConfigError;
use crate::data_file::DataFile;
use crate::events::read_events;
use crate::own::Own;
use crate::segments::read_segments;
use crate::signals::read_signals;
use std::alloc::Global;
use toml::Value;
use xcp_memory::{Layout, Parts};

/// The layout that a text describes. `Text` comes only where the text is no TOML document; then the keys are looked at
/// in the order of `specs/TableChecks.antt`, and the first check that fails tells the fault: for each key `Missing`,
/// `Kind`, `Range`; for an array `TooMany` behind these; for a segment the number of bytes so far, its last address,
/// and then its number of pages; areas that overlap last. `Memory` comes where an allocation fails, at any place.
/// There are no files: a segment that names one has the fault `Missing`.
pub fn read_layout(alloc: Global, text: &str) -> Result<Layout, ConfigError>
    ensures layout { IfOk result (λ l. HasLayout text.now l) }
    ensures text { result ≡ Err ConfigError.Text → IsNoDocument text.now }
    ensures fault { IfErr result (λ e. (e ≡ ConfigError.Text) ⊎ (e ≡ ConfigError.Memory) ⊎ HasFault text.now e) }
{
    read_layout_with(alloc, text, &[])
}

/// The same of a text whose segments may name files for their bytes: these are the files by the segments' numbers, none where there are
/// fewer.
pub fn read_layout_with(
    alloc: Global,
    text: &str,
    files: &[DataFile],
) -> Result<Layout, ConfigError>
    ensures layout { IfOk result (λ l. HasLayoutWith files.now text.now l) }
    ensures text { result ≡ Err ConfigError.Text → IsNoDocument text.now }
    ensures fault { IfErr result (λ e. (e ≡ ConfigError.Text) ⊎ (e ≡ ConfigError.Memory) ⊎ HasFaultWith files.now text.now e) }
{
    match toml::table_from_str(alloc, text) {
        Ok(table) => read_table(alloc, &Value::Table(table), files),
        Err(e) if e.is_memory() => Err(ConfigError::Memory),
        Err(_) => Err(ConfigError::Text),
    }
}

/// The parts of the layout that a table has, before it is known whether areas overlap.
fn read_parts(alloc: Global, table: &Value, files: &[DataFile]) -> Result<Parts, ConfigError>
    ensures passes { IfOk result (λ _. first_holding (own_checks (view table.now) ++ segments_checks files.now (view table.now) ++ signals_checks (view table.now) ++ events_checks (view table.now)) ≡ None) }
    ensures reads { IfOk result (λ p. ReadsPart p files.now (view table.now)) }
    ensures refused { IfErr result (λ e. (e ≡ ConfigError.Memory) ⊎ (first_table_fault files.now (view table.now) ≡ Some e)) }
{
    let own = Own::read(alloc, table)?;
    let segments = read_segments(alloc, table, own.class, files)?;
    let signals = read_signals(table, own.class)?;
    let events = read_events(alloc, table, own.class)?;
    Ok(Parts {
        class: own.class,
        id: own.id,
        max_cto: own.max_cto,
        max_dto: own.max_dto,
        checksum: own.checksum,
        order: own.order,
        clock: own.clock,
        segments,
        signals_address: signals.address,
        signals_length: signals.length,
        events,
        extras: own.extras,
    })
}

/// The layout that a table has.
fn read_table(alloc: Global, table: &Value, files: &[DataFile]) -> Result<Layout, ConfigError>
    ensures passes { IfOk result (λ _. first_table_fault files.now (view table.now) ≡ None) }
    ensures value { IfOk result (λ l. l ≡ layout_in files.now (view table.now)) }
    ensures refused { IfErr result (λ e. (e ≡ ConfigError.Memory) ⊎ (first_table_fault files.now (view table.now) ≡ Some e)) }
{
    let parts = read_parts(alloc, table, files)?;
    match Layout::new(parts) {
        Ok(layout) => Ok(layout),
        Err(fault) => Err(ConfigError::of_limit(fault)),
    }
}
