//! The segments of a configuration.
ghost use Rattle.std.specs.Prelude.{◌≡◌, ◌+◌, ◌≤◌, ◌⊎◌, length, map, true, Some, None, IfOk, IfErr, slice_index_or as get_or};
ghost use Rattle.std.specs.List.{flat_map, enumerate_from};
ghost use Rattle.toml.specs.View.{view};
ghost use Rattle.xcp_memory.specs.ClassLimits.{limits_of};
ghost use Rattle.xcp_memory.specs.Limits.{is_address};
ghost use Rattle.xcp_packet.specs.Rows.{first_holding};
ghost use Rattle.xcp_config.specs.TableLayout.{class_in, filed, segments_of, size_of};
ghost use Rattle.xcp_config.specs.TableChecks.{checks_in, segment_checks, segments_checks, size_checks};
ghost use Rattle.xcp_config.specs.private.PartsRead.{segment_read, segment_in_parts};

use crate::ConfigError;
use crate::data_file::{DataFile, read_data};
use crate::values::{read_integer, read_setting, tables_in};
use std::alloc::Global;
use toml::Value;
use xcp_memory::limits::{LAST_ADDRESS, MAX_PAGES, MIN_PAGES};
use xcp_memory::{Class, Key, SegmentPart};

/// How many pages a segment has at least and at most, and where its table doesn't say it.
const LEAST_PAGES: u32 = MIN_PAGES as u32;

const MOST_PAGES: u32 = MAX_PAGES as u32;

const DEFAULT_PAGES: u32 = 2;

/// Checks how many bytes there are, with `before` in the segments before, and where the last one lies.
fn check_size(
    class: Class,
    address: i64,
    size: usize,
    number: u8,
    before: usize,
) -> Result<(), ConfigError>
    requires before { before ≤ (limits_of class).bytes }
    requires address { is_address address ≡ true }
    ensures passes { IfOk result (λ _. first_holding (size_checks class number (before + size) address size) ≡ None) }
    ensures room { IfOk result (λ _. before + size ≤ (limits_of class).bytes) }
    ensures refused { IfErr result (λ e. first_holding (size_checks class number (before + size) address size) ≡ Some e) }
{
    if size > class.limits().bytes - before {
        return Err(ConfigError::TooMany(Key::Data(number)));
    }
    if address as u64 + size as u64 > u64::from(LAST_ADDRESS) + 1 {
        return Err(ConfigError::Range(Key::Address(number)));
    }
    Ok(())
}

/// The segment that a table describes, with the file of its number, where there are `before` bytes in the segments before it.
fn read_segment(
    alloc: Global,
    class: Class,
    table: &Value,
    files: &[DataFile],
    number: u8,
    before: usize,
) -> Result<SegmentPart, ConfigError>
    requires { before ≤ (limits_of class).bytes }
    ensures passes { IfOk result (λ _. first_holding (segment_checks class number (before + size_of (get_or files.now number None, view table.now)) (get_or files.now number None, view table.now)) ≡ None) }
    ensures read { IfOk result (λ s. segment_read s ≡ segment_in_parts (get_or files.now number None, view table.now)) }
    ensures room { IfOk result (λ s. before + length s.bytes.items ≤ (limits_of class).bytes) }
    ensures refused { IfErr result (λ e. (e ≡ ConfigError.Memory) ⊎ (first_holding (segment_checks class number (before + size_of (get_or files.now number None, view table.now)) (get_or files.now number None, view table.now)) ≡ Some e)) }
{
    let address = read_integer(table, "address", Key::Address(number), 0, LAST_ADDRESS)?;
    let bytes = read_data(alloc, table, number, files)?;
    check_size(class, address, bytes.len(), number, before)?;
    let pages = read_setting(
        table,
        "pages",
        Key::Pages(number),
        LEAST_PAGES,
        MOST_PAGES,
        DEFAULT_PAGES,
    )?;
    Ok(SegmentPart {
        address,
        bytes,
        pages,
    })
}

/// The segments that these tables describe, with these files.
fn read_each(
    alloc: Global,
    class: Class,
    members: &[Value],
    files: &[DataFile],
) -> Result<Vec<SegmentPart>, ConfigError>
    requires { length members.now ≤ 16 }
    ensures passes { IfOk result (λ _. first_holding (flat_map (checks_in class (filed files.now (map view members.now))) (enumerate_from 0 (filed files.now (map view members.now)))) ≡ None) }
    ensures read { IfOk result (λ parts. map segment_read parts.items ≡ map segment_in_parts (filed files.now (map view members.now))) }
    ensures refused { IfErr result (λ e. (e ≡ ConfigError.Memory) ⊎ (first_holding (flat_map (checks_in class (filed files.now (map view members.now))) (enumerate_from 0 (filed files.now (map view members.now)))) ≡ Some e)) }
{
    let mut parts = Vec::new(alloc);
    let mut total = 0;
    for (i, member) in members.iter().enumerate() {
        let part = read_segment(alloc, class, member, files, i as u8, total)?;
        total += part.bytes.len();
        parts.push(part)?;
    }
    Ok(parts)
}

/// The segments of a table that names this class, with these files.
pub(crate) fn read_segments(
    alloc: Global,
    table: &Value,
    class: Class,
    files: &[DataFile],
) -> Result<Vec<SegmentPart>, ConfigError>
    requires { class ≡ class_in (view table.now) }
    ensures passes { IfOk result (λ _. first_holding (segments_checks files.now (view table.now)) ≡ None) }
    ensures read { IfOk result (λ parts. map segment_read parts.items ≡ map segment_in_parts (segments_of files.now (view table.now))) }
    ensures refused { IfErr result (λ e. (e ≡ ConfigError.Memory) ⊎ (first_holding (segments_checks files.now (view table.now)) ≡ Some e)) }
{
    let members = tables_in(table, "segment", Key::Segment, class.limits().segments)?;
    read_each(alloc, class, members, files)
}
