//! The groups of parameters and measurements.
use crate::entry::Entry;
use crate::tables::Tables;
use std::alloc::AllocError;

/// Appends a GROUP for each name of a group, in the order in which the parameters, and then the measurements, name them first.
pub(crate) fn put_groups(tables: &Tables<'_>, text: &mut String) -> Result<(), AllocError> {
    let parameters = tables.parameters.as_slice();
    let measurements = tables.measurements.as_slice();
    for (i, entry) in parameters.iter().enumerate() {
        if let Some(group) = first_named(entry, &parameters[..i]) {
            put_group(group, parameters, measurements, text)?;
        }
    }
    for (i, entry) in measurements.iter().enumerate() {
        if let Some(group) = first_named(entry, &measurements[..i]) {
            if !has_member(parameters, group) {
                put_group(group, parameters, measurements, text)?;
            }
        }
    }
    Ok(())
}

/// The group that an entry is in, if none of the earlier ones is in it.
fn first_named<'a>(entry: &Entry<'a>, earlier: &[Entry<'a>]) -> Option<&'a str> {
    let group = entry.meaning.group?;
    if has_member(earlier, group) {
        None
    } else {
        Some(group)
    }
}

/// Whether one of these is in a group.
fn has_member(entries: &[Entry<'_>], group: &str) -> bool {
    for entry in entries {
        if is_member(entry, group) {
            return true;
        }
    }
    false
}

fn is_member(entry: &Entry<'_>, group: &str) -> bool {
    match entry.meaning.group {
        Some(name) => name == group,
        None => false,
    }
}

/// Appends the GROUP with its members.
fn put_group(
    group: &str,
    parameters: &[Entry<'_>],
    measurements: &[Entry<'_>],
    text: &mut String,
) -> Result<(), AllocError> {
    writeln!(text, "    /begin GROUP {group} \"\"")?;
    writeln!(text, "      ROOT")?;
    put_members("REF_CHARACTERISTIC", group, parameters, text)?;
    put_members("REF_MEASUREMENT", group, measurements, text)?;
    writeln!(text, "    /end GROUP")
}

/// Appends the names of those of these that are in a group, if there are any.
fn put_members(
    block: &str,
    group: &str,
    entries: &[Entry<'_>],
    text: &mut String,
) -> Result<(), AllocError> {
    if !has_member(entries, group) {
        return Ok(());
    }
    writeln!(text, "      /begin {block}")?;
    for entry in entries {
        if is_member(entry, group) {
            writeln!(text, "        {}", entry.name)?;
        }
    }
    writeln!(text, "      /end {block}")
}
