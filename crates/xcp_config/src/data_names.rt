//! The names of the files that segments name for their bytes: whoever reads a configuration opens these.
ghost use Rattle.std.specs.Prelude.{◌≡◌, Some, IfOk, map, option_map, string_bytes, take};
ghost use Rattle.toml.specs.View.{view};
ghost use Rattle.xcp_config.specs.TableLayout.{file_key};
ghost use Rattle.xcp_config.specs.ConfigText.{NamesFiles, name_by, names_in};

use crate::data_file::is_file_name;
use std::alloc::{AllocError, Global};
use toml::Value;
use xcp_memory::limits::MAX_SEGMENTS;

/// The names of the files that the first 16 segments of a text name for their bytes, by the segments' numbers: none where a segment
/// names none, or no name of a file. There are none where the text is no TOML document.
pub fn data_files(alloc: Global, text: &str) -> Result<Vec<Option<String>>, AllocError>
    ensures { IfOk result (λ names. NamesFiles text.now (map (option_map string_bytes) names.items)) }
{
    match toml::table_from_str(alloc, text) {
        Ok(table) => names_in(alloc, &Value::Table(table)),
        Err(e) if e.is_memory() => Err(AllocError),
        Err(_) => Ok(Vec::new(alloc)),
    }
}

/// The names in a table.
fn names_in(alloc: Global, table: &Value) -> Result<Vec<Option<String>>, AllocError>
    ensures { IfOk result (λ names. map (option_map string_bytes) names.items ≡ names_in (view table.now)) }
{
    let Some(value) = table.get("segment") else {
        return Ok(Vec::new(alloc));
    };
    let Some(members) = value.as_array() else {
        return Ok(Vec::new(alloc));
    };
    let count = MAX_SEGMENTS.min(members.len());
    each_name(alloc, &members[..count])
}

/// The name that each of these tables has.
fn each_name(alloc: Global, tables: &[Value]) -> Result<Vec<Option<String>>, AllocError>
    ensures { IfOk result (λ names. map (option_map string_bytes) names.items ≡ map (λ s. name_by (file_key s)) (map view tables.now)) }
{
    let mut names = Vec::new(alloc);
    for table in tables {
        names.push(name_of(alloc, table)?)?;
    }
    Ok(names)
}

/// The name that a table has.
fn name_of(alloc: Global, table: &Value) -> Result<Option<String>, AllocError>
    ensures { IfOk result (λ name. option_map string_bytes name ≡ name_by (file_key (view table.now))) }
{
    match table.get("data_file") {
        None => Ok(None),
        Some(name) => file_name(alloc, name),
    }
}

/// The name of a file that a value is.
fn file_name(alloc: Global, value: &Value) -> Result<Option<String>, AllocError>
    ensures { IfOk result (λ name. option_map string_bytes name ≡ name_by (Some (view value.now))) }
{
    let Some(text) = value.as_str() else {
        return Ok(None);
    };
    if !is_file_name(text) {
        return Ok(None);
    }
    Ok(Some(String::from_str(alloc, text)?))
}
