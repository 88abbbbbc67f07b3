//! The keys of a layout file that nothing reads.
ghost use Rattle.std.specs.Prelude.{◌≡◌, ◌++◌, map, IfOk, OnOk, string_bytes};
ghost use Rattle.std.specs.List.{enumerate_from, flat_map};
ghost use Rattle.toml.specs.Data.{get};
ghost use Rattle.toml.specs.View.{table_view, view};
ghost use Rattle.xcp_config.specs.TomlValues.{members_of};
ghost use Rattle.xcp_describe.specs.FindingsText.{unread_line};
ghost use Rattle.xcp_describe.specs.UnreadKeys.{is_key_among, unread_each, unread_keys, unread_member, unread_members, unread_named, unread_of};
ghost use Rattle.xcp_describe.specs.private.TableKeys.{keys_of, bare_place, placed};

use crate::key_text::put_key;
use crate::place::Place;
use std::alloc::{AllocError, Global};
use toml::{Table, Value};

/// The keys of a layout file, outside its tables.
const TOP_KEYS: [&str; 15] = [
    "id",
    "max_cto",
    "max_dto",
    "byte_order",
    "checksum",
    "a2l",
    "upload_a2l",
    "overload",
    "clock",
    "class",
    "segment",
    "signals",
    "event",
    "parameter",
    "measurement",
];

/// Those of the clock.
const CLOCK_KEYS: [&str; 3] = ["size", "unit", "ticks"];

/// Those of a segment.
const SEGMENT_KEYS: [&str; 4] = ["address", "data", "data_file", "pages"];

/// Those of the signals.
const SIGNALS_KEYS: [&str; 2] = ["address", "length"];

/// Those of an event channel.
const EVENT_KEYS: [&str; 4] = ["name", "cycle", "unit", "priority"];

/// Those of a parameter.
const PARAMETER_KEYS: [&str; 17] = [
    "name", "address", "type", "count", "columns", "rows", "x_axis", "y_axis", "bits", "values",
    "group", "unit", "about", "factor", "offset", "low", "high",
];

/// Those of a measurement.
const MEASUREMENT_KEYS: [&str; 16] = [
    "name", "address", "type", "count", "columns", "rows", "event", "bits", "values", "group",
    "unit", "about", "factor", "offset", "low", "high",
];

/// A key that nothing reads.
#[derive(Clone, Copy)]
pub(crate) struct Unread<'a> {
    place: Place,
    pub(crate) key: &'a str,
}

impl Unread<'_> {
    /// Appends the line of the key.
    pub(crate) fn put(&self, text: &mut String) -> Result<(), AllocError>
        ensures { OnOk result (string_bytes text.new ≡ string_bytes text.old ++ unread_line (placed self.now)) }
    {
        write!(text, "unread: {}", self.place)?;
        put_key(self.key, text)?;
        text.push('\n')
    }
}

/// Whether a key is one of these.
fn is_among(key: &str, known: &[&str]) -> bool
    ensures { result ≡ is_key_among key.now (map (λ k. k.now) known.now) }
{
    for name in known {
        if key == *name {
            return true;
        }
    }
    false
}

/// Adds the keys of a table that aren't among these.
fn gather_keys<'a>(
    table: &'a Table,
    place: Place,
    known: &[&str],
    found: &mut Vec<Unread<'a>>,
) -> Result<(), AllocError>
    ensures { IfOk result (λ _. keys_of found.new.items ≡ keys_of found.old.items ++ unread_members (bare_place place) (map (λ k. k.now) known.now) (table_view table.now)) }
{
    'keys: for (key, _member) in table.iter() {
        if !is_among(key.as_str(), known) {
            found.push(Unread {
                place,
                key: key.as_str(),
            })?;
        }
    }
    Ok(())
}

/// Adds those of a value that is a table.
fn gather<'a>(
    value: &'a Value,
    place: Place,
    known: &[&str],
    found: &mut Vec<Unread<'a>>,
) -> Result<(), AllocError>
    ensures { IfOk result (λ _. keys_of found.new.items ≡ keys_of found.old.items ++ unread_of (bare_place place) (map (λ k. k.now) known.now) (view value.now)) }
{
    match value.as_table() {
        Some(table) => gather_keys(table, place, known, found),
        None => Ok(()),
    }
}

/// Adds those of each of these members of the array with this name.
fn gather_members<'a>(
    members: &'a [Value],
    name: &'static str,
    known: &[&str],
    found: &mut Vec<Unread<'a>>,
) -> Result<(), AllocError>
    ensures { IfOk result (λ _. keys_of found.new.items ≡ keys_of found.old.items ++ flat_map (unread_member name.now (map (λ k. k.now) known.now)) (enumerate_from 0 (map view members.now))) }
{
    for (i, member) in members.iter().enumerate() {
        gather(member, Place::Member(name, i), known, found)?;
    }
    Ok(())
}

/// The members of the array with this name, none where there is none.
fn members_in<'a>(document: &'a Value, name: &str) -> &'a [Value]
    ensures { map view result.now ≡ members_of (get name.now (view document.now)) }
{
    let Some(value) = document.get(name) else {
        return &[];
    };
    match value.as_array() {
        Some(members) => members.as_slice(),
        None => &[],
    }
}

/// Adds those of each member of the array with this name.
fn gather_each<'a>(
    document: &'a Value,
    name: &'static str,
    known: &[&str],
    found: &mut Vec<Unread<'a>>,
) -> Result<(), AllocError>
    ensures { IfOk result (λ _. keys_of found.new.items ≡ keys_of found.old.items ++ unread_each name.now (map (λ k. k.now) known.now) (view document.now)) }
{
    gather_members(members_in(document, name), name, known, found)
}

/// Adds those of the table with this name, if it is there.
fn gather_table<'a>(
    document: &'a Value,
    name: &'static str,
    known: &[&str],
    found: &mut Vec<Unread<'a>>,
) -> Result<(), AllocError>
    ensures { IfOk result (λ _. keys_of found.new.items ≡ keys_of found.old.items ++ unread_named name.now (map (λ k. k.now) known.now) (view document.now)) }
{
    match document.get(name) {
        Some(table) => gather(table, Place::Table(name), known, found),
        None => Ok(()),
    }
}

/// All keys of a document that nothing reads: those outside its tables first, and of each table in the alphabet's order.
pub(crate) fn unread_in<'a>(
    alloc: Global,
    document: &'a Value,
) -> Result<Vec<Unread<'a>>, AllocError>
    ensures { IfOk result (λ found. keys_of found.items ≡ unread_keys (view document.now)) }
{
    let mut found = Vec::new(alloc);
    gather(document, Place::Top, &TOP_KEYS, &mut found)?;
    gather_table(document, "clock", &CLOCK_KEYS, &mut found)?;
    gather_each(document, "segment", &SEGMENT_KEYS, &mut found)?;
    gather_table(document, "signals", &SIGNALS_KEYS, &mut found)?;
    gather_each(document, "event", &EVENT_KEYS, &mut found)?;
    gather_each(document, "parameter", &PARAMETER_KEYS, &mut found)?;
    gather_each(document, "measurement", &MEASUREMENT_KEYS, &mut found)?;
    Ok(found)
}
