//! Where the table of an array lies in a layout file, and what its entry is called.
ghost use Rattle.std.specs.Prelude.{◌≡◌, ◌++◌, true, IfOk, IfSome, codes, string_bytes};
ghost use Rattle.std.specs.List.{list_all};
ghost use Rattle.xcp_memory.specs.Limits.{is_printable};
ghost use Rattle.xcp_telling.specs.Locating.{IsLocated, IsPlace};

use std::alloc::{AllocError, Global};
use xcp_memory::is_text;

/// The most bytes of a name that is told: an entry's has 117 at most, and two quotes.
const MOST_OF_A_NAME: usize = 119;

/// A table of an array of tables: the number of its header's line, from 1, and what its key `name` is, as the file writes it.
#[derive(Clone, Copy)]
struct Table<'a> {
    line: usize,
    name: Option<&'a str>,
}

/// Words that begin with a table of an array, as `segment 2: address has to be ..`, with its name, if it has one, and the line at which it
/// begins, if it has a header: `segment 2 (line 31): address has to be ..`. Other words stay as they are.
pub fn located(alloc: Global, words: &str, config: &str) -> Result<String, AllocError>
    ensures { IfOk result (λ told. IsLocated words.now (string_bytes told)) }
{
    let Some((front, rest)) = words.split_once(": ") else {
        return String::from_str(alloc, words);
    };
    match named_by(front, config) {
        None => String::from_str(alloc, words),
        Some(table) => put_in(alloc, front, place_of(alloc, &table)?.as_str(), rest),
    }
}

/// The place of a table, as it is told.
fn place_of(alloc: Global, table: &Table<'_>) -> Result<String, AllocError>
    requires { IfSome table.now.name (λ name. list_all is_printable name.now ≡ true) }
    ensures { IfOk result (λ told. IsPlace (string_bytes told)) }
{
    let line = table.line;
    match table.name {
        Some(name) => format!(in alloc; " {name} (line {line})"),
        None => format!(in alloc; " (line {line})"),
    }
}

/// Words whose two parts stand round a colon, with a place behind the first part.
fn put_in(alloc: Global, front: &str, place: &str, rest: &str) -> Result<String, AllocError>
    ensures { IfOk result (λ told. string_bytes told ≡ front.now ++ (place.now ++ (codes ": " ++ rest.now))) }
{
    format!(in alloc; "{front}{place}: {rest}")
}

/// The table that is named so, as `segment 2`, if there is a header for it.
fn named_by<'a>(front: &str, config: &'a str) -> Option<Table<'a>>
    ensures { IfSome result (λ table. IfSome table.name (λ name. list_all is_printable name.now ≡ true)) }
{
    let (array, number) = front.split_once(' ')?;
    let number = number.parse::<usize>().ok()?;
    let at = header_of(array, number, config)?;
    Some(Table {
        line: at.saturating_add(1),
        name: name_behind(at, config),
    })
}

/// Which line, from 0, has the header of the table of this number, from 0, of this array.
fn header_of(array: &str, number: usize, config: &str) -> Option<usize> {
    let mut before: usize = 0;
    for (at, line) in config.lines().enumerate() {
        if array_of(line) != Some(array) {
            continue;
        }
        if before == number {
            return Some(at);
        }
        before = before.saturating_add(1);
    }
    None
}

/// The array of whose table this line is the header.
fn array_of(line: &str) -> Option<&str> {
    let behind = line.trim().strip_prefix("[[")?;
    let (array, _) = behind.split_once("]]")?;
    Some(array.trim())
}

/// What the key `name` is, in the lines behind this one, up to the next header.
fn name_behind(at: usize, config: &str) -> Option<&str>
    ensures { IfSome result (λ name. list_all is_printable name.now ≡ true) }
{
    for line in config.lines().skip(at).skip(1) {
        let line = line.trim();
        if line.starts_with('[') {
            return None;
        }
        if let Some(value) = name_in(line) {
            return told_name(value);
        }
    }
    None
}

/// A name, if it is told: it is no longer than names are, and has no character that a terminal would take for more than a sign.
fn told_name(name: &str) -> Option<&str>
    ensures { IfSome result (λ told. list_all is_printable told.now ≡ true) }
{
    if is_text(name.as_bytes(), MOST_OF_A_NAME) {
        Some(name)
    } else {
        None
    }
}

/// What stands behind `name =`, but for a comment, if this line is such a one.
fn name_in(line: &str) -> Option<&str> {
    let (key, value) = line.split_once('=')?;
    if key.trim() != "name" {
        return None;
    }
    match value.split_once('#') {
        Some((value, _)) => Some(value.trim()),
        None => Some(value.trim()),
    }
}
