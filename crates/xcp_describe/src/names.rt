//! Names for the numbers of a parameter or a measurement.
ghost use Rattle.std.specs.Prelude.{◌≡◌, ◌&&◌, map, not, Some, None, true, false, IfOk, IfErr, option_map};
ghost use Rattle.std.specs.List.{list_any};
ghost use Rattle.toml.specs.View.{view};
ghost use Rattle.xcp_describe.specs.NumberNames.{are_names, are_pairs, is_number_of, is_pair, is_same_number, name_of_pair, number_of_pair, pairs_in};
ghost use Rattle.xcp_describe.specs.private.EntriesRead.{type_named};

use crate::entry::whole_number;
use crate::kind::Kind;
use crate::refusal::Why;
use crate::tables::members_in;
use toml::Value;
use xcp_memory::is_text;

/// The most names of an entry.
const MOST_NAMES: usize = 256;

/// The most characters of a name.
const MOST_CHARACTERS: usize = 100;

/// The pairs that a table gives its entry, which has this type.
pub(crate) fn names_in<'a>(table: &'a Value, kind: Kind) -> Result<&'a [Value], Why>
    ensures passes { IfOk result (λ _. are_names (type_named kind) (view table.now) ≡ true) }
    ensures value { IfOk result (λ ns. map view ns.now ≡ pairs_in (view table.now)) }
    ensures refused { IfErr result (λ e. (e ≡ Why.Values) × (are_names (type_named kind) (view table.now) ≡ false)) }
{
    let Some(pairs) = members_in(table, "values") else {
        return Err(Why::Values);
    };
    let is_scaled = table.get("factor").is_some() || table.get("offset").is_some();
    if pairs.len() > MOST_NAMES || !are_pairs(pairs, kind) {
        return Err(Why::Values);
    }
    if !pairs.is_empty() && is_scaled {
        return Err(Why::Values);
    }
    Ok(pairs)
}

/// Whether all are pairs of a type, no two of one number.
fn are_pairs(pairs: &[Value], kind: Kind) -> bool
    ensures { result ≡ are_pairs (type_named kind) (map view pairs.now) }
{
    for (i, pair) in pairs.iter().enumerate() {
        if !is_new_pair(pair, &pairs[i + 1..], kind) {
            return false;
        }
    }
    true
}

/// Whether it is a pair of a type, and none of these has its number.
fn is_new_pair(pair: &Value, others: &[Value], kind: Kind) -> bool
    ensures { result ≡ is_pair (type_named kind) (view pair.now) && not (list_any (is_same_number (view pair.now)) (map view others.now)) }
{
    is_pair(pair, kind) && !has_number_of(others, pair)
}

/// Whether one of these has the number of a pair.
fn has_number_of(others: &[Value], pair: &Value) -> bool
    ensures { result ≡ list_any (is_same_number (view pair.now)) (map view others.now) }
{
    for other in others {
        if is_same_number(pair, other) {
            return true;
        }
    }
    false
}

/// Whether two pairs have one number.
fn is_same_number(pair: &Value, other: &Value) -> bool
    ensures { result ≡ is_same_number (view pair.now) (view other.now) }
{
    match (number_of(pair), number_of(other)) {
        (Some(number), Some(same)) => number == same,
        _ => false,
    }
}

/// Whether it is a pair: a number of a type, a name, and nothing more.
fn is_pair(pair: &Value, kind: Kind) -> bool
    ensures { result ≡ is_pair (type_named kind) (view pair.now) }
{
    match (number_of(pair), name_of(pair), pair.get(2)) {
        (Some(number), Some(name), None) => {
            is_number_of(number, kind) && is_text(name.as_bytes(), MOST_CHARACTERS)
        }
        _ => false,
    }
}

/// Whether a type of integers has this number.
fn is_number_of(number: i64, kind: Kind) -> bool
    ensures { result ≡ is_number_of (type_named kind) number }
{
    let (least, most) = kind.bounds();
    match whole_number(number) {
        Ok(number) => kind.mask() != 0 && least <= number && number <= most,
        Err(_) => false,
    }
}

/// The number of a pair.
pub(crate) fn number_of(pair: &Value) -> Option<i64>
    ensures { result ≡ number_of_pair (view pair.now) }
{
    pair.get(0)?.as_integer()
}

/// The name of a pair.
pub(crate) fn name_of(pair: &Value) -> Option<&str>
    ensures { option_map (λ s. s.now) result ≡ name_of_pair (view pair.now) }
{
    pair.get(1)?.as_str()
}
