//! The values at single keys. Each reader tells the first check that fails.
ghost use Rattle.std.specs.Prelude.{◌≡◌, ◌≤◌, ◌⊎◌, length, map, pos, true, Some, None, IfOk, IfErr};
ghost use Rattle.std.specs.List.{list_all};
ghost use Rattle.toml.specs.Data.{get, integer};
ghost use Rattle.toml.specs.View.{view};
ghost use Rattle.xcp_memory.specs.Limits.{is_within, text_limit, number_limit, least_limit, count_limits};
ghost use Rattle.xcp_packet.specs.Rows.{first_holding};
ghost use Rattle.xcp_config.specs.TomlValues.{boolean_of, bytes_in_hex, integer_of, is_table, members_of, optional, value_text};
ghost use Rattle.xcp_config.specs.TableChecks.{array_checks, boolean_checks, data_checks, integer_checks, table_checks, text_checks};
ghost use Rattle.xcp_config.specs.private.TextThere.{text_there};

use crate::ConfigError;
use hex::FromHexError;
use std::alloc::Global;
use toml::Value;
use xcp_memory::{Key, is_text};

/// A text, of whatever range.
pub(crate) fn text_in<'a>(table: &'a Value, name: &str, key: Key) -> Result<&'a str, ConfigError>
    ensures passes { IfOk result (λ _. first_holding (text_there key (get name.now (view table.now))) ≡ None) }
    ensures value { IfOk result (λ s. s.now ≡ value_text (get name.now (view table.now))) }
    ensures refused { IfErr result (λ e. first_holding (text_there key (get name.now (view table.now))) ≡ Some e) }
{
    let Some(value) = table.get(name) else {
        return Err(ConfigError::Missing(key));
    };
    match value.as_str() {
        Some(text) => Ok(text),
        None => Err(ConfigError::Kind(key)),
    }
}

/// A text of 1 to `most` printable characters.
#[tactic(auto, unfolding(crate::specs::TableChecks::text_checks))]
pub(crate) fn read_text(
    alloc: Global,
    table: &Value,
    name: &str,
    key: Key,
    most: usize,
) -> Result<Vec<u8>, ConfigError>
    ensures passes { IfOk result (λ _. first_holding (text_checks key (text_limit most key) (get name.now (view table.now))) ≡ None) }
    ensures value { IfOk result (λ bytes. bytes.items ≡ value_text (get name.now (view table.now))) }
    ensures refused { IfErr result (λ e. (e ≡ ConfigError.Memory) ⊎ (first_holding (text_checks key (text_limit most key) (get name.now (view table.now))) ≡ Some e)) }
{
    let text = text_in(table, name, key)?;
    if !is_text(text.as_bytes(), most) {
        return Err(ConfigError::Range(key));
    }
    Ok(text.as_bytes().to_vec(alloc)?)
}

/// An integer from `least` to `most`.
#[tactic(auto, unfolding(crate::specs::TableChecks::integer_checks))]
pub(crate) fn read_integer(
    table: &Value,
    name: &str,
    key: Key,
    least: u32,
    most: u32,
) -> Result<i64, ConfigError>
    ensures passes { IfOk result (λ _. first_holding (integer_checks key (number_limit least most key) (get name.now (view table.now))) ≡ None) }
    ensures value { IfOk result (λ n. n ≡ integer_of (get name.now (view table.now))) }
    ensures range { IfOk result (λ n. is_within least most n ≡ true) }
    ensures refused { IfErr result (λ e. first_holding (integer_checks key (number_limit least most key) (get name.now (view table.now))) ≡ Some e) }
{
    let Some(value) = table.get(name) else {
        return Err(ConfigError::Missing(key));
    };
    let Some(number) = value.as_integer() else {
        return Err(ConfigError::Kind(key));
    };
    if i64::from(least) <= number && number <= i64::from(most) {
        Ok(number)
    } else {
        Err(ConfigError::Range(key))
    }
}

/// An integer from `least` to `most`, and the default where the key isn't there.
#[tactic(auto, unfolding(crate::specs::TableChecks::integer_checks))]
pub(crate) fn read_setting(
    table: &Value,
    name: &str,
    key: Key,
    least: u32,
    most: u32,
    default: u32,
) -> Result<i64, ConfigError>
    requires { is_within least most (pos default) ≡ true }
    ensures passes { IfOk result (λ _. first_holding (integer_checks key (number_limit least most key) (optional (integer (pos default)) (get name.now (view table.now)))) ≡ None) }
    ensures value { IfOk result (λ n. n ≡ integer_of (optional (integer (pos default)) (get name.now (view table.now)))) }
    ensures refused { IfErr result (λ e. first_holding (integer_checks key (number_limit least most key) (optional (integer (pos default)) (get name.now (view table.now)))) ≡ Some e) }
{
    match table.get(name) {
        None => Ok(i64::from(default)),
        Some(_) => read_integer(table, name, key, least, most),
    }
}

/// A boolean.
#[tactic(auto, unfolding(crate::specs::TableChecks::boolean_checks))]
pub(crate) fn boolean_in(table: &Value, name: &str, key: Key) -> Result<bool, ConfigError>
    ensures passes { IfOk result (λ _. first_holding (boolean_checks key (get name.now (view table.now))) ≡ None) }
    ensures value { IfOk result (λ b. b ≡ boolean_of (get name.now (view table.now))) }
    ensures refused { IfErr result (λ e. first_holding (boolean_checks key (get name.now (view table.now))) ≡ Some e) }
{
    let Some(value) = table.get(name) else {
        return Err(ConfigError::Missing(key));
    };
    match value.as_bool() {
        Some(boolean) => Ok(boolean),
        None => Err(ConfigError::Kind(key)),
    }
}

/// The bytes that a text of hex digits writes: one at least.
#[tactic(auto, unfolding(crate::specs::TableChecks::data_checks))]
pub(crate) fn read_bytes(
    alloc: Global,
    table: &Value,
    name: &str,
    key: Key,
) -> Result<Vec<u8>, ConfigError>
    ensures passes { IfOk result (λ _. first_holding (data_checks key (least_limit key) (get name.now (view table.now))) ≡ None) }
    ensures value { IfOk result (λ bytes. bytes.items ≡ bytes_in_hex (get name.now (view table.now))) }
    ensures least { IfOk result (λ bytes. 1 ≤ length bytes.items) }
    ensures refused { IfErr result (λ e. (e ≡ ConfigError.Memory) ⊎ (first_holding (data_checks key (least_limit key) (get name.now (view table.now))) ≡ Some e)) }
{
    let text = text_in(table, name, key)?;
    match hex::decode(alloc, text) {
        Ok(bytes) if bytes.is_empty() => Err(ConfigError::Range(key)),
        Ok(bytes) => Ok(bytes),
        Err(FromHexError::OutOfMemory) => Err(ConfigError::Memory),
        Err(_) => Err(ConfigError::Range(key)),
    }
}

/// A table.
#[tactic(auto, unfolding(crate::specs::TableChecks::table_checks))]
pub(crate) fn table_in<'a>(table: &'a Value, name: &str, key: Key) -> Result<&'a Value, ConfigError>
    ensures passes { IfOk result (λ _. first_holding (table_checks key (get name.now (view table.now))) ≡ None) }
    ensures value { IfOk result (λ t. get name.now (view table.now) ≡ Some (view t.now)) }
    ensures refused { IfErr result (λ e. first_holding (table_checks key (get name.now (view table.now))) ≡ Some e) }
{
    match table.get(name) {
        None => Err(ConfigError::Missing(key)),
        Some(value) if value.is_table() => Ok(value),
        Some(_) => Err(ConfigError::Kind(key)),
    }
}

/// Whether all values are tables.
fn all_tables(members: &[Value]) -> bool
    ensures { result ≡ list_all is_table (map view members.now) }
{
    for member in members {
        if !member.is_table() {
            return false;
        }
    }
    true
}

/// The members of an array of 1 to `most` tables.
#[tactic(auto, unfolding(crate::specs::TableChecks::array_checks))]
pub(crate) fn tables_in<'a>(
    table: &'a Value,
    name: &str,
    key: Key,
    most: usize,
) -> Result<&'a [Value], ConfigError>
    ensures passes { IfOk result (λ _. first_holding (array_checks key (count_limits most key) (get name.now (view table.now))) ≡ None) }
    ensures value { IfOk result (λ members. map view members.now ≡ members_of (get name.now (view table.now))) }
    ensures most { IfOk result (λ members. length members.now ≤ most) }
    ensures refused { IfErr result (λ e. first_holding (array_checks key (count_limits most key) (get name.now (view table.now))) ≡ Some e) }
{
    let Some(value) = table.get(name) else {
        return Err(ConfigError::Missing(key));
    };
    let Some(members) = value.as_array() else {
        return Err(ConfigError::Kind(key));
    };
    if !all_tables(members) {
        return Err(ConfigError::Kind(key));
    }
    if members.is_empty() {
        return Err(ConfigError::Range(key));
    }
    if members.len() > most {
        return Err(ConfigError::TooMany(key));
    }
    Ok(members)
}
