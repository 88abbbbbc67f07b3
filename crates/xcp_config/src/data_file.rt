//! The file that a segment's table names for its bytes.
ghost use Rattle.std.specs.Prelude.{◌≡◌, ◌⊎◌, [], Some, None, IfOk, IfErr, MatchOption, slice_index_or as get_or, unwrap_or};
ghost use Rattle.toml.specs.View.{view};
ghost use Rattle.xcp_packet.specs.Rows.{first_holding};
ghost use Rattle.xcp_config.specs.TomlValues.{has_no_slash, is_file_name, is_folder};
ghost use Rattle.xcp_config.specs.TableLayout.{data_of};
ghost use Rattle.xcp_config.specs.TableChecks.{bytes_checks, content_checks, name_of_file_checks};

use crate::ConfigError;
use crate::values::read_bytes;
use std::alloc::Global;
use std::marker::Model;
use toml::Value;
use xcp_memory::{Key, is_text};

/// How many bytes the name of a file has at most.
const MAX_FILE_NAME: usize = 64;

/// The bytes of a file that a segment's table names, if there is such a file.
#[derive(Drop)]
pub struct DataFile {
    bytes: Option<Vec<u8>>,
}

impl Model for DataFile {
    ghost use Rattle.std.specs.Prelude.{ℕ, List, Option, option_map};

    ghost Value = { Option (List ℕ) };

    ghost view = { λ f. option_map (λ bytes. bytes.items) f.bytes };
}

impl DataFile {
    /// No file: none is named, or it can't be opened or read.
    pub fn none() -> DataFile
        ensures { result ≡ None }
    {
        DataFile { bytes: None }
    }

    /// A file with these bytes.
    pub fn of(bytes: Vec<u8>) -> DataFile
        ensures { result ≡ Some bytes.items }
    {
        DataFile { bytes: Some(bytes) }
    }

    /// Its bytes, if it is there.
    fn bytes(&self) -> Option<&[u8]>
        ensures { MatchOption result (self.now ≡ None) (λ bytes. self.now ≡ Some bytes.now) }
    {
        match &self.bytes {
            None => None,
            Some(bytes) => Some(bytes),
        }
    }
}

/// The bytes of the file of this number, if it is there.
fn bytes_at(files: &[DataFile], number: u8) -> Option<&[u8]>
    ensures { MatchOption result (get_or files.now number None ≡ None) (λ bytes. get_or files.now number None ≡ Some bytes.now) }
{
    match files.get(usize::from(number)) {
        None => None,
        Some(file) => file.bytes(),
    }
}

/// Whether no character is a slash.
fn has_no_slash(name: &[u8]) -> bool
    ensures { result ≡ has_no_slash name.now }
{
    name.iter().all(|c| *c != b'/')
}

/// Whether this is the name of a folder.
fn is_folder(name: &str) -> bool
    ensures { result ≡ is_folder name.now }
{
    name == "." || name == ".."
}

/// Whether this is a name of a file beside another one.
pub(crate) fn is_file_name(name: &str) -> bool
    ensures { result ≡ is_file_name name.now }
{
    is_text(name.as_bytes(), MAX_FILE_NAME) && has_no_slash(name.as_bytes()) && !is_folder(name)
}

/// Checks the name of the file that the table of a segment names.
#[tactic(auto, unfolding(crate::specs::TableChecks::name_of_file_checks))]
fn check_name(table: &Value, name: &Value, number: u8) -> Result<(), ConfigError>
    ensures passes { IfOk result (λ _. first_holding (name_of_file_checks number (view name.now) (view table.now)) ≡ None) }
    ensures refused { IfErr result (λ e. first_holding (name_of_file_checks number (view name.now) (view table.now)) ≡ Some e) }
{
    if table.get("data").is_some() {
        return Err(ConfigError::Kind(Key::Data(number)));
    }
    let Some(text) = name.as_str() else {
        return Err(ConfigError::Kind(Key::Data(number)));
    };
    if !is_file_name(text) {
        return Err(ConfigError::Range(Key::Data(number)));
    }
    Ok(())
}

/// The bytes of a segment's file: one at least.
#[tactic(auto, unfolding(crate::specs::TableChecks::content_checks))]
fn read_content(alloc: Global, files: &[DataFile], number: u8) -> Result<Vec<u8>, ConfigError>
    ensures passes { IfOk result (λ _. first_holding (content_checks number (get_or files.now number None)) ≡ None) }
    ensures value { IfOk result (λ bytes. bytes.items ≡ unwrap_or (get_or files.now number None) []) }
    ensures refused { IfErr result (λ e. (e ≡ ConfigError.Memory) ⊎ (first_holding (content_checks number (get_or files.now number None)) ≡ Some e)) }
{
    let Some(bytes) = bytes_at(files, number) else {
        return Err(ConfigError::Missing(Key::Data(number)));
    };
    if bytes.is_empty() {
        return Err(ConfigError::Range(Key::Data(number)));
    }
    Ok(bytes.to_vec(alloc)?)
}

/// The bytes of a segment: those of the file that its table names, or else those that its table writes.
pub(crate) fn read_data(
    alloc: Global,
    table: &Value,
    number: u8,
    files: &[DataFile],
) -> Result<Vec<u8>, ConfigError>
    ensures passes { IfOk result (λ _. first_holding (bytes_checks number (get_or files.now number None, view table.now)) ≡ None) }
    ensures value { IfOk result (λ bytes. bytes.items ≡ data_of (get_or files.now number None, view table.now)) }
    ensures refused { IfErr result (λ e. (e ≡ ConfigError.Memory) ⊎ (first_holding (bytes_checks number (get_or files.now number None, view table.now)) ≡ Some e)) }
{
    match table.get("data_file") {
        None => read_bytes(alloc, table, "data", Key::Data(number)),
        Some(name) => {
            check_name(table, name, number)?;
            read_content(alloc, files, number)
        }
    }
}
