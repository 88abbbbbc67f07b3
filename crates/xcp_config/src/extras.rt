//! What a configuration asks for that only some slaves have.
ghost use Rattle.std.specs.Prelude.{◌≡◌, ◌⊎◌, codes, Some, None, IfOk, IfErr};
ghost use Rattle.toml.specs.Data.{get};
ghost use Rattle.toml.specs.View.{view};
ghost use Rattle.xcp_memory.specs.declared.Key.TheVariants as key;
ghost use Rattle.xcp_memory.specs.LayoutParts.{extras_of};
ghost use Rattle.xcp_memory.specs.Limits.{text_limit};
ghost use Rattle.xcp_packet.specs.Rows.{first_holding};
ghost use Rattle.xcp_config.specs.TomlValues.{overloads};
ghost use Rattle.xcp_config.specs.TableLayout.{a2l_in, extras_in, overload_in, uploads_in};
ghost use Rattle.xcp_config.specs.TableChecks.{boolean_checks, extras_checks, if_there, name_checks, text_checks};

use crate::ConfigError;
use crate::values::{boolean_in, read_text, text_in};
use std::alloc::Global;
use toml::Value;
use xcp_memory::limits::MAX_A2L;
use xcp_memory::{ExtrasPart, Key};

/// The name of the A2L file: no bytes where none is given.
fn read_a2l(alloc: Global, table: &Value) -> Result<Vec<u8>, ConfigError>
    ensures passes { IfOk result (λ _. first_holding (if_there (text_checks key.A2l (text_limit 64 key.A2l)) (get (codes "a2l") (view table.now))) ≡ None) }
    ensures value { IfOk result (λ bytes. bytes.items ≡ a2l_in (view table.now)) }
    ensures refused { IfErr result (λ e. (e ≡ ConfigError.Memory) ⊎ (first_holding (if_there (text_checks key.A2l (text_limit 64 key.A2l)) (get (codes "a2l") (view table.now))) ≡ Some e)) }
{
    match table.get("a2l") {
        None => Ok(Vec::new(alloc)),
        Some(_) => read_text(alloc, table, "a2l", Key::A2l, MAX_A2L),
    }
}

/// Whether tools get the A2L file from the slave: they don't where nothing is said.
fn read_upload(table: &Value) -> Result<bool, ConfigError>
    ensures passes { IfOk result (λ _. first_holding (if_there (boolean_checks key.UploadA2l) (get (codes "upload_a2l") (view table.now))) ≡ None) }
    ensures value { IfOk result (λ uploads. uploads ≡ uploads_in (view table.now)) }
    ensures refused { IfErr result (λ e. first_holding (if_there (boolean_checks key.UploadA2l) (get (codes "upload_a2l") (view table.now))) ≡ Some e) }
{
    match table.get("upload_a2l") {
        None => Ok(false),
        Some(_) => boolean_in(table, "upload_a2l", Key::UploadA2l),
    }
}

/// Whether an event packet tells of lost samples: none does where nothing is said.
#[tactic(auto, unfolding(crate::specs::TableChecks::name_checks))]
fn read_overload(table: &Value) -> Result<bool, ConfigError>
    ensures passes { IfOk result (λ _. first_holding (if_there (name_checks key.Overload overloads) (get (codes "overload") (view table.now))) ≡ None) }
    ensures value { IfOk result (λ tells. tells ≡ overload_in (view table.now)) }
    ensures refused { IfErr result (λ e. first_holding (if_there (name_checks key.Overload overloads) (get (codes "overload") (view table.now))) ≡ Some e) }
{
    if table.get("overload").is_none() {
        return Ok(false);
    }
    match text_in(table, "overload", Key::Overload)? {
        "event" => Ok(true),
        _ => Err(ConfigError::Range(Key::Overload)),
    }
}

/// Reads the A2L file's name, whether tools get the file from the slave, and how a lost sample is told, in this order.
pub(crate) fn read_extras(alloc: Global, table: &Value) -> Result<ExtrasPart, ConfigError>
    ensures passes { IfOk result (λ _. first_holding (extras_checks (view table.now)) ≡ None) }
    ensures value { IfOk result (λ e. extras_of e ≡ extras_in (view table.now)) }
    ensures refused { IfErr result (λ e. (e ≡ ConfigError.Memory) ⊎ (first_holding (extras_checks (view table.now)) ≡ Some e)) }
{
    let a2l = read_a2l(alloc, table)?;
    let uploads_a2l = read_upload(table)?;
    let tells_overload = read_overload(table)?;
    Ok(ExtrasPart {
        a2l,
        uploads_a2l,
        tells_overload,
    })
}
