//! The class of a configuration: which limits hold.
ghost use Rattle.std.specs.Prelude.{◌≡◌, Some, None, IfOk, IfErr};
ghost use Rattle.toml.specs.View.{view};
ghost use Rattle.xcp_memory.specs.declared.Key.TheVariants as key;
ghost use Rattle.xcp_packet.specs.Rows.{first_holding};
ghost use Rattle.xcp_config.specs.TomlValues.{classes, named};
ghost use Rattle.xcp_config.specs.TableLayout.{class_in, class_of};
ghost use Rattle.xcp_config.specs.TableChecks.{name_checks};

use crate::ConfigError;
use crate::values::text_in;
use toml::Value;
use xcp_memory::{Class, Key};

/// The class with this name.
fn class_named(text: &str) -> Option<Class>
    ensures { result ≡ named classes text.now }
{
    match text {
        "papers" => Some(Class::Papers),
        "large" => Some(Class::Large),
        _ => None,
    }
}

/// The class, `Papers` where none is given.
#[tactic(auto, unfolding(crate::specs::TableChecks::name_checks))]
pub(crate) fn read_class(table: &Value) -> Result<Class, ConfigError>
    ensures passes { IfOk result (λ _. first_holding (name_checks key.Class classes (class_of (view table.now))) ≡ None) }
    ensures value { IfOk result (λ class. class ≡ class_in (view table.now)) }
    ensures refused { IfErr result (λ e. first_holding (name_checks key.Class classes (class_of (view table.now))) ≡ Some e) }
{
    if table.get("class").is_none() {
        return Ok(Class::Papers);
    }
    let text = text_in(table, "class", Key::Class)?;
    match class_named(text) {
        Some(class) => Ok(class),
        None => Err(ConfigError::Range(Key::Class)),
    }
}
