//! The event channels of a configuration.
ghost use Rattle.std.specs.Prelude.{◌≡◌, ◌≤◌, ◌⊎◌, length, map, Some, None, IfOk, IfErr};
ghost use Rattle.std.specs.List.{flat_map, enumerate_from};
ghost use Rattle.toml.specs.View.{view};
ghost use Rattle.xcp_packet.specs.Rows.{first_holding};
ghost use Rattle.xcp_config.specs.TableLayout.{class_in, event_tables};
ghost use Rattle.xcp_config.specs.TableChecks.{event_checks, events_checks};
ghost use Rattle.xcp_config.specs.private.PartsRead.{event_read, event_written};

use crate::ConfigError;
use crate::values::{read_setting, read_text, tables_in};
use std::alloc::Global;
use toml::Value;
use xcp_memory::limits::MAX_NAME;
use xcp_memory::{Class, EventPart, Key};

/// The event channel that a table describes.
fn read_event(alloc: Global, table: &Value, number: u8) -> Result<EventPart, ConfigError>
    ensures passes { IfOk result (λ _. first_holding (event_checks (number, view table.now)) ≡ None) }
    ensures read { IfOk result (λ e. event_read e ≡ event_written (view table.now)) }
    ensures refused { IfErr result (λ e. (e ≡ ConfigError.Memory) ⊎ (first_holding (event_checks (number, view table.now)) ≡ Some e)) }
{
    let name = read_text(alloc, table, "name", Key::Name(number), MAX_NAME)?;
    let cycle = read_setting(table, "cycle", Key::Cycle(number), 0, 255, 0)?;
    let unit = read_setting(table, "unit", Key::Unit(number), 0, 255, 0)?;
    let priority = read_setting(table, "priority", Key::Priority(number), 0, 255, 0)?;
    Ok(EventPart {
        name,
        cycle,
        unit,
        priority,
    })
}

/// The event channels that these tables describe.
fn read_each(alloc: Global, members: &[Value]) -> Result<Vec<EventPart>, ConfigError>
    requires { length members.now ≤ 64 }
    ensures passes { IfOk result (λ _. first_holding (flat_map event_checks (enumerate_from 0 (map view members.now))) ≡ None) }
    ensures read { IfOk result (λ parts. map event_read parts.items ≡ map event_written (map view members.now)) }
    ensures refused { IfErr result (λ e. (e ≡ ConfigError.Memory) ⊎ (first_holding (flat_map event_checks (enumerate_from 0 (map view members.now))) ≡ Some e)) }
{
    let mut parts = Vec::new(alloc);
    for (i, member) in members.iter().enumerate() {
        let part = read_event(alloc, member, i as u8)?;
        parts.push(part)?;
    }
    Ok(parts)
}

/// The event channels of a table that names this class.
pub(crate) fn read_events(
    alloc: Global,
    table: &Value,
    class: Class,
) -> Result<Vec<EventPart>, ConfigError>
    requires { class ≡ class_in (view table.now) }
    ensures passes { IfOk result (λ _. first_holding (events_checks (view table.now)) ≡ None) }
    ensures read { IfOk result (λ parts. map event_read parts.items ≡ map event_written (event_tables (view table.now))) }
    ensures refused { IfErr result (λ e. (e ≡ ConfigError.Memory) ⊎ (first_holding (events_checks (view table.now)) ≡ Some e)) }
{
    let members = tables_in(table, "event", Key::Event, class.limits().events)?;
    read_each(alloc, members)
}
