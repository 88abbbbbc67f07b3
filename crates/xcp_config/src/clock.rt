//! The clock of a configuration.
ghost use Rattle.std.specs.Prelude.{◌≡◌, ◌==◌, true, Some, None, IfOk, IfErr};
ghost use Rattle.toml.specs.View.{view};
ghost use Rattle.xcp_memory.specs.LayoutParts.{number};
ghost use Rattle.xcp_memory.specs.Limits.{is_within};
ghost use Rattle.xcp_packet.specs.Rows.{first_holding};
ghost use Rattle.xcp_config.specs.TableLayout.{clock_in, clock_key, clock_part};
ghost use Rattle.xcp_config.specs.TableChecks.{clock_checks, clock_key_checks, size_check};

use crate::ConfigError;
use crate::values::{read_setting, table_in};
use toml::Value;
use xcp_memory::limits::{MAX_STAMP, MAX_TICKS, MAX_UNIT};
use xcp_memory::{ClockPart, Key, NO_CLOCK};

const MOST_BYTES: u32 = MAX_STAMP as u32;

const LAST_UNIT: u32 = MAX_UNIT as u32;

/// The unit where none is given.
const MICROSECOND: u32 = 3;

const MOST_TICKS: u32 = MAX_TICKS as u32;

/// A time stamp has no three bytes.
fn check_size(size: i64) -> Result<(), ConfigError>
    ensures passes { IfOk result (λ _. first_holding (size_check size) ≡ None) }
    ensures refused { IfErr result (λ e. first_holding (size_check size) ≡ Some e) }
{
    if size == 3 {
        return Err(ConfigError::Range(Key::ClockSize));
    }
    Ok(())
}

/// The clock that a table describes: time stamps of four bytes, and ticks of a microsecond, where it says nothing else.
fn read_keys(clock: &Value) -> Result<ClockPart, ConfigError>
    ensures passes { IfOk result (λ _. first_holding (clock_key_checks (view clock.now)) ≡ None) }
    ensures value { IfOk result (λ c. c ≡ clock_part (view clock.now)) }
    ensures refused { IfErr result (λ e. first_holding (clock_key_checks (view clock.now)) ≡ Some e) }
{
    let size = read_setting(clock, "size", Key::ClockSize, 1, MOST_BYTES, MOST_BYTES)?;
    check_size(size)?;
    let unit = read_setting(clock, "unit", Key::ClockUnit, 0, LAST_UNIT, MICROSECOND)?;
    let ticks = read_setting(clock, "ticks", Key::ClockTicks, 1, MOST_TICKS, 1)?;
    Ok(ClockPart { size, unit, ticks })
}

/// The clock of a table: none where it has no table `clock`.
pub(crate) fn read_clock(table: &Value) -> Result<ClockPart, ConfigError>
    ensures passes { IfOk result (λ _. first_holding (clock_checks (view table.now)) ≡ None) }
    ensures value { IfOk result (λ c. c ≡ clock_in (clock_key (view table.now))) }
    ensures refused { IfErr result (λ e. first_holding (clock_checks (view table.now)) ≡ Some e) }
{
    if table.get("clock").is_none() {
        return Ok(NO_CLOCK);
    }
    let clock = table_in(table, "clock", Key::Clock)?;
    read_keys(clock)
}
