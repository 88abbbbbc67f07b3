//! Where the signals of a configuration stand.
ghost use Rattle.std.specs.Prelude.{◌≡◌, true, Some, None, IfOk, IfErr};
ghost use Rattle.toml.specs.View.{view};
ghost use Rattle.xcp_memory.specs.Limits.{is_address, is_within};
ghost use Rattle.xcp_packet.specs.Rows.{first_holding};
ghost use Rattle.xcp_config.specs.TableLayout.{address_of, class_in, length_of, signals_table};
ghost use Rattle.xcp_config.specs.TableChecks.{end_checks, place_checks, signals_checks};

use crate::ConfigError;
use crate::values::{read_integer, table_in};
use toml::Value;
use xcp_memory::limits::LAST_ADDRESS;
use xcp_memory::{Class, Key};

/// Where the signals stand: their first address, and how many bytes they have.
#[derive(Clone, Copy)]
pub(crate) struct Signals {
    pub(crate) address: i64,
    pub(crate) length: i64,
}

/// Checks where the last byte lies.
fn check_end(address: i64, length: i64) -> Result<(), ConfigError>
    requires address { is_address address ≡ true }
    requires length { is_within 1 16384 length ≡ true }
    ensures passes { IfOk result (λ _. first_holding (end_checks address length) ≡ None) }
    ensures refused { IfErr result (λ e. first_holding (end_checks address length) ≡ Some e) }
{
    if address as u64 + length as u64 > u64::from(LAST_ADDRESS) + 1 {
        return Err(ConfigError::Range(Key::SignalsAddress));
    }
    Ok(())
}

/// Where the table `signals` of a layout of this class says that they stand.
#[tactic(auto, using(crate::proofs::LimitLemmas::few_signals))]
fn read_place(signals: &Value, class: Class) -> Result<Signals, ConfigError>
    ensures passes { IfOk result (λ _. first_holding (place_checks class (view signals.now)) ≡ None) }
    ensures address { IfOk result (λ s. s.address ≡ address_of (view signals.now)) }
    ensures length { IfOk result (λ s. s.length ≡ length_of (view signals.now)) }
    ensures refused { IfErr result (λ e. first_holding (place_checks class (view signals.now)) ≡ Some e) }
{
    let address = read_integer(signals, "address", Key::SignalsAddress, 0, LAST_ADDRESS)?;
    let length = read_integer(
        signals,
        "length",
        Key::SignalsLength,
        1,
        class.limits().signals,
    )?;
    check_end(address, length)?;
    Ok(Signals { address, length })
}

/// Where the signals of a table stand that names this class.
pub(crate) fn read_signals(table: &Value, class: Class) -> Result<Signals, ConfigError>
    requires { class ≡ class_in (view table.now) }
    ensures passes { IfOk result (λ _. first_holding (signals_checks (view table.now)) ≡ None) }
    ensures address { IfOk result (λ s. s.address ≡ address_of (signals_table (view table.now))) }
    ensures length { IfOk result (λ s. s.length ≡ length_of (signals_table (view table.now))) }
    ensures refused { IfErr result (λ e. first_holding (signals_checks (view table.now)) ≡ Some e) }
{
    let signals = table_in(table, "signals", Key::Signals)?;
    read_place(signals, class)
}
