//! The values of the slave itself.
ghost use Rattle.std.specs.Prelude.{◌≡◌, ◌⊎◌, codes, true, Some, None, IfOk, IfErr};
ghost use Rattle.toml.specs.Data.{get};
ghost use Rattle.toml.specs.View.{view};
ghost use Rattle.xcp_memory.specs.declared.Key.TheVariants as key;
ghost use Rattle.xcp_memory.specs.LayoutParts.{extras_of, number, kind_numbered};
ghost use Rattle.xcp_memory.specs.Limits.{is_within};
ghost use Rattle.xcp_packet.specs.Rows.{first_holding};
ghost use Rattle.xcp_config.specs.TomlValues.{byte_orders, checksums, integer_of, named, value_text};
ghost use Rattle.xcp_config.specs.TableLayout.{byte_order_of, checksum_in, checksum_in_table, class_in, clock_in, clock_key, extras_in, order_in};
ghost use Rattle.xcp_config.specs.TableChecks.{own_checks, name_checks};

use crate::ConfigError;
use crate::class::read_class;
use crate::clock::read_clock;
use crate::extras::read_extras;
use crate::values::{read_integer, read_text, text_in};
use std::alloc::Global;
use toml::Value;
use xcp_memory::limits::MAX_ID;
use xcp_memory::{ChecksumKind, Class, ClockPart, ExtrasPart, Key};
use xcp_packet::Order;

/// The values of the slave itself.
#[derive(Drop)]
pub(crate) struct Own {
    pub(crate) id: Vec<u8>,
    pub(crate) max_cto: i64,
    pub(crate) max_dto: i64,
    pub(crate) order: Order,
    /// The number of the type of checksums: 1 to 6.
    pub(crate) checksum: i64,
    pub(crate) extras: ExtrasPart,
    pub(crate) clock: ClockPart,
    pub(crate) class: Class,
}

/// The byte order with this name.
fn order_named(text: &str) -> Option<Order>
    ensures { result ≡ named byte_orders text.now }
{
    match text {
        "intel" => Some(Order::Intel),
        "motorola" => Some(Order::Motorola),
        _ => None,
    }
}

/// The type of checksums with this name.
fn checksum_named(text: &str) -> Option<ChecksumKind>
    ensures { result ≡ named checksums text.now }
{
    match text {
        "ADD_11" => Some(ChecksumKind::Add11),
        "ADD_12" => Some(ChecksumKind::Add12),
        "ADD_14" => Some(ChecksumKind::Add14),
        "ADD_22" => Some(ChecksumKind::Add22),
        "ADD_24" => Some(ChecksumKind::Add24),
        "ADD_44" => Some(ChecksumKind::Add44),
        _ => None,
    }
}

/// The byte order: Intel where none is given.
#[tactic(auto, unfolding(crate::specs::TableChecks::name_checks))]
fn read_order(table: &Value) -> Result<Order, ConfigError>
    ensures passes { IfOk result (λ _. first_holding (name_checks key.ByteOrder byte_orders (byte_order_of (view table.now))) ≡ None) }
    ensures value { IfOk result (λ order. order ≡ order_in (view table.now)) }
    ensures refused { IfErr result (λ e. first_holding (name_checks key.ByteOrder byte_orders (byte_order_of (view table.now))) ≡ Some e) }
{
    if table.get("byte_order").is_none() {
        return Ok(Order::Intel);
    }
    let text = text_in(table, "byte_order", Key::ByteOrder)?;
    match order_named(text) {
        Some(order) => Ok(order),
        None => Err(ConfigError::Range(Key::ByteOrder)),
    }
}

/// The type of checksums: ADD_14 where none is given.
#[tactic(auto, unfolding(crate::specs::TableChecks::name_checks))]
fn read_checksum(table: &Value) -> Result<ChecksumKind, ConfigError>
    ensures passes { IfOk result (λ _. first_holding (name_checks key.Checksum checksums (checksum_in_table (view table.now))) ≡ None) }
    ensures value { IfOk result (λ kind. kind ≡ checksum_in (view table.now)) }
    ensures refused { IfErr result (λ e. first_holding (name_checks key.Checksum checksums (checksum_in_table (view table.now))) ≡ Some e) }
{
    if table.get("checksum").is_none() {
        return Ok(ChecksumKind::Add14);
    }
    let text = text_in(table, "checksum", Key::Checksum)?;
    match checksum_named(text) {
        Some(kind) => Ok(kind),
        None => Err(ConfigError::Range(Key::Checksum)),
    }
}

impl Own {
    /// Reads the identification, MAX_CTO, MAX_DTO, the byte order, the type of checksums, what only some slaves have, the
    /// clock, and the class, in this order.
    pub(crate) fn read(alloc: Global, table: &Value) -> Result<Own, ConfigError>
        ensures passes { IfOk result (λ o. first_holding (own_checks (view table.now)) ≡ None) }
        ensures id { IfOk result (λ o. o.id.items ≡ value_text (get (codes "id") (view table.now))) }
        ensures max_cto { IfOk result (λ o. o.max_cto ≡ integer_of (get (codes "max_cto") (view table.now))) }
        ensures max_dto { IfOk result (λ o. o.max_dto ≡ integer_of (get (codes "max_dto") (view table.now))) }
        ensures order { IfOk result (λ o. o.order ≡ order_in (view table.now)) }
        ensures checksum { IfOk result (λ o. kind_numbered (number o.checksum) ≡ checksum_in (view table.now)) }
        ensures range { IfOk result (λ o. is_within 1 6 o.checksum ≡ true) }
        ensures extras { IfOk result (λ o. extras_of o.extras ≡ extras_in (view table.now)) }
        ensures clock { IfOk result (λ o. o.clock ≡ clock_in (clock_key (view table.now))) }
        ensures class { IfOk result (λ o. o.class ≡ class_in (view table.now)) }
        ensures refused { IfErr result (λ e. (e ≡ ConfigError.Memory) ⊎ (first_holding (own_checks (view table.now)) ≡ Some e)) }
    {
        let id = read_text(alloc, table, "id", Key::Id, MAX_ID)?;
        let max_cto = read_integer(table, "max_cto", Key::MaxCto, 8, 255)?;
        let max_dto = read_integer(table, "max_dto", Key::MaxDto, 8, 255)?;
        let order = read_order(table)?;
        let checksum = read_checksum(table)?;
        let extras = read_extras(alloc, table)?;
        let clock = read_clock(table)?;
        let class = read_class(table)?;
        Ok(Own {
            id,
            max_cto,
            max_dto,
            order,
            checksum: i64::from(checksum.number()),
            extras,
            clock,
            class,
        })
    }
}
