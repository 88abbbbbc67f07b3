//! One parameter or measurement: what the layout file says of it.
ghost use Rattle.std.specs.Prelude.{◌≡◌, ◌*◌, codes, length, Some, None, true, false, IfOk, IfErr, is_some, unwrap_or, option_and_then, option_map};
ghost use Rattle.std.specs.Float.{binary64};
ghost use Rattle.std.specs.List.{list_all, list_any};
ghost use lib.Ieee.{of_int};
ghost use Rattle.toml.specs.Data.{as_integer, as_str, get};
ghost use Rattle.toml.specs.View.{view};
ghost use Rattle.xcp_packet.specs.Rows.{first_holding};
ghost use Rattle.xcp_memory.specs.Limits.{is_within};
ghost use Rattle.xcp_config.specs.TomlValues.{value_text};
ghost use Rattle.xcp_memory.specs.ComputedAccess.{lies_inside, segment_of};
ghost use Rattle.xcp_describe.specs.Axes.{axis_in, has_axes, has_axis, is_axis};
ghost use Rattle.xcp_describe.specs.EntryValues.{event_number, factor_in, first_of, in_order, in_unit, is_event, is_name, is_name_character, is_of_32_bits, is_label_or_none, name_of, number_or, offset_in, some_and, type_in};
ghost use Rattle.xcp_describe.specs.EntryFaults.{entry_faults, limit_faults};
ghost use Rattle.xcp_describe.specs.private.EntriesRead.{IsEntryRead, form_read, forms_of, type_named};
ghost use Rattle.xcp_describe.specs.private.FiniteNumbers.{HasFiniteNumbers, IsFinite};

use crate::kind::Kind;
use crate::meaning::Meaning;
use crate::refusal::Why;
use crate::shape::Shape;
use crate::text::is_text_of_entry;
use toml::Value;
use xcp_memory::Layout;

/// The most characters of a name: with `_conversion` behind them an identifier of ASAP2 has no more than 128.
const MOST_OF_NAME: usize = 117;

/// A parameter or a measurement.
#[derive(Clone, Copy)]
pub(crate) struct Entry<'a> {
    pub(crate) name: &'a str,
    pub(crate) address: u32,
    pub(crate) kind: Kind,
    pub(crate) shape: Shape,
    /// The name of the parameter that says what each place in a row stands for, if one is given.
    pub(crate) x_axis: Option<&'a str>,
    /// The name of the parameter that says what each row stands for, if one is given.
    pub(crate) y_axis: Option<&'a str>,
    pub(crate) unit: &'a str,
    pub(crate) about: &'a str,
    /// A value in its unit is its number in memory times the factor, and the offset.
    pub(crate) factor: f64,
    pub(crate) offset: f64,
    pub(crate) low: f64,
    pub(crate) high: f64,
    /// The event channel at which a measurement is measured, if one is given.
    pub(crate) event: Option<u16>,
    pub(crate) meaning: Meaning<'a>,
}

impl<'a> Entry<'a> {
    /// The entry that a table describes; only a parameter has axes.
    #[tactic(auto, unfolding(crate::specs::EntryFaults::entry_faults))]
    pub(crate) fn read(table: &'a Value, is_parameter: bool) -> Result<Entry<'a>, Why>
        ensures finite { IfOk result HasFiniteNumbers }
        ensures passes { IfOk result (λ _. first_holding (entry_faults (view table.now)) ≡ None) }
        ensures read { IfOk result (λ e. IsEntryRead is_parameter (view table.now) e) }
        ensures refused { IfErr result (λ e. first_holding (entry_faults (view table.now)) ≡ Some e) }
    {
        let name = name_in(table)?;
        let address = address_in(table)?;
        let kind = kind_in(table)?;
        let shape = Shape::read(table)?;
        let factor = factor_in(table)?;
        let offset = offset_in(table)?;
        let (low, high) = limits_in(table, scaled(kind.bounds(), factor, offset), factor)?;
        Ok(Entry {
            name,
            address,
            kind,
            shape,
            x_axis: axis_in(table, "x_axis", is_parameter),
            y_axis: axis_in(table, "y_axis", is_parameter),
            unit: text_in(table, "unit", Why::Unit)?,
            about: text_in(table, "about", Why::About)?,
            factor,
            offset,
            low,
            high,
            event: None,
            meaning: Meaning::plain(),
        })
    }

    /// How many bytes all its values have.
    fn length(&self) -> usize
        ensures { result ≡ (type_named self.now.kind).size * unwrap_or self.now.shape.count 1 }
    {
        usize::from(self.kind.size()) * self.shape.count.unwrap_or(1) as usize
    }

    /// Whether all its bytes lie in one segment.
    pub(crate) fn is_in_segments(&self, layout: &Layout) -> bool
        ensures { result ≡ is_some (segment_of layout.now self.now.address ((type_named self.now.kind).size * unwrap_or self.now.shape.count 1)) }
    {
        layout.segment_of(self.address, self.length()).is_some()
    }

    /// Whether all its bytes lie in one segment, or in the signals.
    pub(crate) fn is_in_memory(&self, layout: &Layout) -> bool
        ensures { result ≡ lies_inside layout.now self.now.address ((type_named self.now.kind).size * unwrap_or self.now.shape.count 1) }
    {
        self.is_in_segments(layout) || layout.is_in_signals(self.address, self.length())
    }

    /// Whether it may be an axis of so many values, by this name.
    fn is_axis(&self, name: &str, count: u16) -> bool
        ensures { result ≡ is_axis count name.now (form_read self.now) }
    {
        name == self.name
            && self.shape.count.unwrap_or(1) == u32::from(count)
            && self.shape.columns.is_none()
            && self.meaning.bits.is_none()
            && self.x_axis.is_none()
            && self.y_axis.is_none()
    }

    /// Whether it has the axes that it needs, and they are parameters of as many values as it has columns and rows.
    pub(crate) fn has_axes(&self, parameters: &[Entry<'_>]) -> bool
        ensures { result ≡ has_axes (forms_of parameters.now) (form_read self.now) }
    {
        let needs_y_axis = self.x_axis.is_some() && self.shape.rows.is_some();
        has_axis(parameters, self.shape.columns, self.x_axis)
            && has_axis(parameters, self.shape.rows, self.y_axis)
            && self.y_axis.is_some() == needs_y_axis
    }
}

/// Whether one of these is the axis that is named, if one is.
fn has_axis(parameters: &[Entry<'_>], count: Option<u16>, axis: Option<&str>) -> bool
    ensures { result ≡ has_axis (forms_of parameters.now) count (option_map (λ s. s.now) axis.entry) }
{
    match (count, axis) {
        (_, None) => true,
        (None, Some(_)) => false,
        (Some(count), Some(name)) => has_axis_of(parameters, count, name),
    }
}

/// Whether one of these is an axis of so many values, by this name.
fn has_axis_of(parameters: &[Entry<'_>], count: u16, name: &str) -> bool
    ensures { result ≡ list_any (is_axis count name.now) (forms_of parameters.now) }
{
    for parameter in parameters {
        if parameter.is_axis(name, count) {
            return true;
        }
    }
    false
}

/// The limits, those of the type where none are given. They are looked at once all four numbers are read, the factor first.
fn limits_in(table: &Value, bounds: (f64, f64), factor: f64) -> Result<(f64, f64), Why>
    ensures finite { IfOk result (λ r. IsFinite r.0 × IsFinite r.1) }
    ensures passes { IfOk result (λ _. first_holding (limit_faults bounds factor (view table.now)) ≡ None) }
    ensures refused { IfErr result (λ e. first_holding (limit_faults bounds factor (view table.now)) ≡ Some e) }
{
    let (least, most) = bounds;
    let low = number_in(table, "low", least)?;
    let high = number_in(table, "high", most)?;
    if factor == 0.0 {
        return Err(Why::Factor);
    }
    if !(least <= low && low <= high && high <= most) {
        return Err(Why::Limits);
    }
    // A bound of the type is no number where a large factor or offset takes it beyond all of 64 bits.
    if low.is_finite() && high.is_finite() {
        Ok((low, high))
    } else {
        Err(Why::Limits)
    }
}

/// The bounds of a type in the unit of a value.
fn scaled(bounds: (f64, f64), factor: f64, offset: f64) -> (f64, f64)
    ensures { result ≡ in_order (in_unit factor offset bounds.0) (in_unit factor offset bounds.1) }
{
    let (least, most) = bounds;
    let first = least * factor + offset;
    let last = most * factor + offset;
    if first <= last {
        (first, last)
    } else {
        (last, first)
    }
}

/// The name: an identifier of ASAP2.
fn name_in(table: &Value) -> Result<&str, Why>
    ensures passes { IfOk result (λ _. some_and is_name (option_and_then as_str (get (codes "name") (view table.now))) ≡ true) }
    ensures value { IfOk result (λ s. s.now ≡ name_of (view table.now)) }
    ensures refused { IfErr result (λ e. (e ≡ Why.Name) × (some_and is_name (option_and_then as_str (get (codes "name") (view table.now))) ≡ false)) }
{
    let name = match table.get("name") {
        Some(value) => value.as_str().ok_or(Why::Name)?,
        None => return Err(Why::Name),
    };
    if is_name(name.as_bytes()) {
        Ok(name)
    } else {
        Err(Why::Name)
    }
}

/// Whether it begins with a letter or an underscore, and goes on with these and digits.
pub(crate) fn is_name(bytes: &[u8]) -> bool
    ensures { result ≡ is_name bytes.now }
{
    let Some(first) = bytes.first() else {
        return false;
    };
    !first.is_ascii_digit() && bytes.len() <= MOST_OF_NAME && are_name_characters(bytes)
}

/// Whether all are letters, digits and underscores.
fn are_name_characters(bytes: &[u8]) -> bool
    ensures { result ≡ list_all is_name_character bytes.now }
{
    bytes
        .iter()
        .all(|byte| byte.is_ascii_alphanumeric() || *byte == b'_')
}

/// The first address.
fn address_in(table: &Value) -> Result<u32, Why>
    ensures passes { IfOk result (λ _. some_and (is_within 0 0xFFFF_FFFF) (option_and_then as_integer (get (codes "address") (view table.now))) ≡ true) }
    ensures value { IfOk result (λ n. n ≡ first_of (view table.now)) }
    ensures refused { IfErr result (λ e. (e ≡ Why.Address) × (some_and (is_within 0 0xFFFF_FFFF) (option_and_then as_integer (get (codes "address") (view table.now))) ≡ false)) }
{
    let number = match table.get("address") {
        Some(value) => value.as_integer().ok_or(Why::Address)?,
        None => return Err(Why::Address),
    };
    u32::try_from(number).map_err(|_| Why::Address)
}

/// The type.
fn kind_in(table: &Value) -> Result<Kind, Why>
    ensures value { IfOk result (λ k. type_in (view table.now) ≡ Some (type_named k)) }
    ensures refused { IfErr result (λ e. (e ≡ Why.Kind) × (type_in (view table.now) ≡ None)) }
{
    let name = match table.get("type") {
        Some(value) => value.as_str().ok_or(Why::Kind)?,
        None => return Err(Why::Kind),
    };
    Kind::named(name).ok_or(Why::Kind)
}

/// The name of an axis, if one is given, and it may be. What is no text is an empty one, which no parameter has as its name.
fn axis_in<'a>(table: &'a Value, key: &str, is_parameter: bool) -> Option<&'a str>
    ensures { option_map (λ s. s.now) result ≡ axis_in is_parameter key.now (view table.now) }
{
    if !is_parameter {
        return None;
    }
    match table.get(key) {
        Some(value) => Some(value.as_str().unwrap_or("")),
        None => None,
    }
}

/// The number of an event channel of a layout, which has 8 at most, if one is given.
pub(crate) fn event_in(table: &Value, layout: &Layout) -> Result<Option<u16>, Why>
    ensures passes { IfOk result (λ _. is_event (length layout.now.events) (view table.now) ≡ true) }
    ensures value { IfOk result (λ n. n ≡ event_number (view table.now)) }
    ensures refused { IfErr result (λ e. (e ≡ Why.Event) × (is_event (length layout.now.events) (view table.now) ≡ false)) }
{
    let channels = layout.event_count();
    let number = match table.get("event") {
        Some(value) => value.as_integer().ok_or(Why::Event)?,
        None => return Ok(None),
    };
    match u16::try_from(number) {
        Ok(channel) if usize::from(channel) < channels => Ok(Some(channel)),
        _ => Err(Why::Event),
    }
}

/// The factor.
fn factor_in(table: &Value) -> Result<f64, Why>
    ensures finite { IfOk result IsFinite }
    ensures value { IfOk result (λ x. factor_in (view table.now) ≡ Some x) }
    ensures refused { IfErr result (λ e. (e ≡ Why.Number) × (factor_in (view table.now) ≡ None)) }
{
    number_in(table, "factor", 1.0)
}

/// The offset.
fn offset_in(table: &Value) -> Result<f64, Why>
    ensures finite { IfOk result IsFinite }
    ensures value { IfOk result (λ x. offset_in (view table.now) ≡ Some x) }
    ensures refused { IfErr result (λ e. (e ≡ Why.Number) × (offset_in (view table.now) ≡ None)) }
{
    number_in(table, "offset", 0.0)
}

/// A number, an integer or not; the other where none is given.
fn number_in(table: &Value, key: &str, other: f64) -> Result<f64, Why>
    ensures finite { IsFinite other → IfOk result IsFinite }
    ensures value { IfOk result (λ x. number_or other (get key.now (view table.now)) ≡ Some x) }
    ensures refused { IfErr result (λ e. (e ≡ Why.Number) × (number_or other (get key.now (view table.now)) ≡ None)) }
{
    let Some(value) = table.get(key) else {
        return Ok(other);
    };
    let number = match (value.as_float(), value.as_integer()) {
        (Some(number), _) => number,
        (None, Some(number)) => whole_number(number)?,
        (None, None) => return Err(Why::Number),
    };
    if number.is_finite() {
        Ok(number)
    } else {
        Err(Why::Number)
    }
}

/// An integer as a number, if one of 32 bits has its value.
pub(crate) fn whole_number(number: i64) -> Result<f64, Why>
    ensures value { IfOk result (λ x. (is_of_32_bits number ≡ true) × (x ≡ of_int binary64 number)) }
    ensures refused { IfErr result (λ e. (e ≡ Why.Number) × (is_of_32_bits number ≡ false)) }
{
    match (u32::try_from(number), i32::try_from(number)) {
        (Ok(number), _) => Ok(f64::from(number)),
        (Err(_), Ok(number)) => Ok(f64::from(number)),
        (Err(_), Err(_)) => Err(Why::Number),
    }
}

/// A unit, or what an entry is about: a text, none where none is given.
fn text_in<'a>(table: &'a Value, key: &str, why: Why) -> Result<&'a str, Why>
    ensures passes { IfOk result (λ _. is_label_or_none (get key.now (view table.now)) ≡ true) }
    ensures value { IfOk result (λ s. s.now ≡ value_text (get key.now (view table.now))) }
    ensures refused { IfErr result (λ e. (e ≡ why) × (is_label_or_none (get key.now (view table.now)) ≡ false)) }
{
    let text = match table.get(key) {
        Some(value) => value.as_str().ok_or(why)?,
        None => return Ok(""),
    };
    if is_text_of_entry(text) {
        Ok(text)
    } else {
        Err(why)
    }
}
