//! The blocks of parameters and measurements.
use crate::entry::Entry;
use crate::kind::KINDS;
use crate::names::{name_of, number_of};
use crate::shape::Shape;
use crate::tables::Tables;
use crate::text::put_text;
use std::alloc::AllocError;
use toml::Value;

/// The most values that NUMBER tells: it has two bytes.
const MOST_NUMBER: u32 = 65_535;

/// Appends a block for each parameter and each measurement, and what these blocks name.
pub(crate) fn put_tables(tables: &Tables<'_>, text: &mut String) -> Result<(), AllocError> {
    let parameters = tables.parameters.as_slice();
    if !parameters.is_empty() {
        put_records(text)?;
    }
    if parameters.iter().any(|entry| entry.x_axis.is_some()) {
        put_axis_records(text)?;
    }
    for entry in parameters {
        put_conversion(entry, text)?;
        if is_axis(parameters, entry.name) {
            put_axis(entry, text)?;
        } else {
            put_characteristic(entry, parameters, text)?;
        }
    }
    for entry in tables.measurements.iter() {
        put_conversion(entry, text)?;
        put_measurement(entry, text)?;
    }
    Ok(())
}

/// Appends a RECORD_LAYOUT for each type: values one behind the other, and nothing else.
fn put_records(text: &mut String) -> Result<(), AllocError> {
    for kind in KINDS.iter() {
        let name = kind.name();
        writeln!(text, "    /begin RECORD_LAYOUT {name}_VALUES")?;
        writeln!(text, "      FNC_VALUES 1 {name} ROW_DIR DIRECT")?;
        writeln!(text, "    /end RECORD_LAYOUT")?;
    }
    Ok(())
}

/// Appends a RECORD_LAYOUT for the axes of each type: their values one behind the other, and nothing else.
fn put_axis_records(text: &mut String) -> Result<(), AllocError> {
    for kind in KINDS.iter() {
        let name = kind.name();
        writeln!(text, "    /begin RECORD_LAYOUT {name}_AXIS")?;
        writeln!(text, "      AXIS_PTS_X 1 {name} INDEX_INCR DIRECT")?;
        writeln!(text, "    /end RECORD_LAYOUT")?;
    }
    Ok(())
}

/// Whether a parameter names this one as an axis.
fn is_axis(parameters: &[Entry<'_>], name: &str) -> bool {
    for entry in parameters {
        if is_it(entry.x_axis, name) || is_it(entry.y_axis, name) {
            return true;
        }
    }
    false
}

/// Whether the axis that is named, if one is, is the one with this name.
fn is_it(axis: Option<&str>, name: &str) -> bool {
    match axis {
        Some(axis) => axis == name,
        None => false,
    }
}

/// Appends the COMPU_METHOD of an entry.
fn put_conversion(entry: &Entry<'_>, text: &mut String) -> Result<(), AllocError> {
    writeln!(
        text,
        "    /begin COMPU_METHOD {}_conversion \"\"",
        entry.name
    )?;
    let is_named = !entry.meaning.names.is_empty();
    let is_identical = entry.factor == 1.0 && entry.offset == 0.0;
    let kind = match (is_named, is_identical) {
        (true, _) => "TAB_VERB",
        (false, true) => "IDENTICAL",
        (false, false) => "LINEAR",
    };
    write!(text, "      {kind} \"%12.6\" ")?;
    put_text(entry.unit, text)?;
    if is_named {
        return put_names(entry, text);
    }
    if !is_identical {
        write!(
            text,
            "\n      COEFFS_LINEAR {:?} {:?}",
            entry.factor, entry.offset
        )?;
    }
    writeln!(text, "\n    /end COMPU_METHOD")
}

/// Appends the end of a COMPU_METHOD of names for numbers, and the COMPU_VTAB that has these names.
fn put_names(entry: &Entry<'_>, text: &mut String) -> Result<(), AllocError> {
    let pairs = entry.meaning.names;
    let name = entry.name;
    writeln!(text, "\n      COMPU_TAB_REF {name}_names")?;
    writeln!(text, "    /end COMPU_METHOD")?;
    write!(text, "    /begin COMPU_VTAB {name}_names \"\" TAB_VERB ")?;
    writeln!(text, "{}", pairs.len())?;
    for pair in pairs {
        put_pair(pair, text)?;
    }
    writeln!(text, "    /end COMPU_VTAB")
}

/// Appends a number and its name.
fn put_pair(pair: &Value, text: &mut String) -> Result<(), AllocError> {
    let (Some(number), Some(name)) = (number_of(pair), name_of(pair)) else {
        return Ok(());
    };
    write!(text, "      {number} ")?;
    put_text(name, text)?;
    text.push('\n')
}

/// Appends the AXIS_PTS of a parameter that is an axis.
fn put_axis(entry: &Entry<'_>, text: &mut String) -> Result<(), AllocError> {
    write!(text, "    /begin AXIS_PTS {} ", entry.name)?;
    put_text(entry.about, text)?;
    writeln!(
        text,
        "\n      0x{:08X} NO_INPUT_QUANTITY {}_AXIS 0 {}_conversion {} {:?} {:?}",
        entry.address,
        entry.kind.name(),
        entry.name,
        entry.shape.count.unwrap_or(1),
        entry.low,
        entry.high
    )?;
    writeln!(text, "    /end AXIS_PTS")
}

/// Appends the CHARACTERISTIC of a parameter that is no axis.
fn put_characteristic(
    entry: &Entry<'_>,
    parameters: &[Entry<'_>],
    text: &mut String,
) -> Result<(), AllocError> {
    write!(text, "    /begin CHARACTERISTIC {} ", entry.name)?;
    put_text(entry.about, text)?;
    writeln!(
        text,
        "\n      {} 0x{:08X} {}_VALUES 0 {}_conversion",
        kind_of(entry),
        entry.address,
        entry.kind.name(),
        entry.name
    )?;
    writeln!(text, "      {:?} {:?}", entry.low, entry.high)?;
    put_bits(entry, text)?;
    if entry.x_axis.is_some() {
        put_axis_of(entry.x_axis, parameters, text)?;
        put_axis_of(entry.y_axis, parameters, text)?;
    } else {
        put_sizes(entry.shape, text)?;
    }
    writeln!(text, "    /end CHARACTERISTIC")
}

/// Appends the mask of the bits that count, if not all do.
fn put_bits(entry: &Entry<'_>, text: &mut String) -> Result<(), AllocError> {
    match entry.meaning.bits {
        Some(bits) => writeln!(text, "      BIT_MASK 0x{bits:X}"),
        None => Ok(()),
    }
}

/// What a parameter is: values along two axes, along one, in a block, or a single one.
fn kind_of(entry: &Entry<'_>) -> &'static str {
    match (entry.x_axis, entry.y_axis, entry.shape.count) {
        (Some(_), Some(_), _) => "MAP",
        (Some(_), None, _) => "CURVE",
        (None, _, Some(_)) => "VAL_BLK",
        (None, _, None) => "VALUE",
    }
}

/// Appends how many values a block has, if an A2L file's NUMBER tells as many, and in what rows they stand, if they do.
fn put_sizes(shape: Shape, text: &mut String) -> Result<(), AllocError> {
    match shape.count {
        Some(count) if count <= MOST_NUMBER => writeln!(text, "      NUMBER {count}")?,
        _ => {}
    }
    if let Some(columns) = shape.columns {
        let rows = shape.rows.unwrap_or(1);
        writeln!(text, "      MATRIX_DIM {columns} {rows} 1")?;
    }
    Ok(())
}

/// Appends the AXIS_DESCR of an axis, if one is named: it is the parameter with that name.
fn put_axis_of(
    axis: Option<&str>,
    parameters: &[Entry<'_>],
    text: &mut String,
) -> Result<(), AllocError> {
    let Some(name) = axis else {
        return Ok(());
    };
    for entry in parameters {
        if entry.name == name {
            writeln!(
                text,
                "      /begin AXIS_DESCR COM_AXIS NO_INPUT_QUANTITY {name}_conversion {} {:?} {:?}",
                entry.shape.count.unwrap_or(1),
                entry.low,
                entry.high
            )?;
            writeln!(text, "        AXIS_PTS_REF {name}")?;
            return writeln!(text, "      /end AXIS_DESCR");
        }
    }
    Ok(())
}

/// Appends the MEASUREMENT of a measurement.
fn put_measurement(entry: &Entry<'_>, text: &mut String) -> Result<(), AllocError> {
    write!(text, "    /begin MEASUREMENT {} ", entry.name)?;
    put_text(entry.about, text)?;
    writeln!(
        text,
        "\n      {} {}_conversion 0 0 {:?} {:?}",
        entry.kind.name(),
        entry.name,
        entry.low,
        entry.high
    )?;
    writeln!(text, "      ECU_ADDRESS 0x{:08X}", entry.address)?;
    put_bits(entry, text)?;
    put_sizes_of_array(entry.shape, text)?;
    put_event(entry.event, text)?;
    writeln!(text, "    /end MEASUREMENT")
}

/// Appends how many values an array of measured values has: in what rows they stand, if they do, or their number.
fn put_sizes_of_array(shape: Shape, text: &mut String) -> Result<(), AllocError> {
    match (shape.columns, shape.count) {
        (Some(columns), _) => {
            let rows = shape.rows.unwrap_or(1);
            writeln!(text, "      MATRIX_DIM {columns} {rows} 1")
        }
        (None, Some(count)) => writeln!(text, "      ARRAY_SIZE {count}"),
        (None, None) => Ok(()),
    }
}

/// Appends the IF_DATA of the event channel at which a measurement is measured, if one is given.
fn put_event(event: Option<u16>, text: &mut String) -> Result<(), AllocError> {
    let Some(event) = event else {
        return Ok(());
    };
    writeln!(text, "      /begin IF_DATA XCP")?;
    writeln!(text, "        /begin DAQ_EVENT FIXED_EVENT_LIST")?;
    writeln!(text, "          EVENT {event}")?;
    writeln!(text, "        /end DAQ_EVENT")?;
    writeln!(text, "      /end IF_DATA")
}

/// Whether a measurement has an event channel.
pub(crate) fn has_events(measurements: &[Entry<'_>]) -> bool {
    measurements.iter().any(|entry| entry.event.is_some())
}
