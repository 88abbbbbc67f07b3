//! How many values a parameter or a measurement has, and how they stand.
ghost use Rattle.std.specs.Prelude.{◌≡◌, codes, Some, None, true, false, IfOk, IfErr, unwrap_or};
ghost use Rattle.toml.specs.View.{view};
ghost use Rattle.xcp_packet.specs.Rows.{first_holding};
ghost use Rattle.xcp_describe.specs.EntryFaults.{shape_faults};
ghost use Rattle.xcp_describe.specs.EntryValues.{are_rows, count_of, is_size, type_size, values_of};

use crate::refusal::Why;
use toml::Value;

/// The most values that an entry may have: as many as the bytes that a layout may have.
const MOST_VALUES: u32 = 1_048_576;

/// How many values an entry has, and how they stand.
#[derive(Clone, Copy)]
pub(crate) struct Shape {
    /// All its values, which stand one behind the other; none is said of a single one.
    pub(crate) count: Option<u32>,
    /// How many stand in a row, where they stand in rows.
    pub(crate) columns: Option<u16>,
    /// How many rows there are, if it is said.
    pub(crate) rows: Option<u16>,
}

impl Shape {
    /// The shape that a table gives its entry.
    pub(crate) fn read(table: &Value) -> Result<Shape, Why>
        ensures passes { IfOk result (λ _. first_holding (shape_faults (view table.now)) ≡ None) }
        ensures count { IfOk result (λ s. unwrap_or s.count 1 ≡ count_of (view table.now)) }
        ensures columns { IfOk result (λ s. s.columns ≡ type_size (codes "columns") (view table.now)) }
        ensures rows { IfOk result (λ s. s.rows ≡ type_size (codes "rows") (view table.now)) }
        ensures refused { IfErr result (λ e. first_holding (shape_faults (view table.now)) ≡ Some e) }
    {
        let count = size_in(table, "count", Why::Count)?;
        let columns = size_in(table, "columns", Why::Shape)?;
        let rows = size_in(table, "rows", Why::Shape)?;
        Ok(Shape {
            count: values_in(count, columns, rows)?,
            columns,
            rows,
        })
    }
}

/// A number of values, 1 to 65,535 as an A2L file has them, if it is given, and it may be.
fn size_in(table: &Value, key: &str, why: Why) -> Result<Option<u16>, Why>
    ensures passes { IfOk result (λ _. is_size key.now (view table.now) ≡ true) }
    ensures value { IfOk result (λ n. n ≡ type_size key.now (view table.now)) }
    ensures refused { IfErr result (λ e. (e ≡ why) × (is_size key.now (view table.now) ≡ false)) }
{
    let number = match table.get(key) {
        Some(value) => value.as_integer().ok_or(why)?,
        None => return Ok(None),
    };
    match u16::try_from(number) {
        Ok(size) if 1 <= size => Ok(Some(size)),
        _ => Err(why),
    }
}

/// How many values there are in all, if it is said: their number, or that of the columns times that of the rows.
fn values_in(
    count: Option<u16>,
    columns: Option<u16>,
    rows: Option<u16>,
) -> Result<Option<u32>, Why>
    ensures passes { IfOk result (λ _. are_rows count columns rows ≡ true) }
    ensures value { IfOk result (λ n. unwrap_or n 1 ≡ values_of count columns rows) }
    ensures refused { IfErr result (λ e. (e ≡ Why.Shape) × (are_rows count columns rows ≡ false)) }
{
    match (count, columns, rows) {
        (_, None, None) => Ok(count.map(u32::from)),
        (None, Some(columns), _) => {
            let rows = u32::from(rows.unwrap_or(1));
            match u32::from(columns).checked_mul(rows) {
                Some(values) if values <= MOST_VALUES => Ok(Some(values)),
                _ => Err(Why::Shape),
            }
        }
        _ => Err(Why::Shape),
    }
}
