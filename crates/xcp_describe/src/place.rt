//! Where a key of a layout file stands.
use std::fmt;

/// Where a key stands. As text it is what stands before the key in a line.
#[derive(Clone, Copy)]
pub(crate) enum Place {
    /// In no table.
    Top,
    /// In this table.
    Table(&'static str),
    /// In a table of this array, by its number from 0.
    Member(&'static str, usize),
}

impl fmt::Display for Place {
    ghost use Rattle.std.specs.Prelude.{Some};
    ghost use Rattle.xcp_describe.specs.Places.{place_text};
    ghost use Rattle.xcp_describe.specs.private.TableKeys.{bare_place};

    ghost output = { λ place. Some (place_text (bare_place place)) };

    fn fmt<W: fmt::Write>(&self, f: &mut fmt::Formatter<W>) -> fmt::Result {
        match self {
            Place::Top => Ok(()),
            Place::Table(name) => write!(f, "{name}: "),
            Place::Member(name, number) => write!(f, "{name} {number}: "),
        }
    }
}
