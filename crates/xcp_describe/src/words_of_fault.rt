//! The fault of a layout, in words.
ghost use Rattle.std.specs.Prelude.{◌≡◌};
ghost use Rattle.xcp_describe.specs.FaultWords.{most_of_key, name_of_key, place_of_key, range_of_key, type_of_key};
ghost use Rattle.xcp_describe.specs.Places.{place_text};
ghost use Rattle.xcp_describe.specs.private.TableKeys.{bare_place as told_place};

use crate::place::Place;
use std::fmt;
use xcp_config::ConfigError;
use xcp_memory::{Area, Key};

/// A fault of a layout, as a check tells it: the entry, its key, and what has to stand there.
#[derive(Clone, Copy)]
pub(crate) struct InWords(pub(crate) ConfigError);

impl fmt::Display for InWords {
    ghost use Rattle.std.specs.Prelude.{Some};
    ghost use Rattle.xcp_describe.specs.FaultWords.{words_of};

    ghost output = { λ fault. Some (words_of fault.0) };

    fn fmt<W: fmt::Write>(&self, f: &mut fmt::Formatter<W>) -> fmt::Result {
        match self.0 {
            ConfigError::Text => f.write_str("it is no TOML document"),
            ConfigError::Missing(key) => write!(f, "{}{} is missing", place_of(key), name_of(key)),
            ConfigError::Kind(key) => write!(
                f,
                "{}{} has to be {}",
                place_of(key),
                name_of(key),
                kind_of(key)
            ),
            ConfigError::Range(key) => write!(
                f,
                "{}{} has to be {}{}",
                place_of(key),
                name_of(key),
                kind_of(key),
                range_of(key)
            ),
            ConfigError::Overlap(first, other) => {
                write!(f, "{} and {} share an address", Named(first), Named(other))
            }
            ConfigError::TooMany(key) => write!(f, "there are more than {}", most_of(key)),
            ConfigError::Memory => f.write_str("memory"),
        }
    }
}

/// An area, by its name.
#[derive(Clone, Copy)]
struct Named(Area);

impl fmt::Display for Named {
    ghost use Rattle.std.specs.Prelude.{Some};
    ghost use Rattle.xcp_describe.specs.FaultWords.{area_text};

    ghost output = { λ area. Some (area_text area.0) };

    fn fmt<W: fmt::Write>(&self, f: &mut fmt::Formatter<W>) -> fmt::Result {
        match self.0 {
            Area::Segment(number) => write!(f, "segment {number}"),
            Area::Signals => f.write_str("the signals"),
        }
    }
}

/// The table that a key stands in.
fn place_of(key: Key) -> Place
    ensures { place_text (told_place result) ≡ place_of_key key }
{
    match key {
        Key::Address(number) | Key::Data(number) | Key::Pages(number) => {
            Place::Member("segment", usize::from(number))
        }
        Key::SignalsAddress | Key::SignalsLength => Place::Table("signals"),
        Key::ClockSize | Key::ClockUnit | Key::ClockTicks => Place::Table("clock"),
        Key::Name(number) | Key::Cycle(number) | Key::Unit(number) | Key::Priority(number) => {
            Place::Member("event", usize::from(number))
        }
        _ => Place::Top,
    }
}

/// The name of a key.
fn name_of(key: Key) -> &'static str
    ensures { result.now ≡ name_of_key key }
{
    match key {
        Key::Id => "id",
        Key::MaxCto => "max_cto",
        Key::MaxDto => "max_dto",
        Key::ByteOrder => "byte_order",
        Key::Checksum => "checksum",
        Key::A2l => "a2l",
        Key::UploadA2l => "upload_a2l",
        Key::Overload => "overload",
        Key::Clock => "clock",
        Key::ClockSize => "size",
        Key::ClockTicks => "ticks",
        Key::Class => "class",
        Key::Segment => "segment",
        Key::Address(_) | Key::SignalsAddress => "address",
        Key::Data(_) => "data",
        Key::Pages(_) => "pages",
        Key::Signals => "signals",
        Key::SignalsLength => "length",
        Key::Event => "event",
        Key::Name(_) => "name",
        Key::Cycle(_) => "cycle",
        Key::Unit(_) | Key::ClockUnit => "unit",
        Key::Priority(_) => "priority",
    }
}

/// The type of a key's value.
fn kind_of(key: Key) -> &'static str
    ensures { result.now ≡ type_of_key key }
{
    match key {
        Key::Id
        | Key::ByteOrder
        | Key::Checksum
        | Key::A2l
        | Key::Overload
        | Key::Class
        | Key::Data(_)
        | Key::Name(_) => "a text",
        Key::UploadA2l => "true or false",
        Key::Segment | Key::Event => "an array of tables",
        Key::Signals | Key::Clock => "a table",
        _ => "an integer",
    }
}

/// What its value has to be besides.
fn range_of(key: Key) -> &'static str
    ensures { result.now ≡ range_of_key key }
{
    match key {
        Key::Id | Key::A2l => " of 1 to 64 printable ASCII characters",
        Key::MaxCto | Key::MaxDto => ", 8 to 255",
        Key::ByteOrder => ": intel or motorola",
        Key::Checksum => ": ADD_11, ADD_12, ADD_14, ADD_22, ADD_24 or ADD_44",
        Key::Overload => ": event",
        Key::ClockSize => ": 1, 2 or 4",
        Key::ClockUnit => ", 0 to 12",
        Key::ClockTicks => ", 1 to 65535",
        Key::Class => ": papers or large",
        Key::Segment | Key::Event => ", one at least",
        Key::Address(_) | Key::SignalsAddress => ", 0 to 0xFFFFFFFE, and so has its last address",
        Key::Data(_) => " of hex digits, two for a byte, and one byte at least",
        Key::Pages(_) => ", 2 to 4",
        Key::SignalsLength => ", 1 to 64, or to 16384 in the class large",
        Key::Name(_) => " of 1 to 32 printable ASCII characters",
        Key::Cycle(_) | Key::Unit(_) | Key::Priority(_) => ", 0 to 255",
        Key::Signals | Key::Clock | Key::UploadA2l => "",
    }
}

/// How much there is at most of what a key says, in either class: the fault doesn't tell the class.
fn most_of(key: Key) -> &'static str
    ensures { result.now ≡ most_of_key key }
{
    match key {
        Key::Segment => "4 segments, or 16 in the class large",
        Key::Event => "8 event channels, or 64 in the class large",
        _ => "2040 bytes in all segments, or 1048576 in the class large",
    }
}
