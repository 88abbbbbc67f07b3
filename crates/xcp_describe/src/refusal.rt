//! Why a slave isn't described.
ghost use Rattle.std.specs.Prelude.{◌≡◌};

use std::fmt;
use thiserror::Error;
use xcp_program::Fault;

/// Why a slave isn't described: one line on standard error behind `xcpd: `, and a status.
#[derive(Clone, Copy, Debug, PartialEq, Eq, Error)]
pub enum DescribeError {
    /// The host is none.
    Host,
    /// The layout, an allocation or a write.
    Program(Fault),
    /// A parameter of the layout file, by its number from 0.
    Parameter(usize, Why),
    /// A measurement of the layout file, by its number from 0.
    Measurement(usize, Why),
}

/// What is wrong with a parameter or a measurement.
#[derive(Clone, Copy, Debug, PartialEq, Eq, Error)]
pub enum Why {
    /// It is no table, or they are no array.
    Table,
    /// Its name is no identifier, or there is none.
    Name,
    /// An earlier parameter or measurement has its name.
    Taken,
    /// Its address is no integer of 32 bits, or there is none.
    Address,
    /// Its type is none of those, or there is none.
    Kind,
    /// Its count is out of its range.
    Count,
    /// Its columns or rows are out of their range, have too many values in all, or stand where they may not.
    Shape,
    /// One of its four numbers is none.
    Number,
    /// Its factor is 0.
    Factor,
    /// Its limits, given or the bounds of its type, are no values of the type, no finite numbers, or the wrong way round.
    Limits,
    /// Its unit is no text, has too many characters, or a control character or a separator of lines or paragraphs.
    Unit,
    /// What it is about is no such text.
    About,
    /// Not all its bytes lie in one segment.
    NoSegment,
    /// One of its axes is no parameter without bits, of as many values as it has columns or rows, or it has one alone where it needs both or none.
    Axis,
    /// Not all its bytes lie in one segment or in the signals.
    NoMemory,
    /// Its event is the number of no event channel.
    Event,
    /// Its mask of bits is 0, goes beyond its type, or its type is one of floats.
    Bits,
    /// Its names for numbers are no such pairs, too many, or stand beside a factor or an offset.
    Values,
    /// Its group's name is no identifier.
    Group,
}

impl fmt::Display for DescribeError {
    ghost use Rattle.xcp_describe.specs.RefusalWords.{shown_refusal};

    ghost output = { shown_refusal };

    fn fmt<W: fmt::Write>(&self, f: &mut fmt::Formatter<W>) -> fmt::Result {
        match self {
            DescribeError::Host => {
                f.write_str("host has to be 1 to 255 printable ASCII characters without a blank")
            }
            DescribeError::Program(fault) => write!(f, "{fault}"),
            DescribeError::Parameter(number, why) => write!(f, "parameter {number}: {why}"),
            DescribeError::Measurement(number, why) => write!(f, "measurement {number}: {why}"),
        }
    }
}

impl fmt::Display for Why {
    ghost use Rattle.std.specs.Prelude.{Some};
    ghost use Rattle.xcp_describe.specs.RefusalWords.{why_words};

    ghost output = { λ why. Some (why_words why) };

    fn fmt<W: fmt::Write>(&self, f: &mut fmt::Formatter<W>) -> fmt::Result {
        f.write_str(match self {
            Why::Table => "it has to be a table",
            Why::Name =>
                "name has to be an identifier: letters, digits and underscores, no digit first, at most 117 characters",
            Why::Taken => "its name is an earlier one's",
            Why::Address => "address has to be an integer, 0 to 0xFFFFFFFF",
            Why::Kind =>
                "type has to be UBYTE, SBYTE, UWORD, SWORD, ULONG, SLONG, FLOAT32_IEEE or FLOAT64_IEEE",
            Why::Count => "count has to be an integer, 1 to 65535",
            Why::Shape =>
                "columns and rows have to be integers, 1 to 65535, with at most 1048576 values in all, without count, and rows only beside columns",
            Why::Number =>
                "low, high, factor and offset have to be finite numbers, integers of 32 bits at most",
            Why::Factor => "factor can't be 0",
            Why::Limits => "low and high have to be values of its type, and low not above high",
            Why::Unit =>
                "unit has to be a text of at most 128 characters, none of them a control character or a separator of lines or paragraphs",
            Why::About =>
                "about has to be a text of at most 128 characters, none of them a control character or a separator of lines or paragraphs",
            Why::NoSegment => "its bytes lie in no segment",
            Why::Axis =>
                "x_axis and y_axis have to name parameters without bits, of as many values as it has columns and rows, and an x_axis beside rows needs a y_axis",
            Why::NoMemory => "its bytes lie neither in one segment nor in the signals",
            Why::Event => "event has to be an integer, the number of an event channel from 0",
            Why::Bits =>
                "bits has to be an integer, not 0, within the bits of its type, which is one of integers",
            Why::Values =>
                "values has to be an array of at most 256 pairs, each an array of a number of its type, which is one of integers, and a text of 1 to 100 printable ASCII characters, no number twice, without factor and offset",
            Why::Group =>
                "group has to be an identifier: letters, digits and underscores, no digit first, at most 117 characters",
        })
    }
}

impl DescribeError {
    ghost use Rattle.xcp_describe.specs.RefusalWords.{status_of_description};

    /// The status with which the program ends: the fault's own, and 1 for the host, a parameter or a measurement.
    pub fn status(&self) -> u8
        ensures { result ≡ status_of_description self.now }
    {
        match self {
            DescribeError::Program(fault) => fault.status(),
            DescribeError::Host
            | DescribeError::Parameter(_, _)
            | DescribeError::Measurement(_, _) => 1,
        }
    }
}

impl From<Fault> for DescribeError {
    ghost use Rattle.xcp_describe.specs.declared.refusal.DescribeError.TheVariants.{Program};

    ghost from_gives = { λ fault e. e ≡ Program fault };

    fn from(fault: Fault) -> DescribeError {
        DescribeError::Program(fault)
    }
}
