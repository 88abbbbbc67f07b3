//! The types of values.
ghost use Rattle.std.specs.Prelude.{◌≡◌, option_map};
ghost use Rattle.xcp_config.specs.TomlValues.{named};
ghost use Rattle.xcp_describe.specs.EntryValues.{value_types};
ghost use Rattle.xcp_describe.specs.private.EntriesRead.{type_named};

/// The type of a value in memory, as ASAP2 names it.
#[derive(Clone, Copy, Debug, PartialEq, Eq)]
pub(crate) enum Kind {
    UByte,
    SByte,
    UWord,
    SWord,
    ULong,
    SLong,
    Float32,
    Float64,
}

/// All types.
pub(crate) static KINDS: [Kind; 8] = [
    Kind::UByte,
    Kind::SByte,
    Kind::UWord,
    Kind::SWord,
    Kind::ULong,
    Kind::SLong,
    Kind::Float32,
    Kind::Float64,
];

impl Kind {
    /// The type with this name.
    pub(crate) fn named(name: &str) -> Option<Kind>
        ensures { option_map type_named result ≡ named value_types name.now }
    {
        match name {
            "UBYTE" => Some(Kind::UByte),
            "SBYTE" => Some(Kind::SByte),
            "UWORD" => Some(Kind::UWord),
            "SWORD" => Some(Kind::SWord),
            "ULONG" => Some(Kind::ULong),
            "SLONG" => Some(Kind::SLong),
            "FLOAT32_IEEE" => Some(Kind::Float32),
            "FLOAT64_IEEE" => Some(Kind::Float64),
            _ => None,
        }
    }

    pub(crate) fn name(self) -> &'static str {
        match self {
            Kind::UByte => "UBYTE",
            Kind::SByte => "SBYTE",
            Kind::UWord => "UWORD",
            Kind::SWord => "SWORD",
            Kind::ULong => "ULONG",
            Kind::SLong => "SLONG",
            Kind::Float32 => "FLOAT32_IEEE",
            Kind::Float64 => "FLOAT64_IEEE",
        }
    }

    /// How many bytes a value has.
    pub(crate) fn size(self) -> u8
        ensures { result ≡ (type_named self).size }
    {
        match self {
            Kind::UByte | Kind::SByte => 1,
            Kind::UWord | Kind::SWord => 2,
            Kind::ULong | Kind::SLong | Kind::Float32 => 4,
            Kind::Float64 => 8,
        }
    }

    /// The mask of all its bits, 0 of a type of floats.
    pub(crate) fn mask(self) -> u32
        ensures { result ≡ (type_named self).mask }
    {
        match self {
            Kind::UByte | Kind::SByte => 0xFF,
            Kind::UWord | Kind::SWord => 0xFFFF,
            Kind::ULong | Kind::SLong => 0xFFFF_FFFF,
            Kind::Float32 | Kind::Float64 => 0,
        }
    }

    /// The least and the greatest value.
    pub(crate) fn bounds(self) -> (f64, f64)
        ensures { result ≡ ((type_named self).least, (type_named self).greatest) }
    {
        match self {
            Kind::UByte => (0.0, 255.0),
            Kind::SByte => (-128.0, 127.0),
            Kind::UWord => (0.0, 65_535.0),
            Kind::SWord => (-32_768.0, 32_767.0),
            Kind::ULong => (0.0, 4_294_967_295.0),
            Kind::SLong => (-2_147_483_648.0, 2_147_483_647.0),
            Kind::Float32 => (-3.4028234663852886e38, 3.4028234663852886e38),
            Kind::Float64 => (-1.7976931348623157e308, 1.7976931348623157e308),
        }
    }
}
