//! Hex digits, by tables.
ghost use Rattle.std.specs.Prelude.{◌≡◌, ◌≤◌, ◌/◌, ◌%◌, slice_index};
ghost use Rattle.hex.specs.Hex.{upper_digits};
ghost use Rattle.xcp_script.specs.private.HexDigits.{value_or};

/// The greatest value of two digits.
pub(crate) const GREATEST_BYTE: u16 = 255;

/// The values of the hex digits, and 256 of each byte that is none: it makes the value of two digits more than a byte's, and
/// one comparison tells whether both are digits.
static VALUES: [u16; 256] = [
    256, 256, 256, 256, 256, 256, 256, 256, 256, 256, 256, 256, 256, 256, 256, 256, 256, 256, 256,
    256, 256, 256, 256, 256, 256, 256, 256, 256, 256, 256, 256, 256, 256, 256, 256, 256, 256, 256,
    256, 256, 256, 256, 256, 256, 256, 256, 256, 256, 0, 1, 2, 3, 4, 5, 6, 7, 8, 9, 256, 256, 256,
    256, 256, 256, 256, 10, 11, 12, 13, 14, 15, 256, 256, 256, 256, 256, 256, 256, 256, 256, 256,
    256, 256, 256, 256, 256, 256, 256, 256, 256, 256, 256, 256, 256, 256, 256, 256, 10, 11, 12, 13,
    14, 15, 256, 256, 256, 256, 256, 256, 256, 256, 256, 256, 256, 256, 256, 256, 256, 256, 256,
    256, 256, 256, 256, 256, 256, 256, 256, 256, 256, 256, 256, 256, 256, 256, 256, 256, 256, 256,
    256, 256, 256, 256, 256, 256, 256, 256, 256, 256, 256, 256, 256, 256, 256, 256, 256, 256, 256,
    256, 256, 256, 256, 256, 256, 256, 256, 256, 256, 256, 256, 256, 256, 256, 256, 256, 256, 256,
    256, 256, 256, 256, 256, 256, 256, 256, 256, 256, 256, 256, 256, 256, 256, 256, 256, 256, 256,
    256, 256, 256, 256, 256, 256, 256, 256, 256, 256, 256, 256, 256, 256, 256, 256, 256, 256, 256,
    256, 256, 256, 256, 256, 256, 256, 256, 256, 256, 256, 256, 256, 256, 256, 256, 256, 256, 256,
    256, 256, 256, 256, 256, 256, 256, 256, 256, 256, 256, 256, 256, 256, 256, 256, 256, 256, 256,
    256, 256, 256,
];

/// The value of a hex digit of either case, and 256 of what is none.
pub(crate) fn digit_value(digit: u8) -> u16
    ensures value { result ≡ value_or digit }
    ensures bounded { result ≤ 256 }
{
    VALUES[digit as usize]
}

/// The two hex digits of each byte, those of 0 first.
static PAIRS: [u8; 512] = *b"\
    000102030405060708090A0B0C0D0E0F101112131415161718191A1B1C1D1E1F\
    202122232425262728292A2B2C2D2E2F303132333435363738393A3B3C3D3E3F\
    404142434445464748494A4B4C4D4E4F505152535455565758595A5B5C5D5E5F\
    606162636465666768696A6B6C6D6E6F707172737475767778797A7B7C7D7E7F\
    808182838485868788898A8B8C8D8E8F909192939495969798999A9B9C9D9E9F\
    A0A1A2A3A4A5A6A7A8A9AAABACADAEAFB0B1B2B3B4B5B6B7B8B9BABBBCBDBEBF\
    C0C1C2C3C4C5C6C7C8C9CACBCCCDCECFD0D1D2D3D4D5D6D7D8D9DADBDCDDDEDF\
    E0E1E2E3E4E5E6E7E8E9EAEBECEDEEEFF0F1F2F3F4F5F6F7F8F9FAFBFCFDFEFF";

/// The first of the two hex digits of a byte, in upper case.
#[inline(always)]
pub(crate) fn high_digit(byte: u8) -> u8
    ensures { result ≡ slice_index upper_digits (byte / 16) }
{
    PAIRS[2 * byte as usize]
}

/// The second of the two hex digits of a byte, in upper case.
#[inline(always)]
pub(crate) fn low_digit(byte: u8) -> u8
    ensures { result ≡ slice_index upper_digits (byte % 16) }
{
    PAIRS[2 * byte as usize + 1]
}
