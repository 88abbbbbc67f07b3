//! Checks of single values.
ghost use Rattle.std.specs.Prelude.{◌≡◌, true, false, IfOk, IfErr};
ghost use Rattle.xcp_memory.specs.LayoutParts.{number as number_of};
ghost use Rattle.xcp_memory.specs.Limits.{is_within, is_printable, is_text, is_text_or_none};
ghost use Rattle.std.specs.List.{list_all};

use crate::{Key, LayoutFault};

/// A number from `least` to `most`.
pub(crate) fn number(value: i64, least: u32, most: u32, key: Key) -> Result<u32, LayoutFault>
    ensures ok { IfOk result (λ n. (is_within least most value ≡ true) × (n ≡ number_of value)) }
    ensures refused { IfErr result (λ e. (is_within least most value ≡ false) × (e ≡ LayoutFault.Range key)) }
{
    if i64::from(least) <= value && value <= i64::from(most) {
        Ok(value as u32)
    } else {
        Err(LayoutFault::Range(key))
    }
}

/// A number from `least` to `most` that fits a byte.
pub(crate) fn byte(value: i64, least: u8, most: u8, key: Key) -> Result<u8, LayoutFault>
    ensures ok { IfOk result (λ n. (is_within least most value ≡ true) × (n ≡ number_of value)) }
    ensures refused { IfErr result (λ e. (is_within least most value ≡ false) × (e ≡ LayoutFault.Range key)) }
{
    Ok(number(value, u32::from(least), u32::from(most), key)? as u8)
}

/// Whether all bytes are printable ASCII.
fn all_printable(bytes: &[u8]) -> bool
    ensures { result ≡ list_all is_printable bytes.now }
{
    bytes.iter().all(|b| (0x20..=0x7E).contains(b))
}

/// Whether there are 1 to `most` printable ASCII bytes.
pub fn is_text(bytes: &[u8], most: usize) -> bool
    ensures { result ≡ is_text most bytes.now }
{
    !bytes.is_empty() && bytes.len() <= most && all_printable(bytes)
}

/// Checks that there are 1 to `most` printable ASCII bytes.
pub(crate) fn check_text(bytes: &[u8], most: usize, key: Key) -> Result<(), LayoutFault>
    ensures ok { IfOk result (λ _. is_text most bytes.now ≡ true) }
    ensures refused { IfErr result (λ e. (is_text most bytes.now ≡ false) × (e ≡ LayoutFault.Range key)) }
{
    if is_text(bytes, most) {
        Ok(())
    } else {
        Err(LayoutFault::Range(key))
    }
}

/// Whether there are up to `most` printable ASCII bytes.
fn is_text_or_none(bytes: &[u8], most: usize) -> bool
    ensures { result ≡ is_text_or_none most bytes.now }
{
    bytes.len() <= most && all_printable(bytes)
}

/// Checks that there are up to `most` printable ASCII bytes.
pub(crate) fn check_text_or_none(bytes: &[u8], most: usize, key: Key) -> Result<(), LayoutFault>
    ensures ok { IfOk result (λ _. is_text_or_none most bytes.now ≡ true) }
    ensures refused { IfErr result (λ e. (is_text_or_none most bytes.now ≡ false) × (e ≡ LayoutFault.Range key)) }
{
    if is_text_or_none(bytes, most) {
        Ok(())
    } else {
        Err(LayoutFault::Range(key))
    }
}
