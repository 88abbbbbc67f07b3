//! The checksum of a range.
ghost use Rattle.std.specs.Prelude.{◌≡◌, ◌≤◌, ◌<◌, ◌^◌, ◌/◌, length, None, Some, IfOk, IfErr, sum};
ghost use Rattle.xcp_memory.specs.Checksum.{checksum_refusal, checksum_of, modulus, numbers, unit};

use super::Pages;
use crate::ChecksumKind;
use crate::page_set::Side;
use xcp_packet::{Code, Order};

impl Pages {
    /// The checksum of the bytes that the tool has at a range: the sum of the bytes, words or double
    /// words that they are, in as many bits as the layout's type of checksum says. `OutOfRange` at
    /// size 0, then where the size is no multiple of a word's or double word's; then `AccessDenied`
    /// where the range does not lie in one area.
    ///
    /// ASAM MCD-1 XCP, protocol layer, description of commands: BUILD_CHECKSUM.
    pub fn checksum(&self, address: u32, size: u32) -> Result<u32, Code>
        ensures ok { IfOk result (λ sum. (checksum_refusal self.now address size ≡ None) × (sum ≡ checksum_of self.now address size)) }
        ensures refused { IfErr result (λ code. checksum_refusal self.now address size ≡ Some code) }
    {
        let kind = self.layout.checksum_kind();
        kind.check_size(size)?;
        let bytes = self.range(Side::Xcp, address, size as usize)?;
        Ok((number_sum(bytes, kind, self.layout.order()) % modulus(kind)) as u32)
    }
}

/// The sum of the bytes, words or double words that bytes are.
#[tactic(auto, using(crate::proofs::ChecksumLaws::byte_numbers))]
fn number_sum(bytes: &[u8], kind: ChecksumKind, order: Order) -> u64
    requires { length bytes.now < 2 ^ 32 }
    ensures { result ≡ sum (numbers order (unit kind) (length bytes.now / unit kind) bytes.now) }
{
    match kind {
        ChecksumKind::Add11 | ChecksumKind::Add12 | ChecksumKind::Add14 => byte_sum(bytes),
        ChecksumKind::Add22 | ChecksumKind::Add24 => word_sum(bytes, order),
        ChecksumKind::Add44 => double_sum(bytes, order),
    }
}

/// The sum of bytes.
fn byte_sum(bytes: &[u8]) -> u64
    requires { length bytes.now < 2 ^ 32 }
    ensures { result ≡ sum bytes.now }
{
    bytes.iter().map(|byte| u64::from(*byte)).sum()
}

/// The sum of words.
#[tactic(auto, using(crate::proofs::ChecksumLaws::one_more_number))]
fn word_sum(bytes: &[u8], order: Order) -> u64
    requires { length bytes.now < 2 ^ 32 }
    ensures { result ≡ sum (numbers order 2 (length bytes.now / 2) bytes.now) }
{
    let mut sum = 0;
    for i in 0..bytes.len() / 2 {
        sum += u64::from(order.word_at(bytes, 2 * i));
    }
    sum
}

/// The sum of double words.
#[tactic(auto, using(crate::proofs::ChecksumLaws::one_more_number))]
fn double_sum(bytes: &[u8], order: Order) -> u64
    requires { length bytes.now < 2 ^ 32 }
    ensures { result ≡ sum (numbers order 4 (length bytes.now / 4) bytes.now) }
{
    let mut sum = 0;
    for i in 0..bytes.len() / 4 {
        sum += u64::from(order.double_at(bytes, 4 * i));
    }
    sum
}

/// One more than the greatest checksum of a type.
fn modulus(kind: ChecksumKind) -> u64
    ensures value { result ≡ modulus kind }
    ensures some { 0 < result }
    ensures fits { result ≤ 2 ^ 32 }
{
    match kind {
        ChecksumKind::Add11 => 0x100,
        ChecksumKind::Add12 | ChecksumKind::Add22 => 0x1_0000,
        ChecksumKind::Add14 | ChecksumKind::Add24 | ChecksumKind::Add44 => 0x1_0000_0000,
    }
}
