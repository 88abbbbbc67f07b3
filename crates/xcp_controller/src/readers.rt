//! The readers of a bank, each in a box of its own.
ghost use Rattle.std.specs.Prelude.{◌≡◌, ◌%◌, ◌<◌, ◌≤◌, ◌++◌, length, map, IfOk};
ghost use Rattle.xcp_bank.specs.BankId.{image_bytes};
ghost use Rattle.xcp_bank.specs.BankEnds.{new_writer, six_readers};

use std::alloc::{AllocError, Global};
use xcp_bank::{Bank, MAX_IMAGE_BYTES, Reader, Writer};

/// A bank in which this image is published: its writer, and its readers, each in a box.
pub(crate) fn boxed_bank(
    alloc: Global,
    image: &[u8],
) -> Result<(Writer, Vec<Box<Reader>>), AllocError>
    requires some_bytes { 0 < length image.now }
    requires whole_words { length image.now % 8 ≡ 0 }
    requires few_bytes { length image.now ≤ MAX_IMAGE_BYTES }
    ensures { IfOk result (λ r. (r.0 ≡ new_writer r.0.bank image.now)
        × (map (λ b. b.value) r.1.items ≡ six_readers r.0.bank image.now)
        × (image_bytes r.0.bank ≡ length image.now)) }
{
    let (writer, readers) = Bank::new(alloc, image)?;
    let spare = boxed(alloc, Vec::from_array(alloc, readers)?)?;
    Ok((writer, spare))
}

/// Puts each reader into a box, in order.
fn boxed(alloc: Global, readers: Vec<Reader>) -> Result<Vec<Box<Reader>>, AllocError>
    ensures { IfOk result (λ boxes. map (λ b. b.value) boxes.items ≡ readers.items) }
{
    let mut boxes = Vec::with_capacity(alloc, readers.len())?;
    for reader in readers {
        boxes.push(Box::new(alloc, reader)?)?;
    }
    Ok(boxes)
}
