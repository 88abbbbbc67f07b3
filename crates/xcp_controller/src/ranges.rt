//! Where an address range stands in the image.
ghost use Rattle.std.specs.Prelude.{◌≡◌, ◌≤◌, ◌<◌, ◌+◌, ℕ, length, get_or};
ghost use Rattle.xcp_memory.specs.EcuImage.{image_place, image_size};
ghost use Rattle.xcp_memory.specs.Pages.{no_segment};
ghost use Rattle.xcp_controller.specs.private.SegmentPlaces.{StandsWithin};

use xcp_memory::Layout;

/// The most bytes that one command writes: those of a block.
const MOST_WRITTEN: usize = 255;

/// The bytes that MODIFY_BITS writes: a double word.
const DOUBLE_WORD: usize = 4;

/// Where in the image bytes stand that were written up to, and without, this address: a range in which each write of at most 255 bytes
/// lies that ends there.
pub(crate) fn places_up_to(layout: &Layout, end: u32) -> (usize, usize)
    ensures order { result.0 ≤ result.1 }
    ensures inside { result.1 ≤ image_size layout.now }
    ensures few { result.1 ≤ result.0 + MOST_WRITTEN }
    ensures within { (a n : ℕ) → 0 < n → n ≤ 255 → a + n ≡ end → StandsWithin layout.now a n result.0 result.1 }
{
    layout.known();
    let Some(last) = end.checked_sub(1) else {
        return (0, 0);
    };
    let Some(segment) = layout.segment_of(last, 1) else {
        return (0, 0);
    };
    let to = place_of(layout, segment) + (end - layout.segment_address(segment)) as usize;
    (to.saturating_sub(MOST_WRITTEN), to)
}

/// Where in the image the double word stands that begins at this address, if it lies in a segment.
pub(crate) fn places_from(layout: &Layout, address: u32) -> (usize, usize)
    ensures order { result.0 ≤ result.1 }
    ensures inside { result.1 ≤ image_size layout.now }
    ensures few { result.1 ≤ result.0 + DOUBLE_WORD }
    ensures within { StandsWithin layout.now address 4 result.0 result.1 }
{
    let Some(segment) = layout.segment_of(address, DOUBLE_WORD) else {
        return (0, 0);
    };
    let from = place_of(layout, segment) + (address - layout.segment_address(segment)) as usize;
    (from, from + DOUBLE_WORD)
}

/// Where a segment begins in the image: behind those before it.
fn place_of(layout: &Layout, segment: usize) -> usize
    requires { segment < length layout.now.segments }
    ensures place { result ≡ image_place layout.now segment }
    ensures room { result + length (get_or layout.now.segments segment no_segment).bytes ≤ image_size layout.now }
    ensures bound { result ≤ 1048576 }
{
    layout.known();
    let mut at = 0;
    for before in 0..segment {
        at += layout.segment_size(before);
    }
    at
}
