//! Whether pages are of the sizes of a layout's segments.
ghost use Rattle.std.specs.Prelude.{◌≡◌, ◌≢◌, ◌≤◌, MatchBool, length, map, take};
ghost use Rattle.xcp_flash.specs.References.{AreReferences};

use crate::page::Page;
use xcp_memory::Layout;

/// Whether these are as many as the layout has segments, each of its segment's size.
pub(crate) fn fit_each(pages: &[Page], layout: &Layout) -> bool
    ensures { MatchBool result (AreReferences pages.now layout.now) (¬ (AreReferences pages.now layout.now)) }
{
    if pages.len() != layout.segment_count() {
        return false;
    }
    for segment in 0..pages.len() {
        if pages[segment].len() != layout.segment_size(segment) {
            return false;
        }
    }
    true
}
