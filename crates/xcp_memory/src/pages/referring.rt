//! The reference pages, as they are read.
ghost use Rattle.std.specs.Prelude.{◌≡◌, ◌<◌, length, slice_index_or as get_or};
ghost use Rattle.xcp_memory.specs.Freeze.{stored_page};
ghost use Rattle.xcp_memory.specs.Pages.{no_segment, segment_at};
ghost use Rattle.xcp_memory.specs.ReferencePage.{reference_page};

use super::Pages;
use crate::page_set::Side;

impl Pages {
    /// The bytes of a segment's reference page, which is page 0: as many as its layout gives it.
    pub fn reference(&self, segment: usize) -> &[u8]
        requires { segment < length self.now.layout.segments }
        ensures value { result.now ≡ reference_page (segment_at self.now segment) }
        ensures size { length result.now ≡ length (get_or self.now.layout.segments segment no_segment).bytes }
    {
        self.known();
        self.segments[segment].at(0)
    }

    /// The bytes of the reference page that a store leaves of a segment: in FREEZE mode those of the page that the tool has, and else its
    /// own. As many as its layout gives it.
    ///
    /// ASAM MCD-1 XCP, protocol layer, description of commands: SET_REQUEST, SET_SEGMENT_MODE.
    pub fn stored(&self, segment: usize) -> &[u8]
        requires { segment < length self.now.layout.segments }
        ensures value { result.now ≡ stored_page (segment_at self.now segment) }
        ensures size { length result.now ≡ length (get_or self.now.layout.segments segment no_segment).bytes }
    {
        self.known();
        let pages = &self.segments[segment];
        if pages.is_frozen() {
            pages.page(Side::Xcp)
        } else {
            pages.at(0)
        }
    }
}
