//! Copying pages.
ghost use Rattle.std.specs.Prelude.{◌≡◌, ◌≢◌, ◌<◌, length, None, Some, true, false, OnOk, IfOk, IfErr, slice_index_or as get_or, slice_set, []};
ghost use Rattle.xcp_packet.specs.declared.Code.{Code};
ghost use Rattle.xcp_memory.specs.PageCopy.{copy_refusal, pages_copied, content, with_content, lacks_segment, page_refusal_of, HasPage};
ghost use Rattle.xcp_memory.specs.Pages.{no_pages, segment_at};
ghost use Rattle.xcp_memory.specs.FirstRefusal.{Checks};

use super::Pages;
use crate::page_set::PageSet;
use xcp_packet::Code;

impl Pages {
    /// Replaces the whole content of a page, the target, by that of another, the source.
    /// `SegmentNotValid` and then `PageNotValid` where there is no such source, the same for the
    /// target, `WriteProtected` where the target is page 0, and `OutOfRange` where the two have
    /// not the same length. A refusal copies nothing.
    ///
    /// ASAM MCD-1 XCP, protocol layer, description of commands: COPY_CAL_PAGE.
    pub fn copy_page(
        &mut self,
        source: u8,
        source_page: u8,
        target: u8,
        target_page: u8,
    ) -> Result<(), Code>
        ensures ok { OnOk result ((copy_refusal source source_page target target_page self.old ≡ None) × (self.new ≡ pages_copied source source_page target target_page self.old)) }
        ensures refused { IfErr result (λ code. (copy_refusal source source_page target target_page self.old ≡ Some code) × (self.new ≡ self.old)) }
    {
        self.check_copy(source, source_page, target, target_page)?;
        let source_page = source_page as usize;
        let target_page = target_page as usize;
        if source == target {
            self.segments[target as usize].copy_page(source_page, target_page);
        } else {
            copy_across(
                &mut self.segments,
                source as usize,
                source_page,
                target as usize,
                target_page,
            );
        }
        Ok(())
    }

    /// How many pages a segment has: 2 to 4. `SegmentNotValid` where there is no such segment.
    ///
    /// ASAM MCD-1 XCP, protocol layer, description of commands: GET_SEGMENT_INFO.
    pub fn page_count(&self, segment: u8) -> Result<u8, Code>
        ensures ok { IfOk result (λ count. (lacks_segment segment self.now ≡ false) × (count ≡ length (segment_at self.now segment).pages)) }
        ensures there { OnOk result (segment < length self.now.layout.segments) }
        ensures refused { IfErr result (λ code. (code ≡ Code.SegmentNotValid) × (lacks_segment segment self.now ≡ true)) }
    {
        if segment as usize >= self.segments.len() {
            return Err(Code::SegmentNotValid);
        }
        Ok(self.segments[segment as usize].count())
    }

    /// The refusals of a copy.
    fn check_copy(
        &self,
        source: u8,
        source_page: u8,
        target: u8,
        target_page: u8,
    ) -> Result<(), Code>
        ensures { Checks (copy_refusal source source_page target target_page self.now) result }
    {
        let from = self.content(source, source_page)?;
        let to = self.content(target, target_page)?;
        if target_page == 0 {
            return Err(Code::WriteProtected);
        }
        if from.len() != to.len() {
            return Err(Code::OutOfRange);
        }
        Ok(())
    }

    /// The content of a page of a segment: `SegmentNotValid`, then `PageNotValid`, where there is
    /// none.
    pub fn content(&self, segment: u8, page: u8) -> Result<&[u8], Code>
        ensures ok { IfOk result (λ bytes. HasPage segment page self.now × (bytes.now ≡ content self.now segment page)) }
        ensures refused { IfErr result (λ code. page_refusal_of segment page self.now ≡ Some code) }
    {
        if segment as usize >= self.segments.len() {
            return Err(Code::SegmentNotValid);
        }
        let pages = &self.segments[segment as usize];
        if page >= pages.count() {
            return Err(Code::PageNotValid);
        }
        Ok(pages.at(page as usize))
    }
}

/// Replaces a page of one segment by a page of another.
fn copy_across(
    segments: &mut [PageSet],
    source: usize,
    source_page: usize,
    target: usize,
    target_page: usize,
)
    requires source { source < length segments.old }
    requires source_page { source_page < length (get_or segments.old source no_pages).pages }
    requires target { target < length segments.old }
    requires target_page { target_page < length (get_or segments.old target no_pages).pages }
    requires others { source ≢ target }
    requires sizes { length (get_or (get_or segments.old source no_pages).pages source_page []) ≡ length (get_or (get_or segments.old target no_pages).pages target_page []) }
    ensures { segments.new ≡ slice_set segments.old target (with_content (get_or segments.old target no_pages) target_page (get_or (get_or segments.old source no_pages).pages source_page [])) }
{
    if source < target {
        let (front, back) = segments.split_at_mut(target);
        back[0].fill(target_page, front[source].at(source_page));
    } else {
        let (front, back) = segments.split_at_mut(source);
        front[target].fill(target_page, back[0].at(source_page));
    }
}
