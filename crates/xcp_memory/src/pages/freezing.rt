//! FREEZE modes, and storing the segments that are in it.
ghost use Rattle.std.specs.Prelude.{◌≡◌, ◌<◌, ◌≤◌, ℕ, length, map, count_by, None, Some, OnOk, IfOk, IfErr, All, slice_index_or as get_or, []};
ghost use Rattle.xcp_memory.specs.Freeze.{set_freeze_refusal, pages_with_mode, freeze_mode_refusal, segment_mode, segment_frozen, pages_frozen, frozen_count};
ghost use Rattle.xcp_memory.specs.Pages.{segment_at, xcp_page};
ghost use Rattle.xcp_memory.specs.ComputedAccess.{write_refusal};

use super::Pages;
use crate::page_set::PageSet;
use crate::segment_mode::SegmentMode;
use bitflags::Flags;
use xcp_packet::Code;

impl Pages {
    /// Sets (bit 0 of the mode) or clears FREEZE mode of a segment. `ModeNotValid` where another bit
    /// is set, then `SegmentNotValid`. A refusal changes nothing.
    ///
    /// ASAM MCD-1 XCP, protocol layer, description of commands: SET_SEGMENT_MODE.
    pub fn set_freeze(&mut self, mode: u8, segment: u8) -> Result<(), Code>
        ensures ok { OnOk result ((set_freeze_refusal mode segment self.old ≡ None) × (self.new ≡ pages_with_mode mode segment self.old)) }
        ensures refused { IfErr result (λ code. (set_freeze_refusal mode segment self.old ≡ Some code) × (self.new ≡ self.old)) }
    {
        let mode = SegmentMode::of(mode).ok_or(Code::ModeNotValid)?;
        if segment as usize >= self.segments.len() {
            return Err(Code::SegmentNotValid);
        }
        self.segments[segment as usize].set_freeze(mode.contains(SegmentMode::FREEZE));
        Ok(())
    }

    /// The mode byte of a segment: bit 0 is FREEZE. `SegmentNotValid` where there is none.
    ///
    /// ASAM MCD-1 XCP, protocol layer, description of commands: GET_SEGMENT_MODE.
    pub fn freeze_mode(&self, segment: u8) -> Result<u8, Code>
        ensures ok { IfOk result (λ mode. (freeze_mode_refusal segment self.now ≡ None) × (mode ≡ segment_mode (segment_at self.now segment))) }
        ensures refused { IfErr result (λ code. freeze_mode_refusal segment self.now ≡ Some code) }
    {
        if segment as usize >= self.segments.len() {
            return Err(Code::SegmentNotValid);
        }
        let mode = if self.segments[segment as usize].is_frozen() {
            SegmentMode::FREEZE
        } else {
            SegmentMode::empty()
        };
        Ok(mode.bits())
    }

    /// Stores each segment that is in FREEZE mode: its page 0, the reference page, gets the content
    /// of the page that the tool has. Answers how many there are, at most 4. What the tool may write
    /// stays the same.
    pub fn freeze(&mut self) -> u8
        ensures count { result ≡ frozen_count self.old }
        ensures stored { self.new ≡ pages_frozen self.old }
        ensures writable { (a n : ℕ) → write_refusal self.new a n ≡ write_refusal self.old a n }
    {
        self.layout.known();
        store_each(&mut self.segments)
    }
}

/// Stores each of these segments that is in FREEZE mode, and counts them.
fn store_each(segments: &mut [PageSet]) -> u8
    requires few { length segments.old ≤ 16 }
    requires pages { All (λ s. s.xcp < length s.pages) segments.old }
    ensures count { result ≡ count_by (λ s. s.freeze) segments.old }
    ensures stored { segments.new ≡ map segment_frozen segments.old }
{
    let mut count = 0;
    for segment in segments.iter_mut() {
        if segment.is_frozen() {
            count += 1;
        }
        segment.store();
    }
    count
}
