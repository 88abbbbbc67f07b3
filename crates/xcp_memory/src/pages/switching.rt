//! Switching pages, and telling which page a side has.
ghost use Rattle.std.specs.Prelude.{◌≡◌, ◌<◌, not, length, None, Some, OnOk, IfOk, IfErr, map, true, false, slice_index_or, [], ◌∷◌};
ghost use Rattle.std.specs.List.{list_any};
ghost use Rattle.xcp_packet.specs.declared.Code.{Code};
ghost use Rattle.xcp_memory.specs.Pages.{segment_at, no_pages};
ghost use Rattle.xcp_packet.specs.Rows.{first_holding};
ghost use Rattle.xcp_memory.specs.FirstRefusal.{Checks};
ghost use Rattle.xcp_memory.specs.PageSwitch.{switch_refusal, pages_switched, segment_switched, is_switch_mode, names_none, concerned, lacks_page, page_refusal, page_number};

use super::Pages;
use crate::page_set::{PageSet, Side};
use crate::switch_mode::SwitchMode;
use bitflags::Flags;
use xcp_packet::Code;

/// The modes of GET_CAL_PAGE.
const ECU_PAGE: u8 = 1;

const XCP_PAGE: u8 = 2;

impl Pages {
    /// Gives the controller (bit 0 of the mode) and the tool (bit 1) a page, in one segment or with
    /// bit 7 in all. `ModeNotValid` where neither bit is set, or one of bits 2 to 6;
    /// `SegmentNotValid`, which is not looked at with bit 7; `PageNotValid` where a segment
    /// concerned has no such page. A refusal switches none.
    ///
    /// ASAM MCD-1 XCP, protocol layer, description of commands: SET_CAL_PAGE.
    pub fn switch(&mut self, mode: u8, segment: u8, page: u8) -> Result<(), Code>
        ensures ok { OnOk result ((switch_refusal mode segment page self.old ≡ None) × (self.new ≡ pages_switched mode segment page self.old)) }
        ensures refused { IfErr result (λ code. (switch_refusal mode segment page self.old ≡ Some code) × (self.new ≡ self.old)) }
    {
        self.check_switch(mode, segment, page)?;
        self.give(mode, segment, page);
        Ok(())
    }

    /// The number of the page that the controller (mode 1) or the tool (mode 2) has in a segment.
    /// `ModeNotValid` at any other mode, then `SegmentNotValid`.
    ///
    /// ASAM MCD-1 XCP, protocol layer, description of commands: GET_CAL_PAGE.
    pub fn page(&self, mode: u8, segment: u8) -> Result<u8, Code>
        ensures ok { IfOk result (λ page. (page_refusal mode segment self.now ≡ None) × (page ≡ page_number mode (segment_at self.now segment))) }
        ensures refused { IfErr result (λ code. page_refusal mode segment self.now ≡ Some code) }
    {
        let side = match mode {
            ECU_PAGE => Side::Ecu,
            XCP_PAGE => Side::Xcp,
            _ => return Err(Code::ModeNotValid),
        };
        if segment as usize >= self.segments.len() {
            return Err(Code::SegmentNotValid);
        }
        Ok(self.segments[segment as usize].number(side))
    }

    /// The refusals of a switch.
    fn check_switch(&self, mode: u8, segment: u8, page: u8) -> Result<(), Code>
        ensures { Checks (switch_refusal mode segment page self.now) result }
    {
        if lack_page(self.concerned(mode, segment)?, page) {
            return Err(Code::PageNotValid);
        }
        Ok(())
    }

    /// The segments that a switch concerns.
    fn concerned(&self, mode: u8, segment: u8) -> Result<&[PageSet], Code>
        ensures ok { IfOk result (λ segments. (is_switch_mode mode ≡ true) × (names_none mode segment self.now ≡ false) × (segments.now ≡ concerned mode segment self.now)) }
        ensures refused { IfErr result (λ code. first_holding ((not (is_switch_mode mode), Code.ModeNotValid) ∷ (names_none mode segment self.now, Code.SegmentNotValid) ∷ []) ≡ Some code) }
    {
        let bits = SwitchMode::of(mode).ok_or(Code::ModeNotValid)?;
        if bits.contains(SwitchMode::ALL) {
            return Ok(&self.segments);
        }
        if segment as usize >= self.segments.len() {
            return Err(Code::SegmentNotValid);
        }
        Ok(one(&self.segments, segment as usize))
    }

    /// Gives a page that is there in each segment concerned.
    fn give(&mut self, mode: u8, segment: u8, page: u8)
        requires { switch_refusal mode segment page self.old ≡ None }
        ensures { self.new ≡ pages_switched mode segment page self.old }
    {
        if SwitchMode::from_bits_retain(mode).contains(SwitchMode::ALL) {
            give_each(&mut self.segments, mode, page);
        } else {
            self.segments[segment as usize].give(mode, page);
        }
    }
}

/// Whether one of these segments has no such page.
fn lack_page(segments: &[PageSet], page: u8) -> bool
    ensures { result ≡ list_any (lacks_page page) segments.now }
{
    segments.iter().any(|s| s.count() <= page)
}

/// One segment alone.
fn one(segments: &[PageSet], segment: usize) -> &[PageSet]
    requires { segment < length segments.now }
    ensures { result.now ≡ slice_index_or segments.now segment no_pages ∷ [] }
{
    &segments[segment..segment + 1]
}

/// Gives a page in each of these segments.
fn give_each(segments: &mut [PageSet], mode: u8, page: u8)
    ensures { segments.new ≡ map (segment_switched mode page) segments.old }
{
    for segment in segments.iter_mut() {
        segment.give(mode, page);
    }
}
