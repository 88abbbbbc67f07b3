//! Reads and writes of address ranges.
ghost use Rattle.std.specs.Prelude.{◌≡◌, ◌≤◌, ◌<◌, ◌+◌, length, Option, Some, None, true, false, IfOk, OnOk, IfErr, IfSome, Err, ◌↔◌};
ghost use Rattle.xcp_packet.specs.declared.Code.{Code};
ghost use Rattle.xcp_memory.specs.ComputedAccess.{lies_inside, segment_of, bytes_by, tool_bytes, controller_bytes, write_refusal, pages_written};
ghost use Rattle.xcp_memory.specs.Memory.{Tool, Controller, LiesInside, LiesProtected, Reads};
ghost use Rattle.xcp_memory.specs.FirstRefusal.{Checks};
ghost use Rattle.xcp_memory.specs.private.RangeInSegment.{LiesOnPages, IsSpot};

use super::Pages;
use crate::page_set::{Side, cut};
use xcp_packet::Code;

impl Pages {
    ghost use Rattle.xcp_memory.specs.private.PagesBySide.{page_by};

    /// Reads the bytes that the tool has at a range, at least one. `AccessDenied` where the range
    /// does not lie in one area.
    pub fn read_xcp(&self, address: u32, out: &mut [u8]) -> Result<(), Code>
        requires some { 0 < length out.old }
        ensures ok { OnOk result ((lies_inside self.now.layout address (length out.old) ≡ true) × (out.new ≡ tool_bytes self.now address (length out.old))) }
        ensures reads { OnOk result (Reads Tool self.now address (length out.old) out.new) }
        ensures refused { IfErr result (λ code. (code ≡ Code.AccessDenied) × (lies_inside self.now.layout address (length out.old) ≡ false) × (out.new ≡ out.old)) }
    {
        self.known();
        out.copy_from_slice(self.range(Side::Xcp, address, out.len())?);
        Ok(())
    }

    /// Reads the bytes that the controller has at a range, at least one. `AccessDenied` where the
    /// range does not lie in one area.
    pub fn read_ecu(&self, address: u32, out: &mut [u8]) -> Result<(), Code>
        requires some { 0 < length out.old }
        ensures ok { OnOk result ((lies_inside self.now.layout address (length out.old) ≡ true) × (out.new ≡ controller_bytes self.now address (length out.old))) }
        ensures reads { OnOk result (Reads Controller self.now address (length out.old) out.new) }
        ensures refused { IfErr result (λ code. (code ≡ Code.AccessDenied) × (lies_inside self.now.layout address (length out.old) ≡ false) × (out.new ≡ out.old)) }
    {
        self.known();
        out.copy_from_slice(self.range(Side::Ecu, address, out.len())?);
        Ok(())
    }

    /// Whether the tool may write a range: `AccessDenied` where it does not lie in one area,
    /// `WriteProtected` at the signals and where the tool has page 0.
    pub fn may_write(&self, address: u32, n: usize) -> Result<(), Code>
        requires some { 0 < n }
        ensures refusal { Checks (write_refusal self.now address n) result }
        ensures outside { (result ≡ Err Code.AccessDenied) ↔ (LiesInside self.now.layout address n → ⊥) }
        ensures protected { (result ≡ Err Code.WriteProtected) ↔ LiesProtected self.now address n }
    {
        self.known();
        self.writable(address, n)?;
        Ok(())
    }

    /// Writes bytes to the tool's page, at least one.
    pub fn write_xcp(&mut self, address: u32, bytes: &[u8]) -> Result<(), Code>
        requires some { 0 < length bytes.now }
        ensures ok { OnOk result ((write_refusal self.old address (length bytes.now) ≡ None) × (self.new ≡ pages_written self.old address bytes.now)) }
        ensures refused { IfErr result (λ code. (write_refusal self.old address (length bytes.now) ≡ Some code) × (self.new ≡ self.old)) }
        ensures outside { (result ≡ Err Code.AccessDenied) ↔ (LiesInside self.old.layout address (length bytes.now) → ⊥) }
        ensures protected { (result ≡ Err Code.WriteProtected) ↔ LiesProtected self.old address (length bytes.now) }
    {
        self.known();
        let (segment, place) = self.writable(address, bytes.len())?;
        self.segments[segment].write(place, bytes);
        Ok(())
    }

    /// The segment in which a range lies.
    fn locate(&self, address: u32, n: usize) -> Option<usize>
        ensures value { result ≡ segment_of self.now.layout address n }
        ensures located { IfSome result (λ i. LiesOnPages self.now address n i) }
        ensures signals { length self.now.signals ≡ self.now.layout.signals_length }
    {
        let _ = &self.signals;
        self.layout.segment_of(address, n)
    }

    /// The bytes of a range as a side has them.
    pub(super) fn range(&self, side: Side, address: u32, n: usize) -> Result<&[u8], Code>
        ensures ok { IfOk result (λ bytes. (lies_inside self.now.layout address n ≡ true) × (length bytes.now ≡ n) × (bytes.now ≡ bytes_by (page_by side) (segment_of self.now.layout address n) self.now address n)) }
        ensures refused { IfErr result (λ code. (code ≡ Code.AccessDenied) × (lies_inside self.now.layout address n ≡ false)) }
    {
        if let Some(i) = self.locate(address, n) {
            let place = (address - self.layout.segment_address(i)) as usize;
            return Ok(cut(self.segments[i].page(side), place, n));
        }
        if self.layout.is_in_signals(address, n) {
            let place = (address - self.layout.signals_address()) as usize;
            return Ok(cut(&self.signals, place, n));
        }
        Err(Code::AccessDenied)
    }

    /// Where a range lies that the tool may write: the segment, and the place in its page.
    fn writable(&self, address: u32, n: usize) -> Result<(usize, usize), Code>
        ensures ok { IfOk result (λ spot. (write_refusal self.now address n ≡ None) × IsSpot self.now address n spot.0 spot.1) }
        ensures refused { IfErr result (λ code. write_refusal self.now address n ≡ Some code) }
    {
        if let Some(i) = self.locate(address, n) {
            if self.segments[i].number(Side::Xcp) == 0 {
                return Err(Code::WriteProtected);
            }
            return Ok((i, (address - self.layout.segment_address(i)) as usize));
        }
        if self.layout.is_in_signals(address, n) {
            return Err(Code::WriteProtected);
        }
        Err(Code::AccessDenied)
    }
}
