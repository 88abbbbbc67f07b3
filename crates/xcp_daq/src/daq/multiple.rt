//! WRITE_DAQ_MULTIPLE: WRITE_DAQs in turn, all or none.
ghost use Rattle.std.specs.Prelude.{◌≡◌, ◌≤◌, ◌+◌, ◌*◌, length, None, Some, Ok, OnOk, IfOk, IfErr};
ghost use Rattle.std.specs.Result.{result_err};
ghost use Rattle.xcp_packet.specs.ByteOrder.{byte_at};
ghost use Rattle.xcp_packet.specs.Rows.{first_holding};
ghost use Rattle.xcp_memory.specs.FirstRefusal.{Checks};
ghost use Rattle.xcp_daq.specs.DaqInvariant.{IsPointerOf};
ghost use Rattle.xcp_daq.specs.Configuring.{elements_in, moved_on, multiple_rows, write_daqs, write_daq_refusal, write_daq_after, write_daq_multiple_refusal, write_daq_multiple_after};

use super::Daq;
use crate::Pointer;
use crate::daq_element::DaqElement;
use crate::pools::rest;
use xcp_memory::Layout;
use xcp_packet::Code;

/// How many bytes a DAQ element has, with the dummy byte behind it.
const ELEMENT_LENGTH: usize = 8;

impl Daq {
    /// As many `write_daq`s in turn as the first byte says, with eight bytes for each: the bit offset, the size, the four bytes
    /// of the address, its extension and a dummy. `CmdSyntax` where these are not all there; `OutOfRange` at none; then what
    /// the first of them is refused with, at the lists that those before it leave. A refusal changes nothing. Bytes
    /// behind the last element are no fault.
    ///
    /// ASAM MCD-1 XCP, protocol layer, description of commands: WRITE_DAQ_MULTIPLE.
    pub fn write_daq_multiple(&mut self, layout: &Layout, bytes: &[u8]) -> Result<(), Code>
        ensures ok { OnOk result ((write_daq_multiple_refusal layout.now bytes.now self.old ≡ None) × (self.new ≡ write_daq_multiple_after layout.now bytes.now self.old)) }
        ensures refused { IfErr result (λ code. (write_daq_multiple_refusal layout.now bytes.now self.old ≡ Some code) × (self.new ≡ self.old)) }
    {
        let n = element_count(bytes)?;
        let elements = rest(bytes, 1);
        self.check_elements(layout, elements, n)?;
        self.write_elements(layout, elements, n);
        Ok(())
    }

    /// Whether so many `write_daq`s in turn would be refused: that depends on the pointer, which moves on with each, and
    /// not on what the entries hold.
    fn check_elements(&self, layout: &Layout, elements: &[u8], n: usize) -> Result<(), Code>
        requires few { n ≤ 255 }
        requires all { 8 * n ≤ length elements.now }
        ensures { Checks (result_err (write_daqs layout.now (elements_in layout.now.order n elements.now) self.now)) result }
    {
        self.known();
        let mut pointer = self.pointer;
        for k in 0..n {
            let element = DaqElement::read(rest(elements, ELEMENT_LENGTH * k), layout.order());
            pointer = self.check_next(layout, pointer, element)?;
        }
        Ok(())
    }

    /// The pointer behind a `write_daq` of the element at this pointer.
    fn check_next(
        &self,
        layout: &Layout,
        pointer: Option<Pointer>,
        element: DaqElement,
    ) -> Result<Option<Pointer>, Code>
        requires { IsPointerOf self.now pointer }
        ensures inside { IfOk result (λ next. IsPointerOf self.now next) }
        ensures ok { IfOk result (λ next. (write_daq_refusal layout.now element.offset element.size element.extension element.address (record self.now { pointer = pointer }) ≡ None) × (next ≡ (write_daq_after element.size element.address (record self.now { pointer = pointer })).pointer)) }
        ensures refused { IfErr result (λ code. write_daq_refusal layout.now element.offset element.size element.extension element.address (record self.now { pointer = pointer }) ≡ Some code) }
    {
        let at = self.check_at(layout, pointer, element)?;
        Ok(self.behind(at))
    }

    /// So many `write_daq`s in turn.
    fn write_elements(&mut self, layout: &Layout, elements: &[u8], n: usize)
        requires few { n ≤ 255 }
        requires all { 8 * n ≤ length elements.now }
        requires good { result_err (write_daqs layout.now (elements_in layout.now.order n elements.now) self.old) ≡ None }
        ensures { Ok self.new ≡ write_daqs layout.now (elements_in layout.now.order n elements.now) self.old }
    {
        for k in 0..n {
            let element = DaqElement::read(rest(elements, ELEMENT_LENGTH * k), layout.order());
            self.write_next(layout, element);
        }
    }

    fn write_next(&mut self, layout: &Layout, element: DaqElement)
        requires { write_daq_refusal layout.now element.offset element.size element.extension element.address self.old ≡ None }
        ensures { self.new ≡ write_daq_after element.size element.address self.old }
    {
        layout.known();
        if let Some(pointer) = self.pointer {
            self.write_entry(pointer, element.size, element.address);
        }
    }
}

/// How many elements there are: all of them are there, and there is one.
fn element_count(bytes: &[u8]) -> Result<usize, Code>
    ensures ok { IfOk result (λ n. (first_holding (multiple_rows bytes.now) ≡ None) × (n ≡ byte_at 0 bytes.now) × (n ≤ 255) × (1 + 8 * n ≤ length bytes.now)) }
    ensures refused { IfErr result (λ code. first_holding (multiple_rows bytes.now) ≡ Some code) }
{
    let Some(&count) = bytes.first() else {
        return Err(Code::CmdSyntax);
    };
    let n = count as usize;
    if bytes.len() < 1 + ELEMENT_LENGTH * n {
        return Err(Code::CmdSyntax);
    }
    if n == 0 {
        return Err(Code::OutOfRange);
    }
    Ok(n)
}
